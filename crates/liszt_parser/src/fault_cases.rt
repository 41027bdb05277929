//! Worked cases of the grammar's faults, proved by the checker. Each is the contract of a function with an empty body.
#![allow(dead_code)]

ghost use Rattle.std.specs.Prelude.{None, [], ◌+◌};
ghost use Rattle.liszt_parser.specs.CaseTexts.{HasFault, syntax_at, deep_at, print_in_for, mesh_in_for, no_semicolon, two_prints};
ghost use Rattle.liszt_parser.specs.CaseTexts.{only_print, minus_bracket, plain_set, two_below, opened, nested, brace_in};
ghost use Rattle.liszt_base.specs.Limits.{depth_limit};
ghost use Rattle.liszt_parser.specs.Grammar.{Derives};
ghost use Rattle.liszt_tree.specs.Tree.{no_item};

/// The empty text is the empty program.
fn empty_text()
    ensures no_fault { HasFault [] None }
    ensures tree { Derives [] no_item }
{}

/// A comprehension has no `print`.
fn print_in_a_body()
    ensures at_print { HasFault print_in_for (syntax_at 1 26) }
{}

/// A `for` in a body is over the set of an element, not over the mesh.
fn mesh_in_a_body()
    ensures at_mesh { HasFault mesh_in_for (syntax_at 1 45) }
{}

/// An `else` follows a block only.
fn else_in_a_block()
    ensures at_else { HasFault no_semicolon (syntax_at 1 20) }
{}

/// The first open bracket past the limit is Deep, the one before it is not; a token there that continues no program is Syntax.
fn open_brackets()
    ensures deep { HasFault (opened (depth_limit + 1)) (deep_at 1 71) }
    ensures fits { HasFault (nested depth_limit) None }
    ensures syntax_first { HasFault (brace_in depth_limit) (syntax_at 1 71) }
{}

/// A statement ends with `;` where another one follows; a part that is missing at the end of the text is reported there.
fn statements_end()
    ensures at_print { HasFault two_prints (syntax_at 1 9) }
    ensures at_end { HasFault only_print (syntax_at 1 6) }
{}

/// An operator before brackets, and an assignment, with no `;` before the end.
fn no_faults()
    ensures minus { HasFault minus_bracket None }
    ensures assignment { HasFault plain_set None }
{}

/// A comparison is not an operand of a comparison.
fn comparisons()
    ensures at_below { HasFault two_below (syntax_at 1 13) }
{}
