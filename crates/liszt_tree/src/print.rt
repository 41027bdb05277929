//! The canonical text of a program.

ghost use Rattle.std.specs.Prelude.{◌≡◌, ◌+◌, ◌++◌, codes, map, IfOk, OnOk};
ghost use Rattle.std.specs.List.{repeat};
ghost use Rattle.std.specs.Option.{option_map};
ghost use Rattle.liszt_tree.specs.Canonical.{body_text, canonical, terminated_line, declaration_text, else_text, head_text, item_text, line, main_text, spaced_text, statement_text, target_text, expression_text};
ghost use Rattle.liszt_tree.specs.Canonical as Text;
ghost use Rattle.liszt_tree.specs.Tree.{body_of, expression, item_tree, main_of, program_tree, statement_tree};

use crate::print_expression::{print_expression, print_spaced_text};
use crate::tree::{Expr, How, Item, Name, Program, Stmt};
use crate::words::{how_text, kind_word, mesh_set_word, set_word};
use liszt_base::{ByteList, Kind, NoMemory, SetName};
use std::alloc::Global;

/// Appends the blanks at the start of a line, two for each open block.
fn print_blanks(out: &mut ByteList, depth: usize) -> Result<(), NoMemory>
    ensures { OnOk result (out.new ≡ out.old ++ repeat depth (codes "  ")) }
{
    for _ in 0..depth {
        out.extend(b"  ")?;
    }
    Ok(())
}

/// The depth inside a block. A depth that is out of range is out of memory, which has no room for such a line.
fn inner_depth(depth: usize) -> Result<usize, NoMemory>
    ensures { IfOk result (λ inner. inner ≡ depth + 1) }
{
    depth.checked_add(1).ok_or(NoMemory)
}

/// Appends a line of one piece.
fn print_line(out: &mut ByteList, depth: usize, text: &[u8]) -> Result<(), NoMemory>
    ensures { OnOk result (out.new ≡ out.old ++ line depth text.now) }
{
    print_blanks(out, depth)?;
    out.extend(text)?;
    out.extend(b"\n")
}

/// Appends the initial expression of a declaration and the end of its line.
fn print_initial(out: &mut ByteList, init: &Expr) -> Result<(), NoMemory>
    ensures { OnOk result (out.new ≡ out.old ++ (codes " = "
        ++ expression_text (expression init.now) ++ codes ";\n")) }
{
    out.extend(b" = ")?;
    print_expression(out, init)?;
    out.extend(b";\n")
}

/// Appends the line of a `var` or a `val`.
fn print_declaration(
    out: &mut ByteList,
    depth: usize,
    word: &[u8],
    name: &Name,
    init: &Expr,
) -> Result<(), NoMemory>
    ensures { OnOk result (out.new ≡ out.old ++ terminated_line depth
        (declaration_text word.now name.now (expression init.now))) }
{
    print_blanks(out, depth)?;
    out.extend(word)?;
    out.extend(b" ")?;
    out.extend(name.as_slice())?;
    print_initial(out, init)
}

/// Appends the line of a field.
fn print_field(
    out: &mut ByteList,
    depth: usize,
    name: &Name,
    kind: Kind,
    init: &Expr,
) -> Result<(), NoMemory>
    ensures { OnOk result (out.new ≡ out.old
        ++ terminated_line depth (codes "field " ++ name.now ++ codes " : " ++ Text.kind_word kind
        ++ codes " = " ++ expression_text (expression init.now))) }
{
    print_blanks(out, depth)?;
    out.extend(b"field ")?;
    out.extend(name.as_slice())?;
    out.extend(b" : ")?;
    out.extend(kind_word(kind))?;
    print_initial(out, init)
}

/// Appends the target of an assignment to a field.
fn print_target(out: &mut ByteList, target: &Option<Expr>) -> Result<(), NoMemory>
    ensures { OnOk result (out.new ≡ out.old ++ target_text (option_map expression target.now)) }
{
    match target {
        None => Ok(()),
        Some(target) => {
            out.extend(b"(")?;
            print_expression(out, target)?;
            out.extend(b")")
        }
    }
}

/// Appends the operator and the value of an assignment and the end of its line.
fn print_assignment_end(out: &mut ByteList, how: How, value: &Expr) -> Result<(), NoMemory>
    ensures { OnOk result (out.new ≡ out.old ++ spaced_text (Text.how_text how)
        ++ expression_text (expression value.now) ++ codes ";\n") }
{
    print_spaced_text(out, how_text(how))?;
    print_expression(out, value)?;
    out.extend(b";\n")
}

/// Appends the line of an assignment.
fn print_assignment(
    out: &mut ByteList,
    depth: usize,
    name: &Name,
    target: &Option<Expr>,
    how: How,
    value: &Expr,
) -> Result<(), NoMemory>
    ensures { OnOk result (out.new ≡ out.old
        ++ terminated_line depth (name.now ++ target_text (option_map expression target.now)
        ++ spaced_text (Text.how_text how) ++ expression_text (expression value.now))) }
{
    print_blanks(out, depth)?;
    out.extend(name.as_slice())?;
    print_target(out, target)?;
    print_assignment_end(out, how, value)
}

/// Appends the line of a `print`.
fn print_output(out: &mut ByteList, depth: usize, value: &Expr) -> Result<(), NoMemory>
    ensures { OnOk result (out.new ≡ out.old ++ terminated_line depth
        (codes "print " ++ expression_text (expression value.now))) }
{
    print_blanks(out, depth)?;
    out.extend(b"print ")?;
    print_expression(out, value)?;
    out.extend(b";\n")
}

/// Appends the line that opens the block of an `if` or a `while`.
fn print_head(out: &mut ByteList, depth: usize, word: &[u8], test: &Expr) -> Result<(), NoMemory>
    ensures { OnOk result (out.new ≡ out.old ++ line depth
        (head_text word.now (expression test.now))) }
{
    print_blanks(out, depth)?;
    out.extend(word)?;
    out.extend(b" (")?;
    print_expression(out, test)?;
    out.extend(b") {\n")
}

/// Appends the start of the line of a `for`, up to the set.
fn print_for(out: &mut ByteList, depth: usize, name: &Name) -> Result<(), NoMemory>
    ensures { OnOk result (out.new ≡ out.old ++ (repeat depth (codes "  ")
        ++ (codes "for (" ++ name.now ++ codes " <- "))) }
{
    print_blanks(out, depth)?;
    out.extend(b"for (")?;
    out.extend(name.as_slice())?;
    out.extend(b" <- ")
}

/// Appends the line that opens the block of a loop over a set of an element.
fn print_set_head(
    out: &mut ByteList,
    depth: usize,
    name: &Name,
    set: SetName,
    arg: &Expr,
) -> Result<(), NoMemory>
    ensures { OnOk result (out.new ≡ out.old
        ++ line depth (codes "for (" ++ name.now ++ codes " <- " ++ Text.set_word set ++ codes "("
        ++ expression_text (expression arg.now) ++ codes ")) {")) }
{
    print_for(out, depth, name)?;
    out.extend(set_word(set))?;
    out.extend(b"(")?;
    print_expression(out, arg)?;
    out.extend(b")) {\n")
}

/// Appends the line that opens a comprehension.
fn print_mesh_head(
    out: &mut ByteList,
    depth: usize,
    name: &Name,
    over: Kind,
) -> Result<(), NoMemory>
    ensures { OnOk result (out.new ≡ out.old ++ line depth
        (codes "for (" ++ name.now ++ codes " <- " ++ Text.mesh_set_word over
        ++ codes "(mesh)) {")) }
{
    print_for(out, depth, name)?;
    out.extend(mesh_set_word(over))?;
    out.extend(b"(mesh)) {\n")
}

/// Appends a statement of a body.
#[cycle(statements)]
fn print_statement(out: &mut ByteList, depth: usize, statement: &Stmt) -> Result<(), NoMemory>
    ensures { OnOk result (out.new ≡ out.old ++ statement_text depth
        (statement_tree statement.now)) }
{
    match statement {
        Stmt::Var { name, init, .. } => print_declaration(out, depth, b"var", name, init),
        Stmt::Val { name, init, .. } => print_declaration(out, depth, b"val", name, init),
        Stmt::Assign {
            name,
            target,
            how,
            value,
            ..
        } => print_assignment(out, depth, name, target, *how, value),
        Stmt::If {
            test,
            yes,
            no,
            has_else,
            ..
        } => {
            print_head(out, depth, b"if", test)?;
            print_block(out, depth, yes.as_slice())?;
            print_else(out, depth, *has_else, no.as_slice())?;
            print_line(out, depth, b"}")
        }
        Stmt::While { test, body, .. } => print_while(out, depth, body.as_slice(), test),
        Stmt::For {
            name,
            set,
            arg,
            body,
            ..
        } => print_set_loop(out, depth, body.as_slice(), name, *set, arg),
    }
}

/// Appends a `while`. The body precedes the test, for the recursion descends on it.
#[cycle(statements)]
fn print_while(out: &mut ByteList, depth: usize, body: &[Stmt], test: &Expr) -> Result<(), NoMemory>
    ensures { OnOk result (out.new ≡ out.old
        ++ (line depth (head_text (codes "while") (expression test.now))
        ++ body_text (depth + 1) (body_of (map statement_tree body.now))
        ++ line depth (codes "}"))) }
{
    print_head(out, depth, b"while", test)?;
    print_block(out, depth, body)?;
    print_line(out, depth, b"}")
}

/// Appends a loop over a set of an element. The body precedes the other parts, for the recursion descends on it.
#[cycle(statements)]
fn print_set_loop(
    out: &mut ByteList,
    depth: usize,
    body: &[Stmt],
    name: &Name,
    set: SetName,
    arg: &Expr,
) -> Result<(), NoMemory>
    ensures { OnOk result (out.new ≡ out.old
        ++ (line depth (codes "for (" ++ name.now ++ codes " <- " ++ Text.set_word set ++ codes "("
        ++ expression_text (expression arg.now) ++ codes ")) {")
        ++ body_text (depth + 1) (body_of (map statement_tree body.now))
        ++ line depth (codes "}"))) }
{
    print_set_head(out, depth, name, set, arg)?;
    print_block(out, depth, body)?;
    print_line(out, depth, b"}")
}

/// Appends the statements of a block.
#[cycle(statements)]
fn print_body(out: &mut ByteList, depth: usize, body: &[Stmt]) -> Result<(), NoMemory>
    ensures { OnOk result (out.new ≡ out.old ++ body_text depth
        (body_of (map statement_tree body.now))) }
{
    for statement in body {
        print_statement(out, depth, statement)?;
    }
    Ok(())
}

/// Appends the statements of a block, one level deeper.
#[cycle(statements)]
fn print_block(out: &mut ByteList, depth: usize, body: &[Stmt]) -> Result<(), NoMemory>
    ensures { OnOk result (out.new ≡ out.old ++ body_text (depth + 1)
        (body_of (map statement_tree body.now))) }
{
    print_body(out, inner_depth(depth)?, body)
}

/// Appends the `else` of an `if`, where one was written, and its block.
#[cycle(statements)]
fn print_else(
    out: &mut ByteList,
    depth: usize,
    has_else: bool,
    body: &[Stmt],
) -> Result<(), NoMemory>
    ensures { OnOk result (out.new ≡ out.old ++ else_text depth has_else
        (body_text (depth + 1) (body_of (map statement_tree body.now)))) }
{
    if !has_else {
        return Ok(());
    }
    print_line(out, depth, b"} else {")?;
    print_block(out, depth, body)
}

/// Appends a comprehension.
fn print_comprehension(
    out: &mut ByteList,
    depth: usize,
    name: &Name,
    over: Kind,
    body: &[Stmt],
) -> Result<(), NoMemory>
    ensures { OnOk result (out.new ≡ out.old
        ++ (line depth (codes "for (" ++ name.now ++ codes " <- " ++ Text.mesh_set_word over
        ++ codes "(mesh)) {")
        ++ body_text (depth + 1) (body_of (map statement_tree body.now))
        ++ line depth (codes "}"))) }
{
    print_mesh_head(out, depth, name, over)?;
    print_block(out, depth, body)?;
    print_line(out, depth, b"}")
}

/// Appends an item of the main program.
#[cycle(items)]
fn print_item(out: &mut ByteList, depth: usize, item: &Item) -> Result<(), NoMemory>
    ensures { OnOk result (out.new ≡ out.old ++ item_text depth (item_tree item.now)) }
{
    match item {
        Item::Field {
            name,
            kind,
            init,
            ..
        } => print_field(out, depth, name, *kind, init),
        Item::Var { name, init, .. } => print_declaration(out, depth, b"var", name, init),
        Item::Assign {
            name,
            how,
            value,
            ..
        } => print_assignment(out, depth, name, &None, *how, value),
        Item::If {
            test,
            yes,
            no,
            has_else,
            ..
        } => {
            print_head(out, depth, b"if", test)?;
            print_main_block(out, depth, yes.as_slice())?;
            print_main_else(out, depth, *has_else, no.as_slice())?;
            print_line(out, depth, b"}")
        }
        Item::While { test, body, .. } => print_main_while(out, depth, body.as_slice(), test),
        Item::For {
            name,
            over,
            body,
            ..
        } => print_comprehension(out, depth, name, *over, body.as_slice()),
        Item::Print { value, .. } => print_output(out, depth, value),
    }
}

/// Appends a `while` of the main program. The body precedes the test, for the recursion descends on it.
#[cycle(items)]
fn print_main_while(
    out: &mut ByteList,
    depth: usize,
    body: &[Item],
    test: &Expr,
) -> Result<(), NoMemory>
    ensures { OnOk result (out.new ≡ out.old
        ++ (line depth (head_text (codes "while") (expression test.now))
        ++ main_text (depth + 1) (main_of (map item_tree body.now)) ++ line depth (codes "}"))) }
{
    print_head(out, depth, b"while", test)?;
    print_main_block(out, depth, body)?;
    print_line(out, depth, b"}")
}

/// Appends the items of the main program, or of a block in it.
#[cycle(items)]
fn print_main(out: &mut ByteList, depth: usize, items: &[Item]) -> Result<(), NoMemory>
    ensures { OnOk result (out.new ≡ out.old ++ main_text depth
        (main_of (map item_tree items.now))) }
{
    for item in items {
        print_item(out, depth, item)?;
    }
    Ok(())
}

/// Appends the items of a block, one level deeper.
#[cycle(items)]
fn print_main_block(out: &mut ByteList, depth: usize, items: &[Item]) -> Result<(), NoMemory>
    ensures { OnOk result (out.new ≡ out.old ++ main_text (depth + 1)
        (main_of (map item_tree items.now))) }
{
    print_main(out, inner_depth(depth)?, items)
}

/// Appends the `else` of an `if`, where one was written, and its block.
#[cycle(items)]
fn print_main_else(
    out: &mut ByteList,
    depth: usize,
    has_else: bool,
    items: &[Item],
) -> Result<(), NoMemory>
    ensures { OnOk result (out.new ≡ out.old ++ else_text depth has_else
        (main_text (depth + 1) (main_of (map item_tree items.now)))) }
{
    if !has_else {
        return Ok(());
    }
    print_line(out, depth, b"} else {")?;
    print_main_block(out, depth, items)
}

/// The canonical text of a program: one statement on each line, two blanks for each open block, brackets only where the levels of
/// operators require them.
pub fn print_tree(alloc: Global, p: &Program) -> Result<ByteList, NoMemory>
    ensures { IfOk result (λ text. text ≡ canonical (program_tree p.now)) }
{
    let mut out = ByteList::new(alloc);
    print_main(&mut out, 0, p.items.as_slice())?;
    Ok(out)
}
