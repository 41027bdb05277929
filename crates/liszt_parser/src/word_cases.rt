//! Worked cases of the words and the symbols: the canonical spelling of each is one token, with the value that was spelled. Each is
//! the contract of a function with an empty body.
#![allow(dead_code)]

ghost use Rattle.std.specs.Prelude.{◌≡◌, Some, None, [], ◌∷◌, map, codes};
ghost use Rattle.liszt_base.specs.declared.elements.Kind.TheVariants as kind;
ghost use Rattle.liszt_base.specs.declared.elements.Op.TheVariants as op;
ghost use Rattle.liszt_base.specs.declared.elements.SetName.TheVariants as set;
ghost use Rattle.liszt_lexer.specs.declared.token.TokenKind.TheVariants.{Word as IsWord};
ghost use Rattle.liszt_parser.specs.Cases.{token_of, value_of_text};
ghost use Rattle.liszt_parser.specs.Grammar.{fun_of, kind_of, mesh_set_of, set_of, sign_of, rel_of, how_of};
ghost use Rattle.liszt_parser.specs.Grammar.{field_word, var_word, val_word, if_word, else_word, while_word, for_word, print_word, mesh_word, towards_word};
ghost use Rattle.liszt_parser.specs.Grammar.{open_bracket, close_bracket, open_brace, close_brace, comma, semicolon, colon, arrow, minus, bang, set_to};
ghost use Rattle.liszt_tree.specs.Canonical.{fun_word, kind_word, mesh_set_word, set_word, sign_text, rel_text, how_text};
ghost use Rattle.liszt_tree.specs.declared.tree.Fun.TheVariants as fun;
ghost use Rattle.liszt_tree.specs.declared.tree.How.TheVariants as how;
ghost use Rattle.liszt_tree.specs.declared.tree.Level.TheVariants as level;
ghost use Rattle.liszt_tree.specs.declared.tree.Rel.TheVariants as rel;
ghost use Rattle.liszt_tree.specs.declared.tree.Sign.TheVariants as sign;

/// Functions, kinds and sets.
fn names_of_elements()
    ensures funs { map (λ f. value_of_text fun_of (fun_word f))
        (fun.Head ∷ fun.Tail ∷ fun.Inside ∷ fun.Outside ∷ fun.Flip ∷ fun.Valid ∷ fun.Id ∷ [])
        ≡ map Some (fun.Head ∷ fun.Tail ∷ fun.Inside ∷ fun.Outside ∷ fun.Flip ∷ fun.Valid ∷ fun.Id
        ∷ []) }
    ensures kinds { map (λ k. value_of_text kind_of (kind_word k))
        (kind.Vertex ∷ kind.Edge ∷ kind.Face ∷ kind.Cell ∷ [])
        ≡ map Some (kind.Vertex ∷ kind.Edge ∷ kind.Face ∷ kind.Cell ∷ []) }
    ensures of_the_mesh { map (λ k. value_of_text mesh_set_of (mesh_set_word k))
        (kind.Vertex ∷ kind.Edge ∷ kind.Face ∷ kind.Cell ∷ [])
        ≡ map Some (kind.Vertex ∷ kind.Edge ∷ kind.Face ∷ kind.Cell ∷ []) }
    ensures sets { map (λ s. value_of_text set_of (set_word s))
        (set.Vertices ∷ set.Edges ∷ set.Faces ∷ set.Cells ∷ set.EdgesCcw ∷ [])
        ≡ map Some (set.Vertices ∷ set.Edges ∷ set.Faces ∷ set.Cells ∷ set.EdgesCcw ∷ []) }
    ensures no_ccw_of_the_mesh { value_of_text mesh_set_of (codes "edges_ccw") ≡ None }
{}

/// Operators of chains by their levels, comparisons and assignments.
fn operators()
    ensures sums { map (λ s. value_of_text (sign_of level.Sum) (sign_text s))
        (sign.Plus ∷ sign.Minus ∷ sign.Times ∷ []) ≡ Some sign.Plus ∷ Some sign.Minus ∷ None ∷ [] }
    ensures products { map (λ s. value_of_text (sign_of level.Product) (sign_text s))
        (sign.Times ∷ sign.Over ∷ sign.Rest ∷ sign.Plus ∷ [])
        ≡ Some sign.Times ∷ Some sign.Over ∷ Some sign.Rest ∷ None ∷ [] }
    ensures or { map (λ s. value_of_text (sign_of level.Or) (sign_text s)) (sign.Or ∷ sign.And ∷ [])
        ≡ Some sign.Or ∷ None ∷ [] }
    ensures and { map (λ s. value_of_text (sign_of level.And) (sign_text s))
        (sign.And ∷ sign.Or ∷ []) ≡ Some sign.And ∷ None ∷ [] }
    ensures rels { map (λ r. value_of_text rel_of (rel_text r))
        (rel.Same ∷ rel.Other ∷ rel.Below ∷ rel.AtMost ∷ rel.Above ∷ rel.AtLeast ∷ [])
        ≡ map Some (rel.Same ∷ rel.Other ∷ rel.Below ∷ rel.AtMost ∷ rel.Above ∷ rel.AtLeast ∷ []) }
    ensures hows { map (λ h. value_of_text how_of (how_text h))
        (how.Set ∷ how.Less ∷ map how.Fold (op.Add ∷ op.Mul ∷ op.And ∷ op.Or ∷ op.Xor ∷ op.Min
        ∷ op.Max ∷ []))
        ≡ map Some (how.Set ∷ how.Less ∷ map how.Fold
        (op.Add ∷ op.Mul ∷ op.And ∷ op.Or ∷ op.Xor ∷ op.Min ∷ op.Max ∷ [])) }
{}

/// The other words and symbols of the grammar, and the words that are reserved without a use.
fn words_and_symbols()
    ensures words { map token_of (codes "field" ∷ codes "var" ∷ codes "val" ∷ codes "if"
        ∷ codes "else" ∷ codes "while" ∷ codes "for" ∷ codes "print" ∷ codes "mesh"
        ∷ codes "towards" ∷ [])
        ≡ map Some (field_word ∷ var_word ∷ val_word ∷ if_word ∷ else_word ∷ while_word ∷ for_word
        ∷ print_word ∷ mesh_word ∷ towards_word ∷ []) }
    ensures symbols { map token_of (codes "(" ∷ codes ")" ∷ codes "{" ∷ codes "}" ∷ codes ","
        ∷ codes ";" ∷ codes ":" ∷ codes "<-" ∷ codes "-" ∷ codes "!" ∷ codes "=" ∷ [])
        ≡ map Some (open_bracket ∷ close_bracket ∷ open_brace ∷ close_brace ∷ comma ∷ semicolon
        ∷ colon ∷ arrow ∷ minus ∷ bang ∷ set_to ∷ []) }
    ensures unused { map token_of (codes "min" ∷ codes "max" ∷ codes "def" ∷ codes "return"
        ∷ codes "boundary" ∷ [])
        ≡ map (λ place. Some (IsWord place)) (9 ∷ 10 ∷ 28 ∷ 29 ∷ 30 ∷ []) }
{}
