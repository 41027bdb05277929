//! Laws of the definitions, each the contract of a function with an empty body.

ghost use Rattle.std.specs.Prelude.{◌≡◌, ◌↔◌, ℕ, ◌≤◌, List, Option, None, Ok, Err, length};
ghost use Rattle.liszt_base.specs.declared.answers.Place.{Place};
ghost use Rattle.liszt_base.specs.declared.answers.ProgramFault.{ProgramFault};
ghost use Rattle.liszt_base.specs.declared.answers.ProgramWhat.TheVariants.{Big};
ghost use Rattle.liszt_lexer.specs.Lexer.{tokens_of};
ghost use Rattle.liszt_lexer.specs.declared.token.Token.{Token};
ghost use Rattle.liszt_parser.specs.Grammar.{Lexeme, lexemes, Derives};
ghost use Rattle.liszt_parser.specs.ParseFault.{IsParseFault, IsShallow};
ghost use Rattle.liszt_tree.specs.Canonical.{canonical};
ghost use Rattle.liszt_tree.specs.Tree.{Main, Same, main_nodes};

/// Tokens have at most one tree.
pub fn one_tree()
    ensures { (ts : List Lexeme) (tree other : Main) → Derives ts tree → Derives ts other
        → tree ≡ other }
{}

/// A tree has no more nodes than there are tokens.
pub fn few_nodes()
    ensures { (ts : List Lexeme) (tree : Main) → Derives ts tree → main_nodes tree ≤ length ts }
{}

/// Tokens have at most one fault, and none exactly where they have a tree and are nowhere deeper than the limit.
pub fn one_fault()
    ensures unique { (ts : List Lexeme) (ending : Place) (fault other : Option ProgramFault)
        → IsParseFault ts ending fault → IsParseFault ts ending other → fault ≡ other }
    ensures none { (ts : List Lexeme) (ending : Place)
        → IsParseFault ts ending None ↔ ((tree : Main) × Derives ts tree
        × IsShallow ts (length ts)) }
{}

/// The canonical text of a tree that the tokens of a text derive reads back: its tokens derive the tree, up to places; it has
/// tokens unless they are too many; and it is nowhere deeper than the limit where the first text is not.
pub fn canonical_reads_back()
    ensures derives { (text : List ℕ) (tokens : List Token) (tree : Main)
        → tokens_of text ≡ Ok tokens → Derives (lexemes text tokens) tree
        → (tokens' : List Token) → tokens_of (canonical tree) ≡ Ok tokens'
        → (tree' : Main) × Derives (lexemes (canonical tree) tokens') tree' × Same tree' tree }
    ensures fails_big_only { (text : List ℕ) (tokens : List Token) (tree : Main)
        → tokens_of text ≡ Ok tokens → Derives (lexemes text tokens) tree
        → (fault : ProgramFault) → tokens_of (canonical tree) ≡ Err fault → fault.what ≡ Big }
    ensures no_deeper { (text : List ℕ) (tokens : List Token) (tree : Main)
        → tokens_of text ≡ Ok tokens → Derives (lexemes text tokens) tree
        → IsShallow (lexemes text tokens) (length (lexemes text tokens)) → (tokens' : List Token)
        → tokens_of (canonical tree) ≡ Ok tokens'
        → IsShallow (lexemes (canonical tree) tokens') (length (lexemes (canonical tree) tokens')) }
{}

/// Tokens have a fault, or none: there is always one answer.
pub fn some_fault()
    ensures { (ts : List Lexeme) (ending : Place) → (fault : Option ProgramFault)
        × IsParseFault ts ending fault }
{}
