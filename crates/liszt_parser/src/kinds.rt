//! The words and the symbols of the grammar, by their indices in the lists of the lexer, and their values.

ghost use Rattle.std.specs.Prelude.{◌≡◌};
ghost use Rattle.liszt_parser.specs.Grammar as Grammar;
ghost use Rattle.liszt_parser.specs.Internal.Productions as Productions;

use liszt_base::{Kind, Op, SetName};
use liszt_lexer::TokenKind;
use liszt_tree::{Fun, How, Level, Rel, Sign};

pub(crate) const OPEN_BRACKET: TokenKind = TokenKind::Symbol(0);

pub(crate) const CLOSE_BRACKET: TokenKind = TokenKind::Symbol(1);

pub(crate) const OPEN_BRACE: TokenKind = TokenKind::Symbol(2);

pub(crate) const CLOSE_BRACE: TokenKind = TokenKind::Symbol(3);

pub(crate) const COMMA: TokenKind = TokenKind::Symbol(4);

pub(crate) const SEMICOLON: TokenKind = TokenKind::Symbol(5);

pub(crate) const COLON: TokenKind = TokenKind::Symbol(6);

pub(crate) const ARROW: TokenKind = TokenKind::Symbol(7);

pub(crate) const MINUS: TokenKind = TokenKind::Symbol(17);

pub(crate) const BANG: TokenKind = TokenKind::Symbol(21);

pub(crate) const SET_TO: TokenKind = TokenKind::Symbol(22);

pub(crate) const FIELD: TokenKind = TokenKind::Word(0);

pub(crate) const VAR: TokenKind = TokenKind::Word(1);

pub(crate) const VAL: TokenKind = TokenKind::Word(2);

pub(crate) const IF: TokenKind = TokenKind::Word(3);

pub(crate) const ELSE: TokenKind = TokenKind::Word(4);

pub(crate) const WHILE: TokenKind = TokenKind::Word(5);

pub(crate) const FOR: TokenKind = TokenKind::Word(6);

pub(crate) const PRINT: TokenKind = TokenKind::Word(7);

pub(crate) const MESH: TokenKind = TokenKind::Word(8);

pub(crate) const TOWARDS: TokenKind = TokenKind::Word(20);

/// The function of an element that a word names.
pub(crate) fn fun_of(kind: TokenKind) -> Option<Fun>
    ensures { result ≡ Grammar.fun_of kind }
{
    match kind {
        TokenKind::Word(15) => Some(Fun::Head),
        TokenKind::Word(16) => Some(Fun::Tail),
        TokenKind::Word(17) => Some(Fun::Inside),
        TokenKind::Word(18) => Some(Fun::Outside),
        TokenKind::Word(19) => Some(Fun::Flip),
        TokenKind::Word(26) => Some(Fun::Valid),
        TokenKind::Word(27) => Some(Fun::Id),
        _ => None,
    }
}

/// The kind that a word names.
pub(crate) fn kind_of(kind: TokenKind) -> Option<Kind>
    ensures { result ≡ Grammar.kind_of kind }
{
    match kind {
        TokenKind::Word(11) => Some(Kind::Vertex),
        TokenKind::Word(12) => Some(Kind::Edge),
        TokenKind::Word(13) => Some(Kind::Face),
        TokenKind::Word(14) => Some(Kind::Cell),
        _ => None,
    }
}

/// The kind of the set of a mesh that a word names.
pub(crate) fn mesh_set_of(kind: TokenKind) -> Option<Kind>
    ensures { result ≡ Grammar.mesh_set_of kind }
{
    match kind {
        TokenKind::Word(21) => Some(Kind::Vertex),
        TokenKind::Word(22) => Some(Kind::Edge),
        TokenKind::Word(23) => Some(Kind::Face),
        TokenKind::Word(24) => Some(Kind::Cell),
        _ => None,
    }
}

/// The set of an element that a word names.
pub(crate) fn set_of(kind: TokenKind) -> Option<SetName>
    ensures { result ≡ Grammar.set_of kind }
{
    match kind {
        TokenKind::Word(21) => Some(SetName::Vertices),
        TokenKind::Word(22) => Some(SetName::Edges),
        TokenKind::Word(23) => Some(SetName::Faces),
        TokenKind::Word(24) => Some(SetName::Cells),
        TokenKind::Word(25) => Some(SetName::EdgesCcw),
        _ => None,
    }
}

/// The operator of a level that a symbol denotes.
pub(crate) fn sign_of(level: Level, kind: TokenKind) -> Option<Sign>
    ensures { result ≡ Grammar.sign_of level kind }
{
    match (level, kind) {
        (Level::Or, TokenKind::Symbol(15)) => Some(Sign::Or),
        (Level::And, TokenKind::Symbol(14)) => Some(Sign::And),
        (Level::Sum, TokenKind::Symbol(16)) => Some(Sign::Plus),
        (Level::Sum, TokenKind::Symbol(17)) => Some(Sign::Minus),
        (Level::Product, TokenKind::Symbol(18)) => Some(Sign::Times),
        (Level::Product, TokenKind::Symbol(19)) => Some(Sign::Over),
        (Level::Product, TokenKind::Symbol(20)) => Some(Sign::Rest),
        _ => None,
    }
}

/// The comparison operator that a symbol denotes.
pub(crate) fn rel_of(kind: TokenKind) -> Option<Rel>
    ensures { result ≡ Grammar.rel_of kind }
{
    match kind {
        TokenKind::Symbol(8) => Some(Rel::Same),
        TokenKind::Symbol(9) => Some(Rel::Other),
        TokenKind::Symbol(10) => Some(Rel::AtMost),
        TokenKind::Symbol(11) => Some(Rel::AtLeast),
        TokenKind::Symbol(12) => Some(Rel::Below),
        TokenKind::Symbol(13) => Some(Rel::Above),
        _ => None,
    }
}

/// The assignment operator that a symbol, `min=` or `max=` denotes.
pub(crate) fn how_of(kind: TokenKind) -> Option<How>
    ensures { result ≡ Grammar.how_of kind }
{
    match kind {
        TokenKind::MinSet => Some(How::Fold(Op::Min)),
        TokenKind::MaxSet => Some(How::Fold(Op::Max)),
        TokenKind::Symbol(22) => Some(How::Set),
        TokenKind::Symbol(23) => Some(How::Fold(Op::Add)),
        TokenKind::Symbol(24) => Some(How::Less),
        TokenKind::Symbol(25) => Some(How::Fold(Op::Mul)),
        TokenKind::Symbol(26) => Some(How::Fold(Op::And)),
        TokenKind::Symbol(27) => Some(How::Fold(Op::Or)),
        TokenKind::Symbol(28) => Some(How::Fold(Op::Xor)),
        _ => None,
    }
}

/// The value of a number token.
pub(crate) fn number_of(kind: TokenKind) -> Option<i64>
    ensures { result ≡ Productions.number_of kind }
{
    match kind {
        TokenKind::Number(value) => Some(value),
        _ => None,
    }
}
