//! The words and signs of the language, as the canonical text has them.

ghost use Rattle.std.specs.Prelude.{◌≡◌};
ghost use Rattle.liszt_tree.specs.Canonical as Text;

use crate::tree::{Fun, How, Level, Rel, Sign};
use liszt_base::{Kind, Op, SetName};

/// The word of a kind.
pub fn kind_word(kind: Kind) -> &'static [u8]
    ensures { result.now ≡ Text.kind_word kind }
{
    match kind {
        Kind::Vertex => b"Vertex",
        Kind::Edge => b"Edge",
        Kind::Face => b"Face",
        Kind::Cell => b"Cell",
    }
}

/// The word of the set of all elements of a kind.
pub fn mesh_set_word(kind: Kind) -> &'static [u8]
    ensures { result.now ≡ Text.mesh_set_word kind }
{
    match kind {
        Kind::Vertex => b"vertices",
        Kind::Edge => b"edges",
        Kind::Face => b"faces",
        Kind::Cell => b"cells",
    }
}

/// The word of a set of an element.
pub fn set_word(set: SetName) -> &'static [u8]
    ensures { result.now ≡ Text.set_word set }
{
    match set {
        SetName::Vertices => b"vertices",
        SetName::Edges => b"edges",
        SetName::Faces => b"faces",
        SetName::Cells => b"cells",
        SetName::EdgesCcw => b"edges_ccw",
    }
}

/// The word of a function.
pub fn fun_word(fun: Fun) -> &'static [u8]
    ensures { result.now ≡ Text.fun_word fun }
{
    match fun {
        Fun::Head => b"head",
        Fun::Tail => b"tail",
        Fun::Inside => b"inside",
        Fun::Outside => b"outside",
        Fun::Flip => b"flip",
        Fun::Valid => b"valid",
        Fun::Id => b"ID",
    }
}

/// The sign of an assignment.
pub fn how_text(how: How) -> &'static [u8]
    ensures { result.now ≡ Text.how_text how }
{
    match how {
        How::Set => b"=",
        How::Less => b"-=",
        How::Fold(Op::Add) => b"+=",
        How::Fold(Op::Mul) => b"*=",
        How::Fold(Op::And) => b"&=",
        How::Fold(Op::Or) => b"|=",
        How::Fold(Op::Xor) => b"^=",
        How::Fold(Op::Min) => b"min=",
        How::Fold(Op::Max) => b"max=",
    }
}

/// The sign of an operator of a chain.
pub fn sign_text(sign: Sign) -> &'static [u8]
    ensures { result.now ≡ Text.sign_text sign }
{
    match sign {
        Sign::Or => b"||",
        Sign::And => b"&&",
        Sign::Plus => b"+",
        Sign::Minus => b"-",
        Sign::Times => b"*",
        Sign::Over => b"/",
        Sign::Rest => b"%",
    }
}

/// The sign of a comparison.
pub fn rel_text(rel: Rel) -> &'static [u8]
    ensures { result.now ≡ Text.rel_text rel }
{
    match rel {
        Rel::Same => b"==",
        Rel::Other => b"!=",
        Rel::Below => b"<",
        Rel::AtMost => b"<=",
        Rel::Above => b">",
        Rel::AtLeast => b">=",
    }
}

/// The level of a chain.
pub fn chain_level(level: Level) -> u8
    ensures { result ≡ Text.chain_level level }
{
    match level {
        Level::Or => 1,
        Level::And => 2,
        Level::Sum => 4,
        Level::Product => 5,
    }
}
