ghost use Rattle.std.specs.Prelude.{◌≡◌};

use crate::elements::Elem;
use std::alloc::{AllocError, AllocFailed};

/// Memory was refused.
#[derive(Clone, Copy, Debug, PartialEq, Eq)]
pub struct NoMemory;

impl From<AllocError> for NoMemory {
    fn from(_: AllocError) -> NoMemory {
        NoMemory
    }
}

impl<T: Drop> From<AllocFailed<T>> for NoMemory {
    fn from(_: AllocFailed<T>) -> NoMemory {
        NoMemory
    }
}

/// Why a call that takes memory gave no value: a fault of its input, or out of memory.
#[derive(Debug, Drop)]
pub enum Refused<F> {
    Fault(F),
    NoMemory,
}

impl<F> From<NoMemory> for Refused<F> {
    ghost use Rattle.std.specs.Prelude.{◌≡◌};
    ghost use Rattle.liszt_base.specs.declared.answers.Refused.TheVariants.{NoMemory as OutOfMemory};

    ghost from_gives = { λ _ refused. refused ≡ OutOfMemory };

    fn from(_: NoMemory) -> Refused<F> {
        Refused::NoMemory
    }
}

/// The files that a command names.
#[derive(Clone, Copy, Debug, PartialEq, Eq)]
pub enum Input {
    Program,
    Node,
    Ele,
}

/// The two files of a mesh in TetGen's form.
#[derive(Clone, Copy, Debug, PartialEq, Eq)]
pub enum MeshFile {
    Node,
    Ele,
}

/// What is wrong with a mesh's two files, as `docs/MESH-TEXT.md` says of each.
#[derive(Clone, Copy, Debug, PartialEq, Eq)]
pub enum MeshWhat {
    Header,
    BadNumber,
    CoordRange,
    Dimension,
    SecondOrder,
    NumberOrder,
    Missing,
    Extra,
    CornerRange,
    CornerTwice,
    CellTwice,
    FaceShared,
    TooMany,
}

/// A fault of a mesh's two files: the file, the line, from 1 (0 in an empty file), and for `TooMany` the count that the
/// header names, else 0.
#[derive(Clone, Copy, Debug, PartialEq, Eq)]
pub struct MeshFault {
    pub file: MeshFile,
    pub line: u32,
    pub what: MeshWhat,
    pub number: i64,
}

/// What is wrong with a parts file, as `docs/MESH-TEXT.md` says of each.
#[derive(Clone, Copy, Debug, PartialEq, Eq)]
pub enum PartsWhat {
    BadNumber,
    Count,
    RankRange,
}

/// A fault of a parts file: what, and the line, from 1 (0 in an empty file).
#[derive(Clone, Copy, Debug, PartialEq, Eq)]
pub struct PartsFault {
    pub what: PartsWhat,
    pub line: u32,
}

/// What has a limit: the bytes of a file, the points and cells that a header names, the tokens of a program, the
/// visits and entries of a comprehension's stencils, by its number, the words of all declared fields, and the
/// numbers that are kept for the comprehensions up to the one with this number.
#[derive(Clone, Copy, Debug, PartialEq, Eq)]
pub enum LimitWhat {
    File(Input),
    Points,
    Cells,
    Tokens,
    Visits(u32),
    Entries(u32),
    Words,
    Kept(u32),
}

/// Something past its limit: how many are allowed, and how many there are. Of bytes, tokens, visits, entries and
/// kept numbers there are at least one more than allowed, and that is the number then.
#[derive(Clone, Copy, Debug, PartialEq, Eq)]
pub struct LimitFault {
    pub what: LimitWhat,
    pub allowed: u64,
    pub found: u64,
}

/// A place in a program's text: its line and its byte in that line, both from 1. LF alone ends a line.
#[derive(Clone, Copy, Debug, PartialEq, Eq)]
pub struct Place {
    pub line: u32,
    pub col: u32,
}

/// What is wrong with a program, as `docs/LANGUAGE.md` says of each.
#[derive(Clone, Copy, Debug, PartialEq, Eq)]
pub enum ProgramWhat {
    BadByte,
    LongNumber,
    LongName,
    Big,
    Syntax,
    Deep,
    NameUnknown,
    NameTwice,
    TypeMismatch,
    PhaseConflict,
    ScalarWrite,
    BuiltinWrite,
}

/// A fault of a program: what, where, and for `PhaseConflict` the place of the first access.
#[derive(Clone, Copy, Debug, PartialEq, Eq)]
pub struct ProgramFault {
    pub what: ProgramWhat,
    pub place: Place,
    pub first: Option<Place>,
}

/// Why a program stops while it runs, as `docs/LANGUAGE.md` says of each.
#[derive(Clone, Copy, Debug, PartialEq, Eq)]
pub enum TrapKind {
    Overflow,
    ZeroDivide,
    NilElement,
    Spent,
    Prints,
}

/// Where a program stops: why, at which place of its text, and the element of the iteration, or `None` in the main program.
#[derive(Clone, Copy, Debug, PartialEq, Eq)]
pub struct Trap {
    pub kind: TrapKind,
    pub place: Place,
    pub elem: Option<Elem>,
}

/// How a run ends.
#[derive(Clone, Copy, Debug, PartialEq, Eq)]
pub enum RunEnd {
    Done,
    Trap(Trap),
}
