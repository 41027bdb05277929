ghost use Rattle.std.specs.Prelude.{◌≡◌, ◌≤◌, length};
ghost use Rattle.liszt_report.specs.Endings.{mesh_file_word as MeshFileWord, input_word as InputWord, program_word as ProgramWord, mesh_word as MeshWord, kind_word as KindWord, trap_word as TrapWord};
ghost use Rattle.liszt_report.specs.Texts.{op_word as OpWord, mode_word as ModeWord};

use liszt_base::{Input, Kind, MeshFile, MeshWhat, Mode, Op, ProgramWhat, TrapKind};

/// The word for a file of a mesh.
pub fn mesh_file_word(file: MeshFile) -> &'static [u8]
    ensures word { result.now ≡ MeshFileWord file }
    ensures short { length result.now ≤ 4 }
{
    match file {
        MeshFile::Node => b"node",
        MeshFile::Ele => b"ele",
    }
}

/// The word for an input.
pub fn input_word(input: Input) -> &'static [u8]
    ensures word { result.now ≡ InputWord input }
    ensures short { length result.now ≤ 7 }
{
    match input {
        Input::Program => b"program",
        Input::Node => b"node",
        Input::Ele => b"ele",
    }
}

/// The word for a kind of fault in a program.
pub fn program_word(what: ProgramWhat) -> &'static [u8]
    ensures word { result.now ≡ ProgramWord what }
    ensures short { length result.now ≤ 13 }
{
    match what {
        ProgramWhat::BadByte => b"BadByte",
        ProgramWhat::LongNumber => b"LongNumber",
        ProgramWhat::LongName => b"LongName",
        ProgramWhat::Big => b"Big",
        ProgramWhat::Syntax => b"Syntax",
        ProgramWhat::Deep => b"Deep",
        ProgramWhat::NameUnknown => b"NameUnknown",
        ProgramWhat::NameTwice => b"NameTwice",
        ProgramWhat::TypeMismatch => b"TypeMismatch",
        ProgramWhat::PhaseConflict => b"PhaseConflict",
        ProgramWhat::ScalarWrite => b"ScalarWrite",
        ProgramWhat::BuiltinWrite => b"BuiltinWrite",
    }
}

/// The word for a kind of fault in a mesh.
pub fn mesh_word(what: MeshWhat) -> &'static [u8]
    ensures word { result.now ≡ MeshWord what }
    ensures short { length result.now ≤ 11 }
{
    match what {
        MeshWhat::Header => b"Header",
        MeshWhat::BadNumber => b"BadNumber",
        MeshWhat::CoordRange => b"CoordRange",
        MeshWhat::Dimension => b"Dimension",
        MeshWhat::SecondOrder => b"SecondOrder",
        MeshWhat::NumberOrder => b"NumberOrder",
        MeshWhat::Missing => b"Missing",
        MeshWhat::Extra => b"Extra",
        MeshWhat::CornerRange => b"CornerRange",
        MeshWhat::CornerTwice => b"CornerTwice",
        MeshWhat::CellTwice => b"CellTwice",
        MeshWhat::FaceShared => b"FaceShared",
        MeshWhat::TooMany => b"TooMany",
    }
}

/// The word for a kind of elements.
pub fn kind_word(kind: Kind) -> &'static [u8]
    ensures word { result.now ≡ KindWord kind }
    ensures short { length result.now ≤ 6 }
{
    match kind {
        Kind::Vertex => b"vertex",
        Kind::Edge => b"edge",
        Kind::Face => b"face",
        Kind::Cell => b"cell",
    }
}

/// The word for a kind of trap.
pub fn trap_word(kind: TrapKind) -> &'static [u8]
    ensures word { result.now ≡ TrapWord kind }
    ensures short { length result.now ≤ 10 }
{
    match kind {
        TrapKind::Overflow => b"Overflow",
        TrapKind::ZeroDivide => b"ZeroDivide",
        TrapKind::NilElement => b"NilElement",
        TrapKind::Spent => b"Spent",
        TrapKind::Prints => b"Prints",
    }
}

/// The word for an operator.
fn op_word(op: Op) -> &'static [u8]
    ensures word { result.now ≡ OpWord op }
    ensures short { length result.now ≤ 5 }
{
    match op {
        Op::Add => b"add",
        Op::Mul => b"mul",
        Op::And => b"and",
        Op::Or => b"or",
        Op::Xor => b"xor",
        Op::Min => b"min",
        Op::Max => b"max",
    }
}

/// The word for a mode.
pub fn mode_word(mode: Mode) -> &'static [u8]
    ensures word { result.now ≡ ModeWord mode }
    ensures short { length result.now ≤ 5 }
{
    match mode {
        Mode::Read => b"read",
        Mode::Write => b"write",
        Mode::Reduce(op) => op_word(op),
    }
}
