ghost use Rattle.std.specs.Prelude.{◌≡◌};
ghost use Rattle.liszt_report.specs.Endings.{status, program_ending as ProgramEnding, mesh_ending as MeshEnding, too_long};

use liszt_base::{
    CELL_LIMIT, FILE_LIMIT, Input, LimitFault, LimitWhat, MeshFault, MeshFile, MeshWhat, NoMemory,
    POINT_LIMIT, ProgramFault, ProgramWhat, Refused, TOKEN_LIMIT, Trap,
};

/// How a run ends.
#[derive(Clone, Copy, Debug, PartialEq, Eq)]
pub enum Ended {
    /// The command ran, and its text was written.
    Done,
    /// The words name no command.
    Usage,
    /// The program has this fault.
    Program(ProgramFault),
    /// The mesh has this fault.
    Mesh(MeshFault),
    /// Something exceeds its limit.
    Limit(LimitFault),
    /// The program stopped while it ran.
    Trap(Trap),
    /// This file could not be read.
    ReadFault(Input),
    /// The text could not be written whole.
    WriteFault,
    /// Memory was refused.
    NoMemory,
}

impl From<NoMemory> for Ended {
    ghost use Rattle.std.specs.Prelude.{◌≡◌};
    ghost use Rattle.liszt_report.specs.declared.ended.Ended.TheVariants.{NoMemory as OutOfMemory};

    ghost from_gives = { λ _ ended. ended ≡ OutOfMemory };

    fn from(_: NoMemory) -> Ended {
        Ended::NoMemory
    }
}

impl From<Refused<ProgramFault>> for Ended {
    ghost use Rattle.std.specs.Prelude.{◌≡◌};
    ghost use Rattle.liszt_report.specs.Endings.{ending_of, program_ending};

    ghost from_gives = { λ refused ended. ended ≡ ending_of program_ending refused };

    fn from(refused: Refused<ProgramFault>) -> Ended {
        match refused {
            Refused::Fault(fault) => program_ending(fault),
            Refused::NoMemory => Ended::NoMemory,
        }
    }
}

impl From<Refused<MeshFault>> for Ended {
    ghost use Rattle.std.specs.Prelude.{◌≡◌};
    ghost use Rattle.liszt_report.specs.Endings.{ending_of, mesh_ending};

    ghost from_gives = { λ refused ended. ended ≡ ending_of mesh_ending refused };

    fn from(refused: Refused<MeshFault>) -> Ended {
        match refused {
            Refused::Fault(fault) => mesh_ending(fault),
            Refused::NoMemory => Ended::NoMemory,
        }
    }
}

impl Ended {
    /// The ending for a file of more than `FILE_LIMIT` bytes.
    pub fn too_long(input: Input) -> Ended
        ensures { result ≡ too_long input }
    {
        Ended::Limit(LimitFault {
            what: LimitWhat::File(input),
            allowed: FILE_LIMIT as u64,
            found: FILE_LIMIT as u64 + 1,
        })
    }
}

/// The exit status of an ending, from 0 to 10.
pub fn status_of(ended: Ended) -> u8
    ensures { result ≡ status ended }
{
    match ended {
        Ended::Done => 0,
        Ended::Usage => 1,
        Ended::Program(_) => 2,
        Ended::Mesh(_) => 3,
        Ended::Limit(_) => 6,
        Ended::Trap(_) => 7,
        Ended::ReadFault(_) => 8,
        Ended::WriteFault => 9,
        Ended::NoMemory => 10,
    }
}

/// The ending for a program's fault. Too many tokens are a limit.
fn program_ending(fault: ProgramFault) -> Ended
    ensures { result ≡ ProgramEnding fault }
{
    if fault.what != ProgramWhat::Big {
        return Ended::Program(fault);
    }
    Ended::Limit(LimitFault {
        what: LimitWhat::Tokens,
        allowed: TOKEN_LIMIT as u64,
        found: TOKEN_LIMIT as u64 + 1,
    })
}

/// The ending for a mesh's fault. A count that exceeds its limit is a limit.
fn mesh_ending(fault: MeshFault) -> Ended
    ensures { result ≡ MeshEnding fault }
{
    if fault.what != MeshWhat::TooMany {
        return Ended::Mesh(fault);
    }
    let (what, allowed) = match fault.file {
        MeshFile::Node => (LimitWhat::Points, POINT_LIMIT),
        MeshFile::Ele => (LimitWhat::Cells, CELL_LIMIT),
    };
    Ended::Limit(LimitFault {
        what,
        allowed: u64::from(allowed),
        found: fault.number.unsigned_abs(),
    })
}
