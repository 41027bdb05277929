//! Which types threads may share, and move between one another.

ghost use Rattle.std.specs.Prelude.{◌≡◌};

use crate::accesses::{Access, Mode, Spot};
use crate::answers::{
    Input, LimitFault, LimitWhat, MeshFault, MeshFile, MeshWhat, NoMemory, PartsFault, PartsWhat,
    Place, ProgramFault, ProgramWhat, Refused, RunEnd, Trap, TrapKind,
};
use crate::elements::{Elem, Kind, Op, SetName};
use crate::gate::OpenGate;
use crate::mesh::{CellList, Point, PointList, PointTable, RawCell, RawMesh};
use crate::plain_list::ByteList;
use crate::plain_lists::PlainLists;
use crate::word_list::WordList;

/// One, for a type that may be shared.
fn shared<T: Send + Sync>() -> usize
    ensures { result ≡ 1 }
{
    1
}

/// The number of types of this crate, each of which may be shared.
#[allow(dead_code)]
fn shared_types() -> usize
    ensures { result ≡ 33 }
{
    shared::<Input>()
        + shared::<MeshFile>()
        + shared::<MeshWhat>()
        + shared::<MeshFault>()
        + shared::<PartsWhat>()
        + shared::<PartsFault>()
        + shared::<LimitWhat>()
        + shared::<LimitFault>()
        + shared::<Place>()
        + shared::<ProgramWhat>()
        + shared::<ProgramFault>()
        + shared::<TrapKind>()
        + shared::<Trap>()
        + shared::<RunEnd>()
        + shared::<Op>()
        + shared::<Mode>()
        + shared::<Spot>()
        + shared::<Access>()
        + shared::<Kind>()
        + shared::<Elem>()
        + shared::<SetName>()
        + shared::<NoMemory>()
        + shared::<Refused<MeshFile>>()
        + shared::<OpenGate>()
        + shared::<Point>()
        + shared::<RawCell>()
        + shared::<PointList>()
        + shared::<CellList>()
        + shared::<PointTable>()
        + shared::<RawMesh>()
        + shared::<ByteList>()
        + shared::<PlainLists<u32>>()
        + shared::<WordList>()
}
