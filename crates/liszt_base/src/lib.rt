//! The types that every crate of Solgrinn shares: plain lists, points and cells, words, answers, the gate; and the
//! operators of reductions.
#![tactic(auto)]

mod accesses;
mod answers;
mod cases;
mod elements;
mod gate;
pub mod laws;
mod limits;
mod mesh;
mod plain_list;
mod plain_lists;
mod reductions;
mod shared;
mod word_list;

pub use accesses::{Access, Mode, Spot};
pub use answers::{
    Input, LimitFault, LimitWhat, MeshFault, MeshFile, MeshWhat, NoMemory, PartsFault, PartsWhat,
    Place, ProgramFault, ProgramWhat, Refused, RunEnd, Trap, TrapKind,
};
pub use elements::{Elem, Kind, Op, SetName};
pub use gate::{Gate, OpenGate};
pub use limits::{
    CELL_LIMIT, DEFAULT_TURNS, DEPTH_LIMIT, ENTRY_LIMIT, FILE_LIMIT, KEPT_LIMIT, NAME_LIMIT,
    POINT_LIMIT, PRINT_LIMIT, RANK_LIMIT, TOKEN_LIMIT, TURN_LIMIT, VISIT_LIMIT, WORD_LIMIT,
};
pub use mesh::{CellList, Point, PointList, PointTable, RawCell, RawMesh};
pub use plain_list::{ByteList, NumbersList, PlainList};
pub use plain_lists::PlainLists;
pub use reductions::{fold_op, identity, value_of, word_of};
pub use word_list::WordList;
