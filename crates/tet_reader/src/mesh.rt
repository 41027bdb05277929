ghost use Rattle.std.specs.Prelude.{◌<◌, ◌^◌, length};
ghost use Rattle.tet_reader.specs.Faults.{first_mesh_fault};
ghost use Rattle.tet_reader.specs.Answers.{Reads, SpelledBy};

use crate::cells::read_cells;
use crate::points::read_points;
use liszt_base::{MeshFault, RawMesh, Refused};
use std::alloc::Global;
use text_scan::rows_of;

/// The mesh that a node file and an ele file spell, as `read_points` and `read_cells` give it. Other files are refused with their first
/// fault, those of the node file first.
pub fn read_mesh(alloc: Global, node: &[u8], ele: &[u8]) -> Result<RawMesh, Refused<MeshFault>>
    requires node { length node.now < 2 ^ 31 }
    requires ele { length ele.now < 2 ^ 31 }
    ensures { Reads (SpelledBy node.now ele.now) (first_mesh_fault node.now ele.now) result }
{
    let node_rows = rows_of(alloc, node)?;
    let points = read_points(alloc, &node_rows)?;
    let ele_rows = rows_of(alloc, ele)?;
    read_cells(alloc, &ele_rows, points)
}
