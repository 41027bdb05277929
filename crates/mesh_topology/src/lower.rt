//! The tables of a mesh from which the others are computed: corners, the edges of faces, and the cells of each element.

ghost use Rattle.std.specs.Prelude.{IfOk};
ghost use Rattle.mesh_topology.specs.Internal.Tables.{AreCornerTables, AreLowerTables, IsSmallMesh};

use crate::cells_of::{edge_corner_pairs, selected_cells};
use crate::corner_sets::starts;
use crate::incidence::transpose;
use crate::tables::{cell_vertices, edges, face_edges, faces};
use liszt_base::{NoMemory, PlainLists, RawMesh};
use std::alloc::Global;

/// The ends of each edge, and the corners of each face and of each cell, ascending, and the cells of each vertex.
#[derive(Drop)]
pub struct CornerTables {
    pub edges: Vec<[u32; 2]>,
    pub faces: Vec<[u32; 3]>,
    pub cells: Vec<[u32; 4]>,
    pub vertex_cells: PlainLists<u32>,
}

/// The corner tables, the edges of each face, and the cells of each edge and face.
#[derive(Drop)]
pub struct LowerTables {
    pub sets: CornerTables,
    pub face_edges: Vec<[u32; 3]>,
    pub edge_cells: PlainLists<u32>,
    pub face_cells: PlainLists<u32>,
}

/// The corner tables of a mesh, or out of memory.
fn build_corner_tables(alloc: Global, raw: &RawMesh) -> Result<CornerTables, NoMemory>
    requires { IsSmallMesh raw.now }
    ensures { IfOk result (AreCornerTables raw.now) }
{
    let cells = cell_vertices(alloc, raw.cells())?;
    let vertices = raw.points().len() as u32;
    let transposed = transpose(alloc, cells.as_slice(), vertices)?;
    let vertex_cells = transposed.lists(alloc)?;
    let edges = edges(alloc, cells.as_slice(), &vertex_cells)?;
    let faces = faces(alloc, cells.as_slice(), &vertex_cells)?;
    Ok(CornerTables {
        edges,
        faces,
        cells,
        vertex_cells,
    })
}

/// The lower tables of a mesh, or out of memory.
pub fn build_lower_tables(alloc: Global, raw: &RawMesh) -> Result<LowerTables, NoMemory>
    requires { IsSmallMesh raw.now }
    ensures { IfOk result (AreLowerTables raw.now) }
{
    let sets = build_corner_tables(alloc, raw)?;
    let vertices = raw.points().len() as u32;
    let edge_starts = starts(alloc, sets.edges.as_slice(), vertices)?;
    let face_edges = face_edges(
        alloc,
        sets.edges.as_slice(),
        edge_starts.as_slice(),
        sets.faces.as_slice(),
    )?;
    let edge_cells = selected_cells(
        alloc,
        sets.cells.as_slice(),
        sets.edges.as_slice(),
        &sets.vertex_cells,
    )?;
    let pairs = edge_corner_pairs(alloc, sets.faces.as_slice(), face_edges.as_slice())?;
    let face_cells = selected_cells(alloc, sets.cells.as_slice(), pairs.as_slice(), &edge_cells)?;
    Ok(LowerTables {
        sets,
        face_edges,
        edge_cells,
        face_cells,
    })
}
