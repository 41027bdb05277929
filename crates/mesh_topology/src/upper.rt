//! The tables of a mesh that are computed from the lower ones.

ghost use Rattle.std.specs.Prelude.{IfOk};
ghost use Rattle.mesh_topology.specs.Internal.Tables.{AreLowerTables, IsSmallMesh, AreUpperTables};

use crate::buckets::Buckets;
use crate::incidence::{neighbour_lists, sorted_partners, transpose, transpose_lists};
use crate::lower::LowerTables;
use crate::rows::Rows;
use liszt_base::{NoMemory, PlainLists, RawMesh};
use std::alloc::Global;

/// The edges and faces of each vertex, the faces of each edge, the edges and faces of each cell, the vertices that share an
/// edge with each vertex, and the cells that share a face with each cell.
#[derive(Drop)]
pub struct UpperTables {
    pub vertex_vertices: PlainLists<u32>,
    pub vertex_edges: Buckets,
    pub vertex_faces: Buckets,
    pub edge_faces: Buckets,
    pub cell_edges: Rows<6>,
    pub cell_faces: Rows<4>,
    pub cell_cells: PlainLists<u32>,
}

/// The upper tables of a mesh, or out of memory.
pub fn build_upper_tables(
    alloc: Global,
    raw: &RawMesh,
    lower: &LowerTables,
) -> Result<UpperTables, NoMemory>
    requires small { IsSmallMesh raw.now }
    requires lower { AreLowerTables raw.now lower.now }
    ensures { IfOk result (AreUpperTables raw.now) }
{
    let vertices = raw.points().len() as u32;
    let edges = lower.sets.edges.len() as u32;
    let cells = raw.cells().len() as u32;
    let vertex_edges = transpose(alloc, lower.sets.edges.as_slice(), vertices)?;
    let vertex_faces = transpose(alloc, lower.sets.faces.as_slice(), vertices)?;
    let edge_faces = transpose(alloc, lower.face_edges.as_slice(), edges)?;
    let cell_edges = transpose_lists(alloc, &lower.edge_cells, cells)?;
    let cell_faces = transpose_lists(alloc, &lower.face_cells, cells)?;
    let vertex_vertices = neighbour_lists(alloc, &vertex_edges, lower.sets.edges.as_slice())?;
    let cell_cells = sorted_partners(alloc, &lower.face_cells, cells)?;
    Ok(UpperTables {
        vertex_vertices,
        vertex_edges,
        vertex_faces,
        edge_faces,
        cell_edges,
        cell_faces,
        cell_cells,
    })
}
