//! The cells of edges and of faces.

ghost use Rattle.std.specs.Prelude.{◌≡◌, ◌<◌, [], IfOk, OnOk, map, length, slice_index_or};
ghost use Rattle.std.specs.List.{All, filter};
ghost use Rattle.liszt_base.specs.Corners.{is_in};
ghost use Rattle.mesh_topology.specs.Internal.Incidence.{cells_with, AreEdgeCornerPairs, ArePairsInRange};

use liszt_base::{NoMemory, PlainLists};
use std::alloc::Global;

/// Replaces `selected` by those of the cells `ids` that have a corner.
fn set_cells_with(
    selected: &mut Vec<u32>,
    cells: &[[u32; 4]],
    ids: &[u32],
    corner: u32,
) -> Result<(), NoMemory>
    requires { All (λ id. id < length cells.now) ids.now }
    ensures { OnOk result (selected.new.items
        ≡ filter (λ id. is_in (slice_index_or cells.now id []) corner) ids.now) }
{
    selected.clear();
    for id in ids {
        if cells[*id as usize].contains(&corner) {
            selected.push(*id)?;
        }
    }
    Ok(())
}

/// For each pair of the index of a list and a corner, the cells on the list that have the corner.
pub fn selected_cells(
    alloc: Global,
    cells: &[[u32; 4]],
    pairs: &[[u32; 2]],
    lists: &PlainLists<u32>,
) -> Result<PlainLists<u32>, NoMemory>
    requires { ArePairsInRange cells.now pairs.now lists.now }
    ensures { IfOk result (λ selections. selections
        ≡ map (cells_with cells.now lists.now) pairs.now) }
{
    let mut selections = PlainLists::new(alloc);
    let mut selected = Vec::new(alloc);
    for pair in pairs {
        let [place, corner] = *pair;
        set_cells_with(&mut selected, cells, lists.of(place as usize), corner)?;
        selections.push(selected.as_slice())?;
    }
    Ok(selections)
}

/// The first edge of each face, and the corner that is not on this edge.
pub fn edge_corner_pairs(
    alloc: Global,
    faces: &[[u32; 3]],
    face_edges: &[[u32; 3]],
) -> Result<Vec<[u32; 2]>, NoMemory>
    requires { length faces.now ≡ length face_edges.now }
    ensures { IfOk result (λ pairs. AreEdgeCornerPairs faces.now face_edges.now pairs.items) }
{
    let mut pairs = Vec::with_capacity(alloc, faces.len())?;
    for id in 0..faces.len() {
        let [edge, ..] = face_edges[id];
        let [.., corner] = faces[id];
        pairs.push([edge, corner])?;
    }
    Ok(pairs)
}
