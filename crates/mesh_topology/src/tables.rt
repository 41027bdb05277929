//! The tables of corners and of edges of faces.

ghost use Rattle.std.specs.Prelude.{◌≡◌, ◌<◌, ◌++◌, IfOk, OnOk, map, length};
ghost use Rattle.std.specs.List.{All, AllZip, filter, flat_map};
ghost use Rattle.std.specs.List.Sorted.{IsNonDecreasing, IsPermutation};
ghost use Rattle.mesh_topology.specs.Internal.Combinations.{begins_with, combinations, AreRanks, HasCombinations, AreSortedCorners, IsIndexed, IsTableOf};
ghost use Rattle.mesh_topology.specs.Internal.Incidence.{members_above, is_above, key, keys_in, pair, triple, AreVertexCells, IsSetOf};

use crate::corner_sets::{first_corner, pairs_of_three, ranks, triples_of_four};
use crate::incidence::make_set;
use liszt_base::{NoMemory, PlainLists, RawCell};
use std::alloc::Global;

/// The bound of corners: a key is its second corner times this, plus the third.
const CORNER_BOUND: u64 = 4_294_967_296;

/// The corners in ascending order.
fn sorted_corners(corners: [u32; 4]) -> [u32; 4]
    ensures ascending { IsNonDecreasing result }
    ensures permutes { IsPermutation corners result }
{
    let mut row = corners;
    row.sort_unstable();
    row
}

/// The corners of each cell in ascending order.
pub fn cell_vertices(alloc: Global, cells: &[RawCell]) -> Result<Vec<[u32; 4]>, NoMemory>
    ensures { IfOk result (λ rows. AllZip AreSortedCorners cells.now rows.items) }
{
    let mut rows = Vec::with_capacity(alloc, cells.len())?;
    for cell in cells {
        rows.push(sorted_corners(cell.corners))?;
    }
    Ok(rows)
}

/// Appends the corners of a cell that are above `low`.
fn add_above(above: &mut Vec<u32>, corners: &[u32; 4], low: u32) -> Result<(), NoMemory>
    ensures { OnOk result (above.new.items ≡ above.old.items ++ filter (is_above low) corners.now) }
{
    for corner in corners {
        if *corner > low {
            above.push(*corner)?;
        }
    }
    Ok(())
}

/// Replaces `above` by the corners of the cells `ids` that are above `low`, each once, ascending.
fn set_corners_above(
    above: &mut Vec<u32>,
    cells: &[[u32; 4]],
    ids: &[u32],
    low: u32,
) -> Result<(), NoMemory>
    requires { All (λ id. id < length cells.now) ids.now }
    ensures { OnOk result (IsSetOf (members_above cells.now low ids.now) above.new.items) }
{
    above.clear();
    for id in ids {
        add_above(above, &cells[*id as usize], low)?;
    }
    make_set(above);
    Ok(())
}

/// Appends the pairs of `first` with each of `others`.
fn add_pairs(table: &mut Vec<[u32; 2]>, first: u32, others: &[u32]) -> Result<(), NoMemory>
    ensures { OnOk result (table.new.items ≡ table.old.items ++ map (pair first) others.now) }
{
    for other in others {
        table.push([first, *other])?;
    }
    Ok(())
}

/// The pairs of corners of cells, each once, in lexicographic order.
pub fn edges(
    alloc: Global,
    cells: &[[u32; 4]],
    vertex_cells: &PlainLists<u32>,
) -> Result<Vec<[u32; 2]>, NoMemory>
    requires { AreVertexCells cells.now vertex_cells.now }
    ensures { IfOk result (λ table. IsTableOf (flat_map (combinations 2) cells.now) table.items) }
{
    let mut table = Vec::new(alloc);
    let mut above = Vec::new(alloc);
    for v in 0..vertex_cells.len() {
        set_corners_above(&mut above, cells, vertex_cells.of(v), v as u32)?;
        add_pairs(&mut table, v as u32, above.as_slice())?;
    }
    Ok(table)
}

/// The second and the third corner of a triple as one number.
fn key(corners: &[u32; 3]) -> u64
    ensures { result ≡ key corners.now }
{
    let [_, second, third] = *corners;
    u64::from(second) * CORNER_BOUND + u64::from(third)
}

/// Appends the keys of those triples that begin with `first`.
fn add_keys(keys: &mut Vec<u64>, triples: &[[u32; 3]; 4], first: u32) -> Result<(), NoMemory>
    ensures { OnOk result (keys.new.items
        ≡ keys.old.items ++ map key (filter (begins_with first) triples.now)) }
{
    for triple in triples {
        if first_corner(triple) == first {
            keys.push(key(triple))?;
        }
    }
    Ok(())
}

/// Sorts keys and removes repeated ones.
fn sort_keys(keys: &mut Vec<u64>)
    ensures { IsSetOf keys.old.items keys.new.items }
{
    keys.sort_unstable();
    keys.dedup();
}

/// Replaces `keys` by the keys of the triples of corners of the cells `ids` that begin with `first`, each once, ascending.
fn set_keys(
    keys: &mut Vec<u64>,
    cells: &[[u32; 4]],
    ids: &[u32],
    first: u32,
) -> Result<(), NoMemory>
    requires { All (λ id. id < length cells.now) ids.now }
    ensures { OnOk result (IsSetOf (keys_in cells.now first ids.now) keys.new.items) }
{
    keys.clear();
    for id in ids {
        add_keys(keys, &triples_of_four(cells[*id as usize]), first)?;
    }
    sort_keys(keys);
    Ok(())
}

/// Appends the triples with the corner `first` and these keys.
fn add_triples(table: &mut Vec<[u32; 3]>, first: u32, keys: &[u64]) -> Result<(), NoMemory>
    ensures { OnOk result (table.new.items ≡ table.old.items ++ map (triple first) keys.now) }
{
    for key in keys {
        table.push([
            first,
            (*key / CORNER_BOUND) as u32,
            (*key % CORNER_BOUND) as u32,
        ])?;
    }
    Ok(())
}

/// The triples of corners of cells, each once, in lexicographic order.
pub fn faces(
    alloc: Global,
    cells: &[[u32; 4]],
    vertex_cells: &PlainLists<u32>,
) -> Result<Vec<[u32; 3]>, NoMemory>
    requires { AreVertexCells cells.now vertex_cells.now }
    ensures { IfOk result (λ table. IsTableOf (flat_map (combinations 3) cells.now) table.items) }
{
    let mut table = Vec::new(alloc);
    let mut keys = Vec::new(alloc);
    for v in 0..vertex_cells.len() {
        set_keys(&mut keys, cells, vertex_cells.of(v), v as u32)?;
        add_triples(&mut table, v as u32, keys.as_slice())?;
    }
    Ok(table)
}

/// The ids of the edges of each face, in the order of its pairs of corners.
pub fn face_edges(
    alloc: Global,
    edges: &[[u32; 2]],
    starts: &[usize],
    faces: &[[u32; 3]],
) -> Result<Vec<[u32; 3]>, NoMemory>
    requires table { IsIndexed edges.now starts.now }
    requires inside { All (HasCombinations 2 edges.now) faces.now }
    ensures { IfOk result (λ rows. AllZip
        (λ corners ids. AreRanks edges.now (combinations 2 corners) ids) faces.now rows.items) }
{
    let mut rows = Vec::with_capacity(alloc, faces.len())?;
    for corners in faces {
        rows.push(ranks(edges, starts, &pairs_of_three(*corners)))?;
    }
    Ok(rows)
}
