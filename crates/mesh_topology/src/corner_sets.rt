//! The pairs and triples of corners, and tables of them.

ghost use Rattle.std.specs.Prelude.{◌≡◌, ◌≢◌, ℕ, ◌+◌, ◌<◌, ◌≤◌, List, [], length, slice_index_or, IfOk, IfSome, IfNone};
ghost use Rattle.std.specs.List.{Contains};
ghost use Rattle.mesh_topology.specs.Internal.Combinations.{combinations, first_corner, AreRanks, AreStarts, IsIndexed, IsSmallTable};

use liszt_base::NoMemory;
use std::alloc::Global;

/// The three pairs of three corners, each in the order of the corners.
pub fn pairs_of_three(corners: [u32; 3]) -> [[u32; 2]; 3]
    ensures { result ≡ combinations 2 corners }
{
    let [a, b, c] = corners;
    [[a, b], [a, c], [b, c]]
}

/// The four triples of four corners, each in the order of the corners.
pub fn triples_of_four(corners: [u32; 4]) -> [[u32; 3]; 4]
    ensures { result ≡ combinations 3 corners }
{
    let [a, b, c, d] = corners;
    [[a, b, c], [a, b, d], [a, c, d], [b, c, d]]
}

/// The index of a set of corners in a table.
pub fn index_of<const N: usize>(table: &[[u32; N]], set: &[u32; N]) -> Option<u32>
    requires { IsSmallTable table.now }
    ensures some { IfSome result
        (λ id. (id < length table.now) × (slice_index_or table.now id [] ≡ set.now)) }
    ensures none { IfNone result
        ((id : ℕ) → id < length table.now → slice_index_or table.now id [] ≢ set.now) }
{
    match table.binary_search(set) {
        Ok(id) => Some(id as u32),
        Err(_) => None,
    }
}

/// The first corner of a set, or 0 if the set is empty.
pub fn first_corner<const N: usize>(set: &[u32; N]) -> u32
    ensures { result ≡ first_corner set.now }
{
    match set.first() {
        Some(v) => *v,
        None => 0,
    }
}

/// The index of the first set, from `from` on, that begins with `v` or a larger number.
fn first_at_least<const N: usize>(table: &[[u32; N]], from: usize, v: u32) -> usize
    requires { from ≤ length table.now }
    ensures range { (from ≤ result) × (result ≤ length table.now) }
    ensures below { (id : ℕ) → from ≤ id → id < result
        → first_corner (slice_index_or table.now id []) < v }
    ensures at_result { result < length table.now
        → v ≤ first_corner (slice_index_or table.now result []) }
{
    let mut next = from;
    while next < table.len() && first_corner(&table[next]) < v {
        next += 1;
    }
    next
}

/// For each number from 0 to `last` the index of the first set that begins with that number or a larger one.
pub fn starts<const N: usize>(
    alloc: Global,
    table: &[[u32; N]],
    last: u32,
) -> Result<Vec<usize>, NoMemory>
    requires { IsSmallTable table.now }
    ensures { IfOk result (λ starts. AreStarts table.now (last + 1) starts.items) }
{
    let mut starts = Vec::new(alloc);
    let mut next = 0;
    for v in 0..last {
        next = first_at_least(table, next, v);
        starts.push(next)?;
    }
    starts.push(first_at_least(table, next, last))?;
    Ok(starts)
}

/// The index of a set that the table contains. The `starts` bound the search.
fn rank<const N: usize>(table: &[[u32; N]], starts: &[usize], set: &[u32; N]) -> u32
    requires table { IsIndexed table.now starts.now }
    requires inside { Contains table.now set.now }
    ensures below { result < length table.now }
    ensures at_result { slice_index_or table.now result [] ≡ set.now }
{
    let first = first_corner(set) as usize;
    let low = starts[first];
    let high = starts[first + 1];
    match index_of(&table[low..high], set) {
        Some(id) => low as u32 + id,
        None => unreachable!(),
    }
}

/// The indices of sets that the table contains.
pub fn ranks<const N: usize, const L: usize>(
    table: &[[u32; N]],
    starts: &[usize],
    sets: &[[u32; N]; L],
) -> [u32; L]
    requires table { IsIndexed table.now starts.now }
    requires inside { (set : List ℕ) → Contains sets.now set → Contains table.now set }
    ensures { AreRanks table.now sets.now result }
{
    let mut ids = [0; L];
    for i in 0..L {
        ids[i] = rank(table, starts, &sets[i]);
    }
    ids
}
