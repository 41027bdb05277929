//! Lists of ids: their transposition, and the other ids on the lists that have an id.

ghost use Rattle.std.specs.Prelude.{◌≡◌, ◌+◌, ◌<◌, ◌≤◌, ◌^◌, [], ◌∷◌, ◌++◌, IfOk, OnOk, map, length, slice_index, slice_index_or};
ghost use Rattle.std.specs.List.{All, AllPairs, filter};
ghost use Rattle.mesh_topology.specs.Internal.Incidence.{transposed, differs_from, other_members, AreNeighbourSets, AreOthersAppended, AreOthersSoFar, AreListsBelow, CanTranspose, AreChangedAt, IsSetOf};

use crate::buckets::Buckets;
use crate::rows::Rows;
use liszt_base::{NoMemory, PlainLists};
use std::alloc::Global;

/// Adds 1 to the degree of each id of a row.
fn count_ids(degrees: &mut [u32], row: &[u32])
    requires below { All (λ y. y < length degrees.old) row.now }
    requires ascending { AllPairs (λ x y. x < y) row.now }
    requires few { All (λ n. n + 1 < 2 ^ 32) degrees.old }
    ensures { AreChangedAt 0 (λ n. n + 1) row.now degrees.old degrees.new }
{
    for y in row {
        degrees[*y as usize] += 1;
    }
}

/// For each id below `count` the number of rows that contain it.
fn degrees<const N: usize>(
    alloc: Global,
    rows: &[[u32; N]],
    count: u32,
) -> Result<Vec<u32>, NoMemory>
    requires { CanTranspose rows.now count }
    ensures { IfOk result (λ degrees. degrees.items ≡ map length (transposed rows.now count)) }
{
    let mut degrees = vec![in alloc; 0; count as usize]?;
    for row in rows {
        count_ids(&mut degrees, row);
    }
    Ok(degrees)
}

/// Appends an id to the lists whose indices are in a row.
fn append_to_lists(lists: &mut Buckets, row: &[u32], id: u32)
    requires below { All (λ y. y < length lists.old.lists) row.now }
    requires ascending { AllPairs (λ x y. x < y) row.now }
    requires capacity { All (λ y. length
        (slice_index_or lists.old.lists y []) < slice_index lists.old.capacities y) row.now }
    ensures lists { AreChangedAt []
        (λ list. list ++ id ∷ []) row.now lists.old.lists lists.new.lists }
    ensures capacities { lists.new.capacities ≡ lists.old.capacities }
{
    for y in row {
        lists.push(*y, id);
    }
}

/// Transposes `rows`: for each id below `count` the indices of the rows that contain it, ascending.
pub fn transpose<const N: usize>(
    alloc: Global,
    rows: &[[u32; N]],
    count: u32,
) -> Result<Buckets, NoMemory>
    requires { CanTranspose rows.now count }
    ensures { IfOk result (λ lists. lists.lists ≡ transposed rows.now count) }
{
    let degrees = degrees(alloc, rows, count)?;
    let mut lists = Buckets::new(alloc, degrees.as_slice())?;
    for id in 0..rows.len() {
        append_to_lists(&mut lists, &rows[id], id as u32);
    }
    Ok(lists)
}

/// Appends an id to the rows whose indices are in a list.
fn append_to_rows<const N: usize>(rows: &mut Rows<N>, list: &[u32], id: u32)
    requires below { All (λ y. y < length rows.old) list.now }
    requires ascending { AllPairs (λ x y. x < y) list.now }
    requires capacity { All (λ y. length (slice_index_or rows.old y []) < N) list.now }
    ensures { AreChangedAt [] (λ row. row ++ id ∷ []) list.now rows.old rows.new }
{
    for y in list {
        rows.push(*y, id);
    }
}

/// Transposes `lists`: for each id below `count` the indices of the lists that contain it, ascending. Each id is in at most
/// `N` lists.
pub fn transpose_lists<const N: usize>(
    alloc: Global,
    lists: &PlainLists<u32>,
    count: u32,
) -> Result<Rows<N>, NoMemory>
    requires width { N < 2 ^ 8 }
    requires transposable { CanTranspose lists.now count }
    requires few { All (λ row. length row ≤ N) (transposed lists.now count) }
    ensures { IfOk result (λ rows. rows ≡ transposed lists.now count) }
{
    let mut rows = Rows::new(alloc, count)?;
    for id in 0..lists.len() {
        append_to_rows(&mut rows, lists.of(id), id as u32);
    }
    Ok(rows)
}

/// Appends each of the two ids of a list to the row of the other; a list of one id has no effect.
fn add_partners<const N: usize>(rows: &mut Rows<N>, list: &[u32])
    requires at_most_two { length list.now ≤ 2 }
    requires below { All (λ y. y < length rows.old) list.now }
    requires ascending { AllPairs (λ x y. x < y) list.now }
    requires capacity { All (λ y. length (slice_index_or rows.old y []) < N) list.now }
    ensures { AreOthersAppended list.now rows.old rows.new }
{
    if list.len() == 2 {
        rows.push(list[0], list[1]);
        rows.push(list[1], list[0]);
    }
}

/// For each id below `count` the other ids on the lists that contain it. Each list has at most two ids, and each id is in at
/// most `N` lists.
fn partners<const N: usize>(
    alloc: Global,
    lists: &PlainLists<u32>,
    count: u32,
) -> Result<Rows<N>, NoMemory>
    requires width { N < 2 ^ 8 }
    requires transposable { CanTranspose lists.now count }
    requires at_most_two { All (λ list. length list ≤ 2) lists.now }
    requires few { All (λ row. length row ≤ N) (transposed lists.now count) }
    ensures { IfOk result (AreOthersSoFar lists.now count (length lists.now)) }
{
    let mut rows = Rows::new(alloc, count)?;
    for id in 0..lists.len() {
        add_partners(&mut rows, lists.of(id));
    }
    Ok(rows)
}

/// For each id below `count` the set of the other ids on the lists that contain it, ascending. Each list has at most two
/// ids, and each id is in at most four lists.
pub fn sorted_partners(
    alloc: Global,
    lists: &PlainLists<u32>,
    count: u32,
) -> Result<PlainLists<u32>, NoMemory>
    requires transposable { CanTranspose lists.now count }
    requires at_most_two { All (λ list. length list ≤ 2) lists.now }
    requires few { All (λ row. length row ≤ 4) (transposed lists.now count) }
    ensures { IfOk result (AreNeighbourSets (transposed lists.now count) lists.now count) }
{
    let rows = partners::<4>(alloc, lists, count)?;
    let mut sets = PlainLists::new(alloc);
    let mut set = Vec::new(alloc);
    for id in 0..count {
        set.clear();
        set.extend_from_slice(rows.of(id as usize))?;
        make_set(&mut set);
        sets.push(set.as_slice())?;
    }
    Ok(sets)
}

/// Sorts ids and removes repeated ones.
pub fn make_set(ids: &mut Vec<u32>)
    ensures { IsSetOf ids.old.items ids.new.items }
{
    ids.sort_unstable();
    ids.dedup();
}

/// Appends the ids of a list other than `id`.
fn add_others(others: &mut Vec<u32>, list: &[u32], id: u32) -> Result<(), NoMemory>
    ensures { OnOk result (others.new.items
        ≡ others.old.items ++ filter (differs_from id) list.now) }
{
    for other in list {
        if *other != id {
            others.push(*other)?;
        }
    }
    Ok(())
}

/// Replaces `others` by the ids other than `id` in the rows whose indices are in `through`, each once, ascending.
fn set_neighbours(
    others: &mut Vec<u32>,
    id: u32,
    through: &[u32],
    back: &[[u32; 2]],
) -> Result<(), NoMemory>
    requires { All (λ by. by < length back.now) through.now }
    ensures { OnOk result (IsSetOf (other_members id back.now through.now) others.new.items) }
{
    others.clear();
    for by in through {
        add_others(others, &back[*by as usize], id)?;
    }
    make_set(others);
    Ok(())
}

/// For each list of `through` the ids in the rows that it contains, other than its own index, each once, ascending.
pub fn neighbour_lists(
    alloc: Global,
    through: &Buckets,
    back: &[[u32; 2]],
) -> Result<PlainLists<u32>, NoMemory>
    requires { AreListsBelow through.now.lists (length back.now) }
    ensures { IfOk result (AreNeighbourSets through.now.lists back.now (length through.now.lists)) }
{
    let mut sets = PlainLists::new(alloc);
    let mut others = Vec::new(alloc);
    for id in 0..through.len() {
        set_neighbours(&mut others, id as u32, through.of(id), back)?;
        sets.push(others.as_slice())?;
    }
    Ok(sets)
}
