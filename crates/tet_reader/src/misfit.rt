ghost use Rattle.std.specs.Prelude.{◌≡◌, ◌<◌, ◌^◌, [], true, IfOk, length, map, min};
ghost use Rattle.std.specs.List.{AllByRecursion, AllZip, reduce};
ghost use Rattle.liszt_base.specs.Corners.{are_different, induced_cycles, along, repeats_earlier, is_third};
ghost use Rattle.tet_reader.specs.Internal.FirstMisfit.{first_true, first_misfit};
ghost use Rattle.tet_reader.specs.Internal.RepeatedRows.{repeated_indices, with_cell_index, single_piece, IsRow};

use liszt_base::{MeshWhat, NoMemory, RawCell};
use std::alloc::Global;

/// A cell that no mesh may have: its index, and its fault.
#[derive(Clone, Copy, Debug, PartialEq, Eq)]
pub(crate) struct Misfit {
    pub(crate) place: usize,
    pub(crate) what: MeshWhat,
}

/// Some corners of a cell in ascending order, and the index of the cell. Rows are ordered by corners, then by index.
#[derive(Clone, Copy, PartialEq, Eq, PartialOrd, Ord)]
struct Row<K> {
    key: K,
    place: u32,
}

/// The row of some corners of the cell with this index.
fn sorted_row<const N: usize>(place: u32, corners: [u32; N]) -> Row<[u32; N]>
    ensures { IsRow result (corners.entry, place) }
{
    let mut key = corners;
    key.sort_unstable();
    Row { key, place }
}

/// The rows of a cell's four faces.
fn sorted_face_rows(place: u32, corners: [u32; 4]) -> [Row<[u32; 3]>; 4]
    ensures { AllZip IsRow result (map (λ face. (face, place)) (induced_cycles corners)) }
{
    let [a, b, c, d] = corners;
    [
        sorted_row(place, [b, c, d]),
        sorted_row(place, [a, d, c]),
        sorted_row(place, [a, b, d]),
        sorted_row(place, [a, c, b]),
    ]
}

/// A row for each cell, of all its corners.
fn cell_rows(alloc: Global, cells: &[RawCell]) -> Result<Vec<Row<[u32; 4]>>, NoMemory>
    requires { length cells.now < 2 ^ 32 }
    ensures { IfOk result (λ rows. AllZip IsRow rows.items
        (with_cell_index 0 (map (λ cell. single_piece cell.corners) cells.now))) }
{
    let mut rows = Vec::with_capacity(alloc, cells.len())?;
    for (place, cell) in cells.iter().enumerate() {
        rows.push(sorted_row(place as u32, cell.corners))?;
    }
    Ok(rows)
}

/// Four rows for each cell, of its faces.
fn face_rows(alloc: Global, cells: &[RawCell]) -> Result<Vec<Row<[u32; 3]>>, NoMemory>
    requires { length cells.now < 2 ^ 32 }
    ensures { IfOk result (λ rows. AllZip IsRow rows.items
        (with_cell_index 0 (map (λ cell. induced_cycles cell.corners) cells.now))) }
{
    let mut rows = Vec::with_capacity(alloc, 4 * cells.len())?;
    for (place, cell) in cells.iter().enumerate() {
        rows.extend_from_slice(&sorted_face_rows(place as u32, cell.corners))?;
    }
    Ok(rows)
}

/// The smallest cell index whose key equals the one `back` rows earlier.
fn least_repeated_index<K: Ord>(rows: &[Row<K>], back: usize) -> Option<u32>
    ensures { result ≡ reduce min (repeated_indices K.eq back rows.now) }
{
    rows.iter()
        .zip(rows.iter().skip(back))
        .filter(|(before, row)| before.key == row.key)
        .map(|(_, row)| row.place)
        .min()
}

/// The first cell that repeats an earlier one.
fn first_repeated_cell(alloc: Global, cells: &[RawCell]) -> Result<Option<u32>, NoMemory>
    requires few { length cells.now < 2 ^ 32 }
    requires corners { AllByRecursion (λ cell. (length cell.corners ≡ 4)
        × (are_different cell.corners ≡ true)) cells.now }
    ensures { IfOk result (λ place. place ≡ first_true 0
        (along repeats_earlier [] (map (λ cell. cell.corners) cells.now))) }
{
    let mut rows = cell_rows(alloc, cells)?;
    rows.sort_unstable();
    Ok(least_repeated_index(&rows, 1))
}

/// The first cell that is the third with some face.
fn first_third_cell(alloc: Global, cells: &[RawCell]) -> Result<Option<u32>, NoMemory>
    requires few { length cells.now < 2 ^ 32 }
    requires corners { AllByRecursion (λ cell. (length cell.corners ≡ 4)
        × (are_different cell.corners ≡ true)) cells.now }
    ensures { IfOk result (λ place. place ≡ first_true 0
        (along is_third [] (map (λ cell. cell.corners) cells.now))) }
{
    let mut rows = face_rows(alloc, cells)?;
    rows.sort_unstable();
    Ok(least_repeated_index(&rows, 2))
}

/// The first cell that no mesh may have: one with the corners of an earlier cell, or else one that is the third with some face.
/// 2^32 cells or more are `NoMemory`, for memory has no room for their rows.
pub(crate) fn first_misfit(alloc: Global, cells: &[RawCell]) -> Result<Option<Misfit>, NoMemory>
    requires { AllByRecursion (λ cell. (length cell.corners ≡ 4)
        × (are_different cell.corners ≡ true)) cells.now }
    ensures { IfOk result (λ found. found ≡ first_misfit (map (λ cell. cell.corners) cells.now)) }
{
    if u32::try_from(cells.len()).is_err() {
        return Err(NoMemory);
    }
    if let Some(place) = first_repeated_cell(alloc, cells)? {
        return Ok(Some(Misfit {
            place: place as usize,
            what: MeshWhat::CellTwice,
        }));
    }
    match first_third_cell(alloc, cells)? {
        Some(place) => Ok(Some(Misfit {
            place: place as usize,
            what: MeshWhat::FaceShared,
        })),
        None => Ok(None),
    }
}
