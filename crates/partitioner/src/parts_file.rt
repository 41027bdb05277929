ghost use Rattle.std.specs.Prelude.{◌≡◌, ◌<◌, ◌≤◌, IfOk, length};
ghost use Rattle.liszt_base.specs.Gives.{Gives};
ghost use Rattle.liszt_base.specs.Limits.{rank_limit};
ghost use Rattle.text_scan.specs.Rows.{row_at};
ghost use Rattle.partitioner.specs.PartsFile.{file_parts, rank_at as RankAt, rank_of_words, rank_among};
ghost use Rattle.partitioner.specs.Internal.PartRows.{parts_of_rows};

use crate::part_list::PartList;
use liszt_base::{PartsFault, PartsWhat, Refused};
use std::alloc::Global;
use text_scan::{Rows, whole};

/// The parts that the rows of a parts file spell, one row for each cell, or the file's first fault. A row past the cells is `Count`, and
/// too few rows are `Count` at the last line; a row that is not one whole number is `BadNumber`; a number that is not a rank is
/// `RankRange`.
pub fn read_parts(
    alloc: Global,
    rows: &Rows,
    cells: u32,
    ranks: u32,
) -> Result<PartList, Refused<PartsFault>>
    requires some_rank { 0 < ranks }
    requires few_ranks { ranks ≤ rank_limit }
    ensures { Gives (file_parts cells ranks rows.now) result }
{
    let parts = parts_of_rows(alloc, rows, cells, ranks)?;
    if parts.as_slice().len() < cells as usize {
        return Err(Refused::Fault(PartsFault {
            what: PartsWhat::Count,
            line: rows.last_line(),
        }));
    }
    Ok(parts)
}

/// The parts of the rows, one for each row.
fn parts_of_rows(
    alloc: Global,
    rows: &Rows,
    cells: u32,
    ranks: u32,
) -> Result<PartList, Refused<PartsFault>>
    requires some_rank { 0 < ranks }
    requires few_ranks { ranks ≤ rank_limit }
    ensures { Gives (parts_of_rows cells ranks rows.now.rows) result }
{
    let mut parts = PartList::new(alloc, ranks);
    for index in 0..rows.len() {
        match rank_at(rows, index, cells, ranks) {
            Ok(rank) => parts.push(rank)?,
            Err(what) => {
                let line = rows.line(index);
                return Err(Refused::Fault(PartsFault { what, line }));
            }
        }
    }
    Ok(parts)
}

/// The rank that a row spells, by its index.
fn rank_at(rows: &Rows, index: usize, cells: u32, ranks: u32) -> Result<u32, PartsWhat>
    requires { index < length rows.now.rows }
    ensures rank { result ≡ RankAt cells ranks index (row_at rows.now.rows index).words }
    ensures below { IfOk result (λ rank. rank < ranks) }
{
    if index >= cells as usize {
        return Err(PartsWhat::Count);
    }
    if rows.words(index) != 1 {
        return Err(PartsWhat::BadNumber);
    }
    match whole(rows.word(index, 0)) {
        Ok(number) => rank_among(ranks, number),
        Err(_) => Err(PartsWhat::BadNumber),
    }
}

/// The rank that a number is, or `RankRange`.
fn rank_among(ranks: u32, number: i64) -> Result<u32, PartsWhat>
    ensures rank { result ≡ rank_among ranks number }
    ensures below { IfOk result (λ rank. rank < ranks) }
{
    if number >= 0 && number < i64::from(ranks) {
        Ok(number as u32)
    } else {
        Err(PartsWhat::RankRange)
    }
}
