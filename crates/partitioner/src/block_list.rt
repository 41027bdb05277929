ghost use Rattle.std.specs.Prelude.{◌≡◌, ◌<◌, ◌≤◌, IfOk};
ghost use Rattle.liszt_base.specs.Limits.{rank_limit};
ghost use Rattle.partitioner.specs.Blocks.{block_of as BlockOf, block_parts};

use crate::part_list::PartList;
use liszt_base::NoMemory;
use std::alloc::Global;

/// Blocks of consecutive cells of nearly equal sizes: cell `c` has the rank `c * ranks / cells`, truncated.
pub fn blocks(alloc: Global, cells: u32, ranks: u32) -> Result<PartList, NoMemory>
    requires some_rank { 0 < ranks }
    requires few_ranks { ranks ≤ rank_limit }
    ensures { IfOk result (λ parts. parts ≡ block_parts cells ranks) }
{
    let mut parts = PartList::new(alloc, ranks);
    for cell in 0..cells {
        parts.push(block_of(cells, ranks, cell))?;
    }
    Ok(parts)
}

/// The block of a cell.
fn block_of(cells: u32, ranks: u32, cell: u32) -> u32
    requires some_rank { 0 < ranks }
    requires some_cell { cell < cells }
    ensures block { result ≡ BlockOf cells ranks cell }
    ensures rank { result < ranks }
{
    (u64::from(cell) * u64::from(ranks) / u64::from(cells)) as u32
}
