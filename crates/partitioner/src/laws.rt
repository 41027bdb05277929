//! Laws of the definitions, each the contract of a function with an empty body.

ghost use Rattle.std.specs.Prelude.{◌≡◌, ◌↔◌, ◌<◌, ◌≤◌, ℕ, List, Ok};
ghost use Rattle.liszt_base.specs.Limits.{rank_limit};
ghost use Rattle.text_scan.specs.Rows.{TextRows};
ghost use Rattle.partitioner.specs.PartLists.{AreRanks};
ghost use Rattle.partitioner.specs.Blocks.{block_parts};
ghost use Rattle.partitioner.specs.PartsFile.{file_parts, SpellRanks};

/// A parts file has no fault exactly where its rows spell a rank for each cell, and its parts are these ranks.
pub fn no_fault_is_ranks_spelled()
    ensures { (cells ranks : ℕ) (text : TextRows) (list : List ℕ)
        → (file_parts cells ranks text ≡ Ok (record { list = list; ranks = ranks })) ↔
        SpellRanks text.rows cells ranks list }
{}
