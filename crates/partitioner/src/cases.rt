//! Worked cases of the definitions, computed by the checker. Each is the contract of a function with an empty body.
#![allow(dead_code)]

ghost use Rattle.std.specs.Prelude.{◌≡◌, [], ◌∷◌, codes, Ok, Err};
ghost use Rattle.liszt_base.specs.declared.answers.PartsWhat.TheVariants.{BadNumber, Count, RankRange};
ghost use Rattle.text_scan.specs.Rows.{text_rows};
ghost use Rattle.partitioner.specs.Blocks.{block_parts};
ghost use Rattle.partitioner.specs.PartsFile.{file_parts};

/// Blocks: a cell for each rank, more cells than ranks, fewer cells than ranks, and no cells.
fn block_lists()
    ensures two { block_parts 2 2 ≡ record { list = 0 ∷ 1 ∷ []; ranks = 2 } }
    ensures seven { block_parts 7 3 ≡ record {
      list = 0 ∷ 0 ∷ 0 ∷ 1 ∷ 1 ∷ 2 ∷ 2 ∷ [];
      ranks = 3;
    } }
    ensures few { block_parts 2 4 ≡ record { list = 0 ∷ 2 ∷ []; ranks = 4 } }
    ensures one_rank { block_parts 3 1 ≡ record { list = 0 ∷ 0 ∷ 0 ∷ []; ranks = 1 } }
    ensures no_cells { block_parts 0 4 ≡ record { list = []; ranks = 4 } }
{}

/// Parts files that spell a list: in any order of the ranks, with comments, blanks and returns, and of no cells.
fn spelled_lists()
    ensures two { file_parts 2 2 (text_rows (codes "1\n0\n"))
        ≡ Ok (record { list = 1 ∷ 0 ∷ []; ranks = 2 }) }
    ensures comments { file_parts 3 16 (text_rows (codes "# ranks\r\n 15 # last\r\n\r\n\t0\r\n+07"))
        ≡ Ok (record { list = 15 ∷ 0 ∷ 7 ∷ []; ranks = 16 }) }
    ensures minus_zero { file_parts 1 1 (text_rows (codes "-0"))
        ≡ Ok (record { list = 0 ∷ []; ranks = 1 }) }
    ensures no_cells { file_parts 0 2 (text_rows []) ≡ Ok (record { list = []; ranks = 2 }) }
    ensures comment_alone { file_parts 0 2 (text_rows (codes "# none\n"))
        ≡ Ok (record { list = []; ranks = 2 }) }
{}

/// Faults of parts files of two cells over two ranks, or of no cells, with their lines.
fn faults()
    ensures short { file_parts 2 2 (text_rows (codes "1\n"))
        ≡ Err (record { what = Count; line = 1 }) }
    ensures short_at_end { file_parts 2 2 (text_rows (codes "1\n# end\n\n"))
        ≡ Err (record { what = Count; line = 3 }) }
    ensures empty { file_parts 2 2 (text_rows []) ≡ Err (record { what = Count; line = 0 }) }
    ensures rank { file_parts 2 2 (text_rows (codes "0\n2\n"))
        ≡ Err (record { what = RankRange; line = 2 }) }
    ensures negative { file_parts 2 2 (text_rows (codes "0\n-1\n"))
        ≡ Err (record { what = RankRange; line = 2 }) }
    ensures two_words { file_parts 2 2 (text_rows (codes "0 1\n"))
        ≡ Err (record { what = BadNumber; line = 1 }) }
    ensures no_number { file_parts 2 2 (text_rows (codes "0\n1.0\n"))
        ≡ Err (record { what = BadNumber; line = 2 }) }
    ensures past_cells { file_parts 2 2 (text_rows (codes "0\n1\n0\n"))
        ≡ Err (record { what = Count; line = 3 }) }
    ensures past_cells_first { file_parts 2 2 (text_rows (codes "0\n1\n# next\nx 9\n"))
        ≡ Err (record { what = Count; line = 4 }) }
    ensures past_no_cells { file_parts 0 2 (text_rows (codes "\n0\n"))
        ≡ Err (record { what = Count; line = 2 }) }
    ensures first_line { file_parts 2 2 (text_rows (codes "2\nx\n"))
        ≡ Err (record { what = RankRange; line = 1 }) }
    ensures row_before_count { file_parts 3 2 (text_rows (codes "0\nx\n"))
        ≡ Err (record { what = BadNumber; line = 2 }) }
{}
