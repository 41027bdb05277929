//! Worked cases of the definitions, which the checker computes. Each function does nothing; its contract is the case.
#![allow(dead_code)]

ghost use Rattle.std.specs.Prelude.{◌≡◌, ◌+◌, ℕ, [], ◌∷◌, Ok, Err, None, Some, map, replicate};
ghost use Rattle.std.specs.List.{range_with_len};
ghost use Rattle.liszt_base.specs.declared.answers.LimitWhat.TheVariants.{Words};
ghost use Rattle.word_region.specs.Regions.{chain, first_word_of, peak_of, planned};

/// The chains of scopes: 1 and 2 in 0, 3 in 2, and of none.
fn chains()
    ensures outermost { chain (0 ∷ 0 ∷ 0 ∷ 2 ∷ []) (Some 0) ≡ 0 ∷ [] }
    ensures inner { chain (0 ∷ 0 ∷ 0 ∷ 2 ∷ []) (Some 3) ≡ 3 ∷ 2 ∷ 0 ∷ [] }
    ensures none { chain (0 ∷ 0 ∷ 0 ∷ 2 ∷ []) None ≡ [] }
{}

/// Two scopes side by side share words after those of the scope around them: 5 words, then 3 or 6.
fn shared_words()
    ensures first { first_word_of (0 ∷ 0 ∷ 0 ∷ []) ((0, 5) ∷ (1, 3) ∷ (2, 6) ∷ []) 6 ≡ 1 }
    ensures second { first_word_of (0 ∷ 0 ∷ 0 ∷ []) ((0, 5) ∷ (1, 3) ∷ (2, 6) ∷ []) 7 ≡ 6 }
    ensures third { first_word_of (0 ∷ 0 ∷ 0 ∷ []) ((0, 5) ∷ (1, 3) ∷ (2, 6) ∷ []) 8 ≡ 6 }
    ensures peak { peak_of (0 ∷ 0 ∷ 0 ∷ []) ((0, 5) ∷ (1, 3) ∷ (2, 6) ∷ []) ≡ 11 }
    ensures none { peak_of (0 ∷ 0 ∷ []) [] ≡ 0 }
{}

/// Fields of one scope follow one another, whatever is declared between them, also where a size is 0.
fn fields_in_order()
    ensures first { first_word_of (0 ∷ 0 ∷ []) ((0, 2) ∷ (1, 4) ∷ (0, 0) ∷ (0, 3) ∷ []) 6 ≡ 1 }
    ensures inner { first_word_of (0 ∷ 0 ∷ []) ((0, 2) ∷ (1, 4) ∷ (0, 0) ∷ (0, 3) ∷ []) 7 ≡ 6 }
    ensures empty { first_word_of (0 ∷ 0 ∷ []) ((0, 2) ∷ (1, 4) ∷ (0, 0) ∷ (0, 3) ∷ []) 8 ≡ 3 }
    ensures last { first_word_of (0 ∷ 0 ∷ []) ((0, 2) ∷ (1, 4) ∷ (0, 0) ∷ (0, 3) ∷ []) 9 ≡ 3 }
{}

/// Two scopes of 4 and 5 words under an empty one fit 5 words, though there are 9 in all, and do not fit 4.
fn limits()
    ensures fits { planned (0 ∷ 0 ∷ 0 ∷ []) ((1, 4) ∷ (2, 5) ∷ []) 5
        ≡ Ok (record {
          scopes = 0 ∷ 0 ∷ 0 ∷ [];
          sizes = (1, 4) ∷ (2, 5) ∷ [];
          innermost = None;
        }) }
    ensures exceeds { planned (0 ∷ 0 ∷ 0 ∷ []) ((1, 4) ∷ (2, 5) ∷ []) 4
        ≡ Err (record { what = Words; allowed = 4; found = 5 }) }
{}
