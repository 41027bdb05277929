//! Laws of reductions and limits, each the contract of a function that does nothing.

ghost use Rattle.std.specs.Prelude.{◌≡◌, ℕ, ℤ, ◌<◌, ◌^◌};
ghost use Rattle.liszt_base.specs.declared.elements.Op.{Op};
ghost use Rattle.liszt_base.specs.Limits.{file_limit, point_limit, cell_limit, token_limit, depth_limit, name_limit, turn_limit, default_turns, rank_limit, print_limit, word_limit, visit_limit, entry_limit, kept_limit};
ghost use Rattle.liszt_base.specs.Reductions.{InRange, fold, identity_of, word, value};

use crate::limits::{
    CELL_LIMIT, DEFAULT_TURNS, DEPTH_LIMIT, ENTRY_LIMIT, FILE_LIMIT, KEPT_LIMIT, NAME_LIMIT,
    POINT_LIMIT, PRINT_LIMIT, RANK_LIMIT, TOKEN_LIMIT, TURN_LIMIT, VISIT_LIMIT, WORD_LIMIT,
};

/// Each reduction is commutative and associative, has its identity, and keeps numbers in range.
pub fn reductions()
    ensures commutes { (op : Op) (a b : ℤ) → fold op a b ≡ fold op b a }
    ensures associates { (op : Op) (a b c : ℤ) → fold op (fold op a b) c ≡ fold op a (fold op b c) }
    ensures identity { (op : Op) (a : ℤ) → InRange a → fold op (identity_of op) a ≡ a }
    ensures in_range { (op : Op) (a b : ℤ) → InRange a → InRange b → InRange (fold op a b) }
{}

/// Words and the numbers of 64 bits are one for one.
pub fn words()
    ensures back { (a : ℤ) → InRange a → value (word a) ≡ a }
    ensures there { (w : ℕ) → w < 2 ^ 64 → word (value w) ≡ w }
{}

/// The limits of the code are those of the definitions.
pub fn limits()
    ensures file { FILE_LIMIT ≡ file_limit }
    ensures points { POINT_LIMIT ≡ point_limit }
    ensures cells { CELL_LIMIT ≡ cell_limit }
    ensures tokens { TOKEN_LIMIT ≡ token_limit }
    ensures depth { DEPTH_LIMIT ≡ depth_limit }
    ensures name { NAME_LIMIT ≡ name_limit }
    ensures turns { TURN_LIMIT ≡ turn_limit }
    ensures default { DEFAULT_TURNS ≡ default_turns }
    ensures ranks { RANK_LIMIT ≡ rank_limit }
    ensures prints { PRINT_LIMIT ≡ print_limit }
    ensures words { WORD_LIMIT ≡ word_limit }
    ensures visits { VISIT_LIMIT ≡ visit_limit }
    ensures entries { ENTRY_LIMIT ≡ entry_limit }
    ensures kept { KEPT_LIMIT ≡ kept_limit }
{}
