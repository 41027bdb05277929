//! What the rule of ownership says, each law the contract of a function that does nothing.

ghost use Rattle.std.specs.Prelude.{◌≡◌, ◌≢◌, ◌⊎◌, ◌+◌, ◌<◌, ◌≤◌, ℕ, ℤ, List, [], length, slice_index};
ghost use Rattle.std.specs.declared.option.Option.TheVariants.{Some};
ghost use mathlib.Core.Option.{some};
ghost use lib.ListN.{get_elem?};
ghost use Rattle.liszt_base.specs.Reductions.{value};
ghost use Rattle.batch_core.specs.declared.acts.Act.{Act};
ghost use Rattle.batch_core.specs.Machine.{register_after, word, words_after};
ghost use Rattle.field_words.specs.declared.view.View.{View};
ghost use Rattle.field_words.specs.Events.{HaveValues, IsEvent};
ghost use Rattle.field_words.specs.Holdings.{Holding};
ghost use Rattle.field_words.specs.Maps.{value_in, occurrences};
ghost use Rattle.field_words.specs.Views.{full_share};
ghost use Rattle.field_words.specs.Ownership.{TableState, IsOwned, total};

/// A map has the present value of each of its words. No word is in two own maps, or in an own and a frozen map. Views with a share
/// have one frozen map. Each word from 1 to n is in an own map or frozen. The shares add up to the full share, and a view without
/// a share has empty maps.
pub fn ownership()
    ensures own { (n : ℕ) (s : TableState) → IsOwned n s → (j x : ℕ) (v : View) (u : ℤ)
        → get_elem? s.views j ≡ some v → value_in v.own x ≡ Some u
        → value (slice_index s.words x) ≡ u }
    ensures frozen { (n : ℕ) (s : TableState) → IsOwned n s → (j x : ℕ) (v : View) (u : ℤ)
        → get_elem? s.views j ≡ some v → value_in v.frozen x ≡ Some u
        → value (slice_index s.words x) ≡ u }
    ensures owned_once { (n : ℕ) (s : TableState) → IsOwned n s → (i j x : ℕ) (v w : View)
        → j ≢ i → get_elem? s.views i ≡ some v → get_elem? s.views j ≡ some w
        → occurrences x v.own + occurrences x w.own ≤ 1 }
    ensures owned_is_not_frozen { (n : ℕ) (s : TableState) → IsOwned n s → (i j x : ℕ)
        (v w : View) → get_elem? s.views i ≡ some v → get_elem? s.views j ≡ some w
        → occurrences x v.own + occurrences x w.frozen ≤ 1 }
    ensures one_frozen_map { (n : ℕ) (s : TableState) → IsOwned n s → (i j : ℕ) (v w : View)
        → get_elem? s.views i ≡ some v → get_elem? s.views j ≡ some w
        → 0 < v.share → 0 < w.share → v.frozen ≡ w.frozen }
    ensures owned_or_frozen { (n : ℕ) (s : TableState) → IsOwned n s → (x : ℕ) → 0 < x → x ≤ n
        → (j : ℕ) × (v : View) × (get_elem? s.views j ≡ some v)
        × ((occurrences x v.own ≡ 1) ⊎ (occurrences x v.frozen ≡ 1)) }
    ensures shares { (n : ℕ) (s : TableState) → IsOwned n s → total (λ v. v.share) s.views
        ≡ full_share }
    ensures spent { (n : ℕ) (s : TableState) → IsOwned n s → (j : ℕ) (v : View)
        → get_elem? s.views j ≡ some v → v.share ≡ 0 → (v.own ≡ []) × (v.frozen ≡ []) }
{}

/// An event through a seat does to the seat's own words and to the worker's register what its act does in the batch machine.
pub fn events_are_acts()
    ensures { (a : Act) (words : List ℤ) (h k : Holding) (register after : ℤ)
        → word a < length words → HaveValues words h.own → IsEvent a h register k after
        → HaveValues (words_after words register a) k.own
        × (after ≡ register_after words register a) }
{}
