//! Laws of the definitions, each the contract of a function with an empty body.

ghost use Rattle.std.specs.Prelude.{◌≡◌, ◌≢◌, ◌↔◌, ℕ, List, [], length, slice_index_or};
ghost use Rattle.std.specs.List.{Contains};
ghost use Rattle.liszt_base.specs.declared.accesses.Access.{Access};
ghost use Rattle.liszt_base.specs.declared.accesses.Spot.{Spot};
ghost use Rattle.write_conflicts.specs.Conflicts.{AreTouched, Conflict, IsFirstClash};

/// There is at most one first clash.
pub fn one_first_clash()
    ensures { (lists : List (List Access)) (spot other : Spot) (first second i j : ℕ)
        → IsFirstClash lists spot first second → IsFirstClash lists other i j
        → (spot ≡ other) × (first ≡ i) × (second ≡ j) }
{}

/// What each iteration touches is determined by the accesses, and there is a list for each iteration.
pub fn one_touched()
    ensures unique { (lists : List (List Access)) (touched other : List (List ℕ))
        → AreTouched lists touched → AreTouched lists other → touched ≡ other }
    ensures one_each { (lists : List (List Access)) (touched : List (List ℕ))
        → AreTouched lists touched → length touched ≡ length lists }
{}

/// Two different iterations touch one number exactly where they are in conflict.
pub fn touched_share_numbers()
    ensures { (lists : List (List Access)) (touched : List (List ℕ)) (i j : ℕ) → AreTouched lists touched
        → i ≢ j → ((n : ℕ) × Contains (slice_index_or touched i []) n
        × Contains (slice_index_or touched j []) n) ↔ Conflict lists i j }
{}
