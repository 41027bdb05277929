//! Laws of the definitions, each the contract of a function with an empty body.

ghost use Rattle.std.specs.Prelude.{◌≡◌, ◌≢◌, ◌↔◌, ◌+◌, ◌<◌, ◌≤◌, ℕ, List, length, slice_index};
ghost use Rattle.std.specs.List.{All, AllPairs, Contains};
ghost use Rattle.std.specs.List.Sorted.{IsStrictlyIncreasing};
ghost use Rattle.conflict_color.specs.Colours.{AreColours, Conflict, number_of_colours, positions_of};

/// Each list of lists has exactly one list of colours.
pub fn one_colouring()
    ensures exists { (touched : List (List ℕ)) → (colours : List ℕ) × AreColours touched colours }
    ensures unique { (touched : List (List ℕ)) (first second : List ℕ)
        → AreColours touched first → AreColours touched second → first ≡ second }
{}

/// The iterations of a colour are those that have it, ascending, and no two of them are in conflict.
pub fn batches_are_apart()
    ensures ascending { (k : ℕ) (colours : List ℕ) → IsStrictlyIncreasing (positions_of k colours) }
    ensures members { (k i : ℕ) (colours : List ℕ) → Contains (positions_of k colours) i
        ↔ ((i < length colours) × (slice_index colours i ≡ k)) }
    ensures apart { (touched : List (List ℕ)) (colours : List ℕ) (k i j : ℕ) → AreColours touched colours
        → Contains (positions_of k colours) i → Contains (positions_of k colours) j
        → ¬ Conflict touched i j }
{}

/// The number of colours is the least number above all of them.
pub fn number_is_least()
    ensures above { (colours : List ℕ) → All (λ c. c < number_of_colours colours) colours }
    ensures least { (colours : List ℕ) (n : ℕ) → All (λ c. c < n) colours
        → number_of_colours colours ≤ n }
{}

/// The colours are the numbers below their number, which is at most one more than the greatest number of iterations that one
/// iteration is in conflict with.
pub fn few_colours()
    ensures each { (touched : List (List ℕ)) (colours : List ℕ) (c : ℕ) → AreColours touched colours
        → (c < number_of_colours colours) ↔ Contains colours c }
    ensures bound { (touched : List (List ℕ)) (colours : List ℕ) (d : ℕ) → AreColours touched colours
        → ((i : ℕ) (js : List ℕ) → AllPairs (λ j k. j ≢ k) js → All (Conflict touched i) js → length js ≤ d)
        → number_of_colours colours ≤ d + 1 }
{}
