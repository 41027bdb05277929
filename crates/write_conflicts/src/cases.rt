//! Worked cases of the definitions, computed by the checker. Each is the contract of a function with an empty body.
#![allow(dead_code)]

ghost use Rattle.std.specs.Prelude.{◌≡◌, [], ◌∷◌, false, true};
ghost use Rattle.write_conflicts.specs.Conflicts.{entries, precedes, AreTouched, Clash, Conflict, IsFirstClash};
ghost use Rattle.write_conflicts.specs.Internal.Cases.{at, reducing_lists, writing_lists};

/// The field decides before the id.
fn spots_in_order()
    ensures fields { precedes (at 0 9) (at 1 5) ≡ true }
    ensures ids { precedes (at 1 5) (at 1 9) ≡ true }
    ensures itself { precedes (at 1 5) (at 1 5) ≡ false }
{}

/// Reads and writes are no conflict with a reduction, and operators make no difference.
fn reductions()
    ensures both { Conflict reducing_lists 0 2 }
    ensures read { ¬ Conflict reducing_lists 0 1 }
    ensures itself { ¬ Conflict reducing_lists 2 2 }
    ensures touched { AreTouched reducing_lists ((1 ∷ []) ∷ [] ∷ (0 ∷ 1 ∷ []) ∷ []) }
    ensures count { entries reducing_lists ≡ 6 }
{}

/// Of two clashes the one of the first spot, and of its three iterations the least two.
fn writes()
    ensures later_spot { Clash writing_lists (at 1 2) 0 1 }
    ensures itself { ¬ Clash writing_lists (at 1 2) 1 1 }
    ensures least_spot { ¬ IsFirstClash writing_lists (at 1 2) 0 1 }
    ensures least_iterations { ¬ IsFirstClash writing_lists (at 0 4) 0 3 }
    ensures first { IsFirstClash writing_lists (at 0 4) 0 2 }
{}
