//! Worked cases of the definitions, computed by the checker. Each is the contract of a function with an empty body.
#![allow(dead_code)]

ghost use Rattle.std.specs.Prelude.{◌≡◌, [], ◌∷◌};
ghost use Rattle.conflict_color.specs.Colours.{AreColours, Conflict, number_of_colours, positions_of};
ghost use Rattle.conflict_color.specs.Internal.Cases.{tetrahedron_edges};

/// The six edges of a tetrahedron, each of which touches its two vertices.
fn edges_of_a_tetrahedron()
    ensures opposite { ¬ Conflict tetrahedron_edges 0 5 }
    ensures adjacent { Conflict tetrahedron_edges 0 1 }
    ensures itself { ¬ Conflict tetrahedron_edges 2 2 }
    ensures colours { AreColours tetrahedron_edges (0 ∷ 1 ∷ 2 ∷ 2 ∷ 1 ∷ 0 ∷ []) }
{}

/// A colour without iterations below the greatest, and no colours.
fn batches_of_lists()
    ensures count { number_of_colours (0 ∷ 1 ∷ 2 ∷ 2 ∷ 1 ∷ 0 ∷ []) ≡ 3 }
    ensures first { positions_of 0 (0 ∷ 1 ∷ 2 ∷ 2 ∷ 1 ∷ 0 ∷ []) ≡ 0 ∷ 5 ∷ [] }
    ensures last { positions_of 2 (0 ∷ 1 ∷ 2 ∷ 2 ∷ 1 ∷ 0 ∷ []) ≡ 2 ∷ 3 ∷ [] }
    ensures gap { positions_of 1 (0 ∷ 2 ∷ []) ≡ [] }
    ensures past_gap { number_of_colours (0 ∷ 2 ∷ []) ≡ 3 }
    ensures none { number_of_colours [] ≡ 0 }
{}
