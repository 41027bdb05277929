//! Worked cases of the definitions, which the checker computes. Each function does nothing; its contract is the case.
#![allow(dead_code)]

ghost use Rattle.std.specs.Prelude.{◌≡◌, ◌-◌, [], ◌∷◌, Err, Ok};
ghost use Rattle.liszt_base.specs.Limits.{kept_limit};
ghost use Rattle.liszt_base.specs.MeshLists.{MeshLists};
ghost use Rattle.liszt_base.specs.declared.accesses.Mode.TheVariants.{Read, Reduce, Write};
ghost use Rattle.liszt_base.specs.declared.answers.LimitWhat.TheVariants.{Kept};
ghost use Rattle.liszt_base.specs.declared.elements.Kind.TheVariants.{Cell, Edge, Face, Vertex};
ghost use Rattle.liszt_base.specs.declared.elements.Op.TheVariants.{Add};
ghost use Rattle.liszt_tree.specs.Tree.{no_item};
ghost use Rattle.liszt_tree.specs.Trees.{degrees};
ghost use Rattle.kernel_eval.specs.Iterations.{acts};
ghost use Rattle.mesh_topology.specs.Internal.Meshes.{one_cell, two_cells};
ghost use Rattle.stencil_infer.specs.Internal.Cases.{access, accesses_at, along_cycle, at_outside, branches, degree, first_edge_sets, names_again, over, reads_built_ins, repeats, stops_early, visits_at};
ghost use Rattle.stencil_infer.specs.Stencils.{IsStencil, inferences_from, iteration_accesses, program_inference, stencil_of, stencils, visits};

/// Each edge adds to the degrees of its head and its tail. The stencil lists the lower vertex first.
fn degrees_of_vertices()
    ensures first { iteration_accesses one_cell degree 0
        ≡ access 6 1 (Reduce Add) ∷ access 6 0 (Reduce Add) ∷ [] }
    ensures last { iteration_accesses one_cell degree 5
        ≡ access 6 3 (Reduce Add) ∷ access 6 2 (Reduce Add) ∷ [] }
    ensures stencil { IsStencil one_cell degree 0
        (access 6 0 (Reduce Add) ∷ access 6 1 (Reduce Add) ∷ []) }
    ensures ordered { stencil_of (iteration_accesses one_cell degree 5)
        ≡ access 6 2 (Reduce Add) ∷ access 6 3 (Reduce Add) ∷ [] }
    ensures once { stencil_of (access 7 1 Read ∷ access 6 2 Write ∷ access 7 0 Read
        ∷ access 7 1 Read ∷ access 6 2 Write ∷ [])
        ≡ access 6 2 Write ∷ access 7 0 Read ∷ access 7 1 Read ∷ [] }
    ensures visits { visits one_cell degree ≡ 48 }
{}

/// Both blocks of an `if`, whatever its test; the body of a `while` once; both operands of `&&`.
fn all_ways()
    ensures branches { accesses_at one_cell Vertex branches 2
        ≡ access 6 2 (Reduce Add) ∷ access 7 2 Write ∷ [] }
    ensures repeated { accesses_at one_cell Vertex repeats 1
        ≡ access 6 1 Read ∷ access 7 1 (Reduce Add) ∷ [] }
    ensures operands { accesses_at one_cell Vertex stops_early 3 ≡ access 6 3 Read ∷ [] }
{}

/// At nil there is no access, and over nil there are no members: the first face has no cell outside, the fourth the second cell.
fn nil()
    ensures none { accesses_at two_cells Face at_outside 0 ≡ access 9 0 Read ∷ [] }
    ensures second { accesses_at two_cells Face at_outside 3
        ≡ access 9 0 Read ∷ access 9 1 Write
        ∷ access 6 1 (Reduce Add) ∷ access 6 2 (Reduce Add) ∷ access 6 3 (Reduce Add)
        ∷ access 6 4 (Reduce Add) ∷ [] }
{}

/// Built-in fields are read like others.
fn built_in_fields()
    ensures { accesses_at one_cell Vertex reads_built_ins 2
        ≡ access 0 2 Read ∷ access 3 2 Read ∷ access 6 2 Write ∷ [] }
{}

/// The edges of a cycle in its order; and a name that a loop binds keeps its element after an inner loop, and can be bound again after
/// its own.
fn members()
    ensures cycle { accesses_at one_cell Face along_cycle 0
        ≡ access 8 1 (Reduce Add) ∷ access 8 3 (Reduce Add) ∷ access 8 0 (Reduce Add) ∷ [] }
    ensures again { accesses_at one_cell Edge names_again 4
        ≡ access 6 1 (Reduce Add) ∷ access 6 3 (Reduce Add) ∷ access 7 3 Write ∷ [] }
{}

/// Visits: each expression, each statement and each member, counted by hand.
fn counted_visits()
    ensures branches { visits_at one_cell Vertex branches 0 ≡ 10 }
    ensures repeated { visits_at one_cell Vertex repeats 0 ≡ 8 }
    ensures chain { visits_at one_cell Vertex stops_early 0 ≡ 9 }
    ensures cycle { visits_at one_cell Face along_cycle 0 ≡ 14 }
    ensures nil { visits_at one_cell Face at_outside 0 ≡ 9 }
    ensures again { visits_at one_cell Edge names_again 4 ≡ 26 }
{}

/// The comprehensions of a program: none; one; two in the order of the text. The twelve accesses of the degrees' stencils just fit into
/// what is kept, or pass its limit by one; a second time they pass it, and the fault has the number of the second comprehension.
fn programs()
    ensures none { program_inference one_cell no_item ≡ Ok [] }
    ensures single { program_inference one_cell degrees
        ≡ Ok (record { lists = stencils one_cell degree; visits = 48 } ∷ []) }
    ensures numbered { (mesh : MeshLists)
        → program_inference mesh degrees ≡ inferences_from mesh 0 0 (degree ∷ []) }
    ensures two { inferences_from one_cell 0 0 (degree ∷ over Cell stops_early ∷ [])
        ≡ Ok (record { lists = stencils one_cell degree; visits = 48 }
        ∷ record { lists = stencils one_cell (over Cell stops_early); visits = 9 } ∷ []) }
    ensures fits { inferences_from one_cell 0 (kept_limit - 12) (degree ∷ [])
        ≡ Ok (record { lists = stencils one_cell degree; visits = 48 } ∷ []) }
    ensures passed { inferences_from one_cell 3 (kept_limit - 11) (degree ∷ [])
        ≡ Err (record { what = Kept 3; allowed = 134217728; found = 134217729 }) }
    ensures passed_later { inferences_from one_cell 3 (kept_limit - 12) (degree ∷ degree ∷ [])
        ≡ Err (record { what = Kept 4; allowed = 134217728; found = 134217729 }) }
{}
