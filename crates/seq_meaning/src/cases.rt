//! Worked cases of the definitions, which the checker computes. Each function does nothing; its contract is the case.
#![allow(dead_code)]

ghost use Rattle.std.specs.Prelude.{◌≡◌, ◌-◌, ◌^◌, Some, None, Ok, [], ◌∷◌, map, pos, neg_ℤ, replicate};
ghost use Rattle.liszt_base.specs.declared.answers.RunEnd.TheVariants.{Done as IsDone};
ghost use Rattle.liszt_base.specs.declared.answers.TrapKind.TheVariants.{Overflow, ZeroDivide, NilElement, Prints, Spent};
ghost use Rattle.liszt_base.specs.declared.elements.Kind.TheVariants.{Cell, Edge, Face, Vertex};
ghost use Rattle.liszt_tree.specs.Tree.{no_item, nowhere};
ghost use Rattle.liszt_tree.specs.Trees.{degrees};
ghost use Rattle.liszt_base.specs.declared.accesses.Mode.TheVariants.{Read, Reduce};
ghost use Rattle.liszt_base.specs.declared.elements.Op.TheVariants.{Add};
ghost use Rattle.liszt_base.specs.Limits.{print_limit};
ghost use Rattle.kernel_eval.specs.Iterations.{acts, end_of, iteration_end, partial};
ghost use Rattle.phase_types.specs.Environments.{scopes_of};
ghost use Rattle.mesh_topology.specs.Internal.Meshes.{one_cell, two_cells};
ghost use Rattle.seq_meaning.specs.Internal.Cases.{acts_and_folds, adds_greatest, an_act, compares_nil, divides_for_nil, first_comprehension, first_state, locals_end, loop_divides, loops_of_iterations, nested_loops, scopes_of_branches, set_of_nil, with_prints, along_cycles, counts_in_iterations, counts_no_ends, counts_to, divides_by_ids, field_in_scope, heat, id_of_nil, least_id, no_cells, placed, reads_built_ins, scalars_end, sides_of_faces, traps_at_element, traps_in_main, wraps_and_traps, writes_heads, writes_twice};
ghost use Rattle.seq_meaning.specs.Paths.{DescendingFields};
ghost use Rattle.seq_meaning.specs.Runs.{print_number, ScopeOpened, ScopeClosed, FieldDeclared, ComprehensionReached, RunEnded, fields_left, path_of, phases_of, prints_of, run_end};

/// The degree of each vertex of one cell and of two.
fn degrees_of_vertices()
    ensures done { run_end one_cell degrees 0 ≡ Some IsDone }
    ensures one { fields_left one_cell degrees 0 ≡ Some ((6, replicate 4 (pos 3)) ∷ []) }
    ensures two { fields_left two_cells degrees 0
        ≡ Some ((6, pos 3 ∷ pos 4 ∷ pos 4 ∷ pos 4 ∷ pos 3 ∷ []) ∷ []) }
{}

/// Fields written and reduced: the sides of faces, heads, an edge written twice, a sum that wraps, edges along cycles, vertices that are no ends.
fn fields_written()
    ensures sides { fields_left two_cells sides_of_faces 0
        ≡ Some ((6, pos 0 ∷ pos 0 ∷ pos 0 ∷ pos 0 ∷ pos 1 ∷ pos 1 ∷ pos 1 ∷ [])
        ∷ (
          7,
          neg_ℤ (pos 1) ∷ neg_ℤ (pos 1) ∷ neg_ℤ (pos 1) ∷ pos 1 ∷ neg_ℤ (pos 1)
              ∷ neg_ℤ (pos 1) ∷ neg_ℤ (pos 1) ∷ [],
        ) ∷ []) }
    ensures heads { fields_left one_cell writes_heads 0
        ≡ Some ((6, pos 0 ∷ pos 1 ∷ pos 1 ∷ pos 1 ∷ []) ∷ []) }
    ensures twice { fields_left one_cell writes_twice 0
        ≡ Some ((6, pos 10 ∷ pos 11 ∷ pos 12 ∷ pos 13 ∷ pos 14 ∷ pos 15 ∷ []) ∷ []) }
    ensures wraps { fields_left two_cells adds_greatest 0
        ≡ Some ((
          6,
          pos (2 ^ 63 - 1) ∷ neg_ℤ (pos 2) ∷ neg_ℤ (pos 2) ∷ neg_ℤ (pos 2)
              ∷ pos (2 ^ 63 - 1) ∷ [],
        ) ∷ []) }
    ensures along { fields_left one_cell along_cycles 0 ≡ Some ((6, replicate 6 (pos 11)) ∷ []) }
    ensures no_ends { fields_left one_cell counts_no_ends 0 ≡ Some ((6, replicate 4 (pos 3)) ∷ []) }
    ensures built_in { fields_left placed reads_built_ins 0
        ≡ Some ((6, pos 17 ∷ pos 999998 ∷ pos 0 ∷ pos 0 ∷ []) ∷ (7, pos 2500000 ∷ []) ∷ []) }
{}

/// A step of heat: each flux leaves one cell and enters the other.
fn heat_flows()
    ensures fields { fields_left two_cells heat 0
        ≡ Some ((6, pos 125 ∷ pos 875 ∷ [])
        ∷ (7, pos 0 ∷ pos 0 ∷ pos 0 ∷ neg_ℤ (pos 125) ∷ pos 0 ∷ pos 0 ∷ pos 0 ∷ []) ∷ []) }
{}

/// Traps with their places and elements: the id of nil, a division by zero in the first iteration that evaluates it, and overflow after a
/// sum that wrapped.
fn traps_with_places()
    ensures nil { run_end one_cell id_of_nil 0 ≡ traps_at_element NilElement 2 33 Face 0 }
    ensures division { run_end one_cell divides_by_ids 0 ≡ traps_at_element ZeroDivide 2 63 Edge 1 }
    ensures wrapped { prints_of one_cell wraps_and_traps 0 ≡ neg_ℤ (pos (2 ^ 63)) ∷ [] }
    ensures overflow { run_end one_cell wraps_and_traps 0 ≡ traps_in_main Overflow 4 9 }
{}

/// With three turns a loop can have three rounds, and the fourth traps at its `while`; each iteration has turns of its own.
fn turns()
    ensures three { prints_of one_cell (counts_to 3) 3 ≡ pos 3 ∷ [] }
    ensures three_done { run_end one_cell (counts_to 3) 3 ≡ Some IsDone }
    ensures fourth { run_end one_cell (counts_to 4) 3 ≡ traps_in_main Spent 2 1 }
    ensures iterations { fields_left one_cell counts_in_iterations 2
        ≡ Some ((6, replicate 6 (pos 2)) ∷ []) }
    ensures iteration_spent { run_end one_cell counts_in_iterations 1
        ≡ traps_at_element Spent 3 1 Edge 0 }
{}

/// The minimum over no cells leaves the scalar unchanged, and the empty program prints nothing.
fn empty_loops()
    ensures least { prints_of no_cells least_id 0 ≡ pos 7 ∷ [] }
    ensures least_of_two { prints_of two_cells least_id 0 ≡ pos 0 ∷ [] }
    ensures nothing { prints_of one_cell no_item 0 ≡ [] }
    ensures done { run_end one_cell no_item 0 ≡ Some IsDone }
{}

/// The path of a run whose loop declares a field twice: scopes, fields, comprehensions and the end, and the state before each phase.
fn paths()
    ensures path { map (λ entry. entry.event) (path_of two_cells field_in_scope 5)
        ≡ ScopeOpened 0 ∷ FieldDeclared 6 (pos 1)
        ∷ ScopeOpened 1 ∷ FieldDeclared 7 (pos 2) ∷ ComprehensionReached 0 ∷ ScopeClosed 1
        ∷ ScopeOpened 1 ∷ FieldDeclared 7 (pos 2) ∷ ComprehensionReached 0 ∷ ScopeClosed 1
        ∷ RunEnded IsDone ∷ [] }
    ensures turns_left { map (λ entry. entry.state.turns) (path_of two_cells field_in_scope 5)
        ≡ 5 ∷ 5 ∷ 4 ∷ 4 ∷ 4 ∷ 4 ∷ 3 ∷ 3 ∷ 3 ∷ 3 ∷ 3 ∷ [] }
    ensures phases { map (λ phase. phase.1.fields) (phases_of two_cells field_in_scope 5)
        ≡ ((7, pos 2 ∷ pos 2 ∷ []) ∷ (6, pos 1 ∷ pos 1 ∷ []) ∷ [])
        ∷ ((7, pos 2 ∷ pos 2 ∷ []) ∷ (6, pos 1 ∷ pos 1 ∷ []) ∷ []) ∷ [] }
    ensures scalars { map (λ phase. phase.1.scalars) (phases_of two_cells field_in_scope 5)
        ≡ ((0, pos 0) ∷ []) ∷ ((0, pos 1) ∷ []) ∷ [] }
    ensures live { map (λ entry. map (λ field. field.0) entry.state.fields)
        (path_of two_cells field_in_scope 5)
        ≡ [] ∷ (6 ∷ []) ∷ (6 ∷ []) ∷ (7 ∷ 6 ∷ []) ∷ (7 ∷ 6 ∷ []) ∷ (6 ∷ [])
        ∷ (6 ∷ []) ∷ (7 ∷ 6 ∷ []) ∷ (7 ∷ 6 ∷ []) ∷ (6 ∷ []) ∷ (6 ∷ []) ∷ [] }
    ensures fields { fields_left two_cells field_in_scope 5 ≡ Some ((6, pos 1 ∷ pos 1 ∷ []) ∷ []) }
    ensures prints { prints_of two_cells field_in_scope 5 ≡ pos 2 ∷ [] }
{}

/// Numbers of fields that descend, and equal ones, which do not.
fn descending_numbers()
    ensures descend { DescendingFields ((9, []) ∷ (7, []) ∷ (6, []) ∷ []) }
    ensures equal { DescendingFields ((9, []) ∷ (7, []) ∷ (7, []) ∷ []) → ⊥ }
    ensures ascend { DescendingFields ((9, []) ∷ (6, []) ∷ (7, []) ∷ []) → ⊥ }
{}

/// Names of a block end with it: a name declared in the body of a loop can be declared again after it.
fn locals()
    ensures { fields_left two_cells locals_end 2 ≡ Some ((6, pos 2 ∷ pos 2 ∷ []) ∷ []) }
{}

/// Loops in loops share the turns of the main program, and each iteration has its own and takes none from it.
fn shared_turns()
    ensures six { run_end one_cell nested_loops 6 ≡ Some IsDone }
    ensures five { run_end one_cell nested_loops 5 ≡ traps_in_main Spent 2 1 }
    ensures three { run_end one_cell nested_loops 3 ≡ traps_in_main Spent 1 1 }
    ensures iterations { prints_of one_cell loops_of_iterations 3 ≡ pos 12 ∷ pos 24 ∷ pos 36 ∷ [] }
    ensures inner { run_end one_cell loops_of_iterations 2 ≡ traps_at_element Spent 2 1 Vertex 0 }
    ensures turns_left { map (λ entry. entry.state.turns) (path_of one_cell loops_of_iterations 2)
        ≡ 2 ∷ 1 ∷ 1 ∷ 1 ∷ [] }
{}

/// The order of evaluation: a test before its turn, a value before its target.
fn order_of_traps()
    ensures test { run_end one_cell loop_divides 0 ≡ traps_in_main ZeroDivide 1 5 }
    ensures value { run_end one_cell divides_for_nil 0 ≡ traps_at_element ZeroDivide 1 5 Face 0 }
    ensures set { run_end one_cell set_of_nil 0 ≡ traps_at_element NilElement 1 3 Face 0 }
{}

/// Nil is the same as nil and as no element, and no orientation points to it.
fn comparisons_with_nil()
    ensures { fields_left two_cells compares_nil 0
        ≡ Some ((6, pos 7 ∷ pos 7 ∷ pos 7 ∷ pos 3 ∷ pos 7 ∷ pos 7 ∷ pos 7 ∷ []) ∷ []) }
{}

/// Acts with the values read and the operands of reductions, the negation for `-=`; the partial reduction of a scalar, up to a trap;
/// and the end of an iteration.
fn acts_of_iterations()
    ensures acts { acts placed (first_comprehension acts_and_folds) 0
        (first_state placed acts_and_folds) 0
        ≡ an_act 4 0 Read (pos 2500000) ∷ an_act 7 0 Read (pos 7)
        ∷ an_act 6 0 (Reduce Add) (neg_ℤ (pos 2500007)) ∷ [] }
    ensures folded { partial two_cells (first_comprehension acts_and_folds) 0
        (first_state two_cells acts_and_folds) 0 0 ≡ Some (neg_ℤ (pos 4)) }
    ensures folded_to_trap { partial two_cells (first_comprehension acts_and_folds) 0
        (first_state two_cells acts_and_folds) 1 0 ≡ Some (neg_ℤ (pos 3)) }
    ensures done { iteration_end two_cells (first_comprehension acts_and_folds) 0
        (first_state two_cells acts_and_folds) 0 ≡ Some IsDone }
    ensures trapped { iteration_end two_cells (first_comprehension acts_and_folds) 0
        (first_state two_cells acts_and_folds) 1 ≡ traps_at_element ZeroDivide 1 5 Cell 1 }
    ensures not_folded { partial two_cells (first_comprehension degrees) 0
        (first_state two_cells degrees) 0 0 ≡ None }
{}

/// Each block that is written is a scope, also an empty one after `else`. A trap in a scope does not close it, and a comprehension that
/// traps leaves the state at entry.
fn scopes()
    ensures numbers { map (λ entry. entry.event) (path_of one_cell scopes_of_branches 0)
        ≡ ScopeOpened 0 ∷ ScopeOpened 3 ∷ ScopeClosed 3 ∷ ScopeOpened 4 ∷ ScopeClosed 4
        ∷ RunEnded IsDone ∷ [] }
    ensures parents { scopes_of scopes_of_branches ≡ replicate 5 0 }
    ensures scalars { map (λ entry. entry.state.scalars) (path_of two_cells acts_and_folds 0)
        ≡ [] ∷ [] ∷ [] ∷ ((0, pos 0) ∷ []) ∷ ((0, pos 0) ∷ []) ∷ [] }
{}

/// The scalars that a scope declares end with it, and others keep the values assigned in it.
fn scalars_of_scopes()
    ensures { map (λ entry. entry.state.scalars) (path_of one_cell scalars_end 0)
        ≡ [] ∷ ((0, pos 1) ∷ []) ∷ ((0, pos 3) ∷ []) ∷ ((0, pos 3) ∷ []) ∷ [] }
{}

/// A run prints `print_limit` numbers, and the next `print` traps.
fn most_prints()
    ensures last { (print_number nowhere (pos 1) (with_prints (print_limit - 1))).answer ≡ Ok tt }
    ensures further { end_of (print_number nowhere (pos 1) (with_prints print_limit)).answer
        ≡ traps_in_main Prints 0 0 }
{}
