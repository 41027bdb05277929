//! Laws of the definitions, each the contract of a function that does nothing.

ghost use Rattle.std.specs.List.{AllByRecursion};
ghost use Rattle.std.specs.Prelude.{◌+◌, ◌≡◌, ◌≤◌, ℕ, List, Ok, Some, is_some, length, slice_get, true};
ghost use Rattle.liszt_base.specs.MeshLists.{MeshLists};
ghost use Rattle.liszt_base.specs.Corners.{IsMesh};
ghost use Rattle.mesh_topology.specs.Elements.{corner_lists};
ghost use Rattle.liszt_base.specs.declared.answers.Place.{Place};
ghost use Rattle.liszt_base.specs.declared.answers.RunEnd.TheVariants.{Done as IsDone};
ghost use Rattle.liszt_base.specs.declared.answers.TrapKind.TheVariants.{Spent};
ghost use Rattle.liszt_tree.specs.Tree.{Expression, Main, MainWhile};
ghost use Rattle.kernel_eval.specs.Meaning.{trap};
ghost use Rattle.phase_types.specs.Checked.{checked_program};
ghost use Rattle.phase_types.specs.declared.info.FieldInfo.{FieldInfo};
ghost use Rattle.phase_types.specs.declared.state.CheckedProgram.{CheckedProgram as Parts};
ghost use Rattle.phase_types.specs.Environments.{Comprehension, Site, block_start, fields_of, first_declared, next_scope, parts_of, start};
ghost use Rattle.phase_types.specs.Typed.{ComprehensionFits, IsTyped};
ghost use Rattle.phase_types.specs.Walk.{OfField, mode_in};
ghost use Rattle.kernel_eval.specs.Fits.{IsLive};
ghost use Rattle.kernel_eval.specs.Preservation.{ChangesNothing, Commutes, field_values, loop_unfolded};
ghost use Rattle.kernel_eval.specs.States.{State, field_lengths, known_scalars};
ghost use Rattle.seq_meaning.specs.MainCode.{IsCode};
ghost use Rattle.seq_meaning.specs.Paths.{DescendingFields, EntryFits, Extends};
ghost use Rattle.seq_meaning.specs.Runs.{Entry, Progress, comprehension, in_program, in_scope, item_meaning, iterations, main_meaning, path_of, program_turns, run, run_end, truth_at, with_earlier_path};

/// A comprehension changes no field that it does not write or reduce, and does not change the turns of the main program.
pub fn comprehensions_preserve_other_fields()
    ensures fields { (mesh : MeshLists) (c : Comprehension) (turns : ℕ) (s : State) (field : ℕ)
        → ComprehensionFits c
        → ChangesNothing (mode_in c (OfField field))
        → field_values (comprehension mesh c turns s).after field ≡ field_values s field }
    ensures turns { (mesh : MeshLists) (c : Comprehension) (turns : ℕ) (s : State)
        → (comprehension mesh c turns s).after.turns ≡ s.turns }
{}

/// Iterations over any list of ids leave the prints as they were, the same fields, each with as many values, and the same scalars, also
/// if one of them traps.
pub fn iterations_leave_prints_and_parts()
    ensures prints { (mesh : MeshLists) (c : Comprehension) (turns : ℕ) (ids : List ℕ) (s : State)
        → ComprehensionFits c
        → (iterations mesh c turns ids s).after.prints ≡ s.prints }
    ensures fields { (mesh : MeshLists) (c : Comprehension) (turns : ℕ) (ids : List ℕ) (s : State)
        → field_lengths (iterations mesh c turns ids s).after ≡ field_lengths s }
    ensures scalars { (mesh : MeshLists) (c : Comprehension) (turns : ℕ) (ids : List ℕ) (s : State)
        → known_scalars (iterations mesh c turns ids s).after ≡ known_scalars s }
{}

/// No program reads the path so far: after a longer one it gives the same answer, and appends the same.
pub fn the_path_is_never_read()
    ensures { (mesh : MeshLists) (turns : ℕ) (site : Site) (program : Main) (path : List Entry)
        → Commutes (with_earlier_path path) (main_meaning mesh turns site program) }
{}

/// No program takes anything back from the path: afterwards it is the path at entry and then further entries.
pub fn later_paths_extend_earlier_ones()
    ensures { (mesh : MeshLists) (turns : ℕ) (site : Site) (program : Main) (p : Progress)
        → Extends p.path (main_meaning mesh turns site program p).after.path }
{}

/// No program increases the number of turns, and a `while` of the main program unfolds: its test; if that is true, a turn, its block,
/// and the same `while` again; if no turn remains, a trap. So turns are its only bound.
pub fn main_loops_unfold()
    ensures turns { (mesh : MeshLists) (turns : ℕ) (site : Site) (program : Main) (p : Progress)
        → (main_meaning mesh turns site program p).after.state.turns ≤ p.state.turns }
    ensures unfolded { (mesh : MeshLists) (turns : ℕ) (site : Site) (place : Place)
        (test : Expression) (body : Main) (p : Progress)
        → item_meaning mesh turns site (MainWhile place test body) p
        ≡ loop_unfolded program_turns (in_program (trap Spent place)) (truth_at mesh site test)
        (in_scope (next_scope site) (main_meaning mesh turns (block_start site) body))
        (item_meaning mesh turns site (MainWhile place test body)) p }
{}

/// A typed program has a meaning: its run ends, done or by a trap.
pub fn typed_programs_end()
    ensures { (mesh : MeshLists) (program : Main) (turns : ℕ)
        → IsMesh (length mesh.points) (corner_lists mesh) → IsTyped program
        → is_some (run_end mesh program turns) ≡ true }
{}

/// The code of a checked program is that of its items, from the start of the program: each item has its code, with the numbers of the
/// part that it declares, and the code of each expression gives its answer.
pub fn checked_programs_are_code()
    ensures { (program : Main) (checked : Parts) → checked_program program ≡ Ok checked
        → IsCode (parts_of program) start program checked.items }
{}

/// Each entry of the path of a typed program fits it, and the numbers of the fields descend in the last state too.
pub fn entries_fit_their_program()
    ensures entries { (mesh : MeshLists) (program : Main) (turns : ℕ) → IsTyped program
        → AllByRecursion (EntryFits mesh program) (path_of mesh program turns) }
    ensures fields { (mesh : MeshLists) (program : Main) (turns : ℕ) → IsTyped program
        → DescendingFields (run mesh program turns).after.state.fields }
{}

/// When a typed program is done, each field of its outermost scope is live, with a value for each element of its kind.
pub fn outermost_fields_are_live_at_the_end()
    ensures { (mesh : MeshLists) (program : Main) (turns index : ℕ) (info : FieldInfo)
        → IsTyped program → run_end mesh program turns ≡ Some IsDone
        → slice_get (fields_of program) index ≡ Some info → info.scope ≡ 0
        → IsLive mesh (run mesh program turns).after.state (first_declared + index) info.kind }
{}
