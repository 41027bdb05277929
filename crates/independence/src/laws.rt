//! The laws, each the contract of a function that does nothing.

ghost use Rattle.std.specs.Prelude.{◌≡◌, ◌<◌, ◌++◌, ◌∷◌, ℕ, ℤ, IsPermutation, List, Ok, Some};
ghost use Rattle.std.specs.List.{fold};
ghost use Rattle.liszt_base.specs.MeshLists.{MeshLists};
ghost use Rattle.liszt_base.specs.Reductions.{fold as folded};
ghost use Rattle.liszt_base.specs.declared.accesses.Mode.TheVariants.{Reduce};
ghost use Rattle.liszt_base.specs.declared.accesses.Spot.{Spot};
ghost use Rattle.liszt_base.specs.declared.answers.RunEnd.TheVariants.{Trap as IsTrap};
ghost use Rattle.liszt_base.specs.declared.answers.Trap.{Trap};
ghost use Rattle.liszt_base.specs.declared.elements.Op.{Op};
ghost use Rattle.liszt_tree.specs.Tree.{Main};
ghost use Rattle.mesh_topology.specs.Elements.{count};
ghost use Rattle.phase_types.specs.Environments.{Comprehension};
ghost use Rattle.phase_types.specs.Typed.{ComprehensionFits};
ghost use Rattle.phase_types.specs.Walk.{OfScalar, mode_in};
ghost use Rattle.kernel_eval.specs.Iterations.{end_of, iteration_end};
ghost use Rattle.kernel_eval.specs.Preservation.{value_after_acts};
ghost use Rattle.kernel_eval.specs.States.{State, scalar_value, value_in};
ghost use Rattle.seq_meaning.specs.Runs.{iterations};
ghost use Rattle.independence.specs.Independence.{AgreeFor, AreDone, AreIterations, CanRunFrom, DoesTheSame, HasNoClash, acts_of, partials_of};

/// An iteration does the same from all states that agree on what its comprehension reads.
pub fn iterations_depend_on_reads_alone()
    ensures { (program : Main) (k : ℕ) (c : Comprehension) (mesh : MeshLists) (turns : ℕ)
        (s t : State) (id : ℕ)
        → CanRunFrom program k c mesh s → AgreeFor c s t → id < count mesh c.over
        → DoesTheSame mesh c turns s t id }
{}

/// Whatever iterations leave, in any order and also if one of them trapped, agrees with the state before them on what the comprehension
/// reads.
pub fn iterations_leave_reads()
    ensures { (mesh : MeshLists) (c : Comprehension) (turns : ℕ) (s : State) (ids : List ℕ)
        → ComprehensionFits c → AgreeFor c s (iterations mesh c turns ids s).after }
{}

/// If no iteration of a list traps, all of them end, and the values afterwards are those of their acts and partials from the state
/// before them.
pub fn iterations_apply_acts()
    ensures done { (program : Main) (k : ℕ) (c : Comprehension) (mesh : MeshLists) (turns : ℕ)
        (s : State) (ids : List ℕ)
        → CanRunFrom program k c mesh s → AreIterations mesh c ids
        → AreDone mesh c turns s ids
        → (iterations mesh c turns ids s).answer ≡ Ok tt }
    ensures values { (program : Main) (k : ℕ) (c : Comprehension) (mesh : MeshLists) (turns : ℕ)
        (s : State) (ids : List ℕ)
        → CanRunFrom program k c mesh s → AreIterations mesh c ids
        → AreDone mesh c turns s ids → (spot : Spot)
        → value_in (iterations mesh c turns ids s).after.fields spot
        ≡ value_after_acts spot (value_in s.fields spot) (acts_of mesh c turns s ids) }
    ensures scalars { (program : Main) (k : ℕ) (c : Comprehension) (mesh : MeshLists) (turns : ℕ)
        (s : State) (ids : List ℕ) (scalar : ℕ) (op : Op) (old : ℤ)
        → CanRunFrom program k c mesh s → AreIterations mesh c ids
        → AreDone mesh c turns s ids
        → mode_in c (OfScalar scalar) ≡ Some (Reduce op) → scalar_value s scalar ≡ Some old
        → scalar_value (iterations mesh c turns ids s).after scalar
        ≡ Some (fold (folded op) old (partials_of mesh c turns s scalar ids)) }
{}

/// Without a clash, and if no iteration traps, every order of the iterations gives each spot and each reduced scalar the same value.
pub fn order_is_ignored()
    ensures values { (program : Main) (k : ℕ) (c : Comprehension) (mesh : MeshLists) (turns : ℕ)
        (s : State) (ids others : List ℕ)
        → CanRunFrom program k c mesh s → AreIterations mesh c ids
        → AreDone mesh c turns s ids → HasNoClash mesh c
        → IsPermutation ids others → (spot : Spot)
        → value_in (iterations mesh c turns others s).after.fields spot
        ≡ value_in (iterations mesh c turns ids s).after.fields spot }
    ensures scalars { (program : Main) (k : ℕ) (c : Comprehension) (mesh : MeshLists) (turns : ℕ)
        (s : State) (ids others : List ℕ) (scalar : ℕ) (op : Op) (old : ℤ)
        → CanRunFrom program k c mesh s → AreIterations mesh c ids
        → AreDone mesh c turns s ids
        → mode_in c (OfScalar scalar) ≡ Some (Reduce op) → scalar_value s scalar ≡ Some old
        → IsPermutation ids others
        → scalar_value (iterations mesh c turns others s).after scalar
        ≡ scalar_value (iterations mesh c turns ids s).after scalar }
{}

/// The trap that ends iterations is that of the first one that traps from the state before all of them.
pub fn first_trap_ends()
    ensures { (program : Main) (k : ℕ) (c : Comprehension) (mesh : MeshLists) (turns : ℕ) (s : State)
        (earlier later : List ℕ) (id : ℕ) (trap : Trap)
        → CanRunFrom program k c mesh s
        → AreIterations mesh c (earlier ++ id ∷ later)
        → AreDone mesh c turns s earlier → iteration_end mesh c turns s id ≡ Some (IsTrap trap)
        → end_of (iterations mesh c turns (earlier ++ id ∷ later) s).answer ≡ Some (IsTrap trap) }
{}
