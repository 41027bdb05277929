//! Laws of the definitions, each the contract of a function that does nothing.

ghost use Rattle.liszt_base.specs.MeshLists.{MeshLists};
ghost use Rattle.std.specs.Prelude.{◌++◌, ◌∷◌, ◌<◌, ◌≡◌, ℕ, ℤ, Err, List, None, Ok, Option, Some, is_some, length, slice_get, true};
ghost use Rattle.std.specs.Option.{option_map};
ghost use Rattle.std.specs.Str.{bytes_eq};
ghost use Rattle.liszt_base.specs.Corners.{IsMesh};
ghost use Rattle.std.specs.List.{AllByRecursion};
ghost use Rattle.liszt_base.specs.declared.answers.Place.{Place};
ghost use Rattle.liszt_base.specs.Reductions.{InRange, fold};
ghost use Rattle.liszt_base.specs.declared.accesses.Mode.TheVariants.{Reduce};
ghost use Rattle.liszt_base.specs.declared.accesses.Spot.{Spot};
ghost use Rattle.liszt_base.specs.declared.elements.Elem.{Elem};
ghost use Rattle.liszt_base.specs.declared.elements.Kind.{Kind};
ghost use Rattle.liszt_base.specs.declared.elements.Op.{Op};
ghost use Rattle.liszt_base.specs.declared.answers.TrapKind.TheVariants.{Spent};
ghost use Rattle.liszt_tree.specs.declared.tree.How.{How};
ghost use Rattle.liszt_tree.specs.Tree.{Body, Expression, Main, Statement, While, statement};
ghost use Rattle.mesh_topology.specs.Elements.{corner_lists, count};
ghost use Rattle.resolved_code.specs.declared.items.ComprehensionCode.{ComprehensionCode};
ghost use Rattle.phase_types.specs.Checked.{IsChecked, checked_kind, checked_program};
ghost use Rattle.phase_types.specs.declared.state.CheckedProgram.{CheckedProgram};
ghost use Rattle.phase_types.specs.Environments.{Binding, Comprehension, Environment, comprehension_of, lookup};
ghost use Rattle.phase_types.specs.Typed.{ComprehensionFits};
ghost use Rattle.phase_types.specs.Walk.{OfField, OfScalar, mode_in};
ghost use Rattle.code_eval.specs.Meaning.{body_execution};
ghost use Rattle.code_eval.specs.Stores.{Admits, HasActed, StoreView};
ghost use Rattle.code_eval.specs.declared.activation.Activation.{Activation};
ghost use Rattle.kernel_eval.specs.CodeIterations.{IsReady, HasValues, DoesIteration};
ghost use Rattle.kernel_eval.specs.Expressions.{element_value, elements_after};
ghost use Rattle.kernel_eval.specs.Fits.{StateFits};
ghost use Rattle.kernel_eval.specs.HeldFields.{HasRoomFor, HoldsFields, HoldsScalars};
ghost use Rattle.kernel_eval.specs.Iterations.{acts, iteration, iteration_end, partial};
ghost use Rattle.kernel_eval.specs.Preservation.{ChangesNothing, FoldsByTheMode, HasNoMoreTurns, HasTheMode, Preserves, ActsDetermineFields, ActsDetermineValues, Commutes, with_earlier, field_values, loop_unfolded, scalars_after};
ghost use Rattle.kernel_eval.specs.Running.{CanIterate, HasBegun};
ghost use Rattle.kernel_eval.specs.Outcomes.{Stop, halt, pure};
ghost use Rattle.kernel_eval.specs.States.{Act, EvaluationState, ScalarFold, State, field_lengths, known_scalars, local_bound_to, main_evaluation, scalar_value};
ghost use Rattle.kernel_eval.specs.Meaning.{ElementValue, assign_name, assigned_value, body_meaning, meaning, in_block, evaluation_turns, statement_meaning, trap, truth_in};

/// No body increases the number of turns.
pub fn turns_do_not_increase()
    ensures { (mesh : MeshLists) (environment : Environment) (body : Body)
        → Preserves HasNoMoreTurns (body_meaning mesh environment body) }
{}

/// The fields after a body are those at entry with the acts of the body applied in order, also if it traps. So a field that no act
/// writes or reduces is unchanged.
pub fn acts_determine_fields()
    ensures { (mesh : MeshLists) (environment : Environment) (body : Body)
        → Preserves ActsDetermineFields (body_meaning mesh environment body) }
{}

/// The value at a spot after a body is that at entry with the acts of the body applied in order, also if it traps: a write replaces
/// it, a reduction folds it, and acts at other spots leave it as it is.
pub fn acts_determine_values()
    ensures { (mesh : MeshLists) (environment : Environment) (body : Body)
        → Preserves ActsDetermineValues (body_meaning mesh environment body) }
{}

/// An assignment to a local number changes the binding in scope, which is the latest of the name, and nothing else.
pub fn assignments_change_one_local()
    ensures { (name : List ℕ) (how : How) (n old : ℤ) (global : Option Binding)
        (m : EvaluationState) (newer older : List (List ℕ × ℤ))
        → m.locals ≡ newer ++ (name, old) ∷ older → lookup (bytes_eq name) newer ≡ None
        → assign_name name how n (local_bound_to m name) global m
        ≡ pure tt (record m { locals = newer ++ (name, assigned_value how old n) ∷ older }) }
{}

/// What an expression gives as an element, or nil, is what the bindings of element names alone give, from every state; and it changes
/// nothing and makes no act.
pub fn elements_depend_on_bindings_alone()
    ensures { (mesh : MeshLists) (environment : Environment) (e : Expression) (m : EvaluationState)
        (x : Option Elem)
        → (meaning mesh environment e m).answer ≡ Ok (ElementValue x)
        → (element_value mesh m.elements e ≡ Some x)
        × ((meaning mesh environment e m).after ≡ m) }
{}

/// The end of a block restores the bindings of elements from before it: no element name is assigned. Of the statements `val` alone
/// changes them.
pub fn blocks_restore_elements()
    ensures blocks { (mesh : MeshLists) (environment : Environment) (body : Body) (m : EvaluationState)
        → (in_block (body_meaning mesh environment body) m).answer ≡ Ok tt
        → (in_block (body_meaning mesh environment body) m).after.elements ≡ m.elements }
    ensures statements { (mesh : MeshLists) (environment : Environment) (s : Statement)
        (m : EvaluationState)
        → (statement_meaning mesh environment s m).answer ≡ Ok tt
        → (statement_meaning mesh environment s m).after.elements
        ≡ elements_after mesh m.elements s }
{}

/// No body reads the acts and reductions so far: from a state that has further ones it gives the same answer, and appends the same.
pub fn acts_are_never_read()
    ensures { (mesh : MeshLists) (environment : Environment) (body : Body) (acts : List Act)
        (folds : List ScalarFold)
        → Commutes (with_earlier acts folds) (body_meaning mesh environment body) }
{}

/// An expression of the main program gives the same answer over every mesh and from all states with the same scalars, and it changes
/// nothing.
pub fn main_expressions_depend_on_scalars_alone()
    ensures answer { (mesh other : MeshLists) (environment : Environment) (e : Expression) (s t : State)
        → t.scalars ≡ s.scalars
        → (meaning other environment e (main_evaluation t)).answer
        ≡ (meaning mesh environment e (main_evaluation s)).answer }
    ensures unchanged { (mesh : MeshLists) (environment : Environment) (e : Expression) (s : State)
        → (meaning mesh environment e (main_evaluation s)).after ≡ main_evaluation s }
{}

/// The scalars after an iteration are those before with its reductions applied in order, also if it traps. A scalar that the
/// comprehension does not reduce is unchanged, and so are the prints.
pub fn reductions_determine_scalars()
    ensures scalars { (mesh : MeshLists) (c : Comprehension) (turns : ℕ) (s : State) (id : ℕ)
        → ComprehensionFits c
        → (iteration mesh c turns s id).after.state.scalars
        ≡ scalars_after s.scalars (iteration mesh c turns s id).after.folds }
    ensures unreduced { (mesh : MeshLists) (c : Comprehension) (turns : ℕ) (s : State) (id scalar : ℕ)
        → ComprehensionFits c
        → ChangesNothing (mode_in c (OfScalar scalar))
        → scalar_value (iteration mesh c turns s id).after.state scalar ≡ scalar_value s scalar }
    ensures prints { (mesh : MeshLists) (c : Comprehension) (turns : ℕ) (s : State) (id : ℕ)
        → ComprehensionFits c
        → (iteration mesh c turns s id).after.state.prints ≡ s.prints }
{}

/// A scalar that a comprehension reduces by an operator is, after an iteration, its value before folded with the partial reduction of
/// the iteration.
pub fn reductions_fold_partials()
    ensures { (mesh : MeshLists) (c : Comprehension) (turns : ℕ) (s : State) (id scalar : ℕ)
        (op : Op) (old : ℤ)
        → ComprehensionFits c
        → mode_in c (OfScalar scalar) ≡ Some (Reduce op)
        → scalar_value s scalar ≡ Some old → InRange old
        → scalar_value (iteration mesh c turns s id).after.state scalar
        ≡ option_map (fold op old) (partial mesh c turns s id scalar) }
{}

/// An iteration leaves the same fields, each with as many values, and the same scalars, also if it traps.
pub fn iterations_leave_the_same_parts()
    ensures fields { (mesh : MeshLists) (c : Comprehension) (turns : ℕ) (s : State) (id : ℕ)
        → field_lengths (iteration mesh c turns s id).after.state ≡ field_lengths s }
    ensures scalars { (mesh : MeshLists) (c : Comprehension) (turns : ℕ) (s : State) (id : ℕ)
        → known_scalars (iteration mesh c turns s id).after.state ≡ known_scalars s }
{}

/// A `while` unfolds: its test; if that is true, a turn, the body in a block of its own, and the same `while` again; if no turn
/// remains, a trap. So turns are its only bound.
pub fn loops_unfold()
    ensures { (mesh : MeshLists) (environment : Environment) (place : Place) (test : Expression)
        (body : Body) (m : EvaluationState)
        → statement_meaning mesh environment (While place test body) m
        ≡ loop_unfolded evaluation_turns (trap Spent place) (truth_in mesh environment test)
        (in_block (body_meaning mesh environment body))
        (statement_meaning mesh environment (While place test body)) m }
{}

/// No statement is evaluated after one that stops: the outcome of the body is the stop, with the state and acts of that statement.
pub fn halt_ends_the_body()
    ensures { (mesh : MeshLists) (environment : Environment) (s : Statement) (rest : Body)
        (m : EvaluationState) (stop : Stop)
        → (statement_meaning mesh environment s m).answer ≡ Err stop
        → body_meaning mesh environment (statement s rest) m
        ≡ halt stop (statement_meaning mesh environment s m).after }
{}

/// Each act of an iteration has the one mode in which its comprehension accesses the field, and each reduction of a scalar that of
/// the scalar.
pub fn acts_have_the_mode_of_their_subject()
    ensures acts { (mesh : MeshLists) (c : Comprehension) (turns : ℕ) (s : State) (id : ℕ)
        → ComprehensionFits c
        → AllByRecursion (HasTheMode c) (acts mesh c turns s id) }
    ensures folds { (mesh : MeshLists) (c : Comprehension) (turns : ℕ) (s : State) (id : ℕ)
        → ComprehensionFits c
        → AllByRecursion (FoldsByTheMode c) (iteration mesh c turns s id).after.folds }
{}

/// A field that a comprehension reads or does not access has the same values after an iteration as before, also if it traps.
pub fn unaccessed_fields_are_unchanged()
    ensures { (mesh : MeshLists) (c : Comprehension) (turns : ℕ) (s : State) (id field : ℕ)
        → ComprehensionFits c
        → ChangesNothing (mode_in c (OfField field))
        → field_values (iteration mesh c turns s id).after.state field ≡ field_values s field }
{}

/// From a state that fits the environment, an iteration of a typed comprehension at an element of the mesh ends, done or by a trap.
/// The state after any iteration fits the environment, also if it traps.
pub fn typed_iterations_end()
    ensures ends { (mesh : MeshLists) (c : Comprehension) (turns : ℕ) (s : State) (id : ℕ)
        → IsMesh (length mesh.points) (corner_lists mesh)
        → ComprehensionFits c → StateFits mesh c.environment s → id < count mesh c.over
        → is_some (iteration_end mesh c turns s id) ≡ true }
    ensures fits { (mesh : MeshLists) (c : Comprehension) (turns : ℕ) (s : State) (id : ℕ)
        → StateFits mesh c.environment s
        → StateFits mesh c.environment (iteration mesh c turns s id).after.state }
{}

/// The code of a comprehension of a checked program does its iterations. From an activation that is ready, over values of reads
/// that are those of a state, the body makes the acts of the tree's iteration from that state, in order, ends as it does, and folds
/// its reductions of scalars into the partials; also if it traps.
pub fn resolved_code_does_its_iterations()
    ensures { (program : Main) (checked : CheckedProgram) (k : ℕ) (code : ComprehensionCode)
        (c : Comprehension) (mesh : MeshLists) (turns : ℕ) (s : State) (id : ℕ)
        (values : Spot → ℤ) (a : Activation)
        → checked_program program ≡ Ok checked → slice_get checked.comprehensions k ≡ Some code
        → comprehension_of program k ≡ Some c
        → IsMesh (length mesh.points) (corner_lists mesh)
        → ComprehensionFits c → StateFits mesh c.environment s → id < count mesh c.over
        → IsReady code c turns s id a → HasValues c s values
        → DoesIteration mesh c turns s id a (body_execution mesh code.body values a) }
{}

/// A store that holds the fields of a state admits the acts of each iteration of a typed comprehension from that state, and after them
/// it holds the fields of the state after the iteration, also if that trapped.
pub fn stores_hold_fields_through_iterations()
    ensures admits { (mesh : MeshLists) (c : Comprehension) (turns : ℕ) (s : State) (id : ℕ)
        (store : StoreView)
        → ComprehensionFits c → HoldsFields s store → Admits store (acts mesh c turns s id) }
    ensures after { (mesh : MeshLists) (c : Comprehension) (turns : ℕ) (s : State) (id : ℕ)
        (store later : StoreView)
        → HoldsFields s store → HasActed (acts mesh c turns s id) store later
        → HoldsFields (iteration mesh c turns s id).after.state later }
{}

/// Locals that have begun a comprehension can run its iterations: from a state whose scalars and fields the locals and the store hold;
/// and over each store that has room for the declared fields of the program, from the state that the store then holds.
pub fn begun_locals_can_iterate()
    ensures from_state { (program : Main) (checked : CheckedProgram) (k : ℕ) (c : Comprehension)
        (mesh : MeshLists) (turns : ℕ) (s : State) (id : ℕ) (scalars : List ℤ) (a : Activation)
        (store : StoreView)
        → checked_program program ≡ Ok checked → comprehension_of program k ≡ Some c
        → StateFits mesh c.environment s → HoldsScalars s scalars → HasBegun checked k scalars a
        → id < count mesh c.over → HoldsFields s store
        → CanIterate checked k mesh turns id a store }
    ensures over_any_store { (checked : CheckedProgram) (k : ℕ) (over : Kind) (mesh : MeshLists)
        (turns id : ℕ) (scalars : List ℤ) (a : Activation) (store : StoreView)
        → IsChecked checked → checked_kind checked k ≡ Some over
        → length scalars ≡ length checked.scalars → HasBegun checked k scalars a
        → id < count mesh over → HasRoomFor checked.fields mesh store
        → CanIterate checked k mesh turns id a store }
{}
