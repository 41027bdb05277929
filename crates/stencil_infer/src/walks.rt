//! The walk through resolved code has the accesses and the visits of the tree. Each function does nothing; its contract is the law.
#![allow(dead_code)]

ghost use Rattle.std.specs.Prelude.{◌≡◌, ℕ, Ok, Some, length, slice_get, true};
ghost use Rattle.std.specs.List.{slice_set};
ghost use Rattle.liszt_base.specs.MeshLists.{MeshLists};
ghost use Rattle.liszt_tree.specs.Tree.{Main};
ghost use Rattle.resolved_code.specs.declared.items.ComprehensionCode.{ComprehensionCode as Code};
ghost use Rattle.topo_operators.specs.Operators.{unflipped};
ghost use Rattle.phase_types.specs.Checked.{checked_program};
ghost use Rattle.phase_types.specs.declared.state.CheckedProgram.{CheckedProgram as Parts};
ghost use Rattle.phase_types.specs.Environments.{Comprehension, comprehension_of};
ghost use Rattle.stencil_infer.specs.Stencils.{iteration_accesses, iteration_visits};
ghost use Rattle.stencil_infer.specs.Internal.CodeAccesses.{Slots, code_fits, code_walk};

/// The code of a comprehension of a checked program fits the kinds of its slots, of which slot 0 has the kind of the comprehension.
fn code_fits_its_slots()
    ensures fits { (program : Main) (checked : Parts) (k : ℕ) (code : Code)
        → checked_program program ≡ Ok checked → slice_get checked.comprehensions k ≡ Some code
        → code_fits code.elements code.body ≡ true }
    ensures first { (program : Main) (checked : Parts) (k : ℕ) (code : Code)
        → checked_program program ≡ Ok checked → slice_get checked.comprehensions k ≡ Some code
        → slice_get code.elements 0 ≡ Some code.over }
{}

/// The code of a comprehension of a checked program, walked with the element of an iteration in slot 0, has the accesses and the visits
/// of the iteration.
fn code_is_walked_as_its_tree()
    ensures accesses { (program : Main) (checked : Parts) (k : ℕ) (code : Code) (c : Comprehension)
        → checked_program program ≡ Ok checked
        → slice_get checked.comprehensions k ≡ Some code → comprehension_of program k ≡ Some c
        → (mesh : MeshLists) (id : ℕ) (slots : Slots) → length slots ≡ length code.elements
        → (code_walk mesh code.body (slice_set slots 0 (Some (unflipped c.over id)))).accesses
        ≡ iteration_accesses mesh c id }
    ensures visits { (program : Main) (checked : Parts) (k : ℕ) (code : Code) (c : Comprehension)
        → checked_program program ≡ Ok checked
        → slice_get checked.comprehensions k ≡ Some code → comprehension_of program k ≡ Some c
        → (mesh : MeshLists) (id : ℕ) (slots : Slots) → length slots ≡ length code.elements
        → (code_walk mesh code.body (slice_set slots 0 (Some (unflipped c.over id)))).visits
        ≡ iteration_visits mesh c id }
{}
