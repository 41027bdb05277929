//! Laws of the definitions, each the contract of a function that does nothing.

ghost use Rattle.std.specs.Prelude.{◌≡◌, ℕ, List, Ok, Some};
ghost use Rattle.std.specs.List.{AllByRecursion};
ghost use Rattle.liszt_base.specs.MeshLists.{MeshLists};
ghost use Rattle.liszt_base.specs.declared.accesses.Access.{Access};
ghost use Rattle.phase_types.specs.Environments.{Comprehension};
ghost use Rattle.phase_types.specs.Typed.{ComprehensionFits};
ghost use Rattle.phase_types.specs.Walk.{OfField, mode_in};
ghost use Rattle.kernel_eval.specs.Iterations.{acts};
ghost use Rattle.kernel_eval.specs.States.{State};
ghost use Rattle.stencil_infer.specs.Stencils.{AreStencils, StencilLists, IsStencil, LiesIn, inference, iteration_accesses, stencil_of};

/// Each act of an iteration is one of its accesses, whatever the state, also if the iteration traps: its spot and mode are in the
/// stencil.
pub fn acts_lie_in_stencils()
    ensures accesses { (mesh : MeshLists) (c : Comprehension) (turns : ℕ) (s : State) (id : ℕ)
        → AllByRecursion (LiesIn (iteration_accesses mesh c id)) (acts mesh c turns s id) }
    ensures stencil { (mesh : MeshLists) (c : Comprehension) (turns : ℕ) (s : State) (id : ℕ)
        (stencil : List Access)
        → IsStencil mesh c id stencil
        → AllByRecursion (LiesIn stencil) (acts mesh c turns s id) }
{}

/// In a typed comprehension each access of an iteration has the one mode of its field.
pub fn accesses_have_the_mode_of_their_field()
    ensures { (mesh : MeshLists) (c : Comprehension) (id : ℕ) → ComprehensionFits c
        → AllByRecursion (λ a. mode_in c (OfField a.spot.field) ≡ Some a.mode)
        (iteration_accesses mesh c id) }
{}

/// Each iteration of a typed comprehension has one stencil.
pub fn iterations_have_one_stencil()
    ensures exists { (mesh : MeshLists) (c : Comprehension) (id : ℕ) → ComprehensionFits c
        → IsStencil mesh c id (stencil_of (iteration_accesses mesh c id)) }
    ensures unique { (mesh : MeshLists) (c : Comprehension) (id : ℕ) (stencil other : List Access)
        → IsStencil mesh c id stencil → IsStencil mesh c id other → other ≡ stencil }
{}

/// The lists that the inference of a typed comprehension gives are the stencils of its iterations.
pub fn inference_gives_stencils()
    ensures { (mesh : MeshLists) (c : Comprehension) (k : ℕ) (result : StencilLists)
        → ComprehensionFits c → inference mesh c k ≡ Ok result → AreStencils mesh c result.lists }
{}
