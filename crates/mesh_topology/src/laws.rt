//! Laws of the definitions, each the contract of a function that does nothing.

ghost use Rattle.std.specs.Prelude.{◌≡◌, ◌≢◌, ◌↔◌, ℕ, ◌<◌, ◌≤◌, true, List, [], ◌∷◌, Some, length};
ghost use Rattle.std.specs.Cmp.Lexicographic.{slice_cmp};
ghost use Rattle.std.specs.List.{AllPairs, Contains, count_by};
ghost use Rattle.std.specs.Ordering.{nat_cmp};
ghost use Rattle.std.specs.declared.cmp.Ordering.TheVariants.{Less};
ghost use Rattle.liszt_base.specs.Corners.{are_different, is_in, same_members, IsMesh};
ghost use Rattle.liszt_base.specs.MeshLists.{MeshLists as Lists};
ghost use Rattle.liszt_base.specs.declared.elements.Kind.{Kind as KindOf};
ghost use Rattle.liszt_base.specs.declared.elements.Kind.TheVariants.{Face};
ghost use Rattle.mesh_topology.specs.Elements.{corner_lists, elements, count, corners, id_of_corners, sides, face_cycle, cell_steps, is_step, IsCycleOf, IsSetOfCorners, HasCorners};

/// The cycles that four different corners induce contain each step from one corner to another once: each of the six edges once
/// in each direction.
pub fn cycles_are_consistent()
    ensures { (a b c d from to : ℕ) → are_different (a ∷ b ∷ c ∷ d ∷ []) ≡ true
        → is_in (a ∷ b ∷ c ∷ d ∷ []) from ≡ true → is_in (a ∷ b ∷ c ∷ d ∷ []) to ≡ true → from ≢ to
        → count_by (is_step from to) (cell_steps (a ∷ b ∷ c ∷ d ∷ [])) ≡ 1 }
{}

/// The edges of a mesh are the ordered set of the pairs of corners of its cells, and the faces that of the triples.
pub fn elements_are_ordered_sets()
    ensures ordered { (mesh : Lists) (kind : KindOf) (size : ℕ) → HasCorners kind size
        → AllPairs (λ x y. slice_cmp nat_cmp x y ≡ Less) (elements mesh kind) }
    ensures members { (mesh : Lists) (kind : KindOf) (size : ℕ) → HasCorners kind size
        → IsMesh (length mesh.points) (corner_lists mesh)
        → (set : List ℕ)
        → Contains (elements mesh kind) set ↔ IsSetOfCorners (corner_lists mesh) size set }
{}

/// The id of the corners of an edge or a face, in any order, is the id of that edge or face.
pub fn corners_have_one_id()
    ensures { (mesh : Lists) (kind : KindOf) (size : ℕ) → HasCorners kind size
        → (id : ℕ) (set : List ℕ) → id < count mesh kind
        → same_members set (corners mesh kind id) ≡ true → id_of_corners mesh kind set ≡ Some id }
{}

/// A face of a mesh has one side or two.
pub fn faces_have_one_or_two_sides()
    ensures { (mesh : Lists) → IsMesh (length mesh.points) (corner_lists mesh) → (face : ℕ)
        → face < count mesh Face → (1 ≤ length (sides mesh face)) × (length (sides mesh face) ≤ 2) }
{}

/// The cycle of a face is the one that its first side induces, from its smallest corner on.
pub fn face_cycles_are_induced()
    ensures { (mesh : Lists) → IsMesh (length mesh.points) (corner_lists mesh) → (face : ℕ)
        → face < count mesh Face → IsCycleOf mesh face (face_cycle mesh face) }
{}
