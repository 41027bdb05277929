//! Laws of the definitions, each the contract of a function that does nothing.

ghost use Rattle.std.specs.Prelude.{◌≡◌, ◌≢◌, ◌↔◌, ◌⊎◌, ◌<◌, ℕ, true, false, Option, Some, None, length, map, reverse};
ghost use Rattle.std.specs.List.{zip, AllByRecursion};
ghost use Rattle.liszt_base.specs.Corners.{IsMesh};
ghost use Rattle.liszt_base.specs.Kinds.{kind_of};
ghost use Rattle.liszt_base.specs.MeshLists.{MeshLists as Lists};
ghost use Rattle.liszt_base.specs.declared.elements.Elem.{Elem as ElemOf};
ghost use Rattle.liszt_base.specs.declared.elements.Kind.{Kind as KindOf};
ghost use Rattle.liszt_base.specs.declared.elements.Kind.TheVariants.{Vertex, Edge, Face, Cell};
ghost use Rattle.liszt_base.specs.declared.elements.SetName.{SetName as SetOf};
ghost use Rattle.liszt_base.specs.declared.elements.SetName.TheVariants.{EdgesCcw};
ghost use Rattle.mesh_topology.specs.Elements.{corner_lists, count, steps};
ghost use Rattle.topo_operators.specs.Operands.{IsElement, IsNilOrElement, IsSetOperand};
ghost use Rattle.topo_operators.specs.Operators.{unflipped, reversed, tail, head, inside, outside, flip, same, valid, towards, points_to, members, cycle_of, GoesAlong};

/// Flipping twice has no effect; flipping an edge swaps its ends, and flipping a face its sides.
pub fn flip_is_an_involution()
    ensures twice { (x : Option ElemOf) → flip (flip x) ≡ x }
    ensures ends { (mesh : Lists) (x : Option ElemOf) → tail mesh (flip x) ≡ head mesh x }
    ensures sides { (mesh : Lists) (x : Option ElemOf) → inside mesh (flip x) ≡ outside mesh x }
{}

/// Nothing but ends, sides and the edges along a cycle depends on the orientation of an element: neither its id, nor whether it
/// is valid, nor `towards`, nor the other sets.
pub fn orientation_is_ignored()
    ensures towards { (mesh : Lists) (x to : Option ElemOf)
        → towards mesh (flip x) to ≡ towards mesh x to }
    ensures operand { (mesh : Lists) (x to : Option ElemOf)
        → towards mesh x (flip to) ≡ towards mesh x to }
    ensures valid { (x : Option ElemOf) → valid (flip x) ≡ valid x }
    ensures id { (x : ElemOf) → (reversed x).id ≡ x.id }
    ensures kind { (x : ElemOf) → (reversed x).kind ≡ x.kind }
    ensures members { (mesh : Lists) (set : SetOf) (x : ElemOf) → set ≢ EdgesCcw
        → members mesh set (reversed x) ≡ members mesh set x }
{}

/// Sameness ignores orientation: elements are the same if they are equal up to a flip, and nil is the same as nil and as no element.
pub fn same_is_equality_up_to_flip()
    ensures first { (x y : Option ElemOf) → same (flip x) y ≡ same x y }
    ensures second { (x y : Option ElemOf) → same x (flip y) ≡ same x y }
    ensures same { (x y : Option ElemOf) → (same x y ≡ true) ↔ ((x ≡ y) ⊎ (flip x ≡ y)) }
    ensures nil { (x : Option ElemOf) → same None x ≡ true → x ≡ None }
{}

/// Each operator of nil is nil, and nil is not valid.
pub fn operators_keep_nil()
    ensures tail { (mesh : Lists) → tail mesh None ≡ None }
    ensures head { (mesh : Lists) → head mesh None ≡ None }
    ensures inside { (mesh : Lists) → inside mesh None ≡ None }
    ensures outside { (mesh : Lists) → outside mesh None ≡ None }
    ensures flip { flip None ≡ None }
    ensures towards { (mesh : Lists) (to : Option ElemOf) → towards mesh None to ≡ None }
    ensures operand { (mesh : Lists) (x : Option ElemOf) → towards mesh x None ≡ None }
    ensures valid { valid None ≡ false }
{}

/// `towards` gives an edge of the mesh its own orientation for its head, and the other one for its tail; and likewise a face for
/// its outside and its inside.
pub fn towards_of_own_ends()
    ensures head { (mesh : Lists) (x : ElemOf) → IsElement mesh Edge x
        → towards mesh (Some x) (head mesh (Some x)) ≡ Some x }
    ensures tail { (mesh : Lists) (x : ElemOf) → IsElement mesh Edge x
        → towards mesh (Some x) (tail mesh (Some x)) ≡ flip (Some x) }
    ensures outside { (mesh : Lists) (x : ElemOf) → IsElement mesh Face x
        → valid (outside mesh (Some x)) ≡ true
        → towards mesh (Some x) (outside mesh (Some x)) ≡ Some x }
    ensures inside { (mesh : Lists) (x : ElemOf) → IsElement mesh Face x
        → valid (inside mesh (Some x)) ≡ true
        → towards mesh (Some x) (inside mesh (Some x)) ≡ flip (Some x) }
{}

/// `towards` gives the orientation that points to its second operand, and nil if neither orientation does.
pub fn towards_points_to_its_operand()
    ensures some { (mesh : Lists) (x to y : ElemOf) → towards mesh (Some x) (Some to) ≡ Some y
        → (same (points_to mesh y) (Some to) ≡ true) × (same (Some y) (Some x) ≡ true) }
    ensures nil { (mesh : Lists) (x to : ElemOf) → towards mesh (Some x) (Some to) ≡ None
        → (same (points_to mesh x) (Some to) ≡ false)
        × ((y : ElemOf) → flip (Some x) ≡ Some y → same (points_to mesh y) (Some to) ≡ false) }
    ensures head { (mesh : Lists) (edge v : ℕ) (y : ElemOf)
        → towards mesh (Some (unflipped Edge edge)) (Some (unflipped Vertex v)) ≡ Some y
        → head mesh (Some y) ≡ Some (unflipped Vertex v) }
    ensures outside { (mesh : Lists) (face c : ℕ) (y : ElemOf)
        → towards mesh (Some (unflipped Face face)) (Some (unflipped Cell c)) ≡ Some y
        → outside mesh (Some y) ≡ Some (unflipped Cell c) }
{}

/// A face, flipped or not, has three edges along its cycle: edges of the mesh, each from one corner of the cycle to the next. The
/// edges of the flipped face are these in reverse order, each flipped.
pub fn edges_go_along_the_cycle()
    ensures three { (mesh : Lists) → IsMesh (length mesh.points) (corner_lists mesh)
        → (face : ElemOf) → face.id < count mesh Face → length (members mesh EdgesCcw face) ≡ 3 }
    ensures along { (mesh : Lists) → IsMesh (length mesh.points) (corner_lists mesh)
        → (face : ElemOf) → face.id < count mesh Face
        → AllByRecursion (λ p. GoesAlong mesh p.0 p.1)
        (zip (steps (cycle_of mesh face)) (members mesh EdgesCcw face)) }
    ensures reversed { (mesh : Lists) → IsMesh (length mesh.points) (corner_lists mesh)
        → (face : ElemOf) → face.id < count mesh Face
        → members mesh EdgesCcw (reversed face)
        ≡ map reversed (reverse (members mesh EdgesCcw face)) }
{}

/// The result of an operator is nil or an element of the mesh of the operator's kind, and the members of a set are such elements.
/// So each result is an operand of the next operator.
pub fn results_are_elements()
    ensures tail { (mesh : Lists) (x : Option ElemOf) → IsNilOrElement mesh Edge x
        → IsNilOrElement mesh Vertex (tail mesh x) }
    ensures head { (mesh : Lists) (x : Option ElemOf) → IsNilOrElement mesh Edge x
        → IsNilOrElement mesh Vertex (head mesh x) }
    ensures inside { (mesh : Lists) (x : Option ElemOf) → IsNilOrElement mesh Face x
        → IsNilOrElement mesh Cell (inside mesh x) }
    ensures outside { (mesh : Lists) (x : Option ElemOf) → IsNilOrElement mesh Face x
        → IsNilOrElement mesh Cell (outside mesh x) }
    ensures flip { (mesh : Lists) (kind : KindOf) (x : Option ElemOf) → IsNilOrElement mesh kind x
        → IsNilOrElement mesh kind (flip x) }
    ensures towards { (mesh : Lists) (kind : KindOf) (x to : Option ElemOf)
        → IsNilOrElement mesh kind x → IsNilOrElement mesh kind (towards mesh x to) }
    ensures members { (mesh : Lists) (set : SetOf) (x : ElemOf)
        → IsMesh (length mesh.points) (corner_lists mesh) → IsSetOperand mesh set x
        → AllByRecursion (IsElement mesh (kind_of set)) (members mesh set x) }
{}
