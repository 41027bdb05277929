//! Worked cases of the definitions, which the checker computes. Each function does nothing; its contract is the case.
#![allow(dead_code)]

ghost use Rattle.std.specs.Prelude.{◌≡◌, true, false, Some, None, [], ◌∷◌, map, not, ◌==◌, ◌&&◌};
ghost use Rattle.std.specs.List.{count_by, flat_map};
ghost use Rattle.liszt_base.specs.declared.elements.Kind.TheVariants.{Vertex, Edge, Face, Cell};
ghost use Rattle.liszt_base.specs.declared.elements.SetName.TheVariants.{Vertices, Edges, Faces, Cells, EdgesCcw};
ghost use Rattle.mesh_topology.specs.Elements.{numbers};
ghost use Rattle.mesh_topology.specs.Internal.Meshes.{one_cell, one_reversed, two_cells};
ghost use Rattle.topo_operators.specs.Operators.{unflipped, reversed, tail, head, inside, outside, flip, towards, same, valid, members, has_set};

/// The ends of the six edges of one cell, flipped ones too.
fn edges_of_one_cell()
    ensures tails { map (λ e. tail one_cell (Some (unflipped Edge e))) (numbers 0 6)
        ≡ map (λ v. Some (unflipped Vertex v)) (0 ∷ 0 ∷ 0 ∷ 1 ∷ 1 ∷ 2 ∷ []) }
    ensures heads { map (λ e. head one_cell (Some (unflipped Edge e))) (numbers 0 6)
        ≡ map (λ v. Some (unflipped Vertex v)) (1 ∷ 2 ∷ 3 ∷ 2 ∷ 3 ∷ 3 ∷ []) }
    ensures flipped { head one_cell (flip (Some (unflipped Edge 4))) ≡ Some (unflipped Vertex 1) }
    ensures to_head { towards one_cell (Some (reversed (unflipped Edge 4)))
        (Some (unflipped Vertex 3)) ≡ Some (unflipped Edge 4) }
    ensures to_tail { towards one_cell (Some (unflipped Edge 4)) (Some (unflipped Vertex 1))
        ≡ Some (reversed (unflipped Edge 4)) }
    ensures no_end { towards one_cell (Some (unflipped Edge 4)) (Some (unflipped Vertex 0)) ≡ None }
{}

/// The sides of the seven faces of two cells, and the orientations that point to them.
fn faces_of_two_cells()
    ensures insides { map (λ f. inside two_cells (Some (unflipped Face f))) (numbers 0 7)
        ≡ map (λ c. Some (unflipped Cell c)) (0 ∷ 0 ∷ 0 ∷ 0 ∷ 1 ∷ 1 ∷ 1 ∷ []) }
    ensures outsides { map (λ f. outside two_cells (Some (unflipped Face f))) (numbers 0 7)
        ≡ None ∷ None ∷ None ∷ Some (unflipped Cell 1) ∷ None ∷ None ∷ None ∷ [] }
    ensures flipped { inside two_cells (flip (Some (unflipped Face 0))) ≡ None }
    ensures to_first { towards two_cells (Some (unflipped Face 3)) (Some (unflipped Cell 0))
        ≡ Some (reversed (unflipped Face 3)) }
    ensures to_inside { towards two_cells (Some (unflipped Face 0)) (Some (unflipped Cell 0))
        ≡ Some (reversed (unflipped Face 0)) }
    ensures not_beside { towards two_cells (Some (unflipped Face 0)) (Some (unflipped Cell 1))
        ≡ None }
{}

/// The sets of elements, and the edges of a face along its cycle.
fn sets_of_elements()
    ensures vertices { members two_cells Vertices (unflipped Vertex 1)
        ≡ map (unflipped Vertex) (0 ∷ 2 ∷ 3 ∷ 4 ∷ []) }
    ensures edges { members two_cells Edges (unflipped Face 6)
        ≡ map (unflipped Edge) (6 ∷ 7 ∷ 8 ∷ []) }
    ensures faces { members two_cells Faces (unflipped Cell 1)
        ≡ map (unflipped Face) (3 ∷ 4 ∷ 5 ∷ 6 ∷ []) }
    ensures cells { members two_cells Cells (unflipped Cell 1) ≡ unflipped Cell 0 ∷ [] }
    ensures along { members one_cell EdgesCcw (unflipped Face 0)
        ≡ unflipped Edge 1 ∷ reversed (unflipped Edge 3) ∷ reversed (unflipped Edge 0) ∷ [] }
    ensures against { members one_cell EdgesCcw (reversed (unflipped Face 0))
        ≡ unflipped Edge 0 ∷ unflipped Edge 3 ∷ reversed (unflipped Edge 1) ∷ [] }
    ensures each_along_once { map
        (λ e. count_by (λ x. (x.id == e) && not x.flipped)
        (flat_map (λ f. members one_cell EdgesCcw (unflipped Face f)) (numbers 0 4))) (numbers 0 6)
        ≡ 1 ∷ 1 ∷ 1 ∷ 1 ∷ 1 ∷ 1 ∷ [] }
    ensures each_against_once { map
        (λ e. count_by (λ x. (x.id == e) && x.flipped)
        (flat_map (λ f. members one_cell EdgesCcw (unflipped Face f)) (numbers 0 4))) (numbers 0 6)
        ≡ 1 ∷ 1 ∷ 1 ∷ 1 ∷ 1 ∷ 1 ∷ [] }
    ensures reversed_cell { members one_reversed EdgesCcw (unflipped Face 0)
        ≡ unflipped Edge 0 ∷ unflipped Edge 3 ∷ reversed (unflipped Edge 1) ∷ [] }
    ensures no_ends { count_by
        (λ v. not (valid (towards one_cell (Some (unflipped Edge 0)) (Some v))))
        (members one_cell Vertices (unflipped Face 1)) ≡ 1 }
{}

/// The sets among `vertices edges faces cells edges_ccw` that an element of each kind has.
fn sets_by_kind()
    ensures of_vertex { map (has_set Vertex) (Vertices ∷ Edges ∷ Faces ∷ Cells ∷ EdgesCcw ∷ [])
        ≡ true ∷ true ∷ true ∷ true ∷ false ∷ [] }
    ensures of_edge { map (has_set Edge) (Vertices ∷ Edges ∷ Faces ∷ Cells ∷ EdgesCcw ∷ [])
        ≡ true ∷ false ∷ true ∷ true ∷ false ∷ [] }
    ensures of_face { map (has_set Face) (Vertices ∷ Edges ∷ Faces ∷ Cells ∷ EdgesCcw ∷ [])
        ≡ true ∷ true ∷ false ∷ true ∷ true ∷ [] }
    ensures of_cell { map (has_set Cell) (Vertices ∷ Edges ∷ Faces ∷ Cells ∷ EdgesCcw ∷ [])
        ≡ true ∷ true ∷ true ∷ true ∷ false ∷ [] }
{}

/// The operators of nil, and sameness.
fn operators_on_nil()
    ensures head { head one_cell None ≡ None }
    ensures tail { tail one_cell None ≡ None }
    ensures inside { inside one_cell None ≡ None }
    ensures outside { outside one_cell None ≡ None }
    ensures flip { flip None ≡ None }
    ensures towards { towards one_cell None (Some (unflipped Vertex 0)) ≡ None }
    ensures to_nil { towards one_cell (Some (unflipped Face 0)) None ≡ None }
    ensures valid { valid None ≡ false }
    ensures some_valid { valid (Some (unflipped Cell 0)) ≡ true }
    ensures nil_nil { same None None ≡ true }
    ensures other_kind { same (Some (unflipped Vertex 0)) (Some (unflipped Cell 0)) ≡ false }
    ensures nil_and_element { same None (Some (unflipped Cell 0)) ≡ false }
    ensures oriented { same (Some (unflipped Edge 2)) (Some (reversed (unflipped Edge 2))) ≡ true }
{}
