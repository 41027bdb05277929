//! Worked cases of the definitions, which the checker computes. Each function does nothing; its contract is the case.
#![allow(dead_code)]

ghost use Rattle.std.specs.Prelude.{◌≡◌, Some, [], ◌∷◌};
ghost use Rattle.liszt_base.specs.Corners.{IsMesh};
ghost use Rattle.liszt_base.specs.declared.elements.Kind.TheVariants.{Vertex, Edge, Face, Cell};
ghost use Rattle.mesh_topology.specs.Elements.{corner_lists, elements, count, id_of_corners, near, sides, face_cycle};
ghost use Rattle.mesh_topology.specs.Internal.Meshes.{one_cell, one_reversed, two_cells, two_at_an_edge};

/// The edges and the faces of two cells that share a face, in order, and the number of elements of each kind.
fn elements_of_two_cells()
    ensures edges { elements two_cells Edge
        ≡ (0 ∷ 1 ∷ []) ∷ (0 ∷ 2 ∷ []) ∷ (0 ∷ 3 ∷ []) ∷ (1 ∷ 2 ∷ []) ∷ (1 ∷ 3 ∷ [])
        ∷ (1 ∷ 4 ∷ []) ∷ (2 ∷ 3 ∷ []) ∷ (2 ∷ 4 ∷ []) ∷ (3 ∷ 4 ∷ []) ∷ [] }
    ensures faces { elements two_cells Face
        ≡ (0 ∷ 1 ∷ 2 ∷ []) ∷ (0 ∷ 1 ∷ 3 ∷ []) ∷ (0 ∷ 2 ∷ 3 ∷ []) ∷ (1 ∷ 2 ∷ 3 ∷ [])
        ∷ (1 ∷ 2 ∷ 4 ∷ []) ∷ (1 ∷ 3 ∷ 4 ∷ []) ∷ (2 ∷ 3 ∷ 4 ∷ []) ∷ [] }
    ensures vertex_count { count two_cells Vertex ≡ 5 }
    ensures edge_count { count two_cells Edge ≡ 9 }
    ensures face_count { count two_cells Face ≡ 7 }
    ensures cell_count { count two_cells Cell ≡ 2 }
{}

/// Incidence in these two cells: the face that they share has two sides, and ids are ascending.
fn incidence_of_two_cells()
    ensures vertices_near_zero { near two_cells Vertex 0 Vertex ≡ 1 ∷ 2 ∷ 3 ∷ [] }
    ensures vertices_near_one { near two_cells Vertex 1 Vertex ≡ 0 ∷ 2 ∷ 3 ∷ 4 ∷ [] }
    ensures edges_near_four { near two_cells Vertex 4 Edge ≡ 5 ∷ 7 ∷ 8 ∷ [] }
    ensures cells_near_edge_zero { near two_cells Edge 0 Cell ≡ 0 ∷ [] }
    ensures cells_near_cell_zero { near two_cells Cell 0 Cell ≡ 1 ∷ [] }
    ensures sides_of_three { sides two_cells 3 ≡ 0 ∷ 1 ∷ [] }
    ensures sides_of_zero { sides two_cells 0 ≡ 0 ∷ [] }
{}

/// An edge has one id by its ends in either order, and the cycle of the shared face is the one that the first cell induces.
fn ids_in_two_cells()
    ensures descending { id_of_corners two_cells Edge (4 ∷ 1 ∷ []) ≡ Some 5 }
    ensures in_order { id_of_corners two_cells Edge (1 ∷ 4 ∷ []) ≡ Some 5 }
    ensures shared_cycle { face_cycle two_cells 3 ≡ 1 ∷ 2 ∷ 3 ∷ [] }
{}

/// The edges and the faces of one cell, in order.
fn elements_of_one_cell()
    ensures edges { elements one_cell Edge
        ≡ (0 ∷ 1 ∷ []) ∷ (0 ∷ 2 ∷ []) ∷ (0 ∷ 3 ∷ []) ∷ (1 ∷ 2 ∷ []) ∷ (1 ∷ 3 ∷ []) ∷ (2 ∷ 3 ∷ [])
        ∷ [] }
    ensures faces { elements one_cell Face
        ≡ (0 ∷ 1 ∷ 2 ∷ []) ∷ (0 ∷ 1 ∷ 3 ∷ []) ∷ (0 ∷ 2 ∷ 3 ∷ []) ∷ (1 ∷ 2 ∷ 3 ∷ []) ∷ [] }
{}

/// The cycles of its four faces, each from its smallest corner on.
fn face_cycles_of_one_cell()
    ensures face_0 { face_cycle one_cell 0 ≡ 0 ∷ 2 ∷ 1 ∷ [] }
    ensures face_1 { face_cycle one_cell 1 ≡ 0 ∷ 1 ∷ 3 ∷ [] }
    ensures face_2 { face_cycle one_cell 2 ≡ 0 ∷ 3 ∷ 2 ∷ [] }
    ensures face_3 { face_cycle one_cell 3 ≡ 1 ∷ 2 ∷ 3 ∷ [] }
{}

/// Two corners swapped in the line of a cell reverse its cycles; a point that no cell has is near no vertex.
fn elements_of_reversed_cell()
    ensures cells { elements one_reversed Cell ≡ (1 ∷ 0 ∷ 2 ∷ 3 ∷ []) ∷ [] }
    ensures face_0 { face_cycle one_reversed 0 ≡ 0 ∷ 1 ∷ 2 ∷ [] }
    ensures face_1 { face_cycle one_reversed 1 ≡ 0 ∷ 3 ∷ 1 ∷ [] }
    ensures face_2 { face_cycle one_reversed 2 ≡ 0 ∷ 2 ∷ 3 ∷ [] }
    ensures face_3 { face_cycle one_reversed 3 ≡ 1 ∷ 3 ∷ 2 ∷ [] }
    ensures vertices { count one_reversed Vertex ≡ 5 }
    ensures near_none { near one_reversed Vertex 4 Vertex ≡ [] }
{}

/// Cells that share an edge and no face are not near each other, and each is near the edge.
fn incidence_at_an_edge()
    ensures near_none { near two_at_an_edge Cell 0 Cell ≡ [] }
    ensures near_edge { near two_at_an_edge Edge 0 Cell ≡ 0 ∷ 1 ∷ [] }
{}

/// These are meshes whose elements can be numbered.
fn are_meshes()
    ensures two_cells { IsMesh 5 (corner_lists two_cells) }
    ensures one_cell { IsMesh 4 (corner_lists one_cell) }
    ensures reversed { IsMesh 5 (corner_lists one_reversed) }
{}
