//! Worked cases of the words of declared fields, which the checker computes. Each function does nothing; its contract is the case.
#![allow(dead_code)]

ghost use Rattle.std.specs.Prelude.{◌≡◌, Some, None, Ok, [], ◌∷◌, pos, replicate};
ghost use Rattle.liszt_tree.specs.Tree.{no_item};
ghost use Rattle.liszt_tree.specs.Trees.{degrees};
ghost use Rattle.phase_types.specs.Environments.{fields_of};
ghost use Rattle.mesh_topology.specs.Internal.Meshes.{one_cell, two_cells};
ghost use Rattle.seq_meaning.specs.Internal.Cases.{heat};
ghost use Rattle.seq_meaning.specs.FieldStores.{declared_value, filled, has_spot, prepared_store, ranges_from, stored_value, word_index, words_of};

/// A field of vertices has as many words as there are vertices; a program without fields has none.
fn words_of_fields()
    ensures one { words_of one_cell (fields_of degrees) ≡ 4 }
    ensures two { words_of two_cells (fields_of degrees) ≡ 5 }
    ensures cells_and_faces { words_of two_cells (fields_of heat) ≡ 9 }
    ensures none { words_of two_cells (fields_of no_item) ≡ 0 }
{}

/// A field of the two cells is followed by one of the seven faces.
fn ranges_of_fields()
    ensures ranges { ranges_from two_cells 0 (fields_of heat)
        ≡ record { first = 0; count = 2 } ∷ record { first = 2; count = 7 } ∷ [] }
    ensures prepared { prepared_store (fields_of heat) two_cells
        ≡ Ok (record {
          ranges = record { first = 0; count = 2 } ∷ record { first = 2; count = 7 } ∷ [];
          words = replicate 9 (pos 0);
        }) }
{}

/// The words of the last cell and of the first face are neighbours; there is no third cell, and no word of a built-in field or of field 5.
fn words_of_spots()
    ensures last_cell { word_index (ranges_from two_cells 0 (fields_of heat))
        (record { field = 6; id = 1 }) ≡ Some 1 }
    ensures third_cell { word_index (ranges_from two_cells 0 (fields_of heat))
        (record { field = 6; id = 2 }) ≡ None }
    ensures first_face { word_index (ranges_from two_cells 0 (fields_of heat))
        (record { field = 7; id = 0 }) ≡ Some 2 }
    ensures last_face { word_index (ranges_from two_cells 0 (fields_of heat))
        (record { field = 7; id = 6 }) ≡ Some 8 }
    ensures no_field { word_index (ranges_from two_cells 0 (fields_of heat))
        (record { field = 8; id = 0 }) ≡ None }
    ensures built_in { word_index (ranges_from two_cells 0 (fields_of heat))
        (record { field = 4; id = 0 }) ≡ None }
    ensures reserved { word_index (ranges_from two_cells 0 (fields_of heat))
        (record { field = 5; id = 0 }) ≡ None }
{}

/// A declaration sets each word of its field, and no other one.
fn words_after_a_declaration()
    ensures { filled 0 2 (pos 7) (replicate 4 (pos 1)) ≡ pos 7 ∷ pos 7 ∷ pos 1 ∷ pos 1 ∷ [] }
{}
