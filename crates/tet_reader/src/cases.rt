//! Worked cases of the definitions, computed by the checker. Each is the contract of a function with an empty body.
#![allow(dead_code)]

ghost use Rattle.std.specs.Prelude.{◌≡◌, ◌+◌, [], codes, pos, Some, None};
ghost use Rattle.liszt_base.specs.Limits.{point_limit, cell_limit};
ghost use Rattle.liszt_base.specs.declared.answers.MeshFile.TheVariants.{Node as InNode, Ele as InEle};
ghost use Rattle.liszt_base.specs.declared.answers.MeshWhat.TheVariants.{BadNumber, CoordRange, CornerRange, CornerTwice, CellTwice, Dimension, Extra, FaceShared, Header, Missing, NumberOrder, SecondOrder, TooMany};
ghost use Rattle.tet_reader.specs.Faults.{first_mesh_fault};
ghost use Rattle.text_scan.specs.Rows.{text_rows};
ghost use Rattle.tet_reader.specs.Files.{five_points, six_points, marked_points, four_marked, cell_with_region, turned_with_region};
ghost use Rattle.tet_reader.specs.Files.{short_points, one_short, short_cell, plain_cell};
ghost use Rattle.tet_reader.specs.Points.{Points, Cells};

/// Ele files over five points, or six, and the line of their fault.
fn ele_files()
    ensures good { first_mesh_fault five_points (codes "2 4 0\n0 0 1 2 3\n1 1 2 3 4\n") ≡ None }
    ensures short_row { first_mesh_fault five_points (codes "2 4 0\n0 0 1 2 3\n1 1 2\n")
        ≡ Some (record { file = InEle; line = 3; what = Missing; number = pos 0 }) }
    ensures no_row { first_mesh_fault five_points (codes "2 4 0\n0 0 1 2 3\n")
        ≡ Some (record { file = InEle; line = 2; what = Missing; number = pos 0 }) }
    ensures range { first_mesh_fault five_points (codes "2 4 0\n0 0 1 2 3\n1 1 2 3 5\n")
        ≡ Some (record { file = InEle; line = 3; what = CornerRange; number = pos 0 }) }
    ensures second_order { first_mesh_fault five_points (codes "2 10 0\n")
        ≡ Some (record { file = InEle; line = 1; what = SecondOrder; number = pos 0 }) }
    ensures twice { first_mesh_fault five_points (codes "2 4 0\n0 0 1 2 3\n1 3 2 1 0\n")
        ≡ Some (record { file = InEle; line = 3; what = CellTwice; number = pos 0 }) }
    ensures shared { first_mesh_fault six_points (codes "3 4 0\n0 0 1 2 3\n1 0 1 2 4\n2 0 1 2 5\n")
        ≡ Some (record { file = InEle; line = 4; what = FaceShared; number = pos 0 }) }
{}

/// Which fault is first: on one line, in a row, and of two faults on different lines.
fn first_faults()
    ensures twice_before_shared { first_mesh_fault six_points
        (codes "4 4 0\n0 0 1 2 3\n1 0 1 2 4\n2 0 1 2 5\n3 3 2 1 0\n")
        ≡ Some (record { file = InEle; line = 5; what = CellTwice; number = pos 0 }) }
    ensures attribute_before_corners { first_mesh_fault five_points (codes "1 4 1\n0 0 0 1 2 x\n")
        ≡ Some (record { file = InEle; line = 2; what = BadNumber; number = pos 0 }) }
    ensures corner_twice { first_mesh_fault five_points (codes "1 4\n0 0 0 1 2\n")
        ≡ Some (record { file = InEle; line = 2; what = CornerTwice; number = pos 0 }) }
    ensures words_before_corners { first_mesh_fault five_points (codes "1 4\n0 0 1 2 9 5\n")
        ≡ Some (record { file = InEle; line = 2; what = Extra; number = pos 0 }) }
    ensures past_count { first_mesh_fault five_points (codes "1 4\n0 0 1 2 3\n1 x\n")
        ≡ Some (record { file = InEle; line = 3; what = Extra; number = pos 0 }) }
    ensures dimension_before_attributes { first_mesh_fault (codes "1 2 65") []
        ≡ Some (record { file = InNode; line = 1; what = Dimension; number = pos 0 }) }
    ensures count_before_dimension { first_mesh_fault (codes "200001 2") []
        ≡ Some (record { file = InNode; line = 1; what = TooMany; number = pos (point_limit + 1) }) }
    ensures negative_count { first_mesh_fault (codes "-1") []
        ≡ Some (record { file = InNode; line = 1; what = Header; number = pos 0 }) }
    ensures first_number { first_mesh_fault (codes "1\n2 0 0 0\n") []
        ≡ Some (record { file = InNode; line = 2; what = NumberOrder; number = pos 0 }) }
    ensures next_number { first_mesh_fault (codes "2\n1 0 0 0\n# next\n3 x 0 0\n") []
        ≡ Some (record { file = InNode; line = 4; what = NumberOrder; number = pos 0 }) }
    ensures coordinate { first_mesh_fault (codes "1\n0 0 1e400 x\n") []
        ≡ Some (record { file = InNode; line = 2; what = CoordRange; number = pos 0 }) }
    ensures node_before_ele { first_mesh_fault (codes "1\n0 0 0\n") (codes "x")
        ≡ Some (record { file = InNode; line = 2; what = Missing; number = pos 0 }) }
{}

/// Faults of headers: each of the tests, and a file without a header, which is reported at the last line.
fn headers()
    ensures no_row { first_mesh_fault (codes "# a\n\n") []
        ≡ Some (record { file = InNode; line = 2; what = Header; number = pos 0 }) }
    ensures five_words { first_mesh_fault (codes "1 3 0 0 0") []
        ≡ Some (record { file = InNode; line = 1; what = Header; number = pos 0 }) }
    ensures no_number { first_mesh_fault (codes "1 3 x") []
        ≡ Some (record { file = InNode; line = 1; what = Header; number = pos 0 }) }
    ensures attributes { first_mesh_fault (codes "1 3 65") []
        ≡ Some (record { file = InNode; line = 1; what = Header; number = pos 0 }) }
    ensures markers { first_mesh_fault (codes "1 3 0 2") []
        ≡ Some (record { file = InNode; line = 1; what = Header; number = pos 0 }) }
    ensures ele_no_row { first_mesh_fault five_points []
        ≡ Some (record { file = InEle; line = 0; what = Header; number = pos 0 }) }
    ensures ele_four_words { first_mesh_fault five_points (codes "1 4 0 0")
        ≡ Some (record { file = InEle; line = 1; what = Header; number = pos 0 }) }
    ensures ele_many { first_mesh_fault five_points (codes "1000001 10")
        ≡ Some (record { file = InEle; line = 1; what = TooMany; number = pos (cell_limit + 1) }) }
    ensures ele_corners { first_mesh_fault five_points (codes "1 5")
        ≡ Some (record { file = InEle; line = 1; what = Header; number = pos 0 }) }
    ensures ele_attributes { first_mesh_fault five_points (codes "1 4 65")
        ≡ Some (record { file = InEle; line = 1; what = Header; number = pos 0 }) }
{}

/// Faults of words, by what the word should be, and of missing rows, which are reported at the last line, after the tests of the line.
fn words_and_rows()
    ensures row_number { first_mesh_fault (codes "1\nx 0 0 0\n") []
        ≡ Some (record { file = InNode; line = 2; what = BadNumber; number = pos 0 }) }
    ensures coordinate { first_mesh_fault (codes "1\n0 0 0 1e\n") []
        ≡ Some (record { file = InNode; line = 2; what = BadNumber; number = pos 0 }) }
    ensures marker { first_mesh_fault (codes "1 3 0 1\n0 0 0 0 1.5\n") []
        ≡ Some (record { file = InNode; line = 2; what = BadNumber; number = pos 0 }) }
    ensures node_words { first_mesh_fault (codes "1\n0 0 0 0 0\n") []
        ≡ Some (record { file = InNode; line = 2; what = Extra; number = pos 0 }) }
    ensures corner { first_mesh_fault five_points (codes "1\n0 0 1 2 3.0\n")
        ≡ Some (record { file = InEle; line = 2; what = BadNumber; number = pos 0 }) }
    ensures corner_below { first_mesh_fault five_points (codes "1\n0 0 1 2 -1\n")
        ≡ Some (record { file = InEle; line = 2; what = CornerRange; number = pos 0 }) }
    ensures below_base { first_mesh_fault (codes "1\n1 0 0 0\n") (codes "1\n0 0 1 1 1\n")
        ≡ Some (record { file = InEle; line = 2; what = CornerRange; number = pos 0 }) }
    ensures cell_number { first_mesh_fault five_points (codes "1\n2 0 1 2 3\n")
        ≡ Some (record { file = InEle; line = 2; what = NumberOrder; number = pos 0 }) }
    ensures missing_at_end { first_mesh_fault (codes "2\n0 0 0 0\n# end\n") []
        ≡ Some (record { file = InNode; line = 3; what = Missing; number = pos 0 }) }
    ensures tests_before_missing { first_mesh_fault (codes "2\n0 x 0 0\n") []
        ≡ Some (record { file = InNode; line = 2; what = BadNumber; number = pos 0 }) }
    ensures first_repeated_cell { first_mesh_fault five_points
        (codes "3\n0 0 1 2 3\n1 1 0 2 3\n2 0 1 2 3\n")
        ≡ Some (record { file = InEle; line = 3; what = CellTwice; number = pos 0 }) }
{}

/// Files that spell a mesh: missing words of a header, the base 1 with cells numbered from 0, attributes and markers.
fn good_files()
    ensures short_headers { first_mesh_fault (codes "4\n1 0 0 0\n2 1 0 0\n3 0 1 0\n4 0 0 1\n")
        (codes "1\n0 4 3 2 1\n") ≡ None }
    ensures attributes { first_mesh_fault
        (codes "4 3 1 1\n0 0 0 0 .5 7\n1 1 0 0 0 -1\n2 0 1 0 0 0\n3 0 0 1 1e3 0\n")
        (codes "1 4 2\n1 0 1 2 3 2.5 0\n") ≡ None }
    ensures nothing { first_mesh_fault (codes "0") (codes "0") ≡ None }
{}

/// What files spell: coordinates and markers, corners as indices from 0, and the first attribute as the region; without these
/// words the marker and the region are 0.
fn spelled_lists()
    ensures marked { Points (text_rows marked_points).rows 1 four_marked }
    ensures with_region { Cells (text_rows cell_with_region).rows four_marked 1 turned_with_region }
    ensures short { Points (text_rows short_points).rows 0 one_short }
    ensures without_region { Cells (text_rows short_cell).rows four_marked 0 plain_cell }
{}

/// Node files with a faulty header.
fn node_files()
    ensures empty { first_mesh_fault (codes "") (codes "")
        ≡ Some (record { file = InNode; line = 0; what = Header; number = pos 0 }) }
    ensures many { first_mesh_fault (codes "200001 3 0 0\n") (codes "")
        ≡ Some (record { file = InNode; line = 1; what = TooMany; number = pos (point_limit + 1) }) }
{}
