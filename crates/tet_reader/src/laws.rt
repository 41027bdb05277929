//! Laws of the definitions, each the contract of a function with an empty body.

ghost use Rattle.std.specs.Prelude.{◌≡◌, ◌↔◌, ℕ, List, None, length, map};
ghost use Rattle.liszt_base.specs.Corners.{IsMesh};
ghost use Rattle.liszt_base.specs.declared.mesh.Point.{Point as PointOf};
ghost use Rattle.liszt_base.specs.declared.mesh.RawCell.{RawCell as CellOf};
ghost use Rattle.text_scan.specs.Rows.{Row, TextRows};
ghost use Rattle.tet_reader.specs.Faults.{node_fault, ele_fault, mesh_fault};
ghost use Rattle.tet_reader.specs.Points.{Points, Cells};

/// Rows spell at most one list of points, from one base, and over points at most one list of cells.
pub fn one_list()
    ensures points { (rows : List Row) (base other : ℕ) (points others : List PointOf)
        → Points rows base points → Points rows other others → (base ≡ other) × (points ≡ others) }
    ensures cells { (rows : List Row) (points : List PointOf) (base : ℕ)
        (cells others : List CellOf) → Cells rows points base cells → Cells rows points base others
        → cells ≡ others }
{}

/// A node file has no fault exactly where its rows spell points, and an ele file over points exactly where its rows spell cells.
pub fn no_fault_is_some_list()
    ensures points { (text : TextRows) → (node_fault text ≡ None) ↔
        ((base : ℕ) × (points : List PointOf) × Points text.rows base points) }
    ensures cells { (text : TextRows) (points : List PointOf) (base : ℕ)
        → (ele_fault (length points) base text ≡ None) ↔
        ((cells : List CellOf) × Cells text.rows points base cells) }
{}

/// Two files have no fault exactly where they spell points and cells that make a mesh.
pub fn no_fault_is_some_mesh()
    ensures { (node ele : TextRows) → (mesh_fault node ele ≡ None) ↔
        ((base : ℕ) × (points : List PointOf) × (cells : List CellOf) × Points node.rows base points
        × Cells ele.rows points base cells × IsMesh (length points)
        (map (λ cell. cell.corners) cells)) }
{}
