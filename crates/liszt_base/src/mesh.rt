ghost use Rattle.std.specs.Prelude.{◌≡◌};

use crate::plain_list::PlainList;
use std::marker::Model;

/// A point: its coordinates in millionths, and its boundary marker.
#[derive(Clone, Copy, Debug, PartialEq, Eq)]
pub struct Point {
    pub x: i64,
    pub y: i64,
    pub z: i64,
    pub mark: i64,
}

/// A tetrahedron as a mesh file gives it: the places of its corners among the points, from 0, in the order of its
/// line, and its region in millionths.
#[derive(Clone, Copy, Debug, PartialEq, Eq)]
pub struct RawCell {
    pub corners: [u32; 4],
    pub region: i64,
}

/// A list of points.
pub type PointList = PlainList<Point>;

/// A list of cells.
pub type CellList = PlainList<RawCell>;

/// The points of a node file, in their order, and the number of the first one, 0 or 1 (0 where there are none).
#[derive(Debug, Drop)]
pub struct PointTable {
    pub list: PointList,
    pub base: u32,
}

/// A mesh as its two files give it. Contracts see the two lists and the first point's number.
#[derive(Debug, Drop)]
pub struct RawMesh {
    points: PointTable,
    cells: CellList,
}

impl Model for RawMesh {
    ghost use Rattle.liszt_base.specs.MeshLists.{MeshLists};

    ghost Value = { MeshLists };

    ghost view = { λ m. record { points = m.points.list; cells = m.cells; base = m.points.base } };
}

impl RawMesh {
    /// The mesh of these points and cells.
    pub fn new(points: PointTable, cells: CellList) -> RawMesh
        ensures { result ≡ record { points = points.list; cells = cells; base = points.base } }
    {
        RawMesh { points, cells }
    }

    /// The points, in the order of their lines.
    pub fn points(&self) -> &[Point]
        ensures { result.now ≡ self.now.points }
    {
        self.points.list.as_slice()
    }

    /// The cells, in the order of their lines.
    pub fn cells(&self) -> &[RawCell]
        ensures { result.now ≡ self.now.cells }
    {
        self.cells.as_slice()
    }

    /// The number of the first point in its file, 0 or 1.
    pub fn base(&self) -> u32
        ensures { result ≡ self.now.base }
    {
        self.points.base
    }
}
