//! One cell: the edges along the cycle of each of its faces, and an edge and a vertex that is no end of it.

ghost use Rattle.std.specs.Prelude.{◌≡◌, IfOk, replicate};
ghost use Rattle.mesh_topology.specs.Internal.Meshes.{some_point, one_cell as OneCell};

use crate::{members, towards};
use liszt_base::{
    CellList, Elem, Kind, NoMemory, Point, PointList, PointTable, RawCell, RawMesh, SetName,
};
use mesh_topology::Mesh;
use std::alloc::Global;
use std::test::Fail;

fn four_points(alloc: Global) -> Result<PointList, NoMemory>
    ensures { IfOk result (λ points. points ≡ replicate 4 some_point) }
{
    let point = Point {
        x: 0,
        y: 0,
        z: 0,
        mark: 0,
    };
    let mut list = PointList::new(alloc);
    list.push(point)?;
    list.push(point)?;
    list.push(point)?;
    list.push(point)?;
    Ok(list)
}

fn one_cell(alloc: Global) -> Result<RawMesh, NoMemory>
    ensures { IfOk result (λ raw. raw ≡ OneCell) }
{
    let list = four_points(alloc)?;
    let mut cells = CellList::new(alloc);
    cells.push(RawCell {
        corners: [0, 1, 2, 3],
        region: 0,
    })?;
    Ok(RawMesh::new(PointTable { list, base: 1 }, cells))
}

fn built(alloc: Global) -> Result<Mesh, NoMemory> {
    let raw = one_cell(alloc)?;
    Mesh::build(alloc, raw)
}

fn element(kind: Kind, id: u32, flipped: bool) -> Elem
    ensures { result ≡ record { kind = kind; id = id; flipped = flipped } }
{
    Elem { kind, id, flipped }
}

fn goes_along(m: &Mesh, face: u32, expected: [(u32, bool); 3]) -> bool {
    if face >= m.count(Kind::Face) {
        return false;
    }
    let mut edges = members(m, SetName::EdgesCcw, element(Kind::Face, face, false));
    let [(a, back_a), (b, back_b), (c, back_c)] = expected;
    edges.next() == Some(element(Kind::Edge, a, back_a))
        && edges.next() == Some(element(Kind::Edge, b, back_b))
        && edges.next() == Some(element(Kind::Edge, c, back_c))
        && edges.next() == None
}

fn points_nowhere(m: &Mesh, edge: u32, vertex: u32) -> bool {
    if edge >= m.count(Kind::Edge) || vertex >= m.count(Kind::Vertex) {
        return false;
    }
    let from = element(Kind::Edge, edge, false);
    let to = element(Kind::Vertex, vertex, false);
    towards(m, Some(from), Some(to)) == None
}

#[test]
fn one_cell_is_as_drawn(rt: HostRuntime) -> Result<(), Fail> {
    let mesh = built(rt.alloc())?;
    assert!(rt; goes_along(&mesh, 0, [(1, false), (3, true), (0, true)]));
    assert!(rt; goes_along(&mesh, 1, [(0, false), (4, false), (2, true)]));
    assert!(rt; goes_along(&mesh, 2, [(2, false), (5, true), (1, true)]));
    assert!(rt; goes_along(&mesh, 3, [(3, false), (5, false), (4, true)]));
    assert!(rt; points_nowhere(&mesh, 4, 0));
    Ok(())
}
