//! The mesh of two cells that share a face.

ghost use Rattle.std.specs.Prelude.{◌≡◌, IfOk, replicate};
ghost use Rattle.mesh_topology.specs.Internal.Meshes.{some_point, two_cells as TwoCells};

use crate::Mesh;
use liszt_base::{CellList, Kind, NoMemory, Point, PointList, PointTable, RawCell, RawMesh};
use std::alloc::Global;
use std::test::Fail;

fn five_points(alloc: Global) -> Result<PointList, NoMemory>
    ensures { IfOk result (λ points. points ≡ replicate 5 some_point) }
{
    let point = Point {
        x: 0,
        y: 0,
        z: 0,
        mark: 0,
    };
    let mut list = PointList::new(alloc);
    list.push(point)?;
    list.push(point)?;
    list.push(point)?;
    list.push(point)?;
    list.push(point)?;
    Ok(list)
}

fn two_cells(alloc: Global) -> Result<RawMesh, NoMemory>
    ensures { IfOk result (λ raw. raw ≡ TwoCells) }
{
    let list = five_points(alloc)?;
    let mut cells = CellList::new(alloc);
    cells.push(RawCell {
        corners: [0, 1, 2, 3],
        region: 0,
    })?;
    cells.push(RawCell {
        corners: [1, 2, 3, 4],
        region: 0,
    })?;
    Ok(RawMesh::new(PointTable { list, base: 0 }, cells))
}

fn built(alloc: Global) -> Result<Mesh, NoMemory> {
    let raw = two_cells(alloc)?;
    Mesh::build(alloc, raw)
}

fn vertices_near(mesh: &Mesh, v: u32, expected: &[u32]) -> bool {
    v < mesh.count(Kind::Vertex) && mesh.near(Kind::Vertex, v, Kind::Vertex) == expected
}

fn edges_near(mesh: &Mesh, f: u32, expected: &[u32]) -> bool {
    f < mesh.count(Kind::Face) && mesh.near(Kind::Face, f, Kind::Edge) == expected
}

fn cells_near(mesh: &Mesh, c: u32, expected: &[u32]) -> bool {
    c < mesh.count(Kind::Cell) && mesh.near(Kind::Cell, c, Kind::Cell) == expected
}

fn sides_are(mesh: &Mesh, f: u32, first: u32, second: Option<u32>) -> bool {
    f < mesh.count(Kind::Face) && mesh.face_cells(f) == (first, second)
}

fn edge_is(mesh: &Mesh, a: u32, b: u32, expected: Option<u32>) -> bool {
    let vertices = mesh.count(Kind::Vertex);
    a < vertices && b < vertices && mesh.edge_number(a, b) == expected
}

/// Incidence in the two cells.
fn is_as_drawn(mesh: &Mesh) -> bool {
    vertices_near(mesh, 0, &[1, 2, 3])
        && vertices_near(mesh, 1, &[0, 2, 3, 4])
        && edges_near(mesh, 6, &[6, 7, 8])
        && cells_near(mesh, 0, &[1])
        && sides_are(mesh, 3, 0, Some(1))
        && sides_are(mesh, 0, 0, None)
        && edge_is(mesh, 4, 1, Some(5))
        && edge_is(mesh, 0, 4, None)
}

#[test]
fn two_cells_are_as_drawn(rt: HostRuntime) -> Result<(), Fail> {
    let mesh = built(rt.alloc())?;
    assert!(rt; is_as_drawn(&mesh));
    Ok(())
}
