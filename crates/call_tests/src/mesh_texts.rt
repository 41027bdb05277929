//! Points and meshes that are read from their texts.

use liszt_base::{MeshFault, MeshFile, MeshWhat, Point, Refused};
use std::test::Fail;
use tet_reader::{read_mesh, read_points};
use text_scan::rows_of;

/// A point without a boundary marker, at these millionths.
fn unmarked(x: i64, y: i64, z: i64) -> Point {
    Point { x, y, z, mark: 0 }
}

/// The points of a node file made by hand, with a comment first and last and CR LF after each line.
#[test]
fn points_made_by_hand(rt: HostRuntime) -> Result<(), Fail> {
    let alloc = rt.alloc();
    let text =
        b"# by hand\r\n4 3 0 0\r\n1 1e-05 -0.0000019 .5\r\n2 1 0 0\r\n3 0 1 0\r\n4 0 0 1\r\n# end\r\n";
    let rows = rows_of(alloc, text)?;
    let table = read_points(alloc, &rows)?;
    let points = table.list.as_slice();
    assert_eq!(&rt; points.len(), 4);
    assert_eq!(&rt; points[0], unmarked(10, -1, 500_000));
    assert_eq!(&rt; points[1], unmarked(1_000_000, 0, 0));
    assert_eq!(&rt; points[2], unmarked(0, 1_000_000, 0));
    assert_eq!(&rt; points[3], unmarked(0, 0, 1_000_000));
    assert_eq!(&rt; table.base, 1);
    Ok(())
}

const NODE: &[u8] = b"4 3 1 1\n1 1 2 3 .5 7\n2 0 1 0 0 -1\n3 0 0 1 0 0\n4 1 1 1 1e3 2\n";

/// The mesh of both files, with attributes, a marker and a region.
#[test]
fn mesh_of_both_files(rt: HostRuntime) -> Result<(), Fail> {
    let mesh = read_mesh(rt.alloc(), NODE, b"1 4 2\n0 4 2 3 1 2.5 9\n")?;
    assert_eq!(&rt; mesh.points().len(), 4);
    let first = Point {
        x: 1_000_000,
        y: 2_000_000,
        z: 3_000_000,
        mark: 7,
    };
    assert_eq!(&rt; mesh.points()[0], first);
    assert_eq!(&rt; mesh.cells().len(), 1);
    assert_eq!(&rt; mesh.cells()[0].corners, [3, 1, 2, 0]);
    assert_eq!(&rt; mesh.cells()[0].region, 2_500_000);
    assert_eq!(&rt; mesh.base(), 1);
    Ok(())
}

/// A corner that is no point.
#[test]
fn mesh_fault(rt: HostRuntime) {
    let fault = match read_mesh(rt.alloc(), NODE, b"1 4\n0 4 2 3 9\n") {
        Err(Refused::Fault(fault)) => Some(fault),
        _ => None,
    };
    let expected = MeshFault {
        file: MeshFile::Ele,
        line: 2,
        what: MeshWhat::CornerRange,
        number: 0,
    };
    assert_eq!(&rt; fault, Some(expected));
}
