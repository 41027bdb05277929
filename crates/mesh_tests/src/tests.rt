//! The meshes come from their texts.

use crate::agreement::agrees;
use crate::corner_lists::CornerLists;
use crate::meshes::MESHES;
use liszt_base::NoMemory;
use mesh_topology::Mesh;
use std::alloc::{AllocError, Global};
use std::test::Fail;
use tet_reader::read_mesh;

/// Whether the mesh of two short texts agrees with what is found by comparing corners.
fn mesh_agrees(alloc: Global, node: &[u8], ele: &[u8]) -> Result<bool, NoMemory> {
    if node.len() > 100_000 || ele.len() > 100_000 {
        return Ok(false);
    }
    let Ok(raw) = read_mesh(alloc, node, ele) else {
        return Ok(false);
    };
    if raw.points().len() > 1000 || raw.cells().len() > 1000 {
        return Ok(false);
    }
    let found = CornerLists::new(alloc, &raw)?;
    let mesh = Mesh::build(alloc, raw)?;
    Ok(agrees(&mesh, &found))
}

/// A node file of points at one place.
fn node_text(alloc: Global, points: u32) -> Result<String, AllocError> {
    let mut text = format!(in alloc; "{points} 3 0 0\n")?;
    for id in 0..points {
        text.push_str(format!(in alloc; "{id} 0 0 0\n")?.as_str())?;
    }
    Ok(text)
}

/// An ele file of cells between strokes.
fn ele_text(alloc: Global, cells: &str) -> Result<String, AllocError> {
    let mut rows = String::new(alloc);
    let mut count = 0u32;
    for cell in cells.split('/').filter(|cell| !cell.is_empty()) {
        rows.push_str(format!(in alloc; "{count} {cell}\n")?.as_str())?;
        count = count.saturating_add(1);
    }
    format!(in alloc; "{count} 4 0\n{rows}")
}

/// Whether the mesh of a row agrees.
fn row_agrees(alloc: Global, points: &str, cells: &str) -> Result<bool, NoMemory> {
    let points = points.parse::<u32>().unwrap_or(0);
    let node = node_text(alloc, points.min(100))?;
    let ele = ele_text(alloc, cells)?;
    mesh_agrees(alloc, node.as_bytes(), ele.as_bytes())
}

/// The corners of each element, the ids near it of each kind, the ends of edges and the sides of faces.
#[test]
fn meshes_agree_with_corners(rt: HostRuntime) -> Result<(), Fail> {
    let mut rows = 0usize;
    for row in MESHES.split('\n') {
        let mut parts = row.split('~');
        let name = parts.next().unwrap_or("");
        let points = parts.next().unwrap_or("");
        let cells = parts.next().unwrap_or("");
        let agrees = row_agrees(rt.alloc(), points, cells)?;
        assert!(&rt; agrees, "{name}");
        rows = rows.saturating_add(1);
    }
    assert_eq!(&rt; rows, 13);
    Ok(())
}
