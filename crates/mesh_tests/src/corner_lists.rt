//! The elements of a mesh and what lies beside them, found by comparing corners alone.

use liszt_base::{Kind, NoMemory, PlainLists, RawMesh};
use std::alloc::Global;

/// The corners of the elements of each kind, edges and faces in lexicographic order.
#[derive(Drop)]
pub struct CornerLists {
    vertices: PlainLists<u32>,
    edges: PlainLists<u32>,
    faces: PlainLists<u32>,
    cells: PlainLists<u32>,
}

impl CornerLists {
    /// The elements of a mesh of at most a thousand points.
    pub fn new(alloc: Global, raw: &RawMesh) -> Result<CornerLists, NoMemory> {
        let points = raw.points().len().min(1000) as u32;
        let vertices = vertex_corners(alloc, points)?;
        let cells = cell_corners(alloc, raw)?;
        let edges = edge_corners(alloc, &cells, points)?;
        let faces = face_corners(alloc, &cells, &edges, points)?;
        Ok(CornerLists {
            vertices,
            edges,
            faces,
            cells,
        })
    }

    /// The corners of the elements of a kind.
    pub fn of_kind(&self, kind: Kind) -> &PlainLists<u32> {
        match kind {
            Kind::Vertex => &self.vertices,
            Kind::Edge => &self.edges,
            Kind::Face => &self.faces,
            Kind::Cell => &self.cells,
        }
    }

    /// The corners of an element, or none where there is no such element.
    pub fn corners(&self, kind: Kind, id: usize) -> &[u32] {
        let elements = self.of_kind(kind);
        if id < elements.len() {
            elements.of(id)
        } else {
            &[]
        }
    }

    /// Whether two vertices share an edge.
    fn share_edge(&self, a: &[u32], b: &[u32]) -> bool {
        match (a, b) {
            ([a], [b]) => some_contains_all(&self.edges, &[*a, *b]),
            _ => false,
        }
    }

    /// Whether an element lies beside another one.
    pub fn is_beside(&self, kind: Kind, id: usize, out: Kind, other: usize) -> bool {
        let a = self.corners(kind, id);
        let b = self.corners(out, other);
        if kind != out {
            contains_all(a, b) || contains_all(b, a)
        } else if id == other {
            false
        } else if kind == Kind::Vertex {
            self.share_edge(a, b)
        } else {
            shared_count(a, b) == 3
        }
    }

    /// The first cell from an id on that has all these corners.
    pub fn cell_of(&self, corners: &[u32], start: usize) -> Option<usize> {
        for cell in start..self.cells.len() {
            if contains_all(self.corners(Kind::Cell, cell), corners) {
                return Some(cell);
            }
        }
        None
    }
}

/// Whether the second corners are among the first.
fn contains_all(xs: &[u32], ys: &[u32]) -> bool {
    for y in ys {
        if !xs.contains(y) {
            return false;
        }
    }
    true
}

/// The number of the second corners that are among the first.
fn shared_count(xs: &[u32], ys: &[u32]) -> usize {
    let mut count = 0usize;
    for y in ys {
        if xs.contains(y) {
            count = count.saturating_add(1);
        }
    }
    count
}

/// Whether the corners are among those of one of these elements.
fn some_contains_all(elements: &PlainLists<u32>, corners: &[u32]) -> bool {
    for id in 0..elements.len() {
        if contains_all(elements.of(id), corners) {
            return true;
        }
    }
    false
}

fn vertex_corners(alloc: Global, points: u32) -> Result<PlainLists<u32>, NoMemory> {
    let mut vertices = PlainLists::new(alloc);
    for v in 0..points {
        vertices.push(&[v])?;
    }
    Ok(vertices)
}

fn cell_corners(alloc: Global, raw: &RawMesh) -> Result<PlainLists<u32>, NoMemory> {
    let mut cells = PlainLists::new(alloc);
    for cell in raw.cells() {
        cells.push(&cell.corners)?;
    }
    Ok(cells)
}

/// Adds the edges of cells from a vertex to greater ones.
fn push_edges(
    edges: &mut PlainLists<u32>,
    cells: &PlainLists<u32>,
    points: u32,
    a: u32,
) -> Result<(), NoMemory> {
    for b in 0..points {
        if a < b && some_contains_all(cells, &[a, b]) {
            edges.push(&[a, b])?;
        }
    }
    Ok(())
}

fn edge_corners(
    alloc: Global,
    cells: &PlainLists<u32>,
    points: u32,
) -> Result<PlainLists<u32>, NoMemory> {
    let mut edges = PlainLists::new(alloc);
    for a in 0..points {
        push_edges(&mut edges, cells, points, a)?;
    }
    Ok(edges)
}

/// Adds the faces of cells from two vertices to greater ones.
fn push_faces(
    faces: &mut PlainLists<u32>,
    cells: &PlainLists<u32>,
    points: u32,
    a: u32,
    b: u32,
) -> Result<(), NoMemory> {
    for c in 0..points {
        if b < c && some_contains_all(cells, &[a, b, c]) {
            faces.push(&[a, b, c])?;
        }
    }
    Ok(())
}

fn face_corners(
    alloc: Global,
    cells: &PlainLists<u32>,
    edges: &PlainLists<u32>,
    points: u32,
) -> Result<PlainLists<u32>, NoMemory> {
    let mut faces = PlainLists::new(alloc);
    for edge in 0..edges.len() {
        if let [a, b] = edges.of(edge) {
            push_faces(&mut faces, cells, points, *a, *b)?;
        }
    }
    Ok(faces)
}
