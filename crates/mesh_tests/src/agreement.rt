//! Whether the tables and the operators of a mesh agree with what is found by comparing corners.

ghost use Rattle.std.specs.Prelude.{◌≡◌, false};

use crate::corner_lists::CornerLists;
use liszt_base::{Elem, Kind};
use mesh_topology::Mesh;
use topo_operators::{head, inside, outside, tail};

const KINDS: [Kind; 4] = [Kind::Vertex, Kind::Edge, Kind::Face, Kind::Cell];

/// Whether a mesh agrees with the elements that are found by comparing corners.
pub fn agrees(mesh: &Mesh, found: &CornerLists) -> bool {
    for kind in KINDS {
        if !kind_agrees(mesh, found, kind) {
            return false;
        }
    }
    ends_agree(mesh, found) && sides_agree(mesh, found)
}

fn kind_agrees(mesh: &Mesh, found: &CornerLists, kind: Kind) -> bool {
    for out in KINDS {
        if !neighbours_agree(mesh, found, kind, out) {
            return false;
        }
    }
    true
}

/// Whether the elements of a kind have the corners that were found, and beside each lie those of the other kind that were
/// found.
fn neighbours_agree(mesh: &Mesh, found: &CornerLists, kind: Kind, out: Kind) -> bool {
    if mesh.count(kind) as usize != found.of_kind(kind).len() {
        return false;
    }
    let has_none = kind == out && (kind == Kind::Edge || kind == Kind::Face);
    for id in 0..mesh.count(kind) {
        if !has_corners(mesh, kind, id, found.corners(kind, id as usize)) {
            return false;
        }
        if !has_none && !element_agrees(mesh, found, kind, id, out) {
            return false;
        }
    }
    true
}

/// Whether the ids of a kind near an element are those that lie beside it, ascending.
fn element_agrees(mesh: &Mesh, found: &CornerLists, kind: Kind, id: u32, out: Kind) -> bool {
    let mut ids = near(mesh, kind, id, out);
    for other in 0..found.of_kind(out).len() {
        if found.is_beside(kind, id as usize, out, other) {
            match ids.split_first() {
                Some((first, rest)) if *first as usize == other => ids = rest,
                _ => return false,
            }
        }
    }
    ids.is_empty()
}

fn near(mesh: &Mesh, kind: Kind, id: u32, out: Kind) -> &[u32] {
    match kind {
        Kind::Vertex => near_vertex(mesh, id, out),
        Kind::Edge => near_edge(mesh, id, out),
        Kind::Face => near_face(mesh, id, out),
        Kind::Cell => near_cell(mesh, id, out),
    }
}

fn near_vertex(mesh: &Mesh, id: u32, out: Kind) -> &[u32] {
    if id >= mesh.count(Kind::Vertex) {
        return &[];
    }
    match out {
        Kind::Vertex => mesh.near(Kind::Vertex, id, Kind::Vertex),
        Kind::Edge => mesh.near(Kind::Vertex, id, Kind::Edge),
        Kind::Face => mesh.near(Kind::Vertex, id, Kind::Face),
        Kind::Cell => mesh.near(Kind::Vertex, id, Kind::Cell),
    }
}

fn near_edge(mesh: &Mesh, id: u32, out: Kind) -> &[u32] {
    if id >= mesh.count(Kind::Edge) {
        return &[];
    }
    match out {
        Kind::Vertex => mesh.near(Kind::Edge, id, Kind::Vertex),
        Kind::Edge => &[],
        Kind::Face => mesh.near(Kind::Edge, id, Kind::Face),
        Kind::Cell => mesh.near(Kind::Edge, id, Kind::Cell),
    }
}

fn near_face(mesh: &Mesh, id: u32, out: Kind) -> &[u32] {
    if id >= mesh.count(Kind::Face) {
        return &[];
    }
    match out {
        Kind::Vertex => mesh.near(Kind::Face, id, Kind::Vertex),
        Kind::Edge => mesh.near(Kind::Face, id, Kind::Edge),
        Kind::Face => &[],
        Kind::Cell => mesh.near(Kind::Face, id, Kind::Cell),
    }
}

fn near_cell(mesh: &Mesh, id: u32, out: Kind) -> &[u32] {
    if id >= mesh.count(Kind::Cell) {
        return &[];
    }
    match out {
        Kind::Vertex => mesh.near(Kind::Cell, id, Kind::Vertex),
        Kind::Edge => mesh.near(Kind::Cell, id, Kind::Edge),
        Kind::Face => mesh.near(Kind::Cell, id, Kind::Face),
        Kind::Cell => mesh.near(Kind::Cell, id, Kind::Cell),
    }
}

/// Whether an element has these corners, and an edge is found by them.
fn has_corners(mesh: &Mesh, kind: Kind, id: u32, corners: &[u32]) -> bool {
    match (kind, corners) {
        (Kind::Edge, [a, b]) => {
            let vertices = mesh.count(Kind::Vertex);
            id < mesh.count(Kind::Edge)
                && *a < vertices
                && *b < vertices
                && mesh.edge_ends(id) == (*a, *b)
                && mesh.edge_number(*b, *a) == Some(id)
        }
        (Kind::Face, [a, b, c]) => {
            id < mesh.count(Kind::Face) && mesh.face_corners(id) == [*a, *b, *c]
        }
        (Kind::Vertex, [v]) => *v == id,
        (Kind::Cell, [_, _, _, _]) => true,
        _ => false,
    }
}

/// An unflipped element.
fn element(kind: Kind, id: u32) -> Elem
    ensures { result ≡ record { kind = kind; id = id; flipped = false } }
{
    Elem {
        kind,
        id,
        flipped: false,
    }
}

/// Whether tail and head of each edge are its ends, the lesser one first.
fn ends_agree(mesh: &Mesh, found: &CornerLists) -> bool {
    for id in 0..mesh.count(Kind::Edge) {
        let edge = Some(element(Kind::Edge, id));
        match found.corners(Kind::Edge, id as usize) {
            [a, b] if tail(mesh, edge) == Some(element(Kind::Vertex, *a)) => {
                if head(mesh, edge) != Some(element(Kind::Vertex, *b)) {
                    return false;
                }
            }
            _ => return false,
        }
    }
    true
}

/// Whether inside and outside of each face are the cells beside it, the lesser one first.
fn sides_agree(mesh: &Mesh, found: &CornerLists) -> bool {
    for id in 0..mesh.count(Kind::Face) {
        let corners = found.corners(Kind::Face, id as usize);
        let first = found.cell_of(corners, 0);
        let second = first.and_then(|cell| found.cell_of(corners, cell.saturating_add(1)));
        let face = Some(element(Kind::Face, id));
        if !is_cell(inside(mesh, face), first) || !is_cell(outside(mesh, face), second) {
            return false;
        }
    }
    true
}

/// Whether an element is the cell of this id, or both are none.
fn is_cell(element: Option<Elem>, id: Option<usize>) -> bool {
    match (element, id) {
        (Some(element), Some(id)) => element.kind == Kind::Cell && element.id as usize == id,
        (None, None) => true,
        _ => false,
    }
}
