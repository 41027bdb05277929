//! The operators on the elements of a mesh. Nil is `None`, and each operator of nil is nil.

ghost use Rattle.std.specs.Prelude.{◌≡◌};
ghost use Rattle.liszt_base.specs.declared.elements.Kind.TheVariants.{Vertex, Edge, Face, Cell};
ghost use Rattle.topo_operators.specs.Operands.{AreTowardsOperands, IsElement, IsNilOrElement};
ghost use Rattle.topo_operators.specs.Operators.{unflipped as Unflipped, reversed as Reversed, tail as Tail, head as Head, inside as Inside, outside as Outside, flip as Flip, same as Same, valid as Valid, points_to as PointsTo, towards as Towards};

use liszt_base::{Elem, Kind};
use mesh_topology::Mesh;

/// An element, unflipped.
pub(crate) fn unflipped(kind: Kind, id: u32) -> Elem
    ensures { result ≡ Unflipped kind id }
{
    Elem {
        kind,
        id,
        flipped: false,
    }
}

/// The element in its other orientation.
fn reversed(x: Elem) -> Elem
    ensures { result ≡ Reversed x }
{
    Elem {
        kind: x.kind,
        id: x.id,
        flipped: !x.flipped,
    }
}

/// The vertex from which an edge goes: its smaller corner, or its larger one if the edge is flipped.
pub fn tail(m: &Mesh, x: Option<Elem>) -> Option<Elem>
    requires { IsNilOrElement m.now Edge x }
    ensures { result ≡ Tail m.now x }
{
    let edge = x?;
    let (lesser, greater) = m.edge_ends(edge.id);
    let id = if edge.flipped { greater } else { lesser };
    Some(unflipped(Kind::Vertex, id))
}

/// The vertex to which an edge goes.
pub fn head(m: &Mesh, x: Option<Elem>) -> Option<Elem>
    requires { IsNilOrElement m.now Edge x }
    ensures { result ≡ Head m.now x }
{
    tail(m, flip(m, x))
}

/// The cell at the inside of a face: the first of the cells beside it, or the second, if any, if the face is flipped.
pub fn inside(m: &Mesh, x: Option<Elem>) -> Option<Elem>
    requires { IsNilOrElement m.now Face x }
    ensures { result ≡ Inside m.now x }
{
    let face = x?;
    let (first, second) = m.face_cells(face.id);
    let id = if face.flipped { second? } else { first };
    Some(unflipped(Kind::Cell, id))
}

/// The cell at the outside of a face, if any.
pub fn outside(m: &Mesh, x: Option<Elem>) -> Option<Elem>
    requires { IsNilOrElement m.now Face x }
    ensures { result ≡ Outside m.now x }
{
    inside(m, flip(m, x))
}

/// The other orientation of an edge or a face. The mesh is a parameter as for the other operators, and is not read.
pub fn flip(_m: &Mesh, x: Option<Elem>) -> Option<Elem>
    ensures { result ≡ Flip x }
{
    Some(reversed(x?))
}

/// The element to which an orientation points: the head of an edge, the outside of a face.
fn points_to(m: &Mesh, x: Elem) -> Option<Elem>
    requires edge { x.kind ≡ Edge → IsElement m.now Edge x }
    requires face { x.kind ≡ Face → IsElement m.now Face x }
    ensures { result ≡ PointsTo m.now x }
{
    match x.kind {
        Kind::Edge => head(m, Some(x)),
        Kind::Face => outside(m, Some(x)),
        _ => None,
    }
}

/// The orientation of an edge whose head is a vertex, or of a face whose outside is a cell; nil if neither points there.
pub fn towards(m: &Mesh, x: Option<Elem>, to: Option<Elem>) -> Option<Elem>
    requires { AreTowardsOperands m.now x to }
    ensures { result ≡ Towards m.now x to }
{
    let x = x?;
    let to = to?;
    let along = unflipped(x.kind, x.id);
    let back = reversed(along);
    if same(points_to(m, along), Some(to)) {
        Some(along)
    } else if same(points_to(m, back), Some(to)) {
        Some(back)
    } else {
        None
    }
}

/// Whether two are the same element, in any orientations, or both nil.
pub fn same(x: Option<Elem>, y: Option<Elem>) -> bool
    ensures { result ≡ Same x y }
{
    match (x, y) {
        (None, None) => true,
        (Some(x), Some(y)) => x.kind == y.kind && x.id == y.id,
        _ => false,
    }
}

/// Whether this is an element and not nil.
pub fn valid(x: Option<Elem>) -> bool
    ensures { result ≡ Valid x }
{
    x.is_some()
}

/// The id of an element among those of its kind, from 0.
pub fn id_of(x: Elem) -> u32
    ensures { result ≡ x.id }
{
    x.id
}
