//! The sets of an element, each an iterator over its members.

ghost use Rattle.std.specs.Prelude.{◌≡◌, ◌<◌, ◌==◌, true, [], map, unwrap_or, slice_index};
ghost use Rattle.std.specs.List.{All, find};
ghost use Rattle.std.specs.Iterator.{YieldsFirst};
ghost use Rattle.liszt_base.specs.Corners.{is_in, includes, same_members, induced_cycles};
ghost use Rattle.liszt_base.specs.declared.elements.Kind.TheVariants.{Vertex, Edge, Face, Cell};
ghost use Rattle.mesh_topology.specs.Elements.{count, corners, near as Near, rotations, steps, has_near};
ghost use Rattle.topo_operators.specs.Operands.{IsSetOperand, IsElement};
ghost use Rattle.topo_operators.specs.Operators.{cycle_of as CycleOf, edge_along as EdgeAlong, members as MembersOf, unflipped as Unflipped};
ghost use Rattle.topo_operators.specs.Internal.SetSources.{remaining_members};

use crate::operators::unflipped;
use liszt_base::{Elem, Kind, SetName};
use mesh_topology::Mesh;
use std::marker::Model;

/// Elements of one kind, by their ids.
#[derive(Drop)]
struct NearIds<'a> {
    kind: Kind,
    ids: &'a [u32],
}

impl<'a> Model for NearIds<'a> {
    ghost use Rattle.std.specs.Prelude.{List, map};
    ghost use Rattle.liszt_base.specs.declared.elements.Elem.{Elem as ElemOf};
    ghost use Rattle.topo_operators.specs.Operators.{unflipped as Unflipped};

    ghost Value = { List ElemOf };

    ghost view = { λ s. map (Unflipped s.kind) s.ids.now };
}

impl<'a> NearIds<'a> {
    fn next(&mut self) -> Option<Elem>
        ensures { YieldsFirst (λ s. s) self.old result self.new }
    {
        let (first, others) = self.ids.split_first()?;
        self.ids = others;
        Some(unflipped(self.kind, *first))
    }
}

/// The edges along a cycle, from an index on.
#[derive(Drop)]
struct EdgesAlong {
    edges: [Elem; 3],
    at: usize,
}

impl Model for EdgesAlong {
    ghost use Rattle.std.specs.Prelude.{List, drop};
    ghost use Rattle.liszt_base.specs.declared.elements.Elem.{Elem as ElemOf};

    ghost Value = { List ElemOf };

    ghost view = { λ s. drop s.at s.edges };
}

impl EdgesAlong {
    fn next(&mut self) -> Option<Elem>
        ensures { YieldsFirst (λ s. s) self.old result self.new }
    {
        let edge = *self.edges.get(self.at)?;
        self.at += 1;
        Some(edge)
    }
}

/// The remaining members of a set.
#[derive(Drop)]
enum SetSource<'a> {
    Near(NearIds<'a>),
    Along(EdgesAlong),
}

/// An iterator over the members of a set of an element. Contracts see the list of the remaining ones.
#[derive(Drop)]
pub struct SetMembers<'a> {
    source: SetSource<'a>,
}

impl<'a> Model for SetMembers<'a> {
    ghost use Rattle.std.specs.Prelude.{List};
    ghost use Rattle.liszt_base.specs.declared.elements.Elem.{Elem as ElemOf};
    ghost use Rattle.topo_operators.specs.Internal.SetSources.{remaining_members};

    ghost Value = { List ElemOf };

    ghost view = { λ m. remaining_members m.source };
}

impl<'a> Iterator for SetMembers<'a> {
    ghost use Rattle.std.specs.Iterator.{YieldsFirst, item_count};

    type Item = Elem;

    ghost next_gives = { YieldsFirst (λ s. s) };

    ghost remaining = { item_count (λ s. s) };

    fn next(&mut self) -> Option<Elem> {
        match &mut self.source {
            SetSource::Near(elements) => elements.next(),
            SetSource::Along(edges) => edges.next(),
        }
    }
}

/// Whether a number is one of three.
fn is_one_of(corners: [u32; 3], x: u32) -> bool
    ensures { result ≡ is_in corners x }
{
    let [a, b, c] = corners;
    a == x || b == x || c == x
}

/// Whether all of the second three numbers are among the first three.
fn includes_all(xs: [u32; 3], ys: [u32; 3]) -> bool
    ensures { result ≡ includes xs ys }
{
    let [a, b, c] = ys;
    is_one_of(xs, a) && is_one_of(xs, b) && is_one_of(xs, c)
}

/// The rotation of a cycle that begins with `first`, or `None` if that is not one of its corners.
fn rotation_from(first: u32, cycle: [u32; 3]) -> Option<[u32; 3]>
    ensures { result ≡ find (λ rotation. slice_index rotation 0 == first) (rotations cycle) }
{
    let [a, b, c] = cycle;
    if a == first {
        Some([a, b, c])
    } else if b == first {
        Some([b, c, a])
    } else if c == first {
        Some([c, a, b])
    } else {
        None
    }
}

/// The first of the four cycles of a cell that has these corners.
fn induced_cycle(corners: [u32; 3], cell: [u32; 4]) -> Option<[u32; 3]>
    ensures { result ≡ find (same_members corners) (induced_cycles cell) }
{
    let [a, b, c, d] = cell;
    let goes_through = |cycle| includes_all(corners, cycle) && includes_all(cycle, corners);
    if goes_through([b, c, d]) {
        Some([b, c, d])
    } else if goes_through([a, d, c]) {
        Some([a, d, c])
    } else if goes_through([a, b, d]) {
        Some([a, b, d])
    } else if goes_through([a, c, b]) {
        Some([a, c, b])
    } else {
        None
    }
}

/// The cycle of a face from its smallest corner on, reversed if the face is flipped.
fn cycle_of(m: &Mesh, face: Elem) -> Option<[u32; 3]>
    requires { IsElement m.now Face face }
    ensures { unwrap_or result [] ≡ CycleOf m.now face }
{
    let corners = m.face_corners(face.id);
    let (side, _) = m.face_cells(face.id);
    let first = corners[0];
    let [a, b, c] = rotation_from(first, induced_cycle(corners, m.cell_corners(side))?)?;
    if face.flipped {
        rotation_from(first, [c, b, a])
    } else {
        Some([a, b, c])
    }
}

/// The edge between two vertices, in the orientation from the first to the second.
fn edge_along(m: &Mesh, from: u32, to: u32) -> Elem
    requires from_vertex { from < count m.now Vertex }
    requires to_vertex { to < count m.now Vertex }
    ensures { result ≡ EdgeAlong m.now (from, to) }
{
    Elem {
        kind: Kind::Edge,
        id: m.edge_number(from, to).unwrap_or(0),
        flipped: to < from,
    }
}

/// The edges along a cycle.
fn edges_along(m: &Mesh, cycle: [u32; 3]) -> EdgesAlong
    requires { All (λ v. v < count m.now Vertex) cycle }
    ensures { result ≡ map (EdgeAlong m.now) (steps cycle) }
{
    let [a, b, c] = cycle;
    let edges = [
        edge_along(m, a, b),
        edge_along(m, b, c),
        edge_along(m, c, a),
    ];
    EdgesAlong { edges, at: 0 }
}

/// The edges of a face along its cycle.
fn edges_ccw(m: &Mesh, face: Elem) -> EdgesAlong
    requires { IsElement m.now Face face }
    ensures { result ≡ map (EdgeAlong m.now) (steps (CycleOf m.now face)) }
{
    m.fits_together();
    match cycle_of(m, face) {
        Some(cycle) => edges_along(m, cycle),
        None => unreachable!(),
    }
}

/// The elements of a kind that are near an element.
fn elements_near<'a>(m: &'a Mesh, x: Elem, kind: Kind) -> NearIds<'a>
    requires below { x.id < count m.now x.kind }
    requires kinds { has_near x.kind kind ≡ true }
    ensures { result ≡ map (Unflipped kind) (Near m.now x.kind x.id kind) }
{
    NearIds {
        kind,
        ids: m.near(x.kind, x.id, kind),
    }
}

/// The members of a set of an element, in their order: by ascending id, or along the cycle for `edges_ccw`.
pub fn members<'a>(m: &'a Mesh, set: SetName, x: Elem) -> SetMembers<'a>
    requires { IsSetOperand m.now set x }
    ensures { result ≡ MembersOf m.now set x }
{
    let source = match set {
        SetName::Vertices => SetSource::Near(elements_near(m, x, Kind::Vertex)),
        SetName::Edges => SetSource::Near(elements_near(m, x, Kind::Edge)),
        SetName::Faces => SetSource::Near(elements_near(m, x, Kind::Face)),
        SetName::Cells => SetSource::Near(elements_near(m, x, Kind::Cell)),
        SetName::EdgesCcw => SetSource::Along(edges_ccw(m, x)),
    };
    SetMembers { source }
}
