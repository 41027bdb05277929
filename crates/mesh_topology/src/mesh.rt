//! A mesh whose elements are numbered, with the tables of incident elements.

ghost use Rattle.std.specs.Prelude.{◌≡◌, ◌<◌, ◌^◌, true, [], ◌∷◌, IfOk, IfSome, Some, length, slice_get};
ghost use Rattle.std.specs.Option.{option_to_list};
ghost use Rattle.liszt_base.specs.Corners.{IsMesh};
ghost use Rattle.liszt_base.specs.declared.elements.Kind.{Kind as KindOf};
ghost use Rattle.liszt_base.specs.declared.elements.Kind.TheVariants.{Vertex, Edge, Face, Cell};
ghost use Rattle.mesh_topology.specs.Elements.{corner_lists, count, corners, id_of_corners, near, sides, has_near};

use crate::corner_sets::index_of;
use crate::lower::{LowerTables, build_lower_tables};
use crate::upper::{UpperTables, build_upper_tables};
use liszt_base::{Kind, NoMemory, Point, RawMesh};
use std::alloc::Global;
use std::marker::Model;

/// A mesh whose elements are numbered. Contracts see its points and cells.
#[derive(Drop)]
pub struct Mesh {
    raw: RawMesh,
    lower: LowerTables,
    upper: UpperTables,
}

impl Model for Mesh {
    ghost use Rattle.liszt_base.specs.MeshLists.{MeshLists};
    ghost use Rattle.mesh_topology.specs.Internal.Tables.{HasTables};

    ghost Value = { MeshLists };

    ghost view = { λ m. m.raw };

    ghost invariant = { λ m. HasTables m.raw m.lower m.upper };
}

impl Mesh {
    /// Numbers the elements of a mesh and computes its tables, or is out of memory. A mesh as `tet_reader` gives it fits if
    /// it has fewer than 2^32 elements of each kind.
    pub fn build(alloc: Global, raw: RawMesh) -> Result<Mesh, NoMemory>
        requires mesh { IsMesh (length raw.points) (corner_lists raw) }
        requires fits { (kind : KindOf) → count raw kind < 2 ^ 32 }
        ensures { IfOk result (λ mesh. mesh ≡ raw) }
    {
        let lower = build_lower_tables(alloc, &raw)?;
        let upper = build_upper_tables(alloc, &raw, &lower)?;
        Ok(Mesh { raw, lower, upper })
    }

    /// States that the cells of every mesh fit together; it has no effect.
    pub fn fits_together(&self)
        ensures { IsMesh (length self.now.points) (corner_lists self.now) }
    {
        let _cells = self.raw.cells();
    }

    /// The number of elements of a kind.
    pub fn count(&self, kind: Kind) -> u32
        ensures { result ≡ count self.now kind }
    {
        match kind {
            Kind::Vertex => self.raw.points().len() as u32,
            Kind::Edge => self.lower.sets.edges.len() as u32,
            Kind::Face => self.lower.sets.faces.len() as u32,
            Kind::Cell => self.raw.cells().len() as u32,
        }
    }

    /// The two ends of an edge, ascending vertex ids.
    pub fn edge_ends(&self, e: u32) -> (u32, u32)
        requires { e < count self.now Edge }
        ensures { corners self.now Edge e ≡ result.0 ∷ result.1 ∷ [] }
    {
        let [a, b] = self.lower.sets.edges[e as usize];
        (a, b)
    }

    /// The three corners of a face, ascending vertex ids.
    pub fn face_corners(&self, f: u32) -> [u32; 3]
        requires { f < count self.now Face }
        ensures { result ≡ corners self.now Face f }
    {
        self.lower.sets.faces[f as usize]
    }

    /// The four corners of a cell, vertex ids in the order of its line.
    pub fn cell_corners(&self, c: u32) -> [u32; 4]
        requires { c < count self.now Cell }
        ensures { result ≡ corners self.now Cell c }
    {
        self.raw.cells()[c as usize].corners
    }

    /// The id of the edge between two vertices, which are in either order, or `None` if there is no such edge.
    pub fn edge_number(&self, a: u32, b: u32) -> Option<u32>
        requires first { a < count self.now Vertex }
        requires second { b < count self.now Vertex }
        ensures { result ≡ id_of_corners self.now Edge (a ∷ b ∷ []) }
    {
        let ends = if a < b { [a, b] } else { [b, a] };
        index_of(self.lower.sets.edges.as_slice(), &ends)
    }

    /// The point of a vertex.
    pub fn point(&self, v: u32) -> Point
        requires { v < count self.now Vertex }
        ensures { slice_get self.now.points v ≡ Some result }
    {
        self.raw.points()[v as usize]
    }

    /// The region of a cell.
    pub fn region(&self, c: u32) -> i64
        requires { c < count self.now Cell }
        ensures { IfSome (slice_get self.now.cells c) (λ cell. cell.region ≡ result) }
    {
        self.raw.cells()[c as usize].region
    }

    /// The ids of the one or two cells beside a face, ascending.
    pub fn face_cells(&self, f: u32) -> (u32, Option<u32>)
        requires { f < count self.now Face }
        ensures { sides self.now f ≡ result.0 ∷ option_to_list result.1 }
    {
        match self.lower.face_cells.of(f as usize) {
            [c] => (*c, None),
            [c, d, ..] => (*c, Some(*d)),
            [] => unreachable!(),
        }
    }

    /// The ids of the elements of the kind `out` that are incident with an element, ascending: those that lie in it or in
    /// which it lies; for two vertices those that share an edge with it, for two cells those that share a face with it.
    pub fn near(&self, kind: Kind, id: u32, out: Kind) -> &[u32]
        requires below { id < count self.now kind }
        requires has { has_near kind out ≡ true }
        ensures { result.now ≡ near self.now kind id out }
    {
        match kind {
            Kind::Vertex => self.near_vertex(id, out),
            Kind::Edge => self.near_edge(id, out),
            Kind::Face => self.near_face(id, out),
            Kind::Cell => self.near_cell(id, out),
        }
    }

    fn near_vertex(&self, v: u32, out: Kind) -> &[u32]
        requires { v < count self.now Vertex }
        ensures { result.now ≡ near self.now Vertex v out }
    {
        match out {
            Kind::Vertex => self.upper.vertex_vertices.of(v as usize),
            Kind::Edge => self.upper.vertex_edges.of(v as usize),
            Kind::Face => self.upper.vertex_faces.of(v as usize),
            Kind::Cell => self.lower.sets.vertex_cells.of(v as usize),
        }
    }

    fn near_edge(&self, e: u32, out: Kind) -> &[u32]
        requires below { e < count self.now Edge }
        requires has { has_near Edge out ≡ true }
        ensures { result.now ≡ near self.now Edge e out }
    {
        match out {
            Kind::Vertex => &self.lower.sets.edges[e as usize],
            Kind::Edge => unreachable!(),
            Kind::Face => self.upper.edge_faces.of(e as usize),
            Kind::Cell => self.lower.edge_cells.of(e as usize),
        }
    }

    fn near_face(&self, f: u32, out: Kind) -> &[u32]
        requires below { f < count self.now Face }
        requires has { has_near Face out ≡ true }
        ensures { result.now ≡ near self.now Face f out }
    {
        match out {
            Kind::Vertex => &self.lower.sets.faces[f as usize],
            Kind::Edge => &self.lower.face_edges[f as usize],
            Kind::Face => unreachable!(),
            Kind::Cell => self.lower.face_cells.of(f as usize),
        }
    }

    fn near_cell(&self, c: u32, out: Kind) -> &[u32]
        requires { c < count self.now Cell }
        ensures { result.now ≡ near self.now Cell c out }
    {
        match out {
            Kind::Vertex => &self.lower.sets.cells[c as usize],
            Kind::Edge => self.upper.cell_edges.of(c as usize),
            Kind::Face => self.upper.cell_faces.of(c as usize),
            Kind::Cell => self.upper.cell_cells.of(c as usize),
        }
    }
}
