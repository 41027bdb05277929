/// The kinds of mesh elements.
#[derive(Clone, Copy, Debug, PartialEq, Eq)]
pub enum Kind {
    Vertex,
    Edge,
    Face,
    Cell,
}

/// An element of a mesh by its kind and its id, from 0. An edge or a face has two orientations, `flipped` or not; a
/// vertex and a cell are never flipped.
#[derive(Clone, Copy, Debug, PartialEq, Eq)]
pub struct Elem {
    pub kind: Kind,
    pub id: u32,
    pub flipped: bool,
}

/// The sets of an element that a program may visit, by the words `vertices`, `edges`, `faces`, `cells` and `edges_ccw`.
#[derive(Clone, Copy, Debug, PartialEq, Eq)]
pub enum SetName {
    Vertices,
    Edges,
    Faces,
    Cells,
    EdgesCcw,
}

/// The operators of a reduction.
#[derive(Clone, Copy, Debug, PartialEq, Eq)]
pub enum Op {
    Add,
    Mul,
    And,
    Or,
    Xor,
    Min,
    Max,
}
