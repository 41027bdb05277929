use crate::elements::Op;

/// How a value is used: it is read, written, or reduced by an operator.
#[derive(Clone, Copy, Debug, PartialEq, Eq)]
pub enum Mode {
    Read,
    Write,
    Reduce(Op),
}

/// A value's place: a field by its number, and an element by its id.
#[derive(Clone, Copy, Debug, PartialEq, Eq)]
pub struct Spot {
    pub field: u32,
    pub id: u32,
}

/// One use of one value.
#[derive(Clone, Copy, Debug, PartialEq, Eq)]
pub struct Access {
    pub spot: Spot,
    pub mode: Mode,
}
