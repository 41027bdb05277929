use thiserror::Error;

/// Why a word of a mesh file is not a number in range.
#[derive(Clone, Copy, Debug, PartialEq, Eq, Error)]
pub enum NumberFault {
    /// It is not spelled as a number, or has too many bytes.
    #[error("not a number")]
    BadNumber,
    /// It is a coordinate of more than 10^15 millionths.
    #[error("coordinate out of range")]
    CoordRange,
}
