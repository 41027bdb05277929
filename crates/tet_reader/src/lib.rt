//! The two files of a tetrahedral mesh in TetGen's form, read whole or refused with their first fault.
#![tactic(auto)]

mod cases;
mod cells;
mod headers;
mod kinds;
pub mod laws;
mod mesh;
mod misfit;
mod number_row;
mod points;
mod words;

pub use cells::read_cells;
pub use mesh::read_mesh;
pub use points::read_points;
