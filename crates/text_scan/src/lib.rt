//! The words of a mesh file: the rows of a text that is fed in pieces, and the numbers that words spell, with the definitions and
//! laws of both; and the buffer of a line to be written.
#![tactic(auto)]

mod cases;
mod faults;
pub mod laws;
mod line_buf;
mod numbers;
mod pieces;
mod row_table;
mod rows;

pub use faults::NumberFault;
pub use line_buf::LineBuf;
pub use numbers::{millionths, whole};
pub use rows::{Lines, Rows, rows_of};
