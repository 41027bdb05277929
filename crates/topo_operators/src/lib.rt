//! The oriented operators on the elements of a mesh and the sets of an element: the definitions, laws of these, and the functions
//! that compute them.
#![tactic(auto)]

mod cases;
pub mod laws;
mod operators;
mod sets;
#[cfg(test)]
mod tests;

pub use operators::{flip, head, id_of, inside, outside, same, tail, towards, valid};
pub use sets::{SetMembers, members};
