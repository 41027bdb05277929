//! The elements of a tetrahedral mesh, their numbers and their incidence: the definitions, laws of these, and `Mesh`, which
//! keeps them in tables.
#![tactic(auto)]

mod buckets;
mod cases;
mod cells_of;
mod corner_sets;
mod incidence;
pub mod laws;
mod lower;
mod mesh;
mod rows;
mod shared;
mod tables;
#[cfg(test)]
mod tests;
mod upper;

pub use mesh::Mesh;
