//! What each iteration of a comprehension may access, whatever numbers it reads: the definitions, with worked cases and laws, and
//! `infer`, which gathers the stencils of all iterations over resolved code.
#![tactic(auto)]

mod access_set;
mod cases;
mod count;
mod elements;
mod gather;
mod inference;
pub mod laws;
mod program_inference;
mod stencils;
mod visits;
mod walks;

pub use inference::infer;
pub use program_inference::infer_all;
pub use stencils::{AccessLists, Stencils};
