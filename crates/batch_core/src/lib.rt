//! The batch machine: workers that act on a row of words, one act of one worker at a time. Where the workers are apart, each
//! order of their acts gives the sequential result.
#![tactic(auto)]

mod act_lists;
mod acts;
mod cases;
pub mod laws;
mod machine;
mod shared;
#[cfg(test)]
mod tests;

pub use act_lists::ActLists;
pub use acts::{Act, Stepped};
pub use machine::Core;
