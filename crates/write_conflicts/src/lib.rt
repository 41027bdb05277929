//! Which iterations reduce one spot, and the first spot that two iterations write, by lists of their accesses alone.
#![tactic(auto)]

mod cases;
mod clashes;
mod keys;
pub mod laws;
mod ranks;
mod shared;
#[cfg(test)]
mod tests;

pub use clashes::{SharedWrite, first_clash};
pub use ranks::touched;
