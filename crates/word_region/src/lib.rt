//! One region of words for the fields of all scopes of a program: fields of scopes that are never open together share words.
#![tactic(auto)]

mod cases;
pub mod laws;
mod region;
mod shared;
mod sums;
#[cfg(test)]
mod tests;

pub use region::Region;
