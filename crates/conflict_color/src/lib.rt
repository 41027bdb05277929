//! Colours of iterations: no two iterations of one colour touch one number.
#![tactic(auto)]

mod cases;
mod colours;
pub mod laws;
mod shared;
mod sweeps;
#[cfg(test)]
mod tests;

pub use colours::Colours;
pub use sweeps::colour;
