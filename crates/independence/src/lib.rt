//! Why the order of the iterations of a comprehension does not matter: laws of the definitions alone, on which parallel runs rest.
#![tactic(auto)]

pub mod laws;
