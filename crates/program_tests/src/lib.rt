//! Tests of programs on small meshes, from their texts: their stencils and their sequential runs. The crate has no other items.
#![tactic(auto)]

#[cfg(test)]
mod reading;
#[cfg(test)]
mod run_rows;
#[cfg(test)]
mod runs;
#[cfg(test)]
mod stencil_rows;
#[cfg(test)]
mod stencils;
#[cfg(test)]
mod word_limit;
