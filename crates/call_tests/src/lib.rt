//! Tests of calls that no row of a whole program covers. The crate has no other items.
#![tactic(auto)]

#[cfg(test)]
mod canonical;
#[cfg(test)]
mod hosts;
#[cfg(test)]
mod lines;
#[cfg(test)]
mod mesh_texts;
#[cfg(test)]
mod shelves;
#[cfg(test)]
mod turns;
