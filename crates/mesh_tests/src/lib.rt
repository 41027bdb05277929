//! Tests of elements, neighbours and operators against a plain program that compares corners. The crate has no other items.
#![tactic(auto)]

#[cfg(test)]
mod agreement;
#[cfg(test)]
mod corner_lists;
#[cfg(test)]
mod meshes;
#[cfg(test)]
mod tests;
