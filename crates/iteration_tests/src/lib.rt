//! Tests of single iterations: what each loads and stores, in order, and how it ends. The crate has no
//! other items but the entries of the log of their store.
#![tactic(auto)]

mod entry;
#[cfg(test)]
mod logged;
#[cfg(test)]
mod runs;
#[cfg(test)]
mod tests;
