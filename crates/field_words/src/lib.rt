//! Shared words that threads own in parts. A seat is a part of the right to a table's words, and each call is one atomic step
//! under the rule of ownership. `docs/CONCURRENCY.md` says what that rule is.
#![tactic(auto)]

pub mod laws;
mod parts;
mod rule;
mod shared;
mod table;
#[cfg(test)]
mod tests;
mod view;

pub use rule::Part;
pub use table::{FieldSeat, FieldTable};
pub use view::View;
