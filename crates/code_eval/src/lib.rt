//! The meaning of resolved code, and its evaluator over any store of the values of fields.
#![tactic(auto)]

mod activation;
mod arithmetic;
mod elements;
mod numbers;
mod shared;
mod slots;
mod statements;
mod truths;
mod words;

pub use activation::{Activation, Stopped};
pub use arithmetic::{assigned, compare, negate, operate};
pub use statements::run_body;
pub use truths::is_decided;
pub use words::Words;
