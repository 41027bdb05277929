//! The meaning of expressions, of the bodies of comprehensions and of their iterations, with its laws; and the iterations of checked
//! programs over any store of words.
#![tactic(auto)]

mod cases;
mod iteration;
pub mod laws;
mod locals;
mod shared;

pub use code_eval::Words;
pub use iteration::run_iteration;
pub use locals::{Locals, zeros};
