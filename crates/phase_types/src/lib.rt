//! Checked programs: types, environments, the numbers of the parts of a program, phases, and the first fault of the walk that
//! checks a program; and `check`, which gives the code of a program or that fault.
#![tactic(auto)]

mod cases;
mod checker;
mod expression;
mod frame;
mod info;
pub mod laws;
mod names;
mod program;
mod resolution;
mod shared;
mod state;
mod statement;
mod values;

pub use checker::{Checked, check};
pub use info::FieldInfo;
