//! How a run ends: the endings, their exit statuses, and every text that a run writes.
#![tactic(auto)]

mod cases;
mod check;
mod ended;
mod field_names;
mod fields;
mod line;
mod named;
mod places;
mod prints;
mod report;
mod stencils;
mod values;
mod word;

pub use check::write_check;
pub use ended::{Ended, status_of};
pub use fields::write_fields;
pub use prints::write_prints;
pub use report::write_ending;
pub use stencils::write_stencils;
pub use values::Values;
