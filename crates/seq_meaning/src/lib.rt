//! The meaning of whole programs: definitions, with worked cases and laws; the main program, an event at a time; and the words of
//! the declared fields of a sequential run.
#![tactic(auto)]

mod cases;
mod field_store;
pub mod laws;
mod main_run;
mod seq_store;
mod sequential_run;
mod store_cases;
pub mod store_laws;
mod values;

pub use field_store::{FieldRange, FieldStore};
pub use main_run::{Frame, MainRun, MainStep};
pub use seq_store::SeqStore;
pub use sequential_run::run_seq;
