//! Solgrinn as a library: a command line is run over a shelf of files, and its text is written to a sink.
#![tactic(auto)]

mod finish;
mod inputs;
mod job;
mod jobs;
pub mod laws;
mod store_values;
mod top;

pub use finish::end_refused;
pub use liszt_base::{ByteList, Gate, OpenGate, WordList};
pub use liszt_io::{
    CallList, Failed, FileList, HeldFile, HostShelf, HostSink, MemoryShelf, MemorySink, Shelf, Sink,
};
pub use liszt_report::{Ended, status_of};
pub use top::{Step, run_returning, run_words};
