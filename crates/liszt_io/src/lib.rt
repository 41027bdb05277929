//! The outside: shelves of files and sinks of bytes with counted faults, in memory and real, read and written whole.
#![tactic(auto)]

mod held_file;
mod host;
mod memory_shelf;
mod memory_sink;
mod outside;
mod script;
mod whole;

pub use held_file::{CallList, FileList, HeldFile};
pub use host::{HostShelf, HostSink};
pub use memory_shelf::MemoryShelf;
pub use memory_sink::MemorySink;
pub use outside::{Failed, Shelf, Sink, WholeFault, WriteFault};
pub use whole::{read_whole, write_whole};
