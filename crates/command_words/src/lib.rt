//! The words of a command line, and the command that they name, which is tested word by word here and read by clap.
#![tactic(auto)]

mod cases;
mod command;
mod matched;
mod options;

pub use command::{Command, Mode, command_of};
