//! `row_check`: runs the rows of standard input and prints a block for each row that differs.
//!
//! `docs/ROWS.md` has the format of rows.
#![tactic(auto)]

mod decoder;
mod difference;
mod item;
mod outcome;
mod part;
mod reading;
mod setting;
mod shown;
mod tally;

use crate::reading::parts_of;
use crate::tally::check_parts;
use std::io;
use std::process::ExitCode;
use std::sync::Wait;
use std::thread::Threads;

/// Checks the rows of standard input. The exit code is 0 where all of them could be read, and 1 where one could not.
fn check_input<R: Threads + Wait + Sync + Input + Print + AllocGlobal>(
    rt: &R,
) -> io::Result<ExitCode> {
    let alloc = rt.alloc();
    let text = io::read_to_string(alloc, rt.reader())?;
    let parts = parts_of(alloc, text.as_str())?;
    let tally = check_parts(rt, alloc, parts.as_slice())?;
    println!(rt; "{tally}")?;
    Ok(ExitCode::from(u8::from(tally.unread != 0)))
}

fn main(rt: HostRuntime) -> ExitCode {
    match check_input(&rt) {
        Ok(code) => code,
        Err(fault) => {
            let _ = eprintln!(&rt; "row_check: {fault}");
            ExitCode::from(2)
        }
    }
}
