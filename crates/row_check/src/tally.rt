//! The rows that differ, and how many there are.

use crate::decoder::Fault;
use crate::difference::{Difference, difference_of};
use crate::part::{LineFault, Part, PartKind};
use crate::setting::Setting;
use crate::shown::shown_lines;
use std::alloc::Global;
use std::sync::Wait;
use std::thread::Threads;
use std::{fmt, io};

/// The number of rows that were run, of those among them that differ, and of parts that could not be read.
#[derive(Clone, Copy, Default)]
pub struct Tally {
    pub rows: usize,
    pub differing: usize,
    pub unread: usize,
}

impl fmt::Display for Tally {
    fn fmt<W: fmt::Write>(&self, f: &mut fmt::Formatter<W>) -> fmt::Result {
        let rows = self.rows;
        let differing = self.differing;
        let unread = self.unread;
        write!(f, "rows {rows}, differing {differing}, unread {unread}")
    }
}

impl Tally {
    /// Counts a row, and whether it differs.
    fn count_row(&mut self, differs: bool) {
        self.rows = self.rows.saturating_add(1);
        if differs {
            self.differing = self.differing.saturating_add(1);
        }
    }

    /// Counts a part that could not be read.
    fn count_unread(&mut self) {
        self.unread = self.unread.saturating_add(1);
    }
}

/// Prints the block of a part that could not be read.
fn print_fault<R: Print>(rt: &R, part: &Part, at: LineFault) -> io::Result<()> {
    let heading = part.heading.as_str();
    let line = at.line;
    let fault = at.fault;
    println!(rt; "line {line}: {heading}\n  unread: {fault}")
}

/// Prints the block of a row that differs.
fn print_difference<R: Print>(
    rt: &R,
    alloc: Global,
    part: &Part,
    difference: &Difference<'_>,
) -> io::Result<()> {
    let heading = part.heading.as_str();
    let line = part.line;
    let wanted_status = difference.wanted.status;
    let wanted_text = shown_lines(alloc, difference.wanted.text)?;
    let status = difference.outcome.status;
    let text = shown_lines(alloc, difference.outcome.sink.bytes())?;
    println!(rt; "line {line}: {heading}")?;
    print!(rt; "  wanted: status {wanted_status} and text\n{wanted_text}")?;
    print!(rt; "  came: status {status} and text\n{text}")
}

/// Counts a part that could not be read, and prints its block.
fn tally_fault<R: Print>(rt: &R, tally: &mut Tally, part: &Part, at: LineFault) -> io::Result<()> {
    tally.count_unread();
    print_fault(rt, part, at)
}

/// Runs a row, and counts it. Prints its block where it differs.
fn tally_row<R: Threads + Wait + Sync + Print>(
    rt: &R,
    alloc: Global,
    tally: &mut Tally,
    given: &Setting,
    part: &Part,
) -> io::Result<()> {
    match difference_of(rt, alloc, given, &part.setting) {
        Ok(None) => tally.count_row(false),
        Ok(Some(difference)) => {
            tally.count_row(true);
            print_difference(rt, alloc, part, &difference)?;
        }
        Err(fault) => {
            let line = part.line;
            tally_fault(rt, tally, part, LineFault { line, fault })?;
        }
    }
    Ok(())
}

/// Adds what a `given` part sets.
fn tally_given<R: Print>(
    rt: &R,
    alloc: Global,
    tally: &mut Tally,
    given: &mut Setting,
    part: &Part,
) -> io::Result<()> {
    match given.set(alloc, &part.setting) {
        Ok(()) => Ok(()),
        Err(_) => {
            let at = LineFault {
                line: part.line,
                fault: Fault::NoMemory,
            };
            tally_fault(rt, tally, part, at)
        }
    }
}

/// Checks the rows among the parts in their order, and prints a block for each that differs or could not be read.
pub fn check_parts<R: Threads + Wait + Sync + Print>(
    rt: &R,
    alloc: Global,
    parts: &[Part],
) -> io::Result<Tally> {
    let mut tally = Tally::default();
    let mut given = Setting::new(alloc);
    for part in parts {
        match part.fault {
            Some(at) => tally_fault(rt, &mut tally, part, at)?,
            None if part.kind == PartKind::Given => {
                tally_given(rt, alloc, &mut tally, &mut given, part)?
            }
            None => tally_row(rt, alloc, &mut tally, &given, part)?,
        }
    }
    Ok(tally)
}
