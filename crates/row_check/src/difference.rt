//! What a row wants, and what came where that differs.

use crate::decoder::Fault;
use crate::outcome::{Outcome, run_row};
use crate::setting::Setting;
use std::alloc::Global;
use std::sync::Wait;
use std::thread::Threads;

/// The text and the status that a row wants.
#[derive(Clone, Copy)]
pub struct Wanted<'a> {
    pub text: &'a [u8],
    pub status: u8,
}

/// What a row wants, and what came.
#[derive(Drop)]
pub struct Difference<'a> {
    pub wanted: Wanted<'a>,
    pub outcome: Outcome,
}

/// What a row wants. What it does not set is as given.
fn wanted_of<'a>(given: &'a Setting, row: &'a Setting) -> Result<Wanted<'a>, Fault> {
    let Some(text) = row.text.as_ref().or(given.text.as_ref()) else {
        return Err(Fault::NoText);
    };
    let Some(status) = row.status.or(given.status) else {
        return Err(Fault::NoStatus);
    };
    Ok(Wanted {
        text: text.as_slice(),
        status,
    })
}

/// Runs a row. The result is what came where it differs from what is wanted.
pub fn difference_of<'a, R: Threads + Wait + Sync>(
    rt: &R,
    alloc: Global,
    given: &'a Setting,
    row: &'a Setting,
) -> Result<Option<Difference<'a>>, Fault> {
    let wanted = wanted_of(given, row)?;
    let outcome = run_row(rt, alloc, given, row)?;
    if outcome.sink.bytes() == wanted.text && outcome.status == wanted.status {
        return Ok(None);
    }
    Ok(Some(Difference { wanted, outcome }))
}
