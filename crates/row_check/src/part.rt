//! The parts of a text of rows.

use crate::decoder::Fault;
use crate::setting::Setting;
use std::alloc::{AllocError, Global};

/// A line that could not be read.
#[derive(Clone, Copy)]
pub struct LineFault {
    /// The line's number, from 1.
    pub line: usize,
    pub fault: Fault,
}

/// What a part is.
#[derive(Clone, Copy, PartialEq, Eq)]
pub enum PartKind {
    /// What all later rows start from.
    Given,
    /// A row.
    Row,
}

/// A row or a `given` part, as it was read.
#[derive(Drop)]
pub struct Part {
    pub kind: PartKind,
    pub heading: String,
    /// The number of the heading's line, from 1.
    pub line: usize,
    pub setting: Setting,
    /// The first line that could not be read.
    pub fault: Option<LineFault>,
}

impl Part {
    /// A part of which only the heading was read.
    pub fn new(alloc: Global, heading: &str, line: usize) -> Result<Part, AllocError> {
        let kind = if heading == "given" {
            PartKind::Given
        } else {
            PartKind::Row
        };
        Ok(Part {
            kind,
            heading: String::from_str(alloc, heading)?,
            line,
            setting: Setting::new(alloc),
            fault: None,
        })
    }

    /// Notes a fault, unless an earlier line had one.
    pub fn note(&mut self, line: usize, fault: Fault) {
        if self.fault.is_none() {
            self.fault = Some(LineFault { line, fault });
        }
    }
}
