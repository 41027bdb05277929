//! A text of rows, line by line.

use crate::decoder::Fault;
use crate::item::{Block, read_item};
use crate::part::Part;
use std::alloc::{AllocError, Global};

/// The parts that are complete, and the part and the block that the next lines belong to.
#[derive(Drop)]
struct Reading {
    alloc: Global,
    parts: Vec<Part>,
    part: Option<Part>,
    block: Option<Block>,
}

impl Reading {
    /// Ends the block, if one is open.
    fn close_block(&mut self, line: usize) {
        if let (Some(block), Some(part)) = (self.block.take(), &mut self.part) {
            if let Err(fault) = block.set(&mut part.setting) {
                part.note(line, fault);
            }
        }
    }

    /// Ends the part, if one is open.
    fn close_part(&mut self, line: usize) -> Result<(), AllocError> {
        self.close_block(line);
        if let Some(part) = self.part.take() {
            self.parts.push(part)?;
        }
        Ok(())
    }

    /// Begins a part.
    fn open_part(&mut self, line: usize, heading: &str) -> Result<(), AllocError> {
        self.close_part(line)?;
        self.part = Some(Part::new(self.alloc, heading, line)?);
        Ok(())
    }

    /// Reads a line of a block.
    fn read_block_line(&mut self, line: usize, text: &str) {
        let read = match &mut self.block {
            Some(block) => block.push(self.alloc, text),
            None => Err(Fault::Item),
        };
        if let (Err(fault), Some(part)) = (read, &mut self.part) {
            part.note(line, fault);
        }
    }

    /// Reads an item's line.
    fn read_item_line(&mut self, line: usize, item: &str) {
        self.close_block(line);
        let Some(part) = &mut self.part else {
            return;
        };
        match read_item(self.alloc, &mut part.setting, item) {
            Ok(block) => self.block = block,
            Err(fault) => part.note(line, fault),
        }
    }

    /// Begins a part for lines before the first heading, which belong to none.
    fn open_if_none(&mut self, line: usize) -> Result<(), AllocError> {
        if self.part.is_some() {
            return Ok(());
        }
        let mut part = Part::new(self.alloc, "", line)?;
        part.note(line, Fault::NoHeading);
        self.part = Some(part);
        Ok(())
    }

    /// Reads a line.
    fn read(&mut self, line: usize, text: &str) -> Result<(), AllocError> {
        if text.trim().is_empty() {
            if let Some(block) = &mut self.block {
                block.push_empty();
            }
        } else if let Some(text) = text.strip_prefix("    ") {
            self.open_if_none(line)?;
            self.read_block_line(line, text);
        } else if let Some(item) = text.strip_prefix("  ") {
            self.open_if_none(line)?;
            self.read_item_line(line, item);
        } else if !text.starts_with('#') {
            self.open_part(line, text)?;
        }
        Ok(())
    }
}

/// The rows and the `given` parts of a text, in their order.
pub fn parts_of(alloc: Global, text: &str) -> Result<Vec<Part>, AllocError> {
    let mut reading = Reading {
        alloc,
        parts: Vec::new(alloc),
        part: None,
        block: None,
    };
    let mut line = 0usize;
    for text in text.split('\n') {
        line = line.saturating_add(1);
        reading.read(line, text)?;
    }
    reading.close_part(line)?;
    Ok(reading.parts)
}
