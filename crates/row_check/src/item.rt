//! The items of a part, one a line, some with a block of lines.

use crate::decoder::{Fault, line_bytes, word_bytes};
use crate::setting::{Behaviour, Setting};
use liszt_base::{ByteList, WordList};
use liszt_io::{CallList, HeldFile};
use std::alloc::Global;

/// What the lines of a block are.
#[derive(Drop)]
pub enum Target {
    /// The bytes of the file of this name.
    File(ByteList),
    /// The text that is wanted.
    Text,
}

/// The lines of a file or of a text.
#[derive(Drop)]
pub struct Block {
    target: Target,
    bytes: ByteList,
    /// The number of empty lines since the last line.
    empty_lines: usize,
}

impl Block {
    /// A block without lines.
    fn new(alloc: Global, target: Target) -> Block {
        Block {
            target,
            bytes: ByteList::new(alloc),
            empty_lines: 0,
        }
    }

    /// Counts an empty line, which belongs to the block if a line follows.
    pub fn push_empty(&mut self) {
        self.empty_lines = self.empty_lines.saturating_add(1);
    }

    /// Adds a line.
    pub fn push(&mut self, alloc: Global, text: &str) -> Result<(), Fault> {
        for _ in 0..self.empty_lines {
            self.bytes.push(b'\n')?;
        }
        self.empty_lines = 0;
        self.bytes.extend(line_bytes(alloc, text)?.as_slice())?;
        Ok(())
    }

    /// Sets what the block is.
    pub fn set(self, setting: &mut Setting) -> Result<(), Fault> {
        let Block { target, bytes, .. } = self;
        match target {
            Target::File(name) => setting.files.push(HeldFile { name, bytes })?,
            Target::Text => setting.text = Some(bytes),
        }
        Ok(())
    }
}

/// Reads an item. Where it may have a block, the result is the block, with the line that the item itself has.
pub fn read_item(alloc: Global, setting: &mut Setting, item: &str) -> Result<Option<Block>, Fault> {
    let (key, rest) = parted(item);
    match key {
        "text" if rest.is_empty() => return Ok(Some(Block::new(alloc, Target::Text))),
        "text:" => return Ok(Some(block_of_line(alloc, Target::Text, rest)?)),
        "file" => return Ok(Some(file_block(alloc, rest)?)),
        "words" => setting.words = Some(words_of(alloc, rest)?),
        "status" => setting.status = Some(rest.parse::<u8>().map_err(|_| Fault::Number)?),
        "shelf" => read_behaviour(alloc, &mut setting.shelf, rest)?,
        "sink" => read_sink(alloc, setting, rest)?,
        _ => return Err(Fault::Item),
    }
    Ok(None)
}

/// The text up to the first blank, and the text after it.
fn parted(text: &str) -> (&str, &str) {
    text.split_once(' ').unwrap_or((text, ""))
}

/// A block of one line.
fn block_of_line(alloc: Global, target: Target, text: &str) -> Result<Block, Fault> {
    let mut block = Block::new(alloc, target);
    block.push(alloc, text)?;
    Ok(block)
}

/// The block of a file: `NAME`, or `NAME: LINE`.
fn file_block(alloc: Global, text: &str) -> Result<Block, Fault> {
    let (name, line) = parted(text);
    match name.strip_suffix(':') {
        Some(name) => block_of_line(alloc, Target::File(word_bytes(alloc, name)?), line),
        None if line.is_empty() => Ok(Block::new(alloc, Target::File(word_bytes(alloc, name)?))),
        None => Err(Fault::Item),
    }
}

/// The words of a command line.
fn words_of(alloc: Global, text: &str) -> Result<WordList, Fault> {
    let mut words = WordList::new(alloc);
    for word in text.split(' ') {
        if !word.is_empty() {
            words.push(word_of(alloc, word)?)?;
        }
    }
    Ok(words)
}

/// A word as a string.
fn word_of(alloc: Global, word: &str) -> Result<String, Fault> {
    let bytes = word_bytes(alloc, word)?;
    match str::from_utf8(bytes.as_slice()) {
        Ok(word) => Ok(String::from_str(alloc, word)?),
        Err(_) => Err(Fault::Word),
    }
}

/// Reads `step N` or `fails N ..`.
fn read_behaviour(alloc: Global, behaviour: &mut Behaviour, text: &str) -> Result<(), Fault> {
    let (key, rest) = parted(text);
    match key {
        "step" => behaviour.step = Some(step_of(rest)?),
        "fails" => behaviour.fails = Some(calls_of(alloc, rest)?),
        _ => return Err(Fault::Item),
    }
    Ok(())
}

/// Reads `cut N`, `step N` or `fails N ..`.
fn read_sink(alloc: Global, setting: &mut Setting, text: &str) -> Result<(), Fault> {
    match text.strip_prefix("cut ") {
        Some(count) => setting.cut = Some(number_of(count)?),
        None => read_behaviour(alloc, &mut setting.sink, text)?,
    }
    Ok(())
}

/// A number.
fn number_of(text: &str) -> Result<usize, Fault> {
    text.parse::<usize>().map_err(|_| Fault::Number)
}

/// A number of bytes that a call moves, at least 1.
fn step_of(text: &str) -> Result<usize, Fault> {
    match number_of(text)? {
        0 => Err(Fault::Number),
        step => Ok(step),
    }
}

/// The numbers of calls.
fn calls_of(alloc: Global, text: &str) -> Result<CallList, Fault> {
    let mut calls = CallList::new(alloc);
    for call in text.split(' ') {
        calls.push(call.parse::<u64>().map_err(|_| Fault::Number)?)?;
    }
    Ok(calls)
}
