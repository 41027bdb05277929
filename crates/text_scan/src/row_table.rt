ghost use Rattle.std.specs.Prelude.{◌≡◌, ◌+◌, ◌<◌, ◌≤◌, [], ◌∷◌, ◌++◌, OnOk, Some, length, map, slice_get, slice_index};
ghost use Rattle.liszt_base.specs.Cuts.{start_at};
ghost use Rattle.std.specs.List.{filter};
ghost use Rattle.text_scan.specs.Rows.{row_at, words, has_words};

use crate::pieces::{content, next_word};
use liszt_base::{NoMemory, PlainLists};
use std::alloc::Global;
use std::marker::Model;

/// The end of a row: the number of its line, and the number of words up to the last word of the row.
#[derive(Clone, Copy, Debug)]
pub struct RowEnd {
    line: u32,
    end: usize,
}

/// Closed rows, and the words of a row that is still open. Contracts see both lists.
#[derive(Debug, Drop)]
pub struct RowTable {
    words: PlainLists<u8>,
    ends: Vec<RowEnd>,
    closed: usize,
}

impl Model for RowTable {
    ghost use Rattle.std.specs.Prelude.{◌≤◌, length, map, drop};
    ghost use Rattle.liszt_base.specs.Cuts.{cut, AreEnds};
    ghost use Rattle.text_scan.specs.Internal.OpenRows.{OpenRows, rows_of_ends};

    ghost Value = { OpenRows };

    ghost view = { λ a. record {
      rows = rows_of_ends a.ends.items (cut 0 a.words (map (λ e. e.end) a.ends.items));
      last = drop a.closed a.words;
    } };

    ghost invariant = { λ a. AreEnds 0 (map (λ e. e.end) a.ends.items) a.closed
        × (a.closed ≤ length a.words) };
}

impl RowTable {
    /// No rows.
    pub fn new(alloc: Global) -> RowTable
        ensures { result ≡ record { rows = []; last = [] } }
    {
        RowTable {
            words: PlainLists::new(alloc),
            ends: Vec::new(alloc),
            closed: 0,
        }
    }

    /// Adds a word to the open row.
    fn push_word(&mut self, word: &[u8]) -> Result<(), NoMemory>
        ensures ok { OnOk result (self.new ≡ record {
          rows = self.old.rows;
          last = self.old.last
              ++ word.now ∷ [];
        }) }
    {
        self.words.push(word)
    }

    /// Adds the words of a line to the open row.
    pub fn push_line(&mut self, line: &[u8]) -> Result<(), NoMemory>
        ensures ok { OnOk result (self.new ≡ record {
          rows = self.old.rows;
          last = self.old.last
              ++ words line.now;
        }) }
    {
        let mut text = content(line);
        while let Some((word, rest)) = next_word(text) {
            self.push_word(word)?;
            text = rest;
        }
        Ok(())
    }

    /// Closes the open row where it has a word.
    pub fn close(&mut self, line: u32) -> Result<(), NoMemory>
        ensures ok { OnOk result (self.new ≡ record {
          rows = self.old.rows ++ filter has_words
              (record { line = line; words = self.old.last } ∷ []);
          last = [];
        }) }
    {
        let end = self.words.len();
        if end > self.closed {
            self.ends.push(RowEnd { line, end })?;
            self.closed = end;
        }
        Ok(())
    }

    /// The number of closed rows.
    pub fn len(&self) -> usize
        ensures { result ≡ length self.now.rows }
    {
        self.ends.len()
    }

    /// The line of a row.
    pub fn line(&self, place: usize) -> u32
        requires { place < length self.now.rows }
        ensures { result ≡ (row_at self.now.rows place).line }
    {
        self.ends[place].line
    }

    /// The number of words of a row.
    pub fn words(&self, place: usize) -> usize
        requires { place < length self.now.rows }
        ensures { result ≡ length (row_at self.now.rows place).words }
    {
        let (start, end) = span(self.ends.as_slice(), place);
        end - start
    }

    /// A word of a row.
    pub fn word(&self, place: usize, number: usize) -> &[u8]
        requires row { place < length self.now.rows }
        requires word { number < length (row_at self.now.rows place).words }
        ensures { slice_get (row_at self.now.rows place).words number ≡ Some result.now }
    {
        let (start, _) = span(self.ends.as_slice(), place);
        self.words.of(start + number)
    }
}

/// The indices of the first word of a row and of the first word after the row.
fn span(ends: &[RowEnd], place: usize) -> (usize, usize)
    requires { place < length ends.now }
    ensures start { result.0 ≡ start_at 0 (map (λ e. e.end) ends.now) place }
    ensures end { result.1 ≡ slice_index (map (λ e. e.end) ends.now) place }
{
    let start = if place == 0 { 0 } else { ends[place - 1].end };
    (start, ends[place].end)
}
