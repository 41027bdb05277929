ghost use Rattle.std.specs.Prelude.{◌≡◌, ◌==◌, ℕ, ◌+◌, ◌<◌, ◌^◌, List, [], ◌++◌, OnOk, OnErr, IfOk, Some, length, slice_get};
ghost use Rattle.text_scan.specs.Rows.{row_at, text_rows};
ghost use Rattle.text_scan.specs.Scanners.{Denotes, fed_length};

use crate::pieces::split_at_byte;
use crate::row_table::RowTable;
use liszt_base::{ByteList, NoMemory};
use std::alloc::Global;
use std::marker::Model;

/// The rows of a text: of each row the number of its line and its words, and the number of the text's last line.
#[derive(Debug, Drop)]
pub struct Rows {
    table: RowTable,
    last_line: u32,
}

impl Model for Rows {
    ghost use Rattle.text_scan.specs.Rows.{TextRows};

    ghost Value = { TextRows };

    ghost view = { λ a. record { rows = a.table.rows; last_line = a.last_line } };
}

impl Rows {
    /// The number of rows.
    pub fn len(&self) -> usize
        ensures { result ≡ length self.now.rows }
    {
        self.table.len()
    }

    /// Whether there is no row.
    pub fn is_empty(&self) -> bool
        ensures { result ≡ (length self.now.rows == 0) }
    {
        self.table.len() == 0
    }

    /// The number of a row's line, from 1. Rows are numbered from 0.
    pub fn line(&self, place: usize) -> u32
        requires { place < length self.now.rows }
        ensures { result ≡ (row_at self.now.rows place).line }
    {
        self.table.line(place)
    }

    /// The number of words of a row, at least one.
    pub fn words(&self, place: usize) -> usize
        requires { place < length self.now.rows }
        ensures { result ≡ length (row_at self.now.rows place).words }
    {
        self.table.words(place)
    }

    /// A word of a row, by its number from 0.
    pub fn word(&self, place: usize, number: usize) -> &[u8]
        requires row { place < length self.now.rows }
        requires word { number < length (row_at self.now.rows place).words }
        ensures { slice_get (row_at self.now.rows place).words number ≡ Some result.now }
    {
        self.table.word(place, number)
    }

    /// The number of the last line, 0 in an empty text.
    pub fn last_line(&self) -> u32
        ensures { result ≡ self.now.last_line }
    {
        self.last_line
    }
}

/// A scanner that is fed a text piece by piece and gives its rows. It keeps the number of bytes that it was fed, fewer than 2^32,
/// and denotes the concatenation of the pieces.
#[derive(Debug, Drop)]
pub struct Lines {
    alloc: Global,
    bytes: ByteList,
}

impl Model for Lines {
    ghost use Rattle.std.specs.Prelude.{List, ℕ, ◌<◌, ◌^◌, length};

    ghost Value = { List ℕ };

    ghost view = { λ a. a.bytes };

    ghost invariant = { λ a. length a.bytes < 2 ^ 32 };
}

impl Lines {
    /// A scanner of the empty text.
    pub fn new(alloc: Global) -> Lines
        ensures fed_length { fed_length result ≡ 0 }
        ensures denotes { Denotes result [] }
    {
        Lines {
            alloc,
            bytes: ByteList::new(alloc),
        }
    }

    /// Appends a piece. After an error the scanner is unchanged.
    pub fn feed(&mut self, piece: &[u8]) -> Result<(), NoMemory>
        requires { fed_length self.old + length piece.now < 2 ^ 32 }
        ensures fed_length { OnOk result (fed_length self.new
            ≡ fed_length self.old + length piece.now) }
        ensures denotes { OnOk result ((bytes : List ℕ) → Denotes self.old bytes
            → Denotes self.new (bytes ++ piece.now)) }
        ensures err { OnErr result (self.new ≡ self.old) }
    {
        self.bytes.extend(piece)
    }

    /// The rows of the text.
    pub fn finish(self) -> Result<Rows, NoMemory>
        ensures { IfOk result (λ rows. (bytes : List ℕ) → Denotes self bytes
            → rows ≡ text_rows bytes) }
    {
        rows_of(self.alloc, self.bytes.as_slice())
    }
}

/// The rows of a whole text of fewer than 2^32 bytes, the same that a scanner gives.
pub fn rows_of(alloc: Global, bytes: &[u8]) -> Result<Rows, NoMemory>
    requires { length bytes.now < 2 ^ 32 }
    ensures { IfOk result (λ rows. rows ≡ text_rows bytes.now) }
{
    let mut table = RowTable::new(alloc);
    let mut rest = bytes;
    let mut last_line = 0u32;
    while !rest.is_empty() {
        let (line, after) = split_at_byte(rest, b'\n');
        last_line += 1;
        table.push_line(line)?;
        table.close(last_line)?;
        rest = after;
    }
    Ok(Rows { table, last_line })
}
