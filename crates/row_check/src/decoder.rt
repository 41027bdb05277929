//! Escapes in the lines of a row.

use liszt_base::{ByteList, NoMemory};
use std::alloc::{AllocError, Global};
use thiserror::Error;

/// Why a line of a row could not be read.
#[derive(Clone, Copy, Debug, PartialEq, Eq, Error)]
pub enum Fault {
    #[error("an escape that does not exist or is not complete")]
    Escape,
    #[error("a line that is no item of a row")]
    Item,
    #[error("a number that does not exist or is out of range")]
    Number,
    #[error("a word that is not UTF-8")]
    Word,
    #[error("a line before the first heading")]
    NoHeading,
    #[error("a row without words")]
    NoWords,
    #[error("a row that wants no text")]
    NoText,
    #[error("a row that wants no status")]
    NoStatus,
    #[error("no memory")]
    NoMemory,
}

impl From<NoMemory> for Fault {
    fn from(_: NoMemory) -> Fault {
        Fault::NoMemory
    }
}

impl From<AllocError> for Fault {
    fn from(_: AllocError) -> Fault {
        Fault::NoMemory
    }
}

/// What the next byte is part of.
#[derive(Clone, Copy, PartialEq, Eq)]
enum State {
    /// Plain text.
    Text,
    /// An escape, whose backslash was the last byte.
    Escape,
    /// The first digit of a byte's number.
    HighDigit,
    /// The second digit, after a first one of this value.
    LowDigit(u8),
    /// The count of a piece, of which the digits so far make this number.
    Count(usize),
}

/// A piece that is repeated.
#[derive(Drop)]
struct Piece {
    count: usize,
    bytes: ByteList,
}

/// The bytes that the text so far denotes.
#[derive(Drop)]
struct Decoder {
    alloc: Global,
    bytes: ByteList,
    piece: Option<Piece>,
    state: State,
}

impl Decoder {
    fn new(alloc: Global) -> Decoder {
        Decoder {
            alloc,
            bytes: ByteList::new(alloc),
            piece: None,
            state: State::Text,
        }
    }

    /// Adds a byte to the piece, or to all bytes where no piece is open.
    fn push(&mut self, byte: u8) -> Result<(), NoMemory> {
        match &mut self.piece {
            Some(piece) => piece.bytes.push(byte),
            None => self.bytes.push(byte),
        }
    }

    /// Closes the piece, if one is open, and repeats it. The result is whether one was open.
    fn close_piece(&mut self) -> Result<bool, NoMemory> {
        let Some(piece) = self.piece.take() else {
            return Ok(false);
        };
        for _ in 0..piece.count {
            self.bytes.extend(piece.bytes.as_slice())?;
        }
        Ok(true)
    }

    /// Reads a byte of plain text.
    fn read_text(&mut self, byte: u8) -> Result<State, Fault> {
        if byte == b'\\' {
            return Ok(State::Escape);
        }
        if byte != b'}' || !self.close_piece()? {
            self.push(byte)?;
        }
        Ok(State::Text)
    }

    /// Reads the byte after a backslash.
    fn read_escape(&mut self, byte: u8) -> Result<State, Fault> {
        let escaped = match byte {
            b'x' => return Ok(State::HighDigit),
            b'{' if self.piece.is_none() => return Ok(State::Count(0)),
            b'n' => b'\n',
            b'r' => b'\r',
            b't' => b'\t',
            b's' => b' ',
            b'\\' => b'\\',
            b'}' => b'}',
            _ => return Err(Fault::Escape),
        };
        self.push(escaped)?;
        Ok(State::Text)
    }

    /// Reads the second digit of a byte's number.
    fn read_low_digit(&mut self, high: u8, byte: u8) -> Result<State, Fault> {
        let low = hex_digit(byte)?;
        self.push(high.wrapping_mul(16).wrapping_add(low))?;
        Ok(State::Text)
    }

    /// Reads a byte of a piece's count, or the blank after it.
    fn read_count(&mut self, count: usize, byte: u8) -> Result<State, Fault> {
        if byte == b' ' {
            self.piece = Some(Piece {
                count,
                bytes: ByteList::new(self.alloc),
            });
            return Ok(State::Text);
        }
        if !byte.is_ascii_digit() {
            return Err(Fault::Escape);
        }
        let digit = usize::from(byte.wrapping_sub(b'0'));
        Ok(State::Count(count.saturating_mul(10).saturating_add(digit)))
    }

    /// Reads the next byte.
    fn read(&mut self, byte: u8) -> Result<(), Fault> {
        let next = match self.state {
            State::Text => self.read_text(byte)?,
            State::Escape => self.read_escape(byte)?,
            State::HighDigit => State::LowDigit(hex_digit(byte)?),
            State::LowDigit(high) => self.read_low_digit(high, byte)?,
            State::Count(count) => self.read_count(count, byte)?,
        };
        self.state = next;
        Ok(())
    }
}

/// The value of a hexadecimal digit.
fn hex_digit(byte: u8) -> Result<u8, Fault> {
    match byte {
        b'0'..=b'9' => Ok(byte - b'0'),
        b'a'..=b'f' => Ok(byte - b'a' + 10),
        _ => Err(Fault::Escape),
    }
}

/// The decoder after a whole text, in which no piece is open.
fn decoded(alloc: Global, text: &str) -> Result<Decoder, Fault> {
    let mut decoder = Decoder::new(alloc);
    for byte in text.bytes() {
        decoder.read(byte)?;
    }
    if decoder.piece.is_some() {
        return Err(Fault::Escape);
    }
    Ok(decoder)
}

/// The bytes of a line: those that its text denotes, and LF, unless the text ends in a backslash.
pub fn line_bytes(alloc: Global, text: &str) -> Result<ByteList, Fault> {
    let mut decoder = decoded(alloc, text)?;
    match decoder.state {
        State::Text => decoder.bytes.push(b'\n')?,
        State::Escape => {}
        _ => return Err(Fault::Escape),
    }
    Ok(decoder.bytes)
}

/// The bytes that a word denotes. `""` is the empty word.
pub fn word_bytes(alloc: Global, word: &str) -> Result<ByteList, Fault> {
    if word == "\"\"" {
        return Ok(ByteList::new(alloc));
    }
    let decoder = decoded(alloc, word)?;
    if decoder.state != State::Text {
        return Err(Fault::Escape);
    }
    Ok(decoder.bytes)
}
