ghost use Rattle.std.specs.Prelude.{◌≡◌, ◌+◌, ◌≤◌, [], ◌++◌, length};
ghost use Rattle.std.specs.Fmt.{decimal, signed_decimal};

use itoa::Buffer;
use std::marker::Model;

/// A line of at most 256 bytes. Contracts see its bytes.
#[derive(Debug, Drop)]
pub struct LineBuf {
    room: [u8; 256],
    count: usize,
}

impl Model for LineBuf {
    ghost use Rattle.std.specs.Prelude.{List, ℕ, ◌≤◌, take};

    ghost Value = { List ℕ };

    ghost view = { λ a. take a.count a.room };

    ghost invariant = { λ a. a.count ≤ 256 };
}

impl LineBuf {
    /// An empty line.
    pub fn new() -> LineBuf
        ensures { result ≡ [] }
    {
        LineBuf {
            room: [0; 256],
            count: 0,
        }
    }

    /// Appends a text.
    pub fn text(&mut self, piece: &[u8])
        requires { length self.old + length piece.now ≤ 256 }
        ensures { self.new ≡ self.old ++ piece.now }
    {
        let end = self.count + piece.len();
        self.room[self.count..end].copy_from_slice(piece);
        self.count = end;
    }

    /// Appends a number in decimal digits, with a `-` before a number below zero: at most 20 bytes.
    pub fn number(&mut self, number: i64)
        requires { length self.old + length (signed_decimal number) ≤ 256 }
        ensures bytes { self.new ≡ self.old ++ signed_decimal number }
        ensures short { length self.new ≤ length self.old + 20 }
    {
        let mut buffer = Buffer::new();
        self.text(buffer.format(number).as_bytes());
    }

    /// Appends a count in decimal digits: at most 20 bytes.
    pub fn count(&mut self, count: u64)
        requires { length self.old + length (decimal count) ≤ 256 }
        ensures bytes { self.new ≡ self.old ++ decimal count }
        ensures short { length self.new ≤ length self.old + 20 }
    {
        let mut buffer = Buffer::new();
        self.text(buffer.format(count).as_bytes());
    }

    /// The bytes.
    pub fn bytes(&self) -> &[u8]
        ensures { result.now ≡ self.now }
    {
        &self.room[..self.count]
    }

    /// Empties the line.
    pub fn clear(&mut self)
        ensures { self.new ≡ [] }
    {
        self.count = 0;
    }
}
