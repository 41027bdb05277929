//! The cursor of a text that is being read.
ghost use Rattle.std.specs.Prelude.{◌≡◌, ◌+◌, ◌^◌, ◌<◌, ◌≤◌, length};
ghost use Rattle.liszt_lexer.specs.Internal.Remaining.{IsAt, place_after_byte};

use liszt_base::Place;

/// The number of bytes of a text that have been read, and the place after them.
#[derive(Clone, Copy, Debug, PartialEq, Eq)]
pub struct Cursor {
    pub passed: usize,
    pub place: Place,
}

impl Cursor {
    /// The start of a text.
    pub fn new() -> Cursor
        ensures { result ≡ record { passed = 0; place = record { line = 1; col = 1 } } }
    {
        Cursor {
            passed: 0,
            place: Place { line: 1, col: 1 },
        }
    }

    /// Moves past the next `size` bytes of the text.
    pub fn pass(&mut self, text: &[u8], size: usize)
        requires at { IsAt text.now self.old }
        requires within { self.old.passed + size ≤ length text.now }
        requires short { length text.now < 2 ^ 31 }
        ensures at { IsAt text.now self.new }
        ensures passed { self.new.passed ≡ self.old.passed + size }
    {
        for byte in &text[self.passed..self.passed + size] {
            self.place = place_after_byte(self.place, *byte);
        }
        self.passed += size;
    }
}

/// The place after one more byte.
fn place_after_byte(place: Place, byte: u8) -> Place
    requires line { place.line + 1 < 2 ^ 32 }
    requires col { place.col + 1 < 2 ^ 32 }
    ensures { result ≡ place_after_byte place byte }
{
    if byte == b'\n' {
        Place {
            line: place.line + 1,
            col: 1,
        }
    } else {
        Place {
            line: place.line,
            col: place.col + 1,
        }
    }
}
