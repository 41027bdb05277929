ghost use Rattle.std.specs.Prelude.{◌≡◌, ◌+◌, ◌<◌, ◌≤◌, [], ◌∷◌, ◌++◌, Some, length, slice_get};

use std::marker::Model;

/// The greatest number of words of a row: a number, four corners and 64 attributes, or a number, three coordinates, 64 attributes and a
/// marker.
pub(crate) const MOST_WORDS: usize = 69;

/// The numbers of a row's words. Contracts see the list of numbers.
#[derive(Drop)]
pub(crate) struct NumberRow {
    room: [i64; MOST_WORDS],
    count: usize,
}

impl Model for NumberRow {
    ghost use Rattle.std.specs.Prelude.{List, ℤ, ◌≤◌, take};

    ghost Value = { List ℤ };

    ghost view = { λ a. take a.count a.room };

    ghost invariant = { λ a. a.count ≤ 69 };
}

impl NumberRow {
    /// An empty row.
    pub fn new() -> NumberRow
        ensures { result ≡ [] }
    {
        NumberRow {
            room: [0; MOST_WORDS],
            count: 0,
        }
    }

    /// Removes all numbers.
    pub fn clear(&mut self)
        ensures { self.new ≡ [] }
    {
        self.count = 0;
    }

    /// Appends a number.
    pub fn push(&mut self, number: i64)
        requires { length self.old < 69 }
        ensures { self.new ≡ self.old ++ number ∷ [] }
    {
        self.room[self.count] = number;
        self.count += 1;
    }

    /// Appends numbers.
    pub fn extend(&mut self, more: &[i64])
        requires { length self.old + length more.now ≤ 69 }
        ensures { self.new ≡ self.old ++ more.now }
    {
        let end = self.count + more.len();
        self.room[self.count..end].copy_from_slice(more);
        self.count = end;
    }

    /// The numbers.
    pub fn as_slice(&self) -> &[i64]
        ensures { result.now ≡ self.now }
    {
        &self.room[..self.count]
    }

    /// The number at an index, from 0.
    pub fn at(&self, place: usize) -> i64
        requires { place < length self.now }
        ensures { slice_get self.now place ≡ Some result }
    {
        let number = &self.as_slice()[place];
        *number
    }
}
