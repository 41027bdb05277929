ghost use Rattle.std.specs.Prelude.{◌≡◌, ◌<◌, [], ◌∷◌, ◌++◌, OnOk, OnErr, Some, length, slice_get};
ghost use Rattle.liszt_base.specs.Cuts.{start_at};

use crate::answers::NoMemory;
use std::alloc::Global;
use std::marker::Model;

/// A list of lists that grows at its end. Contracts see it as the list of its lists.
#[derive(Debug, Drop)]
pub struct PlainLists<T> {
    items: Vec<T>,
    ends: Vec<usize>,
}

impl<T> Model for PlainLists<T> {
    ghost use Rattle.std.specs.Prelude.{List, length};
    ghost use Rattle.liszt_base.specs.Cuts.{cut, AreEnds};

    ghost Value = { List (List T) };

    ghost view = { λ a. cut 0 a.items.items a.ends.items };

    ghost invariant = { λ a. AreEnds 0 a.ends.items (length a.items.items) };
}

impl<T> PlainLists<T> {
    /// No lists.
    pub fn new(alloc: Global) -> Self
        ensures { result ≡ [] }
    {
        PlainLists {
            items: Vec::new(alloc),
            ends: Vec::new(alloc),
        }
    }

    /// Adds a list of copies of these items at the end.
    pub fn push(&mut self, list: &[T]) -> Result<(), NoMemory>
    where
        T: Copy,
        ensures ok { OnOk result (self.new ≡ self.old ++ list.now ∷ []) }
        ensures err { OnErr result (self.new ≡ self.old) }
    {
        let before = self.items.len();
        self.items.extend_from_slice(list)?;
        match self.ends.push(self.items.len()) {
            Ok(()) => Ok(()),
            Err(_) => {
                self.items.truncate(before);
                Err(NoMemory)
            }
        }
    }

    /// How many lists there are.
    pub fn len(&self) -> usize
        ensures { result ≡ length self.now }
    {
        self.ends.len()
    }

    /// A list by its place, from 0.
    pub fn of(&self, place: usize) -> &[T]
        requires { place < length self.now }
        ensures { slice_get self.now place ≡ Some result.now }
    {
        let start = start_of(self.ends.as_slice(), place);
        let end = self.ends[place];
        &self.items.as_slice()[start..end]
    }
}

/// Where the list at a place begins.
fn start_of(ends: &[usize], place: usize) -> usize
    requires { place < length ends.now }
    ensures { result ≡ start_at 0 ends.now place }
{
    if place == 0 { 0 } else { ends[place - 1] }
}
