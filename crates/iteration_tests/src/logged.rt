//! A slow store that keeps a log of its loads and stores.

ghost use Rattle.std.specs.Prelude.{◌≡◌, List, ◌∷◌, ◌++◌, [], true};
ghost use Rattle.code_eval.specs.Stores.{StoreView};
ghost use Rattle.iteration_tests.specs.Logs.{value_after_entry, value_in_log, view_of};

use crate::entry::Logged;
use code_eval::Words;
use liszt_base::Spot;
use sqlite_items::Items;
use std::process::Abort;

/// A store of all spots, by its log alone: the value of a spot is the one stored last, and at first 7.
#[derive(Drop)]
pub struct LoggedStore<'a, R: Abort> {
    pub rt: &'a R,
    pub log: Items<Logged>,
}

/// The value of a spot after an entry.
fn value_after(entry: Logged, spot: Spot, old: i64) -> i64
    ensures { result ≡ value_after_entry entry spot old }
{
    match entry {
        Logged::Load { .. } => old,
        Logged::Store { spot: other, value } => {
            if other.field == spot.field && other.id == spot.id {
                value
            } else {
                old
            }
        }
    }
}

/// The value of a spot after a log.
pub fn value_at(log: &[Logged], spot: Spot) -> i64
    ensures { result ≡ value_in_log log.now spot }
{
    let mut value = 7;
    for entry in log {
        value = value_after(*entry, spot, value);
    }
    value
}

impl<'a, R: Abort> LoggedStore<'a, R> {
    /// Appends an entry.
    fn append(&mut self, entry: Logged)
        ensures { self.new.log ≡ self.old.log ++ entry ∷ [] }
    {
        self.log
            .push(entry)
            .expect(self.rt, "no memory for the log");
    }
}

impl<'a, R: Abort> Words for LoggedStore<'a, R> {
    ghost store = { λ s. view_of s.log };

    fn load(&mut self, spot: Spot) -> i64 {
        let value = value_at(self.log.as_slice(), spot);
        self.append(Logged::Load { spot, value });
        value
    }

    fn store(&mut self, spot: Spot, value: i64) {
        self.append(Logged::Store { spot, value });
    }
}
