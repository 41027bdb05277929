ghost use Rattle.std.specs.Prelude.{◌≡◌, [], ◌∷◌, ◌++◌, None, OnOk, OnErr, length, slice_get};
ghost use Rattle.resolved_code.specs.Accesses.{first_access};

use crate::accesses::{AccessAt, Subject};
use indexmap::IndexMap;
use liszt_base::NoMemory;
use std::alloc::Global;
use std::marker::Model;

/// The first access to each field and scalar, in the order in which they were added. Contracts see the list of them.
#[derive(Debug, Drop)]
pub struct FirstAccesses {
    table: IndexMap<Subject, AccessAt>,
}

impl Model for FirstAccesses {
    ghost use Rattle.std.specs.Prelude.{◌≡◌, List, map};
    ghost use Rattle.std.specs.List.{AllByRecursion};
    ghost use Rattle.resolved_code.specs.declared.accesses.AccessAt.{AccessAt as Access};

    ghost Value = { List Access };

    ghost view = { λ a. map (λ entry. entry.1) a.table.entries };

    ghost invariant = { λ a. AllByRecursion (λ entry. entry.0 ≡ entry.1.subject) a.table.entries };
}

impl FirstAccesses {
    /// No accesses.
    pub fn new(alloc: Global) -> FirstAccesses
        ensures { result ≡ [] }
    {
        FirstAccesses {
            table: IndexMap::new(alloc),
        }
    }

    /// The number of accesses.
    pub fn len(&self) -> usize
        ensures { result ≡ length self.now }
    {
        self.table.len()
    }

    /// An access by its index, from 0.
    pub fn get(&self, index: usize) -> Option<AccessAt>
        ensures { result ≡ slice_get self.now index }
    {
        let (_, access) = self.table.get_index(index)?;
        Some(*access)
    }

    /// The first access to a field or a scalar.
    pub fn first(&self, subject: Subject) -> Option<AccessAt>
        ensures { result ≡ first_access self.now subject }
    {
        self.table.get(&subject).copied()
    }

    /// Adds the first access to a field or a scalar at the end.
    pub fn add(&mut self, access: AccessAt) -> Result<(), NoMemory>
        requires { first_access self.old access.subject ≡ None }
        ensures ok { OnOk result (self.new ≡ self.old ++ access ∷ []) }
        ensures err { OnErr result (self.new ≡ self.old) }
    {
        self.table.insert(access.subject, access)?;
        Ok(())
    }
}
