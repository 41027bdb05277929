ghost use Rattle.std.specs.Prelude.{◌≡◌, [], ◌∷◌, ◌++◌, None, OnOk, length, take};
ghost use Rattle.phase_types.specs.Resolve.{resolution_of};

use crate::resolution::Resolution;
use indexmap::IndexMap;
use liszt_base::NoMemory;
use std::alloc::Global;
use std::marker::Model;

/// The visible names with what they denote, in the order of their declarations. Contracts see the list of them.
#[derive(Drop)]
pub struct Names {
    table: IndexMap<Vec<u8>, Resolution>,
}

impl Model for Names {
    ghost use Rattle.std.specs.Prelude.{List, ℕ, map};
    ghost use Rattle.phase_types.specs.declared.resolution.Resolution.{Resolution as Denotation};

    ghost Value = { List (List ℕ × Denotation) };

    ghost view = { λ n. map (λ entry. (entry.0.items, entry.1)) n.table.entries };
}

impl Names {
    /// No names.
    pub fn new(alloc: Global) -> Names
        ensures { result ≡ [] }
    {
        Names {
            table: IndexMap::new(alloc),
        }
    }

    /// The number of visible names.
    pub fn len(&self) -> usize
        ensures { result ≡ length self.now }
    {
        self.table.len()
    }

    /// What a name denotes, if it is visible.
    pub fn resolution(&self, name: &[u8]) -> Option<Resolution>
        ensures { result ≡ resolution_of self.now name.now }
    {
        self.table.get(name).copied()
    }

    /// Declares a new name.
    pub fn declare(
        &mut self,
        alloc: Global,
        name: &[u8],
        denoted: Resolution,
    ) -> Result<(), NoMemory>
        requires { resolution_of self.old name.now ≡ None }
        ensures { OnOk result (self.new ≡ self.old ++ (name.now, denoted) ∷ []) }
    {
        let key = Vec::from_slice(alloc, name)?;
        self.table.insert(key, denoted)?;
        Ok(())
    }

    /// Ends the names after the first `len` ones.
    pub fn truncate(&mut self, len: usize)
        ensures { self.new ≡ take len self.old }
    {
        self.table.truncate(len);
    }
}
