//! Lists of at most `N` ids, each in a row of its own.

ghost use Rattle.std.specs.Prelude.{◌≡◌, ◌<◌, ◌^◌, [], ◌∷◌, ◌++◌, IfOk, Some, length, replicate, slice_get, slice_index_or};
ghost use Rattle.std.specs.List.{slice_set};

use liszt_base::NoMemory;
use std::alloc::Global;
use std::marker::Model;

/// Lists of at most `N` ids. Contracts see the lists.
#[derive(Drop)]
pub struct Rows<const N: usize> {
    rows: Vec<[u32; N]>,
    counts: Vec<u8>,
}

impl<const N: usize> Model for Rows<N> {
    ghost use Rattle.std.specs.Prelude.{List, ℕ};
    ghost use Rattle.mesh_topology.specs.Internal.Buckets.{prefixes, AreRowCounts};

    ghost Value = { List (List ℕ) };

    ghost view = { λ r. prefixes r.counts.items r.rows.items };

    ghost invariant = { λ r. AreRowCounts N r.counts.items r.rows.items };
}

impl<const N: usize> Rows<N> {
    /// `count` empty lists.
    pub fn new(alloc: Global, count: u32) -> Result<Rows<N>, NoMemory>
        requires { N < 2 ^ 8 }
        ensures { IfOk result (λ lists. lists ≡ replicate count []) }
    {
        let rows = vec![in alloc; [0; N]; count as usize]?;
        let counts = vec![in alloc; 0; count as usize]?;
        Ok(Rows { rows, counts })
    }

    /// Appends an id to a list.
    pub fn push(&mut self, list: u32, id: u32)
        requires below { list < length self.old }
        requires capacity { length (slice_index_or self.old list []) < N }
        ensures { self.new ≡ slice_set self.old list (slice_index_or self.old list [] ++ id ∷ []) }
    {
        let count = self.counts[list as usize];
        self.rows[list as usize][count as usize] = id;
        self.counts[list as usize] = count + 1;
    }

    /// The list at an index, from 0.
    pub fn of(&self, place: usize) -> &[u32]
        requires { place < length self.now }
        ensures { slice_get self.now place ≡ Some result.now }
    {
        let count = self.counts[place];
        &self.rows[place][..count as usize]
    }
}
