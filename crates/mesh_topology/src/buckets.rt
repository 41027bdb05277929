//! Lists of ids in one buffer, which can be appended to in any order.

ghost use Rattle.std.specs.Prelude.{◌≡◌, ◌<◌, ◌^◌, [], ◌∷◌, ◌++◌, IfOk, Some, length, slice_get, slice_index, slice_index_or};
ghost use Rattle.std.specs.List.{slice_set};
ghost use Rattle.mesh_topology.specs.Internal.Buckets.{AreStartsOf, IsEmptyWith};

use liszt_base::{NoMemory, PlainLists};
use std::alloc::Global;
use std::marker::Model;

/// Lists of fixed capacity. Contracts see the lists and their capacities.
#[derive(Drop)]
pub struct Buckets {
    items: Vec<u32>,
    starts: Vec<usize>,
    ends: Vec<usize>,
}

impl Model for Buckets {
    ghost use Rattle.std.specs.Prelude.{length};
    ghost use Rattle.mesh_topology.specs.Internal.Buckets.{bucket_lists, AreApart, BucketLists};

    ghost Value = { BucketLists };

    ghost view = { λ b. bucket_lists b.starts.items b.ends.items b.items.items };

    ghost invariant = { λ b. AreApart b.starts.items b.ends.items (length b.items.items) };
}

/// The start of each list of these capacities in one buffer, and the end of the last one.
fn list_starts(alloc: Global, capacities: &[u32]) -> Result<Vec<usize>, NoMemory>
    requires { length capacities.now < 2 ^ 32 }
    ensures { IfOk result (λ starts. AreStartsOf capacities.now
        (length capacities.now) starts.items) }
{
    let mut starts = Vec::new(alloc);
    let mut next = 0;
    starts.push(next)?;
    for capacity in capacities {
        next += *capacity as usize;
        starts.push(next)?;
    }
    Ok(starts)
}

impl Buckets {
    /// Empty lists of these capacities.
    pub fn new(alloc: Global, capacities: &[u32]) -> Result<Buckets, NoMemory>
        requires { length capacities.now < 2 ^ 32 }
        ensures { IfOk result (λ buckets. IsEmptyWith capacities.now buckets) }
    {
        let starts = list_starts(alloc, capacities)?;
        let ends = Vec::from_slice(alloc, &starts[..capacities.len()])?;
        let items = vec![in alloc; 0; starts[capacities.len()]]?;
        Ok(Buckets {
            items,
            starts,
            ends,
        })
    }

    /// Appends an id to a list that is not full.
    pub fn push(&mut self, list: u32, id: u32)
        requires below { list < length self.old.lists }
        requires capacity { length
            (slice_index_or self.old.lists list []) < slice_index self.old.capacities list }
        ensures lists { self.new.lists
            ≡ slice_set self.old.lists list (slice_index_or self.old.lists list [] ++ id ∷ []) }
        ensures capacities { self.new.capacities ≡ self.old.capacities }
    {
        let end = self.ends[list as usize];
        self.items[end] = id;
        self.ends[list as usize] = end + 1;
    }

    /// A copy of the lists.
    pub fn lists(&self, alloc: Global) -> Result<PlainLists<u32>, NoMemory>
        ensures { IfOk result (λ lists. lists ≡ self.now.lists) }
    {
        let mut lists = PlainLists::new(alloc);
        for i in 0..self.ends.len() {
            lists.push(&self.items[self.starts[i]..self.ends[i]])?;
        }
        Ok(lists)
    }

    /// The number of lists.
    pub fn len(&self) -> usize
        ensures { result ≡ length self.now.lists }
    {
        self.ends.len()
    }

    /// The list at an index, from 0.
    pub fn of(&self, place: usize) -> &[u32]
        requires { place < length self.now.lists }
        ensures { slice_get self.now.lists place ≡ Some result.now }
    {
        let start = self.starts[place];
        let end = self.ends[place];
        &self.items[start..end]
    }
}
