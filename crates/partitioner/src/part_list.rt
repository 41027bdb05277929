ghost use Rattle.std.specs.Prelude.{◌≡◌, ◌<◌, ◌≤◌, [], ◌∷◌, ◌++◌, OnOk, OnErr};
ghost use Rattle.liszt_base.specs.Limits.{rank_limit};
ghost use Rattle.partitioner.specs.PartLists.{AreRanks};

use liszt_base::{NoMemory, PlainList};
use std::alloc::Global;
use std::marker::Model;

/// The rank of each cell of a mesh, in the order of the cells, and the number of ranks that they were made with. There are 1 to 16
/// ranks, and each part is one of them. Contracts see the list and the number.
#[derive(Debug, Drop)]
pub struct PartList {
    list: PlainList<u32>,
    ranks: u32,
}

impl Model for PartList {
    ghost use Rattle.partitioner.specs.PartLists.{Parts, AreRanks};

    ghost Value = { Parts };

    ghost view = { λ a. record { list = a.list; ranks = a.ranks } };

    ghost invariant = { λ a. AreRanks (record { list = a.list; ranks = a.ranks }) };
}

impl PartList {
    /// No parts.
    pub(crate) fn new(alloc: Global, ranks: u32) -> PartList
        requires some_rank { 0 < ranks }
        requires few_ranks { ranks ≤ rank_limit }
        ensures { result ≡ record { list = []; ranks = ranks } }
    {
        PartList {
            list: PlainList::new(alloc),
            ranks,
        }
    }

    /// Appends the part of the next cell.
    pub(crate) fn push(&mut self, part: u32) -> Result<(), NoMemory>
        requires { part < self.old.ranks }
        ensures ok { OnOk result (self.new ≡ record self.old { list = self.old.list ++ part ∷ [] }) }
        ensures err { OnErr result (self.new ≡ self.old) }
    {
        self.list.push(part)
    }

    /// The part of each cell, in the order of the cells.
    pub fn as_slice(&self) -> &[u32]
        ensures { result.now ≡ self.now.list }
    {
        self.list.as_slice()
    }

    /// The number of ranks, 1 to 16.
    pub fn ranks(&self) -> u32
        ensures { result ≡ self.now.ranks }
    {
        self.ranks
    }

    /// States that there are 1 to 16 ranks and that each part is one of them; it has no effect.
    pub fn parts_are_ranks(&self)
        ensures { AreRanks self.now }
    {
        let _list = self.list.as_slice();
    }
}
