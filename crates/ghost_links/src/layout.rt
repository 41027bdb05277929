ghost use Rattle.std.specs.Prelude.{◌≡◌, ◌+◌, ◌*◌, ◌<◌, ◌≤◌, ◌^◌, IfOk, length};
ghost use Rattle.liszt_base.specs.Limits.{rank_limit};
ghost use Rattle.ghost_links.specs.Layouts.{first_of, first_word, given_room, layout_of, turn_count, word_count};
ghost use Rattle.ghost_links.specs.Holdings.{IsSquare};

use liszt_base::{NoMemory, PlainList, PlainLists};
use std::alloc::Global;
use std::marker::Model;

/// How the words of a table of links are laid out. Contracts see the number of ranks, the first data word that belongs to each turn
/// word, and the number of all words.
#[derive(Drop)]
pub struct LinkLayout {
    ranks: u32,
    firsts: PlainList<u32>,
}

impl Model for LinkLayout {
    ghost use Rattle.ghost_links.specs.Layouts.{Layout};

    ghost Value = { Layout };

    ghost view = { λ l. record { ranks = l.ranks; firsts = l.firsts } };
}

impl LinkLayout {
    /// The layout of links of these packet sizes.
    pub(crate) fn new(
        alloc: Global,
        ranks: u32,
        sizes: &PlainLists<u32>,
    ) -> Result<LinkLayout, NoMemory>
        requires some_rank { 0 < ranks }
        requires few_ranks { ranks ≤ rank_limit }
        requires square { IsSquare ranks sizes.now }
        requires few_words { first_of ranks sizes.now (ranks * ranks) < 2 ^ 32 }
        ensures { IfOk result (λ layout. layout ≡ layout_of ranks sizes.now) }
    {
        let mut firsts = PlainList::new(alloc);
        let mut next = u64::from(ranks * ranks);
        for link in 0..ranks * ranks {
            firsts.push(next as u32)?;
            next += room_of(ranks, sizes, link);
        }
        firsts.push(next as u32)?;
        Ok(LinkLayout { ranks, firsts })
    }

    /// The number of ranks.
    pub(crate) fn ranks(&self) -> usize
        ensures { result ≡ self.now.ranks }
    {
        self.ranks as usize
    }

    /// The first data word that belongs to a turn word.
    pub(crate) fn first(&self, link: usize) -> usize
        requires { link < length self.now.firsts }
        ensures { result ≡ first_word self.now link }
    {
        self.firsts.as_slice()[link] as usize
    }

    /// The number of all words.
    pub(crate) fn words(&self) -> usize
        requires { length self.now.firsts ≡ turn_count self.now + 1 }
        ensures { result ≡ word_count self.now }
    {
        let firsts = self.firsts.as_slice();
        firsts[firsts.len() - 1] as usize
    }
}

/// The number of data words that belong to a turn word.
fn room_of(ranks: u32, sizes: &PlainLists<u32>, link: u32) -> u64
    requires some_rank { 0 < ranks }
    requires square { IsSquare ranks sizes.now }
    requires link { link < ranks * ranks }
    ensures { result ≡ given_room ranks sizes.now link }
{
    let from = link / ranks;
    let to = link % ranks;
    if from == to {
        0
    } else {
        u64::from(sizes.of(from as usize)[to as usize]) + 1
    }
}
