ghost use Rattle.std.specs.Prelude.{◌≡◌, ◌≤◌, ◌<◌, IfOk, replicate};
ghost use Rattle.link_tests.specs.Rounds.{IsNumbered};
ghost use Rattle.link_tests.specs.Scripts.{packet_at, word_at};

use ghost_links::{LinkId, LinkSeat, Links, Packet, Script};
use liszt_base::{NoMemory, PlainLists};
use std::alloc::Global;

/// A script of `count` packets on each link.
#[derive(Drop)]
pub struct Numbered {
    pub count: u32,
}

impl Script for Numbered {
    ghost use Rattle.link_tests.specs.Scripts.{packets_at};

    ghost packets = { λ s. packets_at s.count };
}

/// Word `i` of packet `n` of a link.
pub(crate) fn word_of(link: LinkId, n: u32, i: usize) -> u64
    requires from { link.from < 16 }
    requires to { link.to < 16 }
    requires place { i < 8 }
    ensures { result ≡ word_at link.from link.to n i }
{
    ((u64::from(n) * 16 + u64::from(link.from)) * 16 + u64::from(link.to)) * 8 + i as u64
}

/// Makes a packet the packet `n` of a link.
pub(crate) fn fill(p: &mut Packet, link: LinkId, n: u32)
    requires from { link.from < 16 }
    requires to { link.to < 16 }
    requires size { 7 ≤ p.old.size }
    ensures words { p.new.words ≡ packet_at link.from link.to n }
    ensures size { p.new.size ≡ p.old.size }
{
    let used = n as usize % 8;
    p.set_used(used);
    for i in 0..used {
        p.set(i, word_of(link, n, i));
    }
}

/// Whether a packet is the packet `n` of a link.
pub(crate) fn is_numbered(p: &Packet, link: LinkId, n: u32) -> bool {
    if link.from >= 16 || link.to >= 16 || p.used() != n as usize % 8 {
        return false;
    }
    for i in 0..p.used() {
        if i >= 8 || p.get(i) != word_of(link, n, i) {
            return false;
        }
    }
    true
}

/// The size 7 for each pair of ranks.
fn sizes_of(alloc: Global, ranks: u32) -> Result<PlainLists<u32>, NoMemory>
    ensures { IfOk result (λ sizes. sizes ≡ replicate ranks (replicate ranks 7)) }
{
    let row = vec![in alloc; 7u32; ranks as usize]?;
    let mut sizes = PlainLists::new(alloc);
    for _ in 0..ranks {
        sizes.push(row.as_slice())?;
    }
    Ok(sizes)
}

/// Links between all ranks with `count` packets on each, and the seat that has all ends.
pub(crate) fn numbered_links(
    alloc: Global,
    ranks: u32,
    count: u32,
) -> Result<(Links, LinkSeat), NoMemory>
    requires some_rank { 0 < ranks }
    requires few_ranks { ranks ≤ 16 }
    ensures { IfOk result (λ pair. IsNumbered pair.0 ranks count pair.1) }
{
    let sizes = sizes_of(alloc, ranks)?;
    let (links, seat) = Links::make(alloc, ranks, &sizes, &Numbered { count })?;
    Ok((links, seat))
}
