ghost use Rattle.std.specs.Prelude.{◌≡◌, ◌≤◌, ◌<◌, true};
ghost use Rattle.ghost_links.specs.Layouts.{packet_size};
ghost use Rattle.ghost_links.specs.Holdings.{HasLink, link_of, receiver, sender};
ghost use Rattle.link_tests.specs.Rounds.{HasScript, IsAt};

use crate::numbered::{fill, is_numbered};
use crate::polling::{post_in_time, take_in_time};
use ghost_links::{LinkId, LinkSeat, Links, Packet};

/// Posts `count` packets of a link, and answers how many were posted in time.
pub(crate) fn post_all(
    links: &Links,
    s: &mut LinkSeat,
    link: LinkId,
    p: &mut Packet,
    count: u32,
) -> u32
    requires script { HasScript links.now count s.old }
    requires link { HasLink links.now link.from link.to }
    requires end { IsAt s.old (sender links.now link.from link.to) 0 }
    requires ranks { links.now.layout.ranks ≤ 16 }
    requires size { 7 ≤ p.old.size }
    ensures { s.new.links ≡ links.now }
{
    for n in 0..count {
        fill(p, link, n);
        if !post_in_time(links, s, link, p) {
            return n;
        }
    }
    count
}

/// Takes `count` packets of a link, and answers how many came in time and are what the script says.
pub(crate) fn take_all(
    links: &Links,
    s: &mut LinkSeat,
    link: LinkId,
    p: &mut Packet,
    count: u32,
) -> u32
    requires links { s.old.links ≡ links.now }
    requires link { HasLink links.now link.from link.to }
    requires end { IsAt s.old (receiver links.now link.from link.to) 0 }
    requires size { packet_size links.now.layout (link_of links.now link.from link.to)
        ≤ p.old.size }
    ensures { s.new.links ≡ links.now }
{
    for n in 0..count {
        if !take_in_time(links, s, link, p) || !is_numbered(p, link, n) {
            return n;
        }
    }
    count
}
