ghost use Rattle.std.specs.Prelude.{◌≡◌, ◌≤◌, true, cond, Some};
ghost use Rattle.ghost_links.specs.Layouts.{packet_size};
ghost use Rattle.ghost_links.specs.Holdings.{AreLinked, ChangedOneEnd, HasLink, has_idle, link_of, next_packet, receiver, sender};

use ghost_links::{LinkId, LinkSeat, Links, Packet, PostAnswer, TakeAnswer};
use std::thread::yield_now;

/// How often a post or a take is tried.
const TRIES: u32 = 100_000_000;

/// Posts a packet once the link is free. False where it was not free in all tries.
pub(crate) fn post_in_time(links: &Links, s: &mut LinkSeat, link: LinkId, p: &Packet) -> bool
    requires links { AreLinked links.now s.old }
    requires link { HasLink links.now link.from link.to }
    requires end { has_idle s.old (sender links.now link.from link.to) ≡ true }
    requires packet { next_packet s.old (link_of links.now link.from link.to)
        (sender links.now link.from link.to) ≡ Some p.now.words }
    ensures { ChangedOneEnd (sender links.now link.from link.to) (cond result 1 0) s.old s.new }
{
    for _ in 0..TRIES {
        match links.post(s, link, p) {
            PostAnswer::Posted => return true,
            PostAnswer::NotYet { .. } => yield_now(),
        }
    }
    false
}

/// Takes a packet once there is one. False where there was none in all tries.
pub(crate) fn take_in_time(links: &Links, s: &mut LinkSeat, link: LinkId, into: &mut Packet) -> bool
    requires links { AreLinked links.now s.old }
    requires link { HasLink links.now link.from link.to }
    requires end { has_idle s.old (receiver links.now link.from link.to) ≡ true }
    requires size { packet_size links.now.layout (link_of links.now link.from link.to)
        ≤ into.old.size }
    ensures seat { ChangedOneEnd (receiver links.now link.from link.to) (cond result 1 0)
        s.old s.new }
    ensures size { into.new.size ≡ into.old.size }
{
    for _ in 0..TRIES {
        match links.take(s, link, into) {
            TakeAnswer::Taken => return true,
            TakeAnswer::NotYet { .. } => yield_now(),
        }
    }
    false
}
