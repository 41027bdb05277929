ghost use Rattle.std.specs.Prelude.{◌≡◌, ◌≤◌, ◌<◌, ◌+◌};
ghost use Rattle.ghost_links.specs.Layouts.{packet_size};
ghost use Rattle.ghost_links.specs.Holdings.{link_of};
ghost use Rattle.link_tests.specs.Rounds.{FitSeven, LinkIsAt, done_count};

use crate::numbered::{fill, is_numbered};
use ghost_links::{LinkId, LinkSeat, Links, Packet, PostAnswer, TakeAnswer};

/// How many packets were posted and taken.
#[derive(Clone, Copy)]
pub struct Counts {
    pub sent: u32,
    pub taken: u32,
}

/// Tries to post the next packet, and answers the turn word where that is not possible yet.
fn try_post(links: &Links, s: &mut LinkSeat, p: &mut Packet, at: Counts) -> Option<u64>
    requires at { LinkIsAt links.now 3 s.old at.sent at.taken }
    requires count { at.sent < 3 }
    requires size { 7 ≤ p.old.size }
    ensures at { LinkIsAt links.now 3 s.new (at.sent + done_count result) at.taken }
    ensures size { p.new.size ≡ p.old.size }
{
    let link = LinkId { from: 0, to: 1 };
    fill(p, link, at.sent);
    match links.post(s, link, p) {
        PostAnswer::Posted => None,
        PostAnswer::NotYet { word } => Some(word),
    }
}

/// Tries to take the next packet, and answers the turn word where that is not possible yet.
fn try_take(links: &Links, s: &mut LinkSeat, p: &mut Packet, at: Counts) -> Option<u64>
    requires at { LinkIsAt links.now 3 s.old at.sent at.taken }
    requires sizes { FitSeven links.now }
    requires size { 7 ≤ p.old.size }
    ensures at { LinkIsAt links.now 3 s.new at.sent (at.taken + done_count result) }
    ensures size { p.new.size ≡ p.old.size }
{
    let link = LinkId { from: 0, to: 1 };
    match links.take(s, link, p) {
        TakeAnswer::Taken => None,
        TakeAnswer::NotYet { word } => Some(word),
    }
}

/// Whether the calls of one thread answer what they must, on a new link: nothing can be taken from an empty link, nothing posted to a full
/// one, and the answer has the turn word.
pub(crate) fn answers_are_right(links: &Links, s: &mut LinkSeat, p: &mut Packet) -> bool
    requires at { LinkIsAt links.now 3 s.old 0 0 }
    requires sizes { FitSeven links.now }
    requires size { 7 ≤ p.old.size }
{
    let link = LinkId { from: 0, to: 1 };
    let Some(0) = try_take(links, s, p, Counts { sent: 0, taken: 0 }) else {
        return false;
    };
    let None = try_post(links, s, p, Counts { sent: 0, taken: 0 }) else {
        return false;
    };
    let Some(1) = try_post(links, s, p, Counts { sent: 1, taken: 0 }) else {
        return false;
    };
    let None = try_take(links, s, p, Counts { sent: 1, taken: 0 }) else {
        return false;
    };
    let first = is_numbered(p, link, 0);
    let Some(2) = try_take(links, s, p, Counts { sent: 1, taken: 1 }) else {
        return false;
    };
    let None = try_post(links, s, p, Counts { sent: 1, taken: 1 }) else {
        return false;
    };
    let Some(3) = try_post(links, s, p, Counts { sent: 2, taken: 1 }) else {
        return false;
    };
    let None = try_take(links, s, p, Counts { sent: 2, taken: 1 }) else {
        return false;
    };
    first && is_numbered(p, link, 1)
}
