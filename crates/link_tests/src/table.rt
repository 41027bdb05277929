ghost use Rattle.std.specs.Prelude.{◌≡◌, ◌≤◌, ◌<◌, ◌+◌, true, ℕ};
ghost use Rattle.std.specs.Thread.{IsSync};
ghost use Rattle.link_tests.specs.Rounds.{FitSeven, HasScript, RankIsAt, RanksStart, all_at};

use crate::numbered::{fill, is_numbered};
use crate::polling::{post_in_time, take_in_time};
use ghost_links::{LinkId, LinkSeat, Links, Packet};
use std::alloc::Global;
use std::thread::{Threads, join_mut};

/// What all ranks of a test have in common.
#[derive(Clone, Copy)]
pub struct Run {
    pub ranks: u32,
    pub rounds: u32,
}

/// Posts the packet of a round to each other rank.
fn post_round(
    links: &Links,
    s: &mut LinkSeat,
    p: &mut Packet,
    rank: u32,
    run: Run,
    round: u32,
) -> bool
    requires script { HasScript links.now run.rounds s.old }
    requires ranks { run.ranks ≡ links.now.layout.ranks }
    requires few { run.ranks ≤ 16 }
    requires rank { rank < run.ranks }
    requires round { round < run.rounds }
    requires ends { RankIsAt links.now s.old rank (all_at round) (all_at round) }
    requires size { p.old.size ≡ 7 }
    ensures script { HasScript links.now run.rounds s.new }
    ensures size { p.new.size ≡ 7 }
    ensures ends { result ≡ true
        → RankIsAt links.now s.new rank (all_at (round + 1)) (all_at round) }
{
    for other in 0..run.ranks {
        let link = LinkId {
            from: rank,
            to: other,
        };
        if other != rank {
            fill(p, link, round);
            if !post_in_time(links, s, link, p) {
                return false;
            }
        }
    }
    true
}

/// Takes the packet of a round from each other rank.
fn take_round(
    links: &Links,
    s: &mut LinkSeat,
    p: &mut Packet,
    rank: u32,
    run: Run,
    round: u32,
) -> bool
    requires script { HasScript links.now run.rounds s.old }
    requires ranks { run.ranks ≡ links.now.layout.ranks }
    requires rank { rank < run.ranks }
    requires ends { RankIsAt links.now s.old rank (all_at (round + 1)) (all_at round) }
    requires sizes { FitSeven links.now }
    requires size { p.old.size ≡ 7 }
    ensures script { HasScript links.now run.rounds s.new }
    ensures size { p.new.size ≡ 7 }
    ensures ends { result ≡ true
        → RankIsAt links.now s.new rank (all_at (round + 1)) (all_at (round + 1)) }
{
    for other in 0..run.ranks {
        let link = LinkId {
            from: other,
            to: rank,
        };
        if other == rank {
            continue;
        }
        if !take_in_time(links, s, link, p) || !is_numbered(p, link, round) {
            return false;
        }
    }
    true
}

/// Exchanges the packets of all rounds with all other ranks.
fn run_rank(links: &Links, s: &mut LinkSeat, alloc: Global, rank: u32, run: Run) -> bool
    requires script { HasScript links.now run.rounds s.old }
    requires ranks { run.ranks ≡ links.now.layout.ranks }
    requires few { run.ranks ≤ 16 }
    requires rank { rank < run.ranks }
    requires ends { RankIsAt links.now s.old rank (all_at 0) (all_at 0) }
    requires sizes { FitSeven links.now }
    ensures { s.new.links ≡ links.now }
{
    let Ok(mut p) = Packet::make(alloc, 7) else {
        return false;
    };
    for round in 0..run.rounds {
        if !post_round(links, s, &mut p, rank, run, round)
            || !take_round(links, s, &mut p, rank, run, round)
        {
            return false;
        }
    }
    true
}

/// Runs the ranks from `first` on, each in a thread of its own where there is one, and answers whether all packets came in time and are
/// what the script says.
pub(crate) fn run_ranks<R: Threads + Sync>(
    rt: &R,
    alloc: Global,
    links: &Links,
    s: &mut LinkSeat,
    first: u32,
    run: Run,
) -> bool
    requires script { HasScript links.now run.rounds s.old }
    requires ranks { run.ranks ≡ links.now.layout.ranks }
    requires few { run.ranks ≤ 16 }
    requires ends { RanksStart links.now s.old first }
    requires sizes { FitSeven links.now }
    ensures { s.new.links ≡ links.now }
{
    if first >= run.ranks {
        return true;
    }
    let mut given = links.split(s, first);
    let mut this = false;
    let mut rest = false;
    join_mut(
        rt,
        &mut ||
            requires script { HasScript links.now run.rounds given }
            requires ranks { run.ranks ≡ links.now.layout.ranks }
            requires few { run.ranks ≤ 16 }
            requires rank { first < run.ranks }
            requires ends { RankIsAt links.now given first (all_at 0) (all_at 0) }
            requires sizes { FitSeven links.now }
            ensures { given.exit.links ≡ links.entry.now }
        { this = run_rank(links, &mut given, alloc, first, run) },
        &mut ||
            requires sync { IsSync R.row }
            requires script { HasScript links.now run.rounds s.now }
            requires ranks { run.ranks ≡ links.now.layout.ranks }
            requires few { run.ranks ≤ 16 }
            requires some { first < run.ranks }
            requires ends { RanksStart links.now s.now (first + 1) }
            requires sizes { FitSeven links.now }
            ensures { s.exit.now.links ≡ links.entry.now }
        { rest = run_ranks(rt, alloc, links, s, first + 1, run) },
    );
    links.join(s, given);
    this && rest
}
