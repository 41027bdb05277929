use crate::answers::answers_are_right;
use crate::exchange::{post_all, take_all};
use crate::numbered::numbered_links;
use crate::table::{Run, run_ranks};
use ghost_links::{LinkId, Packet};
use liszt_base::NoMemory;
use std::alloc::Global;
use std::test::Fail;
use std::thread::{Threads, join_mut};

/// Two threads exchange a thousand packets of 0 to 7 words over one link.
fn thousand_over_one_link<R: Threads>(rt: &R, alloc: Global) -> Result<(u32, u32), NoMemory> {
    let (links, mut seat) = numbered_links(alloc, 2, 1000)?;
    let mut other = links.split(&mut seat, 1);
    let mut sent = Packet::make(alloc, 7)?;
    let mut taken = Packet::make(alloc, 7)?;
    let link = LinkId { from: 0, to: 1 };
    let mut posts = 0;
    let mut takes = 0;
    join_mut(
        rt,
        &mut || posts = post_all(&links, &mut seat, link, &mut sent, 1000),
        &mut || takes = take_all(&links, &mut other, link, &mut taken, 1000),
    );
    links.join(&mut seat, other);
    Ok((posts, takes))
}

#[test]
fn a_thousand_packets_come_over_one_link(rt: HostRuntime) -> Result<(), Fail> {
    let (posts, takes) = thousand_over_one_link(&rt, rt.alloc())?;
    assert!(rt; posts == 1000 && takes == 1000);
    Ok(())
}

/// Sixteen ranks exchange 64 packets of 0 to 7 words over each link of a full table.
fn all_links_of_a_full_table<R: Threads + Sync>(rt: &R, alloc: Global) -> Result<bool, NoMemory> {
    let (links, mut seat) = numbered_links(alloc, 16, 64)?;
    let run = Run {
        ranks: 16,
        rounds: 64,
    };
    Ok(run_ranks(rt, alloc, &links, &mut seat, 0, run))
}

#[test]
fn sixteen_seats_use_all_links(rt: HostRuntime) -> Result<(), Fail> {
    assert!(rt; all_links_of_a_full_table(&rt, rt.alloc())?);
    Ok(())
}

/// One rank has no link: its table is one word, and its seat has no end.
fn one_rank_alone(alloc: Global) -> Result<(), NoMemory> {
    let (links, mut seat) = numbered_links(alloc, 1, 3)?;
    let other = links.split(&mut seat, 0);
    links.join(&mut seat, other);
    Ok(())
}

#[test]
fn one_rank_has_no_link(rt: HostRuntime) -> Result<(), Fail> {
    one_rank_alone(rt.alloc())?;
    Ok(())
}

/// Both ends of a link in one seat.
fn in_one_thread(alloc: Global) -> Result<bool, NoMemory> {
    let (links, mut seat) = numbered_links(alloc, 2, 3)?;
    let mut p = Packet::make(alloc, 7)?;
    Ok(answers_are_right(&links, &mut seat, &mut p))
}

#[test]
fn calls_of_one_thread_answer_by_the_turn_word(rt: HostRuntime) -> Result<(), Fail> {
    assert!(rt; in_one_thread(rt.alloc())?);
    Ok(())
}

/// Whether a packet keeps its words when it is cut, and has 0 where it is filled up.
fn is_cut_and_filled(alloc: Global) -> Result<bool, NoMemory> {
    let mut p = Packet::make(alloc, 3)?;
    let empty = p.used() == 0;
    p.set_used(3);
    p.set(0, 5);
    p.set(2, 7);
    p.set_used(1);
    p.set_used(3);
    Ok(empty && p.used() == 3 && p.get(0) == 5 && p.get(1) == 0 && p.get(2) == 0)
}

#[test]
fn packets_are_cut_and_filled(rt: HostRuntime) -> Result<(), Fail> {
    assert!(rt; is_cut_and_filled(rt.alloc())?);
    Ok(())
}
