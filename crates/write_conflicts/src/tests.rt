ghost use Rattle.std.specs.Prelude.{◌*◌, ◌<◌, ◌≤◌, ◌^◌, IfOk, length};
ghost use Rattle.write_conflicts.specs.Conflicts.{entries};

use crate::{SharedWrite, first_clash, touched};
use liszt_base::{Access, Mode, Op, PlainLists, Spot};
use std::alloc::{AllocError, Global};
use std::test::Fail;

/// A table of these lists, each of which has at most eight accesses.
fn lists_of(alloc: Global, rows: &[&[Access]]) -> Result<PlainLists<Access>, AllocError>
    ensures { IfOk result (λ lists. (length lists ≤ length rows.now)
        × (entries lists ≤ 8 * length rows.now)) }
{
    let mut lists = PlainLists::new(alloc);
    for row in rows {
        if row.len() > 8 {
            return Err(AllocError);
        }
        lists.push(row).map_err(|_| AllocError)?;
    }
    Ok(lists)
}

/// What the iterations of these lists touch.
fn touched_of(alloc: Global, rows: &[&[Access]]) -> Result<PlainLists<u32>, AllocError>
    requires { length rows.now < 2 ^ 20 }
{
    let lists = lists_of(alloc, rows)?;
    touched(alloc, &lists).map_err(|_| AllocError)
}

/// The first clash of these lists.
fn clash_of(alloc: Global, rows: &[&[Access]]) -> Result<Option<SharedWrite>, AllocError>
    requires { length rows.now < 2 ^ 20 }
{
    let lists = lists_of(alloc, rows)?;
    first_clash(alloc, &lists).map_err(|_| AllocError)
}

fn access(mode: Mode, field: u32, id: u32) -> Access {
    Access {
        spot: Spot { field, id },
        mode,
    }
}

fn add(field: u32, id: u32) -> Access {
    access(Mode::Reduce(Op::Add), field, id)
}

fn max(field: u32, id: u32) -> Access {
    access(Mode::Reduce(Op::Max), field, id)
}

fn read(field: u32, id: u32) -> Access {
    access(Mode::Read, field, id)
}

fn write(field: u32, id: u32) -> Access {
    access(Mode::Write, field, id)
}

#[test]
fn no_lists(rt: HostRuntime) -> Result<(), Fail> {
    assert_eq!(rt; touched_of(rt.alloc(), &[])?.len(), 0);
    assert_eq!(rt; clash_of(rt.alloc(), &[])?, None);
    Ok(())
}

#[test]
fn reductions_have_ranks(rt: HostRuntime) -> Result<(), Fail> {
    let rows: [&[Access]; 4] = [
        &[add(1, 5), write(0, 9)],
        &[read(1, 5), write(1, 9)],
        &[max(0, 5), max(1, 5)],
        &[],
    ];
    let numbers = touched_of(rt.alloc(), &rows)?;
    assert_eq!(rt; numbers.len(), 4);
    assert!(rt; numbers.of(0) == [1].as_slice());
    assert!(rt; numbers.of(1).is_empty());
    assert!(rt; numbers.of(2) == [0, 1].as_slice());
    assert!(rt; numbers.of(3).is_empty());
    Ok(())
}

#[test]
fn repeats_keep_their_order(rt: HostRuntime) -> Result<(), Fail> {
    let rows: [&[Access]; 2] = [&[add(2, 5), max(2, 5), add(0, 7)], &[add(1, 7), add(2, 5)]];
    let numbers = touched_of(rt.alloc(), &rows)?;
    assert_eq!(rt; numbers.len(), 2);
    assert!(rt; numbers.of(0) == [2, 2, 0].as_slice());
    assert!(rt; numbers.of(1) == [1, 2].as_slice());
    Ok(())
}

#[test]
fn great_numbers(rt: HostRuntime) -> Result<(), Fail> {
    let top = u32::MAX;
    let rows: [&[Access]; 2] = [&[add(top, top), add(1, 0)], &[add(0, top), add(top, 0)]];
    let numbers = touched_of(rt.alloc(), &rows)?;
    assert_eq!(rt; numbers.len(), 2);
    assert!(rt; numbers.of(0) == [3, 1].as_slice());
    assert!(rt; numbers.of(1) == [0, 2].as_slice());
    let writes: [&[Access]; 3] = [&[write(top, top)], &[write(0, top)], &[write(top, top)]];
    let clash = SharedWrite {
        spot: Spot {
            field: top,
            id: top,
        },
        first: 0,
        second: 2,
    };
    assert_eq!(rt; clash_of(rt.alloc(), &writes)?, Some(clash));
    Ok(())
}

#[test]
fn the_first_of_two_clashes(rt: HostRuntime) -> Result<(), Fail> {
    let rows: [&[Access]; 4] = [
        &[write(1, 2), write(0, 4)],
        &[write(1, 2), write(1, 2)],
        &[write(0, 4)],
        &[write(0, 4)],
    ];
    let clash = SharedWrite {
        spot: Spot { field: 0, id: 4 },
        first: 0,
        second: 2,
    };
    assert_eq!(rt; clash_of(rt.alloc(), &rows)?, Some(clash));
    Ok(())
}

#[test]
fn no_clash(rt: HostRuntime) -> Result<(), Fail> {
    let rows: [&[Access]; 4] = [
        &[write(1, 2), write(1, 2), write(0, 2)],
        &[read(1, 2), write(2, 2)],
        &[add(1, 2), add(0, 2)],
        &[add(1, 2), write(1, 3)],
    ];
    assert_eq!(rt; clash_of(rt.alloc(), &rows)?, None);
    Ok(())
}

#[test]
fn one_spot_of_all(rt: HostRuntime) -> Result<(), Fail> {
    let sum = [add(3, 8)];
    let sums: [&[Access]; 100] = [&sum; 100];
    let numbers = touched_of(rt.alloc(), &sums)?;
    assert_eq!(rt; numbers.len(), 100);
    assert!(rt; numbers.of(0) == [0].as_slice());
    assert!(rt; numbers.of(99) == [0].as_slice());
    Ok(())
}
