ghost use Rattle.std.specs.Prelude.{◌≡◌, ◌+◌, ◌-◌, ◌*◌, ◌^◌, ◌<◌, IfOk};
ghost use Rattle.std.specs.Thread.{IsSync};
ghost use Rattle.field_words.specs.Holdings.{OwnsRange};
ghost use Rattle.field_words.specs.Internal.Fills.{IsFilled};

use crate::{FieldSeat, FieldTable, Part};
use liszt_base::{NoMemory, NumbersList};
use std::alloc::{AllocError, Global};
use std::test::Fail;
use std::thread::{Threads, join_mut};

fn no_memory(_: NoMemory) -> AllocError {
    AllocError
}

/// Two threads store a number each, to words of their own; after the join both are there.
fn both_stored<R: Threads>(rt: &R, alloc: Global, a: i64, b: i64) -> Result<(i64, i64), NoMemory>
    ensures { IfOk result (λ pair. (pair.0 ≡ a) × (pair.1 ≡ b)) }
{
    let (table, mut seat) = FieldTable::make(alloc, 2)?;
    let mut part = NumbersList::new(alloc);
    part.push(2)?;
    let mut other = table.split(&mut seat, &part);
    join_mut(
        rt,
        &mut || table.store_own(&mut seat, 1, a),
        &mut || table.store_own(&mut other, 2, b),
    );
    table.join(&mut seat, other);
    let x = table.load_own(&mut seat, 1);
    let y = table.load_own(&mut seat, 2);
    Ok((x, y))
}

#[test]
fn two_threads_store_to_their_words(rt: HostRuntime) -> Result<(), Fail> {
    let (x, y) = both_stored(&rt, rt.alloc(), -7, i64::MIN).map_err(no_memory)?;
    assert!(rt; x == -7 && y == i64::MIN);
    Ok(())
}

/// Consecutive words.
#[derive(Drop)]
struct WordRange {
    first: u32,
    count: u32,
}

impl Part for WordRange {
    ghost use Rattle.std.specs.List.{range_with_len};

    ghost words = { λ r. range_with_len r.first r.count };
}

/// Stores its number to each of these words.
fn store_numbers(table: &FieldTable, seat: &mut FieldSeat, first: u32, count: u32)
    requires table { seat.old.table ≡ table.now }
    requires own { OwnsRange seat.old first count }
    requires bound { first + count < 2 ^ 32 }
    ensures { IsFilled first count seat.old seat.new }
{
    for word in first..first + count {
        table.store_own(seat, word, i64::from(word));
    }
}

/// Fills 1,000 words a worker, each worker in a thread of its own where there is one.
fn fill<R: Threads + Sync>(
    rt: &R,
    table: &FieldTable,
    seat: &mut FieldSeat,
    first: u32,
    workers: u32,
)
    requires table { seat.old.table ≡ table.now }
    requires share { workers < seat.old.share }
    requires own { OwnsRange seat.old first (workers * 1000) }
    requires bound { first + workers * 1000 < 2 ^ 32 }
    ensures { IsFilled first (workers * 1000) seat.old seat.new }
{
    if workers == 0 {
        return;
    }
    let mut given = table.split(seat, &WordRange { first, count: 1000 });
    join_mut(
        rt,
        &mut ||
            requires table { given.table ≡ table.now }
            requires own { OwnsRange given first 1000 }
            requires bound { first + 1000 < 2 ^ 32 }
            ensures { IsFilled first 1000 given.entry given.exit }
        { store_numbers(table, &mut given, first, 1000) },
        &mut ||
            requires sync { IsSync R.row }
            requires some { 0 < workers }
            requires table { seat.now.table ≡ table.now }
            requires share { workers < seat.now.share + 1 }
            requires own { OwnsRange seat.now (first + 1000) ((workers - 1) * 1000) }
            requires bound { first + 1000 + (workers - 1) * 1000 < 2 ^ 32 }
            ensures { IsFilled (first + 1000) ((workers - 1) * 1000) seat.entry.now seat.exit.now }
        { fill(rt, table, seat, first + 1000, workers - 1) },
    );
    table.join(seat, given);
}

/// Whether each of these words has its number as value.
fn has_numbers(table: &FieldTable, seat: &mut FieldSeat, first: u32, count: u32) -> bool
    requires table { seat.old.table ≡ table.now }
    requires own { OwnsRange seat.old first count }
    requires bound { first + count < 2 ^ 32 }
{
    for word in first..first + count {
        if table.load_own(seat, word) != i64::from(word) {
            return false;
        }
    }
    true
}

fn eight_filled<R: Threads + Sync>(rt: &R, alloc: Global) -> Result<bool, NoMemory> {
    let (table, mut seat) = FieldTable::make(alloc, 8000)?;
    fill(rt, &table, &mut seat, 1, 8);
    Ok(has_numbers(&table, &mut seat, 1, 8000))
}

#[test]
fn eight_seats_fill_their_words(rt: HostRuntime) -> Result<(), Fail> {
    assert!(rt; eight_filled(&rt, rt.alloc()).map_err(no_memory)?);
    Ok(())
}
