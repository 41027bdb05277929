//! The reduced spots of each iteration, by their ranks among those of all iterations.

ghost use Rattle.std.specs.Prelude.{◌≡◌, ◌<◌, ◌^◌, ◌++◌, IfOk, OnOk, Some, length, map, slice_get};
ghost use Rattle.std.specs.List.{AllPairs, Contains, flat_map};
ghost use Rattle.liszt_base.specs.declared.accesses.Spot.{Spot as SpotOf};
ghost use Rattle.write_conflicts.specs.Conflicts.{is_reduction, reduced_spots, entries, AreTouched};
ghost use Rattle.write_conflicts.specs.Internal.Rows.{spot_of, IsKeyTable};

use crate::keys::{key, sort_keys};
use liszt_base::{Access, Mode, NoMemory, PlainLists};
use std::alloc::Global;

/// What each iteration touches: the spots that it reduces, in the order of its accesses, each by its rank among the spots that some
/// iteration reduces. Two iterations reduce one spot where their lists share a number. There are fewer than 2^32 accesses.
pub fn touched(alloc: Global, lists: &PlainLists<Access>) -> Result<PlainLists<u32>, NoMemory>
    requires { entries lists.now < 2 ^ 32 }
    ensures { IfOk result (AreTouched lists.now) }
{
    let mut keys = reduced_keys(alloc, lists)?;
    sort_keys(&mut keys);
    ranked_lists(alloc, lists, &keys)
}

/// Whether an access of this mode reduces its spot.
fn is_reduction(mode: Mode) -> bool
    ensures { result ≡ is_reduction mode }
{
    match mode {
        Mode::Read => false,
        Mode::Write => false,
        Mode::Reduce(_) => true,
    }
}

/// The keys of the spots that the lists reduce, in the order of their accesses.
fn reduced_keys(alloc: Global, lists: &PlainLists<Access>) -> Result<Vec<u64>, NoMemory>
    ensures { IfOk result (λ keys. map spot_of keys.items ≡ flat_map reduced_spots lists.now) }
{
    let mut keys = Vec::new(alloc);
    for i in 0..lists.len() {
        add_keys(&mut keys, lists.of(i))?;
    }
    Ok(keys)
}

/// Appends the keys of the spots that the accesses reduce.
fn add_keys(keys: &mut Vec<u64>, accesses: &[Access]) -> Result<(), NoMemory>
    ensures { OnOk result (map spot_of keys.new.items
        ≡ map spot_of keys.old.items ++ reduced_spots accesses.now) }
{
    for access in accesses {
        if is_reduction(access.mode) {
            keys.push(key(access.spot.field, access.spot.id))?;
        }
    }
    Ok(())
}

/// The ranks of the reduced spots of each list in a table of keys.
fn ranked_lists(
    alloc: Global,
    lists: &PlainLists<Access>,
    keys: &[u64],
) -> Result<PlainLists<u32>, NoMemory>
    requires { IsKeyTable lists.now keys.now }
    ensures { IfOk result (λ touched. map (λ numbers. map (slice_get (map spot_of keys.now)) numbers)
        touched ≡ map (λ list. map (λ spot. Some spot) (reduced_spots list)) lists.now) }
{
    let mut touched = PlainLists::new(alloc);
    let mut ranks = Vec::new(alloc);
    for i in 0..lists.len() {
        ranks.clear();
        add_ranks(&mut ranks, keys, lists.of(i))?;
        touched.push(ranks.as_slice())?;
    }
    Ok(touched)
}

/// Appends the ranks of the spots that the accesses reduce.
fn add_ranks(ranks: &mut Vec<u32>, keys: &[u64], accesses: &[Access]) -> Result<(), NoMemory>
    requires few { length keys.now < 2 ^ 32 }
    requires ascending { AllPairs (λ x y. x < y) keys.now }
    requires all { (spot : SpotOf) → Contains (reduced_spots accesses.now) spot
        → Contains (map spot_of keys.now) spot }
    ensures { OnOk result (map (slice_get (map spot_of keys.now)) ranks.new.items
        ≡ map (slice_get (map spot_of keys.now)) ranks.old.items
        ++ map (λ spot. Some spot) (reduced_spots accesses.now)) }
{
    for access in accesses {
        if is_reduction(access.mode) {
            ranks.push(rank(keys, access.spot.field, access.spot.id))?;
        }
    }
    Ok(())
}

/// The index of a spot in a table of keys that has its key.
fn rank(keys: &[u64], field: u32, id: u32) -> u32
    requires few { length keys.now < 2 ^ 32 }
    requires ascending { AllPairs (λ x y. x < y) keys.now }
    requires present { Contains (map spot_of keys.now) (record { field = field; id = id }) }
    ensures { slice_get (map spot_of keys.now) result ≡ Some (record { field = field; id = id }) }
{
    match keys.binary_search(&key(field, id)) {
        Ok(rank) => rank as u32,
        Err(_) => unreachable!(),
    }
}
