//! The first spot that two iterations write.

ghost use Rattle.std.specs.Prelude.{◌≡◌, ◌<◌, ◌^◌, ◌++◌, ℕ, List, IfOk, OnOk, map, length};
ghost use Rattle.std.specs.List.Sorted.{IsPermutation};
ghost use Rattle.liszt_base.specs.declared.accesses.Access.{Access as AccessOf};
ghost use Rattle.write_conflicts.specs.Conflicts.{FindsFirstClash};
ghost use Rattle.write_conflicts.specs.Internal.Rows.{is_write, writer_of, writers_in, AreOrdered, AreWriters};

use crate::keys::{key, spot};
use liszt_base::{Access, Mode, NoMemory, PlainLists, Spot};
use std::alloc::Global;

/// A spot that two iterations write.
#[derive(Clone, Copy, Debug, PartialEq, Eq)]
pub struct SharedWrite {
    pub spot: Spot,
    pub first: u32,
    pub second: u32,
}

/// The first clash, if there is one: of the spots that two different iterations write the first, by field and then by id, with the
/// two least iterations that write it. An iteration that writes a spot twice is no clash. There are fewer than 2^32 lists.
pub fn first_clash(
    alloc: Global,
    lists: &PlainLists<Access>,
) -> Result<Option<SharedWrite>, NoMemory>
    requires { length lists.now < 2 ^ 32 }
    ensures { IfOk result (FindsFirstClash lists.now) }
{
    let mut rows = writes(alloc, lists)?;
    sort_rows(&mut rows);
    Ok(first_shared(&rows))
}

/// Whether an access of this mode writes its spot.
fn is_write(mode: Mode) -> bool
    ensures { result ≡ is_write mode }
{
    match mode {
        Mode::Read => false,
        Mode::Write => true,
        Mode::Reduce(_) => false,
    }
}

/// A row for each write of each iteration: the key of the spot, and the iteration.
fn writes(alloc: Global, lists: &PlainLists<Access>) -> Result<Vec<(u64, u32)>, NoMemory>
    requires { length lists.now < 2 ^ 32 }
    ensures { IfOk result (λ rows. AreWriters lists.now (length lists.now) (map writer_of rows.items)) }
{
    let mut rows = Vec::new(alloc);
    for i in 0..lists.len() {
        add_writes(&mut rows, lists.of(i), i as u32)?;
    }
    Ok(rows)
}

/// Appends a row for each write of an iteration.
fn add_writes(
    rows: &mut Vec<(u64, u32)>,
    accesses: &[Access],
    iteration: u32,
) -> Result<(), NoMemory>
    ensures { OnOk result (map writer_of rows.new.items
        ≡ map writer_of rows.old.items ++ writers_in iteration accesses.now) }
{
    for access in accesses {
        if is_write(access.mode) {
            rows.push((key(access.spot.field, access.spot.id), iteration))?;
        }
    }
    Ok(())
}

/// Sorts rows by key and then by iteration.
fn sort_rows(rows: &mut Vec<(u64, u32)>)
    ensures ordered { AreOrdered rows.new.items }
    ensures permutes { IsPermutation rows.old.items rows.new.items }
{
    rows.sort_unstable();
}

/// Of ordered rows the first two in turn that have one key and different iterations.
fn first_shared(rows: &[(u64, u32)]) -> Option<SharedWrite>
    requires { AreOrdered rows.now }
    ensures { (lists : List (List AccessOf)) → AreWriters lists (length lists) (map writer_of rows.now)
        → FindsFirstClash lists result }
{
    for next in 1..rows.len() {
        let (shared, first) = rows[next - 1];
        let (other, second) = rows[next];
        if shared == other && first != second {
            return Some(SharedWrite {
                spot: spot(shared),
                first,
                second,
            });
        }
    }
    None
}
