//! Fields and scalars in one order, fields first.

ghost use Rattle.std.specs.Prelude.{◌≡◌, ℕ, ◌+◌, ◌<◌, ◌≤◌, ◌^◌, None, length};
ghost use Rattle.phase_types.specs.Checked.{checked_mode};
ghost use Rattle.liszt_report.specs.Internal.Places as Definitions;

use phase_types::Checked;
use resolved_code::{AccessAt, FirstAccesses, Subject};

/// The place of a field or scalar, where there are `fields` fields.
fn place_of(fields: u32, subject: Subject) -> u64
    ensures { result ≡ Definitions.place_of fields subject }
{
    match subject {
        Subject::Field(number) => u64::from(number),
        Subject::Scalar(number) => u64::from(fields) + u64::from(number),
    }
}

/// The field or scalar at a place.
pub fn subject_at(fields: u32, place: u32) -> Subject
    ensures { result ≡ Definitions.subject_at fields place }
{
    if place < fields {
        Subject::Field(place)
    } else {
        Subject::Scalar(place - fields)
    }
}

/// The lesser of two places, if the first is not below `from`.
fn nearer(from: u32, least: u32, place: u64) -> u32
    ensures { result ≡ Definitions.nearer from least place }
{
    if u64::from(from) <= place && place < u64::from(least) {
        place as u32
    } else {
        least
    }
}

/// The lesser of a place and that of an access, if there is one and it is not below `from`.
fn nearer_access(fields: u32, from: u32, least: u32, access: Option<AccessAt>) -> u32
    ensures { result ≡ Definitions.nearer_access fields from least access }
{
    match access {
        Some(access) => nearer(from, least, place_of(fields, access.subject)),
        None => least,
    }
}

/// The least place of an access from `from` on, or `end` where there is none below it.
fn next_place(accesses: &FirstAccesses, fields: u32, from: u32, end: u32) -> u32
    ensures { result ≡ Definitions.next_place fields from end accesses.now }
{
    let mut least = end;
    for index in 0..accesses.len() {
        least = nearer_access(fields, from, least, accesses.get(index));
    }
    least
}

/// The least place from `from` on of a field or scalar that a comprehension accesses, or `end` where there is none below
/// it. No place between the two is accessed.
pub fn next_phase(c: &Checked, comp: u32, fields: u32, from: u32, end: u32) -> u32
    requires comp { comp < length c.now.comprehensions }
    requires from { from ≤ end }
    ensures from { from ≤ result }
    ensures end { result ≤ end }
    ensures none { (place : ℕ) → from ≤ place → place < result
        → checked_mode c.now comp (Definitions.subject_at fields place) ≡ None }
{
    next_place(
        &c.comprehensions()[comp as usize].accesses,
        fields,
        from,
        end,
    )
}
