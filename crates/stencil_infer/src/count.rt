//! The visits of statements, counted up to a cap.

ghost use Rattle.std.specs.Prelude.{◌≡◌, ◌≤◌, ◌<◌, ◌+◌, ◌^◌, ◌-◌, Some, length, min, slice_get, true};
ghost use Rattle.std.specs.List.{AllByRecursion};
ghost use Rattle.liszt_base.specs.Kinds.{kind_of as KindOf};
ghost use Rattle.liszt_base.specs.declared.elements.SetName.{SetName as SetOf};
ghost use Rattle.topo_operators.specs.Operands.{IsElement};
ghost use Rattle.stencil_infer.specs.Internal.CodeAccesses.{FitsSlot, SlotsFit, code_fits, code_walk, members_walk, statement_fits, statement_walk};

use crate::elements::element;
use crate::visits::{element_visits, number_visits, truth_visits};
use liszt_base::{Elem, Kind};
use mesh_topology::Mesh;
use resolved_code::StatementCode;
use topo_operators::{SetMembers, members};

/// The sum of two numbers, or the cap if that is less.
fn add(visits: u64, more: u64, cap: u64) -> u64
    ensures { result ≡ min (visits + more) cap }
{
    visits.saturating_add(more).min(cap)
}

/// Counts the visits of statements, from those so far, and leaves the slots as after them unless the cap is reached.
#[cycle(count)]
pub fn count_body(
    m: &Mesh,
    kinds: &[Kind],
    slots: &mut [Option<Elem>],
    codes: &[StatementCode],
    visits: u64,
    cap: u64,
) -> u64
    requires slots { SlotsFit m.now kinds.now slots.old }
    requires code { code_fits kinds.now codes.now ≡ true }
    requires few { visits ≤ cap }
    ensures visits { result
        ≡ min (visits + (code_walk m.now codes.now slots.old).visits) cap }
    ensures slots { result < cap → slots.new ≡ (code_walk m.now codes.now slots.old).slots }
    ensures fit { SlotsFit m.now kinds.now slots.new }
{
    let mut counted = visits;
    for code in codes {
        counted = count_statement(m, kinds, slots, code, counted, cap);
    }
    counted
}

/// Counts the visits of a statement.
#[cycle(count)]
fn count_statement(
    m: &Mesh,
    kinds: &[Kind],
    slots: &mut [Option<Elem>],
    code: &StatementCode,
    visits: u64,
    cap: u64,
) -> u64
    requires slots { SlotsFit m.now kinds.now slots.old }
    requires code { statement_fits kinds.now code.now ≡ true }
    requires few { visits ≤ cap }
    ensures visits { result
        ≡ min (visits + (statement_walk m.now code.now slots.old).visits) cap }
    ensures slots { result < cap → slots.new ≡ (statement_walk m.now code.now slots.old).slots }
    ensures fit { SlotsFit m.now kinds.now slots.new }
{
    match code {
        StatementCode::Var { init, .. } => add(visits, number_visits(init).saturating_add(1), cap),
        StatementCode::Val { slot, init } => {
            let x = element(m, kinds, slots, init);
            slots[*slot as usize] = x;
            add(visits, element_visits(init).saturating_add(1), cap)
        }
        StatementCode::Local { value, .. } => {
            add(visits, number_visits(value).saturating_add(1), cap)
        }
        StatementCode::Scalar { value, .. } => {
            add(visits, number_visits(value).saturating_add(1), cap)
        }
        StatementCode::Field { target, value, .. } => {
            let more = number_visits(value).saturating_add(element_visits(target));
            add(visits, more.saturating_add(1), cap)
        }
        StatementCode::If {
            test,
            first,
            second,
        } => {
            let tested = add(visits, truth_visits(test).saturating_add(1), cap);
            let counted = count_body(m, kinds, slots, first.as_slice(), tested, cap);
            count_body(m, kinds, slots, second.as_slice(), counted, cap)
        }
        StatementCode::While { test, body, .. } => {
            let tested = add(visits, truth_visits(test).saturating_add(1), cap);
            count_body(m, kinds, slots, body.as_slice(), tested, cap)
        }
        StatementCode::For {
            slot,
            set,
            arg,
            body,
            ..
        } => {
            let counted = add(visits, element_visits(arg).saturating_add(1), cap);
            let Some(x) = element(m, kinds, slots, arg) else {
                return counted;
            };
            m.fits_together();
            let over = members(m, *set, x);
            count_members(m, kinds, slots, *slot, over, body.as_slice(), counted, cap)
        }
    }
}

/// Counts the visits of the members of a set, each put in the slot.
#[cycle(count)]
fn count_members(
    m: &Mesh,
    kinds: &[Kind],
    slots: &mut [Option<Elem>],
    slot: u32,
    over: SetMembers,
    body: &[StatementCode],
    visits: u64,
    cap: u64,
) -> u64
    requires slots { SlotsFit m.now kinds.now slots.old }
    requires code { code_fits kinds.now body.now ≡ true }
    requires few { visits ≤ cap }
    requires slot { slot < length kinds.now }
    requires each { AllByRecursion (FitsSlot m.now kinds.now slot) over }
    ensures visits { result
        ≡ min (visits + (members_walk slot (code_walk m.now body.now) over.entry slots.old).visits) cap }
    ensures slots { result < cap
        → slots.new ≡ (members_walk slot (code_walk m.now body.now) over.entry slots.old).slots }
    ensures fit { SlotsFit m.now kinds.now slots.new }
{
    let mut over = over;
    let mut counted = visits;
    while counted < cap {
        let Some(member) = over.next() else {
            return counted;
        };
        slots[slot as usize] = Some(member);
        counted = count_body(m, kinds, slots, body, counted + 1, cap);
    }
    counted
}
