//! The accesses of resolved code, gathered into a set.

ghost use Rattle.std.specs.Prelude.{◌≡◌, ◌<◌, OnOk, length, map, true};
ghost use Rattle.std.specs.List.{AllByRecursion};
ghost use Rattle.phase_types.specs.Walk.{mode_by as ModeBy};
ghost use Rattle.stencil_infer.specs.Internal.AccessSets.{Adds, HasGathered};
ghost use Rattle.stencil_infer.specs.Internal.CodeAccesses.{FitsSlot, SlotsFit, all_fit, code_fits, code_walk, fits_of_number_link, fits_of_truth_link, joined};
ghost use Rattle.stencil_infer.specs.Internal.CodeAccesses.{members_walk, number_accesses, number_fits, number_link_accesses, statement_fits, statement_walk, truth_accesses, truth_fits, truth_link_accesses};

use crate::access_set::AccessSet;
use crate::elements::element;
use liszt_base::{Elem, Kind, Mode, NoMemory, Op};
use liszt_tree::How;
use mesh_topology::Mesh;
use resolved_code::{NumberCode, NumberLink, StatementCode, TruthCode, TruthLink};
use topo_operators::{SetMembers, members};

/// Adds the accesses of a number expression.
#[cycle(numbers)]
fn gather_number(
    m: &Mesh,
    kinds: &[Kind],
    slots: &[Option<Elem>],
    code: &NumberCode,
    set: &mut AccessSet,
) -> Result<(), NoMemory>
    requires slots { SlotsFit m.now kinds.now slots.now }
    requires code { number_fits kinds.now code.now ≡ true }
    ensures { OnOk result (Adds (number_accesses m.now slots.now code.now) set.old set.new) }
{
    match code {
        NumberCode::Constant { .. } | NumberCode::Local { .. } | NumberCode::Scalar { .. } => Ok(
            (),
        ),
        NumberCode::Field { field, arg, .. } => {
            let x = element(m, kinds, slots, arg);
            set.add_at(Mode::Read, *field, x)
        }
        NumberCode::Id { .. } => Ok(()),
        NumberCode::Neg { arg, .. } => gather_number(m, kinds, slots, arg.get(), set),
        NumberCode::Chain { first, rest } => {
            gather_number(m, kinds, slots, first.get(), set)?;
            gather_number_links(m, kinds, slots, rest.as_slice(), set)
        }
    }
}

/// Adds the accesses of the operands of a chain of numbers after the first.
#[cycle(numbers)]
fn gather_number_links(
    m: &Mesh,
    kinds: &[Kind],
    slots: &[Option<Elem>],
    links: &[NumberLink],
    set: &mut AccessSet,
) -> Result<(), NoMemory>
    requires slots { SlotsFit m.now kinds.now slots.now }
    requires code { all_fit (map (fits_of_number_link kinds.now) links.now) ≡ true }
    ensures { OnOk result
        (Adds (joined (map (number_link_accesses m.now slots.now) links.now)) set.old set.new) }
{
    for link in links {
        gather_number(m, kinds, slots, &link.arg, set)?;
    }
    Ok(())
}

/// Adds the accesses of a truth expression.
#[cycle(truths)]
fn gather_truth(
    m: &Mesh,
    kinds: &[Kind],
    slots: &[Option<Elem>],
    code: &TruthCode,
    set: &mut AccessSet,
) -> Result<(), NoMemory>
    requires slots { SlotsFit m.now kinds.now slots.now }
    requires code { truth_fits kinds.now code.now ≡ true }
    ensures { OnOk result (Adds (truth_accesses m.now slots.now code.now) set.old set.new) }
{
    match code {
        TruthCode::Valid { .. } | TruthCode::CompareElements { .. } => Ok(()),
        TruthCode::Not { arg } => gather_truth(m, kinds, slots, arg.get(), set),
        TruthCode::Chain { first, rest } => {
            gather_truth(m, kinds, slots, first.get(), set)?;
            gather_truth_links(m, kinds, slots, rest.as_slice(), set)
        }
        TruthCode::CompareNumbers { left, right, .. } => {
            gather_number(m, kinds, slots, left, set)?;
            gather_number(m, kinds, slots, right, set)
        }
    }
}

/// Adds the accesses of the operands of a chain of truth values after the first.
#[cycle(truths)]
fn gather_truth_links(
    m: &Mesh,
    kinds: &[Kind],
    slots: &[Option<Elem>],
    links: &[TruthLink],
    set: &mut AccessSet,
) -> Result<(), NoMemory>
    requires slots { SlotsFit m.now kinds.now slots.now }
    requires code { all_fit (map (fits_of_truth_link kinds.now) links.now) ≡ true }
    ensures { OnOk result
        (Adds (joined (map (truth_link_accesses m.now slots.now) links.now)) set.old set.new) }
{
    for link in links {
        gather_truth(m, kinds, slots, &link.arg, set)?;
    }
    Ok(())
}

/// The mode of an assignment.
fn mode_by(how: How) -> Mode
    ensures { result ≡ ModeBy how }
{
    match how {
        How::Set => Mode::Write,
        How::Fold(op) => Mode::Reduce(op),
        How::Less => Mode::Reduce(Op::Add),
    }
}

/// Adds the accesses of statements, and leaves the slots as after them.
#[cycle(statements)]
pub fn gather_body(
    m: &Mesh,
    kinds: &[Kind],
    slots: &mut [Option<Elem>],
    codes: &[StatementCode],
    set: &mut AccessSet,
) -> Result<(), NoMemory>
    requires slots { SlotsFit m.now kinds.now slots.old }
    requires code { code_fits kinds.now codes.now ≡ true }
    ensures gathered { OnOk result
        (HasGathered (code_walk m.now codes.now slots.old) slots.new set.old set.new) }
    ensures fit { OnOk result (SlotsFit m.now kinds.now slots.new) }
{
    for code in codes {
        gather_statement(m, kinds, slots, code, set)?;
    }
    Ok(())
}

/// Adds the accesses of a statement.
#[cycle(statements)]
fn gather_statement(
    m: &Mesh,
    kinds: &[Kind],
    slots: &mut [Option<Elem>],
    code: &StatementCode,
    set: &mut AccessSet,
) -> Result<(), NoMemory>
    requires slots { SlotsFit m.now kinds.now slots.old }
    requires code { statement_fits kinds.now code.now ≡ true }
    ensures gathered { OnOk result
        (HasGathered (statement_walk m.now code.now slots.old) slots.new set.old set.new) }
    ensures fit { OnOk result (SlotsFit m.now kinds.now slots.new) }
{
    match code {
        StatementCode::Var { init, .. } => gather_number(m, kinds, slots, init, set),
        StatementCode::Val { slot, init } => {
            let x = element(m, kinds, slots, init);
            slots[*slot as usize] = x;
            Ok(())
        }
        StatementCode::Local { value, .. } => gather_number(m, kinds, slots, value, set),
        StatementCode::Scalar { value, .. } => gather_number(m, kinds, slots, value, set),
        StatementCode::Field {
            field,
            how,
            target,
            value,
            ..
        } => {
            gather_number(m, kinds, slots, value, set)?;
            let x = element(m, kinds, slots, target);
            set.add_at(mode_by(*how), *field, x)
        }
        StatementCode::If {
            test,
            first,
            second,
        } => {
            gather_truth(m, kinds, slots, test, set)?;
            gather_body(m, kinds, slots, first.as_slice(), set)?;
            gather_body(m, kinds, slots, second.as_slice(), set)
        }
        StatementCode::While { test, body, .. } => {
            gather_truth(m, kinds, slots, test, set)?;
            gather_body(m, kinds, slots, body.as_slice(), set)
        }
        StatementCode::For {
            slot,
            set: name,
            arg,
            body,
            ..
        } => {
            let Some(x) = element(m, kinds, slots, arg) else {
                return Ok(());
            };
            m.fits_together();
            let over = members(m, *name, x);
            gather_members(m, kinds, slots, *slot, over, body.as_slice(), set)
        }
    }
}

/// Adds the accesses of a body for each of the members of a set, each put in the slot.
#[cycle(statements)]
fn gather_members(
    m: &Mesh,
    kinds: &[Kind],
    slots: &mut [Option<Elem>],
    slot: u32,
    over: SetMembers,
    body: &[StatementCode],
    set: &mut AccessSet,
) -> Result<(), NoMemory>
    requires slots { SlotsFit m.now kinds.now slots.old }
    requires code { code_fits kinds.now body.now ≡ true }
    requires slot { slot < length kinds.now }
    requires each { AllByRecursion (FitsSlot m.now kinds.now slot) over }
    ensures gathered { OnOk result (HasGathered
        (members_walk slot (code_walk m.now body.now) over.entry slots.old) slots.new set.old
        set.new) }
    ensures fit { OnOk result (SlotsFit m.now kinds.now slots.new) }
{
    let mut over = over;
    while let Some(member) = over.next() {
        slots[slot as usize] = Some(member);
        gather_body(m, kinds, slots, body, set)?;
    }
    Ok(())
}
