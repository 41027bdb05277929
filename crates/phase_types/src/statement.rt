//! Statements of the body of a comprehension, and comprehensions, resolved.

ghost use Rattle.std.specs.Option.{option_map};
ghost use Rattle.std.specs.Prelude.{◌≡◌, ◌∷◌, ◌++◌, [], OnOk, length, map, take};
ghost use Rattle.liszt_base.specs.Gives.{Gives};
ghost use Rattle.liszt_tree.specs.Tree.{expression, body_of, statement_tree, Assign};
ghost use Rattle.phase_types.specs.Internal.Results.{choice_code, comprehension_code, members_code, paired, repetition_code, resolved_loop, state_of, with_names};
ghost use Rattle.phase_types.specs.Resolve as Resolve;
ghost use Rattle.phase_types.specs.Walk as Walk;

use crate::expression::{
    note_access, resolve_element, resolve_expression, resolve_number, resolve_truth,
};
use crate::frame::Frame;
use crate::names::Names;
use crate::resolution::Resolution;
use crate::values::{Resolved, boxed, element_of_kind, element_with_set, fails, kind_of, push};
use liszt_base::{Kind, Mode, Op, Place, ProgramWhat, Refused, SetName};
use liszt_tree::{Expr, How, Name, Stmt};
use resolved_code::{
    ComprehensionCode, ElementCode, FirstAccesses, StatementCode, StatementCodes, Subject,
    TruthCode,
};
use sqlite_items::{Boxed, Items};
use std::alloc::Global;

/// The first number of a declared field.
const FIRST_DECLARED: u32 = 6;

/// The mode of an assignment.
fn mode_by(how: How) -> Mode
    ensures { result ≡ Walk.mode_by how }
{
    match how {
        How::Set => Mode::Write,
        How::Fold(op) => Mode::Reduce(op),
        How::Less => Mode::Reduce(Op::Add),
    }
}

/// Nothing, if a name is not visible.
pub fn new_name(found: Option<Resolution>, at: Place) -> Resolved<()>
    ensures { Gives (Resolve.new_name found at) result }
{
    match found {
        None => Ok(()),
        Some(_) => fails(ProgramWhat::NameTwice, at),
    }
}

/// The field that is the target of an assignment.
fn assigned_field(place: Place, found: Option<Resolution>) -> Resolved<(u32, Kind)>
    ensures { Gives (Resolve.assigned_field place found) result }
{
    match found {
        None => fails(ProgramWhat::NameUnknown, place),
        Some(Resolution::Field { field, kind }) => {
            if field < FIRST_DECLARED {
                fails(ProgramWhat::BuiltinWrite, place)
            } else {
                Ok((field, kind))
            }
        }
        Some(_) => fails(ProgramWhat::TypeMismatch, place),
    }
}

/// Notes the access of an assignment to a scalar.
fn note_reduction(
    accesses: &mut Option<FirstAccesses>,
    scalar: u32,
    how: How,
    place: Place,
) -> Resolved<()>
    ensures { Gives (Resolve.with_reduction accesses.old scalar how place)
        (state_of result accesses.new) }
{
    match how {
        How::Set => fails(ProgramWhat::ScalarWrite, place),
        How::Fold(op) => note_access(accesses, Subject::Scalar(scalar), Mode::Reduce(op), place),
        How::Less => note_access(
            accesses,
            Subject::Scalar(scalar),
            Mode::Reduce(Op::Add),
            place,
        ),
    }
}

/// Declares a local number with a new slot, which is returned.
fn declare_number(
    alloc: Global,
    names: &mut Names,
    frame: &mut Frame,
    name: &[u8],
    at: Place,
) -> Resolved<u32>
    ensures gives { Gives (Resolve.declared_number names.old frame.old name.now at)
        (with_names result names.new frame.new) }
{
    new_name(names.resolution(name), at)?;
    let slot = frame.numbers;
    let Some(numbers) = slot.checked_add(1) else {
        return Err(Refused::NoMemory);
    };
    names.declare(alloc, name, Resolution::Number { slot })?;
    frame.numbers = numbers;
    Ok(slot)
}

/// Declares an element of a kind with a new slot, which is returned.
fn declare_element(
    alloc: Global,
    names: &mut Names,
    frame: &mut Frame,
    name: &[u8],
    at: Place,
    kind: Kind,
) -> Resolved<u32>
    ensures gives { Gives (Resolve.declared_element names.old frame.old name.now at kind)
        (with_names result names.new frame.new) }
{
    new_name(names.resolution(name), at)?;
    let Ok(slot) = u32::try_from(frame.elements.len()) else {
        return Err(Refused::NoMemory);
    };
    names.declare(alloc, name, Resolution::Element { slot, kind })?;
    push(&mut frame.elements, kind)?;
    Ok(slot)
}

/// An assignment to a name without an argument, by what the name denotes.
fn resolve_assignment(
    alloc: Global,
    names: &Names,
    frame: &mut Frame,
    place: Place,
    how: How,
    value: &Expr,
    found: Option<Resolution>,
) -> Resolved<StatementCode>
    ensures { Gives (Resolve.resolved_assignment names.now frame.old place how
        (expression value.now) found) (paired result frame.new) }
{
    match found {
        None => fails(ProgramWhat::NameUnknown, place),
        Some(Resolution::Scalar { scalar }) => {
            note_reduction(&mut frame.accesses, scalar, how, place)?;
            let value = resolve_number(alloc, names, &mut frame.accesses, value)?;
            Ok(StatementCode::Scalar { scalar, how, value })
        }
        Some(Resolution::Number { slot }) => {
            let value = resolve_number(alloc, names, &mut frame.accesses, value)?;
            Ok(StatementCode::Local { slot, how, value })
        }
        Some(_) => fails(ProgramWhat::TypeMismatch, place),
    }
}

/// An assignment to a name with an argument, by what the name denotes.
fn resolve_field_assignment(
    alloc: Global,
    names: &Names,
    frame: &mut Frame,
    place: Place,
    how: How,
    target: &Expr,
    value: &Expr,
    found: Option<Resolution>,
) -> Resolved<StatementCode>
    ensures { Gives (Resolve.resolved_field_assignment names.now frame.old place how
        (expression target.now) (expression value.now) found) (paired result frame.new) }
{
    let (field, kind) = assigned_field(place, found)?;
    let operand = resolve_expression(alloc, names, &mut frame.accesses, target)?;
    let target = element_of_kind(kind, place, operand)?;
    note_access(
        &mut frame.accesses,
        Subject::Field(field),
        mode_by(how),
        place,
    )?;
    let value = resolve_number(alloc, names, &mut frame.accesses, value)?;
    Ok(StatementCode::Field {
        place,
        field,
        how,
        target,
        value,
    })
}

/// An assignment to a name, with or without an argument.
fn resolve_assign(
    alloc: Global,
    names: &Names,
    frame: &mut Frame,
    place: Place,
    name: &Name,
    how: How,
    target: &Option<Expr>,
    value: &Expr,
) -> Resolved<StatementCode>
    ensures { Gives (Resolve.resolved_statement names.now frame.old (Assign place name.now
        (option_map expression target.now) how (expression value.now)))
        (with_names result names.now frame.new) }
{
    let found = names.resolution(name.as_slice());
    match target {
        Some(target) => {
            resolve_field_assignment(alloc, names, frame, place, how, target, value, found)
        }
        None => resolve_assignment(alloc, names, frame, place, how, value, found),
    }
}

/// The test of an `if`.
fn resolve_condition(
    alloc: Global,
    names: &Names,
    accesses: &mut Option<FirstAccesses>,
    test: &Expr,
) -> Resolved<Boxed<TruthCode>>
    ensures { Gives (Resolve.resolved_truth names.now accesses.old (expression test.now))
        (paired result accesses.new) }
{
    let test = resolve_truth(alloc, names, accesses, test)?;
    boxed(alloc, test)
}

/// The declaration of a local number.
fn resolve_var(
    alloc: Global,
    names: &mut Names,
    frame: &mut Frame,
    name: &[u8],
    at: Place,
    init: &Expr,
) -> Resolved<StatementCode>
    ensures { Gives (Resolve.resolved_var names.old frame.old name.now at (expression init.now))
        (with_names result names.new frame.new) }
{
    let init = resolve_number(alloc, names, &mut frame.accesses, init)?;
    let slot = declare_number(alloc, names, frame, name, at)?;
    Ok(StatementCode::Var { slot, init })
}

/// The declaration of an element.
fn resolve_val(
    alloc: Global,
    names: &mut Names,
    frame: &mut Frame,
    name: &[u8],
    at: Place,
    init: &Expr,
) -> Resolved<StatementCode>
    ensures { Gives (Resolve.resolved_val names.old frame.old name.now at (expression init.now))
        (with_names result names.new frame.new) }
{
    let (kind, init) = resolve_element(alloc, names, &mut frame.accesses, init)?;
    let slot = declare_element(alloc, names, frame, name, at, kind)?;
    Ok(StatementCode::Val { slot, init })
}

/// A statement. Its names are added to the visible ones.
#[cycle(body)]
fn resolve_statement(
    alloc: Global,
    names: &mut Names,
    frame: &mut Frame,
    s: &Stmt,
) -> Resolved<StatementCode>
    ensures { Gives (Resolve.resolved_statement names.old frame.old (statement_tree s.now))
        (with_names result names.new frame.new) }
{
    match s {
        Stmt::Var { name, at, init, .. } => {
            resolve_var(alloc, names, frame, name.as_slice(), *at, init)
        }
        Stmt::Val { name, at, init, .. } => {
            resolve_val(alloc, names, frame, name.as_slice(), *at, init)
        }
        Stmt::Assign {
            place,
            name,
            target,
            how,
            value,
        } => resolve_assign(alloc, names, frame, *place, name, *how, target, value),
        Stmt::If { test, yes, no, .. } => {
            let test = resolve_condition(alloc, names, &mut frame.accesses, test)?;
            let first = resolve_body(alloc, names, frame, yes.as_slice())?;
            resolve_choice(alloc, names, frame, no.as_slice(), test, first)
        }
        Stmt::While { place, test, body } => {
            let test = resolve_truth(alloc, names, &mut frame.accesses, test)?;
            resolve_repetition(alloc, names, frame, *place, body.as_slice(), test)
        }
        Stmt::For {
            name,
            at,
            set,
            set_at,
            arg,
            body,
            ..
        } => {
            let operand = resolve_expression(alloc, names, &mut frame.accesses, arg)?;
            let arg = element_with_set(*set, *set_at, operand)?;
            let body = body.as_slice();
            resolve_members(alloc, names, frame, name, *at, *set, *set_at, body, arg)
        }
    }
}

/// A block with an element of its own, whose slot is returned with the statements.
#[cycle(body)]
fn resolve_loop(
    alloc: Global,
    names: &mut Names,
    frame: &mut Frame,
    name: &[u8],
    at: Place,
    kind: Kind,
    body: &[Stmt],
) -> Resolved<(u32, StatementCodes)>
    ensures gives { Gives (resolved_loop names.old frame.old name.now at kind
        (body_of (map statement_tree body.now))) (paired result frame.new) }
    ensures names { OnOk result (names.new ≡ names.old) }
{
    let depth = names.len();
    let slot = declare_element(alloc, names, frame, name, at, kind)?;
    let body = resolve_body(alloc, names, frame, body)?;
    names.truncate(depth);
    Ok((slot, body))
}

/// An `if` of a resolved test and a resolved first block.
#[cycle(body)]
fn resolve_choice(
    alloc: Global,
    names: &mut Names,
    frame: &mut Frame,
    other: &[Stmt],
    test: Boxed<TruthCode>,
    first: StatementCodes,
) -> Resolved<StatementCode>
    ensures { Gives (choice_code names.old frame.old test first
        (body_of (map statement_tree other.now))) (with_names result names.new frame.new) }
{
    match resolve_body(alloc, names, frame, other) {
        Ok(second) => Ok(StatementCode::If {
            test: test.into_inner(),
            first,
            second,
        }),
        Err(refused) => Err(refused),
    }
}

/// A `while` of a resolved test.
#[cycle(body)]
fn resolve_repetition(
    alloc: Global,
    names: &mut Names,
    frame: &mut Frame,
    place: Place,
    body: &[Stmt],
    test: TruthCode,
) -> Resolved<StatementCode>
    ensures { Gives (repetition_code names.old frame.old place test
        (body_of (map statement_tree body.now))) (with_names result names.new frame.new) }
{
    match resolve_body(alloc, names, frame, body) {
        Ok(body) => Ok(StatementCode::While { place, test, body }),
        Err(refused) => Err(refused),
    }
}

/// A loop over a set of a resolved element.
#[cycle(body)]
fn resolve_members(
    alloc: Global,
    names: &mut Names,
    frame: &mut Frame,
    name: &Name,
    at: Place,
    set: SetName,
    set_at: Place,
    body: &[Stmt],
    arg: ElementCode,
) -> Resolved<StatementCode>
    ensures { Gives (members_code names.old frame.old name.now at set set_at arg
        (body_of (map statement_tree body.now))) (with_names result names.new frame.new) }
{
    match resolve_loop(alloc, names, frame, name.as_slice(), at, kind_of(set), body) {
        Ok((slot, body)) => Ok(StatementCode::For {
            slot,
            set,
            place: set_at,
            arg,
            body,
        }),
        Err(refused) => Err(refused),
    }
}

/// The statements of a body, or of a block in it. Its names end with it.
#[cycle(body)]
fn resolve_body(
    alloc: Global,
    names: &mut Names,
    frame: &mut Frame,
    body: &[Stmt],
) -> Resolved<StatementCodes>
    ensures gives { Gives (Resolve.resolved_body names.old frame.old []
        (body_of (map statement_tree body.now))) (paired result frame.new) }
    ensures names { OnOk result (names.new ≡ names.old) }
{
    let depth = names.len();
    let mut done = Items::new(alloc);
    for s in body {
        let code = resolve_statement(alloc, names, frame, s)?;
        push(&mut done, code)?;
    }
    names.truncate(depth);
    Ok(done)
}

/// A comprehension over the elements of a kind, whose own element has this name.
pub fn resolve_comprehension(
    alloc: Global,
    names: &mut Names,
    name: &[u8],
    at: Place,
    over: Kind,
    body: &[Stmt],
) -> Resolved<ComprehensionCode>
    ensures gives { Gives (Resolve.resolved_comprehension names.old name.now at over
        (body_of (map statement_tree body.now))) result }
    ensures names { OnOk result (names.new ≡ names.old) }
{
    let mut frame = Frame {
        numbers: 0,
        elements: Items::new(alloc),
        accesses: Some(FirstAccesses::new(alloc)),
    };
    let (_, body) = resolve_loop(alloc, names, &mut frame, name, at, over, body)?;
    Ok(comprehension_of(alloc, over, frame, body))
}

/// The comprehension of a whole frame and its body.
fn comprehension_of(
    alloc: Global,
    over: Kind,
    frame: Frame,
    body: StatementCodes,
) -> ComprehensionCode
    ensures { result ≡ comprehension_code over frame body }
{
    let Frame {
        numbers,
        elements,
        accesses,
    } = frame;
    ComprehensionCode {
        over,
        elements,
        numbers,
        body,
        accesses: match accesses {
            Some(accesses) => accesses,
            None => FirstAccesses::new(alloc),
        },
    }
}
