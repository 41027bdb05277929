//! Statements.

ghost use Rattle.std.specs.Prelude.{◌≡◌, map};
ghost use Rattle.liszt_base.specs.declared.answers.TrapKind.TheVariants.{Spent};
ghost use Rattle.code_eval.specs.Executions.{CanRun, LeadsTo, answered, loop, stop_in, trap};
ghost use Rattle.code_eval.specs.Meaning.{assign_field, body_execution, set_members, statement_execution, truth_execution, visit_members};

use crate::activation::{Activation, Stopped, stop};
use crate::arithmetic::{assigned, operand};
use crate::elements::element;
use crate::numbers::number;
use crate::slots::{number_at, set_element, set_number};
use crate::truths::truth;
use crate::words::Words;
use liszt_base::{Elem, Op, Place, SetName, Spot, TrapKind, fold_op};
use liszt_tree::How;
use mesh_topology::Mesh;
use resolved_code::{StatementCode, TruthCode};
use topo_operators::members;

/// An assignment to a field at an element, which traps at nil. A reduction loads and then stores.
fn write<W: Words>(
    place: Place,
    field: u32,
    how: How,
    n: i64,
    x: Option<Elem>,
    w: &mut W,
    a: &mut Activation,
) -> Result<(), Stopped>
    requires { CanRun (assign_field place field how n x) a.old (W.store w.old) }
    ensures { LeadsTo (assign_field place field how n x) a.old (W.store w.old)
        (answered (stop_in result a.new)) a.new (W.store w.new) }
{
    let Some(x) = x else {
        return Err(stop(TrapKind::NilElement, place, a));
    };
    let spot = Spot { field, id: x.id };
    match how {
        How::Set => w.store(spot, n),
        How::Fold(op) => {
            let old = w.load(spot);
            w.store(spot, fold_op(op, old, n));
        }
        How::Less => {
            let old = w.load(spot);
            w.store(spot, fold_op(Op::Add, old, operand(how, n)));
        }
    }
    Ok(())
}

/// Runs a statement.
#[cycle(statement)]
fn run_statement<W: Words>(
    m: &Mesh,
    s: &StatementCode,
    w: &mut W,
    a: &mut Activation,
) -> Result<(), Stopped>
    requires { CanRun (statement_execution m.now s.now) a.old (W.store w.old) }
    ensures { LeadsTo (statement_execution m.now s.now) a.old (W.store w.old)
        (answered (stop_in result a.new)) a.new (W.store w.new) }
{
    match s {
        StatementCode::Var { slot, init } => {
            let n = number(m, init, w, a)?;
            set_number(&mut a.numbers, *slot, n);
            Ok(())
        }
        StatementCode::Val { slot, init } => {
            let x = element(m, init, a.elements.as_slice());
            set_element(&mut a.elements, *slot, x);
            Ok(())
        }
        StatementCode::Local { slot, how, value } => {
            let n = number(m, value, w, a)?;
            let old = number_at(a.numbers.as_slice(), *slot);
            set_number(&mut a.numbers, *slot, assigned(*how, old, n));
            Ok(())
        }
        StatementCode::Scalar { scalar, how, value } => {
            let n = number(m, value, w, a)?;
            let old = number_at(a.partials.as_slice(), *scalar);
            set_number(&mut a.partials, *scalar, assigned(*how, old, n));
            Ok(())
        }
        StatementCode::Field {
            place,
            field,
            how,
            target,
            value,
        } => {
            let n = number(m, value, w, a)?;
            let x = element(m, target, a.elements.as_slice());
            write(*place, *field, *how, n, x, w, a)
        }
        StatementCode::If {
            test,
            first,
            second,
        } => {
            let is_true = truth(m, test, w, a)?;
            if is_true {
                run_body(m, first.as_slice(), w, a)
            } else {
                run_body(m, second.as_slice(), w, a)
            }
        }
        StatementCode::While { place, test, body } => {
            run_loop(m, body.as_slice(), *place, test, w, a)
        }
        StatementCode::For {
            slot,
            set,
            place,
            arg,
            body,
        } => match element(m, arg, a.elements.as_slice()) {
            None => Err(stop(TrapKind::NilElement, *place, a)),
            Some(x) => visit(m, body.as_slice(), *slot, *set, x, w, a),
        },
    }
}

/// Runs the statements of a body in their order, up to the first that stops.
#[cycle(statement)]
pub fn run_body<W: Words>(
    m: &Mesh,
    body: &[StatementCode],
    w: &mut W,
    a: &mut Activation,
) -> Result<(), Stopped>
    requires { CanRun (body_execution m.now body.now) a.old (W.store w.old) }
    ensures { LeadsTo (body_execution m.now body.now) a.old (W.store w.old)
        (answered (stop_in result a.new)) a.new (W.store w.new) }
{
    for s in body {
        run_statement(m, s, w, a)?;
    }
    Ok(())
}

/// Runs a `while`. Each round takes a turn after its test.
#[cycle(statement)]
fn run_loop<W: Words>(
    m: &Mesh,
    body: &[StatementCode],
    place: Place,
    test: &TruthCode,
    w: &mut W,
    a: &mut Activation,
) -> Result<(), Stopped>
    requires { CanRun (loop (trap Spent place) (truth_execution m.now test.now)
        (body_execution m.now body.now)) a.old (W.store w.old) }
    ensures { LeadsTo (loop (trap Spent place) (truth_execution m.now test.now)
        (body_execution m.now body.now)) a.old (W.store w.old)
        (answered (stop_in result a.new)) a.new (W.store w.new) }
{
    loop {
        let is_true = truth(m, test, w, a)?;
        if !is_true {
            return Ok(());
        }
        if a.turns == 0 {
            return Err(stop(TrapKind::Spent, place, a));
        }
        a.turns -= 1;
        run_body(m, body, w, a)?;
    }
}

/// Runs a body for each member of a set of an element, in the set's order.
#[cycle(statement)]
fn visit<W: Words>(
    m: &Mesh,
    body: &[StatementCode],
    slot: u32,
    set: SetName,
    x: Elem,
    w: &mut W,
    a: &mut Activation,
) -> Result<(), Stopped>
    requires { CanRun (visit_members slot (body_execution m.now body.now)
        (set_members m.now set x)) a.old (W.store w.old) }
    ensures { LeadsTo (visit_members slot (body_execution m.now body.now)
        (set_members m.now set x)) a.old (W.store w.old)
        (answered (stop_in result a.new)) a.new (W.store w.new) }
{
    let mut xs = members(m, set, x);
    while let Some(member) = xs.next() {
        set_element(&mut a.elements, slot, Some(member));
        run_body(m, body, w, a)?;
    }
    Ok(())
}
