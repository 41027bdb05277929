//! Number expressions.

ghost use Rattle.std.specs.Prelude.{◌≡◌, Some, true, is_some, map};
ghost use Rattle.code_eval.specs.Arithmetic.{built_in_value};
ghost use Rattle.code_eval.specs.Executions.{CanRun, LeadsTo, answered, pure, stop_in};
ghost use Rattle.code_eval.specs.Stores.{StoreView};
ghost use Rattle.code_eval.specs.Meaning.{field_read, id_result, number_execution, number_operand, number_or_trap as NumberOrTrap, number_rest, spot_read};

use crate::activation::{Activation, Stopped, stop};
use crate::arithmetic::{negate, operate};
use crate::elements::element;
use crate::slots::number_at;
use crate::words::Words;
use liszt_base::{Elem, Place, Spot, TrapKind};
use mesh_topology::Mesh;
use resolved_code::{NumberCode, NumberLink};

/// A number, or a trap of its kind.
fn number_or_trap(
    place: Place,
    n: Result<i64, TrapKind>,
    a: &mut Activation,
) -> Result<i64, Stopped>
    ensures { (s : StoreView) → LeadsTo (NumberOrTrap place n) a.old s
        (answered (stop_in result a.new)) a.new s }
{
    match n {
        Ok(n) => Ok(n),
        Err(kind) => Err(stop(kind, place, a)),
    }
}

/// The value of a built-in field.
fn built_in(m: &Mesh, spot: Spot) -> i64
    requires { is_some (built_in_value m.now spot) ≡ true }
    ensures { built_in_value m.now spot ≡ Some result }
{
    if spot.field == 4 {
        return m.region(spot.id);
    }
    let point = m.point(spot.id);
    match spot.field {
        0 => point.x,
        1 => point.y,
        2 => point.z,
        _ => point.mark,
    }
}

/// The value at a spot.
fn read<W: Words>(m: &Mesh, spot: Spot, w: &mut W, a: &Activation) -> i64
    requires { CanRun (spot_read m.now spot) a.now (W.store w.old) }
    ensures { LeadsTo (spot_read m.now spot) a.now (W.store w.old) (pure result) a.now
        (W.store w.new) }
{
    if spot.field < 6 {
        built_in(m, spot)
    } else {
        w.load(spot)
    }
}

/// The value of a field at an element, which traps at nil.
fn read_field<W: Words>(
    m: &Mesh,
    place: Place,
    field: u32,
    x: Option<Elem>,
    w: &mut W,
    a: &mut Activation,
) -> Result<i64, Stopped>
    requires { CanRun (field_read m.now place field x) a.old (W.store w.old) }
    ensures { LeadsTo (field_read m.now place field x) a.old (W.store w.old)
        (answered (stop_in result a.new)) a.new (W.store w.new) }
{
    match x {
        None => Err(stop(TrapKind::NilElement, place, a)),
        Some(x) => Ok(read(m, Spot { field, id: x.id }, w, a)),
    }
}

/// The id of an element, which traps at nil.
fn id_at(place: Place, x: Option<Elem>, a: &mut Activation) -> Result<i64, Stopped>
    ensures { (s : StoreView) → LeadsTo (id_result place x) a.old s
        (answered (stop_in result a.new)) a.new s }
{
    match x {
        None => Err(stop(TrapKind::NilElement, place, a)),
        Some(x) => Ok(i64::from(x.id)),
    }
}

/// The number of an expression.
#[cycle(number)]
pub(crate) fn number<W: Words>(
    m: &Mesh,
    e: &NumberCode,
    w: &mut W,
    a: &mut Activation,
) -> Result<i64, Stopped>
    requires { CanRun (number_execution m.now e.now) a.old (W.store w.old) }
    ensures { LeadsTo (number_execution m.now e.now) a.old (W.store w.old)
        (answered (stop_in result a.new)) a.new (W.store w.new) }
{
    match e {
        NumberCode::Constant { value } => Ok(*value),
        NumberCode::Local { slot } => Ok(number_at(a.numbers.as_slice(), *slot)),
        NumberCode::Scalar { scalar } => Ok(number_at(a.scalars.as_slice(), *scalar)),
        NumberCode::Field { place, field, arg } => {
            let x = element(m, arg, a.elements.as_slice());
            read_field(m, *place, *field, x, w, a)
        }
        NumberCode::Id { place, arg } => {
            let x = element(m, arg, a.elements.as_slice());
            id_at(*place, x, a)
        }
        NumberCode::Neg { place, arg } => {
            let n = number(m, arg.get(), w, a)?;
            number_or_trap(*place, negate(n), a)
        }
        NumberCode::Chain { first, rest } => {
            let n = number(m, first.get(), w, a)?;
            chain(m, rest.as_slice(), n, w, a)
        }
    }
}

/// A number with the further operands of its chain.
#[cycle(number)]
fn chain<W: Words>(
    m: &Mesh,
    rest: &[NumberLink],
    first: i64,
    w: &mut W,
    a: &mut Activation,
) -> Result<i64, Stopped>
    requires { CanRun (number_rest first (map (number_operand m.now) rest.now)) a.old
        (W.store w.old) }
    ensures { LeadsTo (number_rest first (map (number_operand m.now) rest.now)) a.old
        (W.store w.old) (answered (stop_in result a.new)) a.new (W.store w.new) }
{
    let mut n = first;
    for link in rest {
        let k = number(m, &link.arg, w, a)?;
        n = number_or_trap(link.place, operate(link.op, n, k), a)?;
    }
    Ok(n)
}
