//! The values of expressions of the main program, from the scalars alone.

ghost use Rattle.std.specs.Prelude.{◌≡◌, ◌≢◌, Err, get_or, map, pos};
ghost use Rattle.code_eval.specs.Stops.{NoMeaning};
ghost use Rattle.seq_meaning.specs.MainValues.{answer_of, main_number, main_trap as MainTrap, main_truth, number_operand, number_or_trap as NumberOrTrap, number_rest, truth_operand, truth_rest, truth_step};

use code_eval::{compare, is_decided, negate, operate};
use liszt_base::{Place, Trap, TrapKind};
use resolved_code::{NumberCode, NumberLink, TruthCode, TruthLink};

/// A trap of the main program.
pub(crate) fn main_trap(kind: TrapKind, place: Place) -> Trap
    ensures { result ≡ MainTrap kind place }
{
    Trap {
        kind,
        place,
        elem: None,
    }
}

/// A number, or a trap of its kind.
fn number_or_trap(place: Place, n: Result<i64, TrapKind>) -> Result<i64, Trap>
    ensures { answer_of result ≡ NumberOrTrap place n }
{
    match n {
        Ok(n) => Ok(n),
        Err(kind) => Err(main_trap(kind, place)),
    }
}

/// The value of a scalar by its number.
pub(crate) fn scalar_at(scalars: &[i64], scalar: u32) -> i64
    ensures { result ≡ get_or scalars.now scalar (pos 0) }
{
    scalars.get(scalar as usize).copied().unwrap_or(0)
}

/// The number of an expression.
#[cycle(main_number)]
pub(crate) fn number(scalars: &[i64], e: &NumberCode) -> Result<i64, Trap>
    requires { main_number scalars.now e.now ≢ Err NoMeaning }
    ensures { answer_of result ≡ main_number scalars.now e.now }
{
    match e {
        NumberCode::Constant { value } => Ok(*value),
        NumberCode::Scalar { scalar } => Ok(scalar_at(scalars, *scalar)),
        NumberCode::Neg { place, arg } => {
            let n = number(scalars, arg.get())?;
            number_or_trap(*place, negate(n))
        }
        NumberCode::Chain { first, rest } => {
            let n = number(scalars, first.get())?;
            number_chain(scalars, rest.as_slice(), n)
        }
        NumberCode::Local { .. } | NumberCode::Field { .. } | NumberCode::Id { .. } => Ok(0),
    }
}

/// A number with the further operands of its chain.
#[cycle(main_number)]
fn number_chain(scalars: &[i64], rest: &[NumberLink], first: i64) -> Result<i64, Trap>
    requires { number_rest first (map (number_operand scalars.now) rest.now) ≢ Err NoMeaning }
    ensures { answer_of result ≡ number_rest first (map (number_operand scalars.now) rest.now) }
{
    let mut n = first;
    for link in rest {
        let k = number(scalars, &link.arg)?;
        n = number_or_trap(link.place, operate(link.op, n, k))?;
    }
    Ok(n)
}

/// The truth value of an expression.
#[cycle(main_truth)]
pub(crate) fn truth(scalars: &[i64], e: &TruthCode) -> Result<bool, Trap>
    requires { main_truth scalars.now e.now ≢ Err NoMeaning }
    ensures { answer_of result ≡ main_truth scalars.now e.now }
{
    match e {
        TruthCode::Not { arg } => {
            let b = truth(scalars, arg.get())?;
            Ok(!b)
        }
        TruthCode::Chain { first, rest } => {
            let b = truth(scalars, first.get())?;
            truth_chain(scalars, rest.as_slice(), b)
        }
        TruthCode::CompareNumbers { rel, left, right } => {
            let n = number(scalars, left)?;
            let k = number(scalars, right)?;
            Ok(compare(*rel, n, k))
        }
        TruthCode::Valid { .. } | TruthCode::CompareElements { .. } => Ok(false),
    }
}

/// A truth value with the next operand of its chain, which is skipped after a deciding one.
#[cycle(main_truth)]
fn connected(scalars: &[i64], link: &TruthLink, b: bool) -> Result<bool, Trap>
    requires { truth_step b (truth_operand scalars.now link.now) ≢ Err NoMeaning }
    ensures { answer_of result ≡ truth_step b (truth_operand scalars.now link.now) }
{
    if is_decided(link.op, b) {
        Ok(b)
    } else {
        truth(scalars, &link.arg)
    }
}

/// A truth value with the further operands of its chain.
#[cycle(main_truth)]
fn truth_chain(scalars: &[i64], rest: &[TruthLink], first: bool) -> Result<bool, Trap>
    requires { truth_rest first (map (truth_operand scalars.now) rest.now) ≢ Err NoMeaning }
    ensures { answer_of result ≡ truth_rest first (map (truth_operand scalars.now) rest.now) }
{
    let mut b = first;
    for link in rest {
        b = connected(scalars, link, b)?;
    }
    Ok(b)
}
