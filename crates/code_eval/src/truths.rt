//! Conditions.

ghost use Rattle.std.specs.Prelude.{◌≡◌, map};
ghost use Rattle.code_eval.specs.Executions.{CanRun, LeadsTo, answered, stop_in};
ghost use Rattle.code_eval.specs.Meaning.{connected as Connected, is_decided as IsDecided, truth_execution, truth_operand, truth_rest};

use crate::activation::{Activation, Stopped};
use crate::arithmetic::compare;
use crate::elements::element;
use crate::numbers::number;
use crate::words::Words;
use mesh_topology::Mesh;
use resolved_code::{Connective, TruthCode, TruthLink};
use topo_operators::{same, valid};

/// Whether the further operands of a chain are skipped.
pub fn is_decided(op: Connective, b: bool) -> bool
    ensures { result ≡ IsDecided op b }
{
    match op {
        Connective::Or => b,
        Connective::And => !b,
    }
}

/// The truth value of an expression.
#[cycle(truth)]
pub(crate) fn truth<W: Words>(
    m: &Mesh,
    e: &TruthCode,
    w: &mut W,
    a: &mut Activation,
) -> Result<bool, Stopped>
    requires { CanRun (truth_execution m.now e.now) a.old (W.store w.old) }
    ensures { LeadsTo (truth_execution m.now e.now) a.old (W.store w.old)
        (answered (stop_in result a.new)) a.new (W.store w.new) }
{
    match e {
        TruthCode::Valid { arg } => Ok(valid(element(m, arg, a.elements.as_slice()))),
        TruthCode::Not { arg } => {
            let b = truth(m, arg.get(), w, a)?;
            Ok(!b)
        }
        TruthCode::Chain { first, rest } => {
            let b = truth(m, first.get(), w, a)?;
            chain(m, rest.as_slice(), b, w, a)
        }
        TruthCode::CompareNumbers { rel, left, right } => {
            let n = number(m, left, w, a)?;
            let k = number(m, right, w, a)?;
            Ok(compare(*rel, n, k))
        }
        TruthCode::CompareElements {
            is_equal,
            left,
            right,
        } => {
            let x = element(m, left, a.elements.as_slice());
            let y = element(m, right, a.elements.as_slice());
            Ok(same(x, y) == *is_equal)
        }
    }
}

/// A truth value with the next operand of its chain, which is skipped after a deciding one.
#[cycle(truth)]
fn connected<W: Words>(
    m: &Mesh,
    link: &TruthLink,
    b: bool,
    w: &mut W,
    a: &mut Activation,
) -> Result<bool, Stopped>
    requires { CanRun (Connected link.now.op b (truth_execution m.now link.now.arg)) a.old
        (W.store w.old) }
    ensures { LeadsTo (Connected link.now.op b (truth_execution m.now link.now.arg)) a.old
        (W.store w.old) (answered (stop_in result a.new)) a.new (W.store w.new) }
{
    if is_decided(link.op, b) {
        Ok(b)
    } else {
        truth(m, &link.arg, w, a)
    }
}

/// A truth value with the further operands of its chain.
#[cycle(truth)]
fn chain<W: Words>(
    m: &Mesh,
    rest: &[TruthLink],
    first: bool,
    w: &mut W,
    a: &mut Activation,
) -> Result<bool, Stopped>
    requires { CanRun (truth_rest first (map (truth_operand m.now) rest.now)) a.old
        (W.store w.old) }
    ensures { LeadsTo (truth_rest first (map (truth_operand m.now) rest.now)) a.old
        (W.store w.old) (answered (stop_in result a.new)) a.new (W.store w.new) }
{
    let mut b = first;
    for link in rest {
        b = connected(m, link, b, w, a)?;
    }
    Ok(b)
}
