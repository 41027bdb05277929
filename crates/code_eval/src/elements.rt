//! Element expressions.

ghost use Rattle.std.specs.Prelude.{◌≡◌, Some, true, is_some};
ghost use Rattle.code_eval.specs.Meaning.{element_call, element_value, towards_call};

use crate::slots::element_at;
use liszt_base::Elem;
use mesh_topology::Mesh;
use resolved_code::{ElementCode, ElementFun};
use topo_operators::{flip, head, inside, outside, tail, towards};

/// An operator of an element.
fn call(m: &Mesh, fun: ElementFun, x: Option<Elem>) -> Option<Elem>
    requires { is_some (element_call m.now fun x) ≡ true }
    ensures { element_call m.now fun x ≡ Some result }
{
    match fun {
        ElementFun::Head => head(m, x),
        ElementFun::Tail => tail(m, x),
        ElementFun::Inside => inside(m, x),
        ElementFun::Outside => outside(m, x),
        ElementFun::Flip => flip(m, x),
    }
}

/// The orientation of an element towards another one.
fn turn_towards(m: &Mesh, x: Option<Elem>, to: Option<Elem>) -> Option<Elem>
    requires { is_some (towards_call m.now x to) ≡ true }
    ensures { towards_call m.now x to ≡ Some result }
{
    towards(m, x, to)
}

/// The element of an expression, or nil.
pub(crate) fn element(m: &Mesh, e: &ElementCode, elements: &[Option<Elem>]) -> Option<Elem>
    requires { is_some (element_value m.now elements.now e.now) ≡ true }
    ensures { element_value m.now elements.now e.now ≡ Some result }
{
    match e {
        ElementCode::Slot { slot } => element_at(elements, *slot),
        ElementCode::Call { fun, arg } => call(m, *fun, element(m, arg.get(), elements)),
        ElementCode::Towards { arg, to } => {
            let x = element(m, arg.get(), elements);
            turn_towards(m, x, element(m, to.get(), elements))
        }
    }
}
