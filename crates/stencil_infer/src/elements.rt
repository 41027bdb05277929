//! The elements of resolved expressions.

ghost use Rattle.std.specs.Prelude.{◌≡◌, Some, is_some, true};
ghost use Rattle.liszt_base.specs.declared.elements.Kind.{Kind as KindOf};
ghost use Rattle.topo_operators.specs.Operands.{IsNilOrElement};
ghost use Rattle.stencil_infer.specs.Internal.CodeAccesses.{SlotsFit, element_of, kind_of};

use liszt_base::{Elem, Kind};
use mesh_topology::Mesh;
use resolved_code::{ElementCode, ElementFun};
use topo_operators::{flip, head, inside, outside, tail, towards};

/// The element, or nil, that an expression gives. Each slot has an element of its kind, and each operator an operand of its kind.
pub fn element(m: &Mesh, kinds: &[Kind], slots: &[Option<Elem>], code: &ElementCode) -> Option<Elem>
    requires slots { SlotsFit m.now kinds.now slots.now }
    requires kind { is_some (kind_of kinds.now code.now) ≡ true }
    ensures element { result ≡ element_of m.now slots.now code.now }
    ensures kind { (kind : KindOf) → kind_of kinds.now code.now ≡ Some kind
        → IsNilOrElement m.now kind result }
{
    match code {
        ElementCode::Slot { slot } => slots[*slot as usize],
        ElementCode::Call { fun, arg } => {
            let x = element(m, kinds, slots, arg.get());
            match fun {
                ElementFun::Head => head(m, x),
                ElementFun::Tail => tail(m, x),
                ElementFun::Inside => inside(m, x),
                ElementFun::Outside => outside(m, x),
                ElementFun::Flip => flip(m, x),
            }
        }
        ElementCode::Towards { arg, to } => {
            let x = element(m, kinds, slots, arg.get());
            let y = element(m, kinds, slots, to.get());
            towards(m, x, y)
        }
    }
}
