//! The stencils of a comprehension.

ghost use Rattle.std.specs.Prelude.{◌≡◌, ◌<◌, IfOk, Ok, Some, length, min};
ghost use Rattle.std.specs.List.{slice_set};
ghost use Rattle.liszt_base.specs.Gives.{Gives};
ghost use Rattle.liszt_base.specs.Limits.{entry_limit};
ghost use Rattle.liszt_tree.specs.Tree.{Main};
ghost use Rattle.phase_types.specs.Checked.{checked_program};
ghost use Rattle.phase_types.specs.Environments.{Comprehension, comprehension_of};
ghost use Rattle.topo_operators.specs.Operators.{unflipped};
ghost use Rattle.stencil_infer.specs.Internal.CodeAccesses.{SlotsFit};
ghost use Rattle.stencil_infer.specs.Internal.CodeIterations.{FitsSlots, IsCodeOf, within};
ghost use Rattle.liszt_base.specs.declared.answers.Refused.TheVariants.{Fault};
ghost use Rattle.stencil_infer.specs.Stencils.{inference, past_limit as PastLimit, stencils, visits};

use crate::access_set::AccessSet;
use crate::count::count_body;
use crate::gather::gather_body;
use crate::stencils::{AccessLists, Stencils};
use liszt_base::{
    ENTRY_LIMIT, Elem, Kind, LimitFault, LimitWhat, NoMemory, PlainLists, Refused, VISIT_LIMIT,
};
use mesh_topology::Mesh;
use phase_types::Checked;
use resolved_code::ComprehensionCode;
use std::alloc::Global;

/// Slots that hold nil.
fn nil_slots(alloc: Global, kinds: &[Kind], m: &Mesh) -> Result<Vec<Option<Elem>>, NoMemory>
    ensures { IfOk result (λ slots. SlotsFit m.now kinds.now slots.items) }
{
    let slots = vec![in alloc; None; kinds.len()]?;
    Ok(slots)
}

/// Starts an iteration: its element is in the first slot.
fn start(slots: &mut [Option<Elem>], kind: Kind, id: u32)
    requires { 0 < length slots.old }
    ensures { slots.new ≡ slice_set slots.old 0 (Some (unflipped kind id)) }
{
    slots[0] = Some(Elem {
        kind,
        id,
        flipped: false,
    });
}

/// Counts the visits of all iterations up to a cap.
fn count_iterations(m: &Mesh, code: &ComprehensionCode, slots: &mut [Option<Elem>], cap: u64) -> u64
    requires slots { SlotsFit m.now code.now.elements slots.old }
    requires code { FitsSlots code.now }
    ensures visits { (c : Comprehension) → IsCodeOf m.now c code.now
        → result ≡ min (visits m.now c) cap }
    ensures fit { SlotsFit m.now code.now.elements slots.new }
{
    let mut counted = 0;
    for id in 0..m.count(code.over) {
        if counted == cap {
            return counted;
        }
        start(slots, code.over, id);
        counted = count_body(
            m,
            code.elements.as_slice(),
            slots,
            code.body.as_slice(),
            counted,
            cap,
        );
    }
    counted
}

/// The stencils of all iterations, or `None` if they hold more accesses than are allowed.
fn gather_iterations(
    alloc: Global,
    m: &Mesh,
    code: &ComprehensionCode,
    slots: &mut [Option<Elem>],
) -> Result<Option<AccessLists>, NoMemory>
    requires slots { SlotsFit m.now code.now.elements slots.old }
    requires code { FitsSlots code.now }
    ensures { IfOk result (λ lists. (c : Comprehension) → IsCodeOf m.now c code.now
        → lists ≡ within entry_limit (stencils m.now c)) }
{
    let mut lists = PlainLists::new(alloc);
    let mut set = AccessSet::new(alloc);
    let mut room = ENTRY_LIMIT as usize;
    for id in 0..m.count(code.over) {
        set.clear();
        start(slots, code.over, id);
        gather_body(
            m,
            code.elements.as_slice(),
            slots,
            code.body.as_slice(),
            &mut set,
        )?;
        let Some(stencil) = set.ordered() else {
            return Ok(None);
        };
        if stencil.len() > room {
            return Ok(None);
        }
        room -= stencil.len();
        lists.push(stencil)?;
    }
    Ok(Some(lists))
}

/// One more than a limit.
pub fn past_limit(what: LimitWhat, limit: u32) -> Refused<LimitFault>
    ensures { result ≡ Fault (PastLimit what limit) }
{
    let allowed = limit as u64;
    Refused::Fault(LimitFault {
        what,
        allowed,
        found: allowed + 1,
    })
}

/// The stencils of the iterations of comprehension `k`, counted from 0, and the number of visits that their inference takes. The
/// fault is `Visits` or else `Entries`, if there are more visits, or more accesses in all stencils, than are allowed.
pub fn infer(alloc: Global, c: &Checked, m: &Mesh, k: u32) -> Result<Stencils, Refused<LimitFault>>
    requires { k < length c.now.comprehensions }
    ensures { (program : Main) (comprehension : Comprehension)
        → checked_program program ≡ Ok c.now → comprehension_of program k ≡ Some comprehension
        → Gives (inference m.now comprehension k) result }
{
    c.is_checked();
    let code = &c.comprehensions()[k as usize];
    let mut slots = nil_slots(alloc, code.elements.as_slice(), m)?;
    let cap = VISIT_LIMIT as u64 + 1;
    let visits = count_iterations(m, code, slots.as_mut_slice(), cap);
    if visits == cap {
        return Err(past_limit(LimitWhat::Visits(k), VISIT_LIMIT));
    }
    match gather_iterations(alloc, m, code, slots.as_mut_slice())? {
        None => Err(past_limit(LimitWhat::Entries(k), ENTRY_LIMIT)),
        Some(lists) => Ok(Stencils::new(lists, visits)),
    }
}
