//! The stencils of all comprehensions of a program.

ghost use Rattle.std.specs.Prelude.{◌≡◌, ◌-◌, IfOk, None, Ok, Some, if◌then◌else◌, length, nat_lt};
ghost use Rattle.liszt_base.specs.Gives.{Gives};
ghost use Rattle.liszt_tree.specs.Tree.{Main};
ghost use Rattle.phase_types.specs.Checked.{checked_program};
ghost use Rattle.stencil_infer.specs.Stencils.{entries, program_inference};

use crate::inference::{infer, past_limit};
use crate::stencils::{AccessLists, Stencils};
use liszt_base::{KEPT_LIMIT, LimitFault, LimitWhat, PlainList, Refused};
use mesh_topology::Mesh;
use phase_types::Checked;
use std::alloc::Global;

/// The room that is left after these lists, if they have room.
fn room_after(lists: &AccessLists, room: usize) -> Option<usize>
    ensures { result ≡ (if nat_lt room (entries lists.now) then None
        else Some (room - entries lists.now)) }
{
    let mut left = room;
    for id in 0..lists.len() {
        let count = lists.of(id).len();
        if count > left {
            return None;
        }
        left -= count;
    }
    Some(left)
}

/// The stencils of each comprehension, in the order of the text. The fault is the first limit that is passed: of each comprehension in
/// turn `Visits`, or else `Entries`, or else `Kept`, if all stencils up to it hold more accesses together than are kept.
pub fn infer_all(
    alloc: Global,
    c: &Checked,
    m: &Mesh,
) -> Result<PlainList<Stencils>, Refused<LimitFault>>
    ensures inferred { (program : Main) → checked_program program ≡ Ok c.now
        → Gives (program_inference m.now program) result }
    ensures one_each { IfOk result (λ all. length all ≡ length c.now.comprehensions) }
{
    let mut all = PlainList::new(alloc);
    let mut room = KEPT_LIMIT as usize;
    for k in 0..c.comps() {
        let stencils = infer(alloc, c, m, k)?;
        let Some(left) = room_after(stencils.lists(), room) else {
            return Err(past_limit(LimitWhat::Kept(k), KEPT_LIMIT));
        };
        room = left;
        all.push(stencils)?;
    }
    Ok(all)
}
