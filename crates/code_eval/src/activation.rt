ghost use Rattle.std.specs.Prelude.{◌≡◌};
ghost use Rattle.code_eval.specs.Executions.{trap_of, with_trap};

use liszt_base::{Elem, Place, Trap, TrapKind};
use sqlite_items::Items;

/// What an iteration works with: its number and element slots; the scalars of the main program by their numbers, and what the
/// iterations so far reduce them by; the remaining turns; the element of the iteration; and the last trap.
#[derive(Debug, Drop)]
pub struct Activation {
    pub numbers: Items<i64>,
    pub elements: Items<Option<Elem>>,
    pub scalars: Items<i64>,
    pub partials: Items<i64>,
    pub turns: u64,
    pub elem: Elem,
    pub trap: Trap,
}

/// An evaluation stopped by a trap, which is in its activation.
#[derive(Clone, Copy, Debug, PartialEq, Eq)]
pub struct Stopped;

/// Keeps a trap of the iteration.
pub(crate) fn stop(kind: TrapKind, place: Place, a: &mut Activation) -> Stopped
    ensures { a.new ≡ with_trap (trap_of kind place a.old) a.old }
{
    a.trap = Trap {
        kind,
        place,
        elem: Some(a.elem),
    };
    Stopped
}
