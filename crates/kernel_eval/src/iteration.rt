//! One iteration of a comprehension.

ghost use Rattle.std.specs.Prelude.{◌≡◌, ◌<◌, length};
ghost use Rattle.kernel_eval.specs.Running.{CanIterate, HasIterated, IsPrepared};
ghost use Rattle.kernel_eval.specs.Internal.Starts.{started};

use crate::locals::Locals;
use code_eval::{Activation, Words, run_body};
use liszt_base::{Elem, RunEnd};
use mesh_topology::Mesh;
use phase_types::Checked;

/// Begins an iteration of an element: it is in the first slot.
fn start(a: &mut Activation, x: Elem, turns: u64)
    requires { 0 < length a.old.elements }
    ensures { a.new ≡ started x turns a.old }
{
    a.elements.set(0, Some(x));
    a.turns = turns;
    a.elem = x;
}

/// Runs the iteration of an element of a comprehension, with a number of turns for its `while` loops, over a store of the values
/// of fields.
pub fn run_iteration<W: Words>(
    c: &Checked,
    k: u32,
    m: &Mesh,
    id: u32,
    turns: u64,
    w: &mut W,
    l: &mut Locals,
) -> RunEnd
    requires prepared { IsPrepared c.now l.old.activation }
    requires comprehension { k < length c.now.comprehensions }
    requires can { CanIterate c.now k m.now turns id l.old.activation (W.store w.old) }
    ensures iterated { (can : CanIterate c.now k m.now turns id l.old.activation (W.store w.old))
        → HasIterated m.now can.comprehension turns can.state id l.old.activation
        (W.store w.old) result l.new.activation (W.store w.new) }
    ensures prepared { IsPrepared c.now l.new.activation }
{
    m.fits_together();
    let code = &c.comprehensions()[k as usize];
    let x = Elem {
        kind: code.over,
        id,
        flipped: false,
    };
    start(&mut l.activation, x, turns);
    match run_body(m, code.body.as_slice(), w, &mut l.activation) {
        Ok(()) => RunEnd::Done,
        Err(_) => RunEnd::Trap(l.activation.trap),
    }
}
