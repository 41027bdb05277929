//! Sequential runs of whole programs.

ghost use Rattle.std.specs.Prelude.{◌≡◌, ◌<◌, ℕ, List, Ok, length};
ghost use Rattle.liszt_base.specs.MeshLists.{MeshLists};
ghost use Rattle.liszt_tree.specs.Tree.{Main};
ghost use Rattle.phase_types.specs.Checked.{checked_program};
ghost use Rattle.phase_types.specs.declared.info.FieldInfo.{FieldInfo as FieldOf};
ghost use Rattle.kernel_eval.specs.Running.{IsPrepared};
ghost use Rattle.seq_meaning.specs.FieldStores.{HasSpotsOf};
ghost use Rattle.seq_meaning.specs.Internal.Iterating.{AreReduced, CanRunComprehension, CanRunIterations, HasRunComprehension, HasRunIterations, value_after};
ghost use Rattle.seq_meaning.specs.SequentialRuns.{HasRun, IsPreparedFor};

use crate::field_store::FieldStore;
use crate::main_run::{MainRun, MainStep};
use crate::seq_store::SeqStore;
use crate::values::scalar_at;
use kernel_eval::{Locals, run_iteration};
use liszt_base::{Mode, RunEnd, fold_op};
use mesh_topology::Mesh;
use phase_types::Checked;

/// Runs the iterations of a comprehension, by ascending id, up to the first trap.
fn run_iterations(
    c: &Checked,
    k: u32,
    m: &Mesh,
    turns: u64,
    fields: &mut FieldStore,
    locals: &mut Locals,
) -> RunEnd
    requires prepared { IsPrepared c.now locals.old.activation }
    requires comprehension { k < length c.now.comprehensions }
    requires can { CanRunIterations c.now k m.now locals.old.activation fields.old }
    ensures ran { (can : CanRunIterations c.now k m.now locals.old.activation fields.old)
        → HasRunIterations m.now can.comprehension turns can.state result
        locals.new.activation fields.new }
    ensures prepared { IsPrepared c.now locals.new.activation }
    ensures spots { (declared : List FieldOf) → HasSpotsOf declared m.now fields.old
        → HasSpotsOf declared m.now fields.new }
{
    for id in 0..m.count(c.comp_kind(k)) {
        match run_iteration(c, k, m, id, turns, fields, locals) {
            RunEnd::Done => {}
            RunEnd::Trap(trap) => return RunEnd::Trap(trap),
        }
    }
    RunEnd::Done
}

/// The value of a scalar after a comprehension, from that before it and the partial, by the scalar's mode.
fn value_after(mode: Option<Mode>, old: i64, partial: i64) -> i64
    ensures { result ≡ value_after mode old partial }
{
    match mode {
        Some(Mode::Reduce(op)) => fold_op(op, old, partial),
        _ => old,
    }
}

/// Folds the partial of each scalar that a comprehension reduces into the scalar.
fn reduce_scalars(c: &Checked, k: u32, locals: &Locals, main: &mut MainRun)
    requires scalars { length main.old.scalars ≡ length c.now.scalars }
    requires partials { length locals.now.activation.partials ≡ length c.now.scalars }
    ensures others { main.new ≡ record main.old { scalars = main.new.scalars } }
    ensures reduced { AreReduced c.now k locals.now.activation.partials
        main.old.scalars main.new.scalars }
{
    c.is_checked();
    for scalar in 0..c.scalars().len() as u32 {
        let old = scalar_at(main.scalars(), scalar);
        let new = value_after(c.scalar_mode(k, scalar), old, locals.partial(scalar));
        main.set_scalar(scalar, new);
    }
}

/// Runs a comprehension of the program, with its scalars.
fn run_comprehension(c: &Checked, k: u32, m: &Mesh, turns: u64, store: &mut SeqStore) -> RunEnd
    requires prepared { IsPreparedFor c.now m.now store.old }
    requires can { CanRunComprehension c.now k m.now store.old }
    ensures ran { (can : CanRunComprehension c.now k m.now store.old)
        → HasRunComprehension m.now can.comprehension turns can.state result store.old store.new }
    ensures prepared { IsPreparedFor c.now m.now store.new }
{
    store.locals.begin(c, k, store.main.scalars());
    match run_iterations(c, k, m, turns, &mut store.fields, &mut store.locals) {
        RunEnd::Done => {
            reduce_scalars(c, k, &store.locals, &mut store.main);
            RunEnd::Done
        }
        RunEnd::Trap(trap) => RunEnd::Trap(trap),
    }
}

/// Runs a checked program on a mesh from its start, with a number of turns for the `while` loops of the main program, and as many for
/// those of each iteration. The end, what is printed and the values of fields are those of the definition, whatever the store held.
pub fn run_seq(c: &Checked, m: &Mesh, turns: u64, store: &mut SeqStore) -> RunEnd
    requires { IsPreparedFor c.now m.now store.old }
    ensures ran { (program : Main) → checked_program program ≡ Ok c.now
        → HasRun m.now program turns result store.new }
    ensures prepared { IsPreparedFor c.now m.now store.new }
{
    c.is_checked();
    m.fits_together();
    store.main.begin(turns);
    store.main.next(c);
    'events: loop {
        match store.main.next(c) {
            MainStep::Over(end) => return end,
            MainStep::Declare { field, value } => store.fields.declare(field, value),
            MainStep::Comp(k) => match run_comprehension(c, k, m, turns, store) {
                RunEnd::Done => {}
                RunEnd::Trap(trap) => return RunEnd::Trap(trap),
            },
            MainStep::Enter(_scope) => {}
            MainStep::Leave(_scope) => {}
        }
    }
}
