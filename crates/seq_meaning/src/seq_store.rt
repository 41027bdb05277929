//! What a sequential run works with.

ghost use Rattle.std.specs.Prelude.{◌≡◌, IfOk, IsSome, Some, take};
ghost use Rattle.liszt_base.specs.Gives.{Gives};
ghost use Rattle.seq_meaning.specs.FieldStores.{prepared_store, stored_value};
ghost use Rattle.seq_meaning.specs.SequentialRuns.{IsPreparedFor, words_in};

use crate::field_store::FieldStore;
use crate::main_run::MainRun;
use kernel_eval::Locals;
use liszt_base::{LimitFault, Refused};
use mesh_topology::Mesh;
use phase_types::Checked;
use std::alloc::Global;

/// Everything that a sequential run works with: the main program, the slots of iterations, and the words of the declared fields.
#[derive(Drop)]
pub struct SeqStore {
    pub main: MainRun,
    pub locals: Locals,
    pub fields: FieldStore,
}

impl SeqStore {
    /// A store for runs of a checked program on a mesh. The fault is Words, where the declared fields have more words than allowed.
    pub fn prepare(alloc: Global, c: &Checked, m: &Mesh) -> Result<SeqStore, Refused<LimitFault>>
        ensures gives { Gives (prepared_store c.now.fields m.now) (words_in result) }
        ensures prepared { IfOk result (IsPreparedFor c.now m.now) }
    {
        let fields = FieldStore::prepare(alloc, c, m)?;
        let main = MainRun::prepare(alloc, c)?;
        let locals = Locals::prepare(alloc, c)?;
        Ok(SeqStore {
            main,
            locals,
            fields,
        })
    }

    /// What the last run printed.
    pub fn prints(&self) -> &[i64]
        ensures { result.now ≡ take self.now.main.printed self.now.main.prints }
    {
        self.main.prints()
    }

    /// The value of a declared field at an element.
    pub fn value(&self, field: u32, id: u32) -> i64
        requires { IsSome (stored_value self.now.fields (record { field = field; id = id })) }
        ensures { stored_value self.now.fields (record { field = field; id = id }) ≡ Some result }
    {
        self.fields.value(field, id)
    }
}
