//! The values of a store as those of a text of fields.
use liszt_report::Values;
use seq_meaning::SeqStore;

/// The values of the declared fields in the store of a run.
#[derive(Drop)]
pub struct StoreValues<'a> {
    pub store: &'a SeqStore,
}

impl Values for StoreValues<'_> {
    ghost use Rattle.liszt.specs.Internal.Steps.{run_values};

    ghost values = { λ v. run_values v.store.now.fields };

    fn value(&mut self, field: u32, id: u32) -> i64 {
        self.store.value(field, id)
    }
}
