//! Commands that are ready: all that they take is read and computed, and nothing is written yet.
ghost use Rattle.std.specs.Prelude.{◌≡◌, length};
ghost use Rattle.seq_meaning.specs.FieldStores.{HasSpotsOf};

use liszt_base::{ByteList, PlainList, RunEnd};
use mesh_topology::Mesh;
use phase_types::Checked;
use seq_meaning::SeqStore;
use stencil_infer::Stencils;

/// A run that is ready, by the mode of its command.
#[derive(Drop)]
pub enum Job {
    Check(CheckJob),
    Stencil(StencilJob),
    Seq(SeqJob),
}

/// A run of `check`: the program's canonical text, the checked program, and the mesh.
#[derive(Drop)]
pub struct CheckJob {
    pub text: ByteList,
    pub checked: Checked,
    pub mesh: Mesh,
}

/// A run of `stencil`: the checked program, and the stencils of its comprehensions.
#[derive(Drop)]
pub struct StencilJob {
    pub checked: Checked,
    pub stencils: PlainList<Stencils>,
    ghost one_each: { length stencils ≡ length checked.comprehensions },
}

/// A run of `seq`, which is over: the checked program, the mesh, and the store with what the run left and its end.
#[derive(Drop)]
pub struct SeqJob {
    pub checked: Checked,
    pub mesh: Mesh,
    pub store: SeqStore,
    pub end: RunEnd,
    ghost spots: { HasSpotsOf checked.fields mesh store.fields },
}
