use liszt_base::{Access, PlainLists};
use std::marker::Model;

/// Lists of accesses.
pub type AccessLists = PlainLists<Access>;

/// The stencils of a comprehension, one for each of its iterations, by ascending id, each ascending by field and then by id; and the
/// number of visits that the inference took.
#[derive(Debug, Drop)]
pub struct Stencils {
    lists: AccessLists,
    visits: u64,
}

impl Model for Stencils {
    ghost use Rattle.stencil_infer.specs.Stencils.{StencilLists};

    ghost Value = { StencilLists };

    ghost view = { λ s. record { lists = s.lists; visits = s.visits } };
}

impl Stencils {
    ghost use Rattle.std.specs.Prelude.{◌≡◌};
    ghost use Rattle.stencil_infer.specs.Stencils.{StencilLists};

    pub(crate) fn new(lists: AccessLists, visits: u64) -> Stencils
        ensures { result ≡ record { lists = lists; visits = visits } }
    {
        Stencils { lists, visits }
    }

    /// The stencils, by the ids of their iterations.
    pub fn lists(&self) -> &AccessLists
        ensures { result.now ≡ self.now.lists }
    {
        &self.lists
    }

    /// The number of visits.
    pub fn visits(&self) -> u64
        ensures { result ≡ self.now.visits }
    {
        self.visits
    }
}
