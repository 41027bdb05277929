//! Which types threads may share, and move between one another.

ghost use Rattle.std.specs.Prelude.{◌≡◌};

use crate::accesses::{AccessAt, Subject};
use crate::expressions::{Arithmetic, Connective, ElementCode, ElementFun, NumberCode, TruthCode};
use crate::first_accesses::FirstAccesses;
use crate::items::{BlockCode, ComprehensionCode, ItemCode};
use crate::statements::StatementCode;

/// One, for a type that may be shared.
fn shared<T: Send + Sync>() -> usize
    ensures { result ≡ 1 }
{
    1
}

/// The number of types of this crate that may be shared, each with the types of its parts.
#[allow(dead_code)]
fn shared_types() -> usize
    ensures { result ≡ 13 }
{
    shared::<Subject>()
        + shared::<AccessAt>()
        + shared::<FirstAccesses>()
        + shared::<ElementFun>()
        + shared::<Arithmetic>()
        + shared::<Connective>()
        + shared::<ElementCode>()
        + shared::<NumberCode>()
        + shared::<TruthCode>()
        + shared::<StatementCode>()
        + shared::<ComprehensionCode>()
        + shared::<ItemCode>()
        + shared::<BlockCode>()
}
