//! Which types threads may share, and move between one another.

ghost use Rattle.std.specs.Prelude.{◌≡◌};

use crate::clashes::SharedWrite;

/// One, for a type that may be shared.
fn shared<T: Send + Sync>() -> usize
    ensures { result ≡ 1 }
{
    1
}

/// The number of types of this crate, each of which may be shared.
#[allow(dead_code)]
fn shared_types() -> usize
    ensures { result ≡ 1 }
{
    shared::<SharedWrite>()
}
