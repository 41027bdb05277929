//! The entries of the log that the store of the tests keeps.
#![allow(dead_code)]

ghost use Rattle.std.specs.Prelude.{◌≡◌};

use liszt_base::Spot;

/// A load with the value that it gave, or a store.
#[derive(Clone, Copy, Debug, PartialEq, Eq)]
pub enum Logged {
    Load { spot: Spot, value: i64 },
    Store { spot: Spot, value: i64 },
}
