ghost use Rattle.std.specs.Prelude.{◌≡◌};

use liszt_base::{Mode, Place};

/// What a comprehension accesses: a field by its number, or a scalar of the main program by its number.
#[derive(Clone, Copy, Debug, PartialEq, Eq, Hash)]
pub enum Subject {
    Field(u32),
    Scalar(u32),
}

/// An access to a field or a scalar in a mode, at a place of the text.
#[derive(Clone, Copy, Debug, PartialEq, Eq)]
pub struct AccessAt {
    pub subject: Subject,
    pub mode: Mode,
    pub place: Place,
}
