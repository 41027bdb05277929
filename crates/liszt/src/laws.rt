//! Laws of the outcome of words and files, each the contract of a function that does nothing.

ghost use Rattle.std.specs.Prelude.{◌≡◌, ℕ, List};
ghost use Rattle.liszt_io.specs.Shelves.{Files};
ghost use Rattle.liszt.specs.Expected.{Outcome, Expected};

/// Words and files have at most one outcome.
pub fn one_outcome()
    ensures { (words : List (List ℕ)) (files : Files) (a b : Outcome) → Expected words files a
        → Expected words files b → a ≡ b }
{}

/// Words and files have an outcome.
pub fn some_outcome()
    ensures { (words : List (List ℕ)) (files : Files) → (outcome : Outcome)
        × Expected words files outcome }
{}
