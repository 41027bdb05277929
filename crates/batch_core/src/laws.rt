//! What holds over every list of turns, each law the contract of a function that does nothing.

ghost use Rattle.std.specs.Prelude.{◌≡◌, ℕ, ℤ, List, All, length};
ghost use Rattle.batch_core.specs.declared.acts.Act.{Act};
ghost use Rattle.batch_core.specs.Machine.{Machine, Apart, AreBelow, InRange, IsFinished, machine_at_start, Reads, run, sequential_result, value_at};

/// Workers that are apart stay apart, their sequential result and each word that a remaining `Read` names are kept, and once no
/// act remains the words are that result, whatever the order of turns.
pub fn order_of_turns_is_ignored()
    ensures apart { (m : Machine) (turns : List ℕ) → Apart m → Apart (run m turns) }
    ensures result { (m : Machine) (turns : List ℕ) → Apart m
        → sequential_result (run m turns) ≡ sequential_result m }
    ensures reads { (m : Machine) (turns : List ℕ) (w : ℕ) → Apart m → Reads m w
        → value_at (run m turns).words w ≡ value_at m.words w }
    ensures finished { (m : Machine) (turns : List ℕ) → Apart m → IsFinished (run m turns)
        → (run m turns).words ≡ sequential_result m }
{}

/// A machine at its start is in range where the words of each list of acts are below the number of words.
pub fn lists_in_range()
    ensures { (words : List ℤ) (lists : List (List Act)) → All (AreBelow (length words)) lists
        → InRange (machine_at_start words lists) }
{}
