//! Worked cases of the definitions, which the checker computes. Each function does nothing; its contract is the case.
#![allow(dead_code)]

ghost use Rattle.std.specs.Prelude.{◌≡◌, [], ◌∷◌, pos};
ghost use Rattle.batch_core.specs.declared.acts.Stepped.TheVariants.{Acted, Idle};
ghost use Rattle.batch_core.specs.Machine.{Apart, answer, run, sequential_result};
ghost use Rattle.batch_core.specs.Internal.Cases.{words_apart, word_shared, word_read, word_put};

/// Workers with words of their own are apart: a mixed order gives the sequential result.
fn words_of_their_own()
    ensures mixed { (run words_apart (0 ∷ 1 ∷ 1 ∷ 0 ∷ [])).words ≡ pos 15 ∷ pos 20 ∷ [] }
    ensures in_order { (run words_apart (0 ∷ 0 ∷ 1 ∷ 1 ∷ [])).words ≡ pos 15 ∷ pos 20 ∷ [] }
    ensures sequential { sequential_result words_apart ≡ pos 15 ∷ pos 20 ∷ [] }
    ensures apart { Apart words_apart }
{}

/// Workers on one word are not apart: a mixed order loses an addition.
fn one_word()
    ensures mixed { (run word_shared (0 ∷ 1 ∷ 0 ∷ 1 ∷ [])).words ≡ pos 11 ∷ [] }
    ensures in_order { (run word_shared (0 ∷ 0 ∷ 1 ∷ 1 ∷ [])).words ≡ pos 12 ∷ [] }
    ensures not_apart { ¬ Apart word_shared }
{}

/// A turn without an act changes nothing; a `Put` keeps the register, and a `Read` the words.
fn idle_turns()
    ensures idle { answer word_read 0 ≡ Idle }
    ensures acted { answer word_read 1 ≡ Acted }
    ensures kept { (run word_put (0 ∷ 1 ∷ 1 ∷ 0 ∷ 0 ∷ 0 ∷ [])).words ≡ pos 11 ∷ [] }
{}
