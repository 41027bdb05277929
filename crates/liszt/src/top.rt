ghost use Rattle.std.specs.Prelude.{◌≡◌, ◌⊎◌, Some, None, true};
ghost use Rattle.liszt_io.specs.Causes.{Rose};
ghost use Rattle.liszt_io.specs.Shelves.{Files};
ghost use Rattle.liszt_report.specs.declared.ended.Ended.TheVariants.{Usage, WriteFault as NotWritten};
ghost use Rattle.command_words.specs.Commands.{command_of};
ghost use Rattle.liszt.specs.Expected.{Outcome, Expected};
ghost use Rattle.liszt.specs.Answers.{outside, Answers, Wrote, HasCauses, IsOutcome, ended_of};

use crate::finish::{ended_by, ending_of, write_job, write_refusal};
use crate::inputs::prepare;
use liszt_base::{Gate, WordList};
use liszt_io::{Shelf, Sink};
use liszt_report::Ended;
use std::alloc::Global;
use std::sync::Wait;
use std::thread::Threads;

/// What `run_returning` leaves to do: nothing, for the text of this ending is written.
#[derive(Debug, Drop)]
pub enum Step {
    Ended(Ended),
}

/// Runs the command that the words name over the files of the shelf, and writes its text to the sink.
///
/// Nothing is written before the ending is known, and no memory is taken afterwards.
pub fn run_words<R: Threads + Wait + Sync, F: Shelf, S: Sink, G: Gate + Sync>(
    rt: &R,
    alloc: Global,
    words: &WordList,
    shelf: &mut F,
    out: &mut S,
    gate: &G,
) -> Ended
    ensures answers { (files : Files) → F.contents shelf.old ≡ Some files
        → Answers words.now files
        (outside (F.tally shelf.old) (F.faults shelf.old) (S.output out.old))
        (outside (F.tally shelf.new) (F.faults shelf.new) (S.output out.new)) result }
    ensures wrote { Wrote words.now (S.output out.old) (S.output out.new) result }
    ensures flushed { (result ≡ NotWritten → ⊥) → S.is_flushed out.new ≡ true }
    ensures complete { (files : Files) (outcome : Outcome) → F.contents shelf.old ≡ Some files
        → Expected words.now files outcome
        → (Rose (F.tally shelf.old).others (F.tally shelf.new).others → ⊥)
        → (Rose (S.faults out.old) (S.faults out.new) → ⊥)
        → IsOutcome outcome (S.output out.old) (S.output out.new) result }
    ensures causes { HasCauses (F.faults shelf.old) (F.faults shelf.new)
        (S.faults out.old) (S.faults out.new) result }
    ensures usage { command_of words.now ≡ None
        → ((result ≡ Usage) ⊎ (result ≡ NotWritten)) × (shelf.new ≡ shelf.old) }
    ensures only { result ≡ Usage → command_of words.now ≡ None }
    ensures contents { F.contents shelf.new ≡ F.contents shelf.old }
{
    ended_in(run_returning(rt, alloc, words, shelf, out, gate))
}

/// The ending that a step leaves.
fn ended_in(step: Step) -> Ended
    ensures { result ≡ ended_of step }
{
    match step {
        Step::Ended(ended) => ended,
    }
}

/// Runs the part of a command that waits for nobody, which is all of it so far. It always returns.
pub fn run_returning<R: Threads + Sync, F: Shelf, S: Sink, G: Gate + Sync>(
    _rt: &R,
    alloc: Global,
    words: &WordList,
    shelf: &mut F,
    out: &mut S,
    _gate: &G,
) -> Step
    ensures answers { (files : Files) → F.contents shelf.old ≡ Some files
        → Answers words.now files
        (outside (F.tally shelf.old) (F.faults shelf.old) (S.output out.old))
        (outside (F.tally shelf.new) (F.faults shelf.new) (S.output out.new)) (ended_of result) }
    ensures wrote { Wrote words.now (S.output out.old) (S.output out.new) (ended_of result) }
    ensures flushed { (ended_of result ≡ NotWritten → ⊥) → S.is_flushed out.new ≡ true }
    ensures complete { (files : Files) (outcome : Outcome) → F.contents shelf.old ≡ Some files
        → Expected words.now files outcome
        → (Rose (F.tally shelf.old).others (F.tally shelf.new).others → ⊥)
        → (Rose (S.faults out.old) (S.faults out.new) → ⊥)
        → IsOutcome outcome (S.output out.old) (S.output out.new) (ended_of result) }
    ensures causes { HasCauses (F.faults shelf.old) (F.faults shelf.new)
        (S.faults out.old) (S.faults out.new) (ended_of result) }
    ensures usage { command_of words.now ≡ None
        → ((ended_of result ≡ Usage) ⊎ (ended_of result ≡ NotWritten)) × (shelf.new ≡ shelf.old) }
    ensures only { ended_of result ≡ Usage → command_of words.now ≡ None }
    ensures contents { F.contents shelf.new ≡ F.contents shelf.old }
{
    Step::Ended(run(alloc, words, shelf, out))
}

/// Reads the inputs that the words name, and then writes the text of the ending.
fn run<F: Shelf, S: Sink>(alloc: Global, words: &WordList, shelf: &mut F, out: &mut S) -> Ended
    ensures answers { (files : Files) → F.contents shelf.old ≡ Some files
        → Answers words.now files
        (outside (F.tally shelf.old) (F.faults shelf.old) (S.output out.old))
        (outside (F.tally shelf.new) (F.faults shelf.new) (S.output out.new)) result }
    ensures wrote { Wrote words.now (S.output out.old) (S.output out.new) result }
    ensures flushed { (result ≡ NotWritten → ⊥) → S.is_flushed out.new ≡ true }
    ensures causes { HasCauses (F.faults shelf.old) (F.faults shelf.new)
        (S.faults out.old) (S.faults out.new) result }
    ensures usage { command_of words.now ≡ None
        → ((result ≡ Usage) ⊎ (result ≡ NotWritten)) × (shelf.new ≡ shelf.old) }
    ensures only { result ≡ Usage → command_of words.now ≡ None }
    ensures contents { F.contents shelf.new ≡ F.contents shelf.old }
{
    match prepare(alloc, words, shelf) {
        Ok(job) => ending_of(write_job(out, &job)),
        Err(refusal) => ended_by(write_refusal(out, &refusal), refusal),
    }
}
