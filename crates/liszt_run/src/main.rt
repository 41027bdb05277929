//! `liszt_run`: runs a program over a tetrahedral mesh and prints what it means.
#![tactic(auto)]

ghost use Rattle.std.specs.Prelude.{◌≡◌, ◌⊎◌, List, map, drop, IfOk, IfErr, Some, None, Err, true};
ghost use Rattle.std.specs.Process.{exit_status};
ghost use Rattle.std.specs.IoError.{error_kind};
ghost use Rattle.std.specs.String.{string_bytes};
ghost use Rattle.std.specs.Vec.Iter.{into_iter_items};
ghost use Rattle.liszt_report.specs.declared.ended.Ended.TheVariants.{Usage, WriteFault as NotWritten, NoMemory as OutOfMemory};
ghost use Rattle.liszt_report.specs.Endings.{status};
ghost use Rattle.liszt_io.specs.Causes.{Rose};
ghost use Rattle.liszt_io.specs.Shelves.{Files};
ghost use Rattle.command_words.specs.Commands.{command_of};
ghost use Rattle.liszt.specs.Expected.{Outcome, Expected};
ghost use Rattle.liszt.specs.Answers.{outside, Answers, Wrote, HasCauses, IsOutcome, Refuses};
ghost use Rattle.liszt_run.specs.Arguments.{unread_ending as UnreadEnding};

use liszt::{
    Ended, HostShelf, HostSink, OpenGate, Shelf, Sink, WordList, end_refused, run_words, status_of,
};
use liszt_base::NoMemory;
use std::alloc::Global;
use std::env::{self, Args};
use std::io::{self, BufWriter, ErrorKind, Write};
use std::process::ExitCode;
use std::sync::Wait;
use std::thread::Threads;

/// The arguments after the first one, which is the program's own name.
fn words_after_name(alloc: Global, mut args: Args) -> Result<WordList, NoMemory>
    ensures { IfOk result (λ words. words ≡ map string_bytes (drop 1 (into_iter_items args))) }
{
    let mut words = WordList::new(alloc);
    args.next();
    for word in args {
        words.push(word)?;
    }
    Ok(words)
}

/// The ending for arguments that could not be read. One that is no UTF-8 makes no command.
fn unread_ending(kind: ErrorKind) -> Ended
    ensures { result ≡ UnreadEnding kind }
{
    match kind {
        ErrorKind::OutOfMemory => Ended::NoMemory,
        _ => Ended::Usage,
    }
}

/// The words of the command line, or the ending for arguments that could not be read.
fn words_of(alloc: Global, args: io::Result<Args>) -> Result<WordList, Ended>
    ensures words { IfOk args (λ given. IfOk result (λ words.
        words ≡ map string_bytes (drop 1 (into_iter_items given)))) }
    ensures memory { IfOk args (λ _. IfErr result (λ ended. ended ≡ OutOfMemory)) }
    ensures unread { IfErr args (λ e. result ≡ Err (UnreadEnding (error_kind e))) }
{
    match args {
        Ok(args) => Ok(words_after_name(alloc, args)?),
        Err(e) => Err(unread_ending(e.kind())),
    }
}

/// Runs the command that the words name, or ends by their refusal.
fn run_given<R: Threads + Wait + Sync, F: Shelf, S: Sink>(
    rt: &R,
    alloc: Global,
    words: Result<WordList, Ended>,
    shelf: &mut F,
    out: &mut S,
) -> Ended
    ensures answers { IfOk words (λ words. (files : Files) → F.contents shelf.old ≡ Some files
        → Answers words files
        (outside (F.tally shelf.old) (F.faults shelf.old) (S.output out.old))
        (outside (F.tally shelf.new) (F.faults shelf.new) (S.output out.new)) result) }
    ensures wrote { IfOk words (λ words. Wrote words (S.output out.old) (S.output out.new) result) }
    ensures complete { IfOk words (λ words. (files : Files) (outcome : Outcome)
        → F.contents shelf.old ≡ Some files → Expected words files outcome
        → (Rose (F.tally shelf.old).others (F.tally shelf.new).others → ⊥)
        → (Rose (S.faults out.old) (S.faults out.new) → ⊥)
        → IsOutcome outcome (S.output out.old) (S.output out.new) result) }
    ensures causes { IfOk words (λ _. HasCauses (F.faults shelf.old) (F.faults shelf.new)
        (S.faults out.old) (S.faults out.new) result) }
    ensures usage { IfOk words (λ words. command_of words ≡ None
        → ((result ≡ Usage) ⊎ (result ≡ NotWritten)) × (shelf.new ≡ shelf.old)) }
    ensures only { IfOk words (λ words. result ≡ Usage → command_of words ≡ None) }
    ensures contents { F.contents shelf.new ≡ F.contents shelf.old }
    ensures refused { IfErr words (λ ended.
        Refuses ended (S.output out.old) (S.output out.new) result) }
    ensures flushed { (result ≡ NotWritten → ⊥) → S.is_flushed out.new ≡ true }
{
    match words {
        Ok(words) => run_words(rt, alloc, &words, shelf, out, &OpenGate),
        Err(ended) => end_refused(out, ended),
    }
}

/// Ends a run for which there is no memory, by a writer without a buffer.
fn end_unbuffered<W: Write + Drop>(alloc: Global, writer: W) -> Ended
    ensures { (result ≡ OutOfMemory) ⊎ (result ≡ NotWritten) }
{
    match BufWriter::with_capacity(alloc, 0, writer) {
        Ok(writer) => end_refused(&mut HostSink::new(writer), Ended::NoMemory),
        Err(_) => unreachable!(),
    }
}

/// The exit code of an ending.
fn exit_code(ended: Ended) -> ExitCode
    ensures { exit_status result ≡ status ended }
{
    ExitCode::from(status_of(ended))
}

fn main(rt: HostRuntime) -> ExitCode {
    let alloc = rt.alloc();
    let Ok(writer) = BufWriter::new(alloc, io::writer(&rt)) else {
        return exit_code(end_unbuffered(alloc, io::writer(&rt)));
    };
    let words = words_of(alloc, env::args(&rt));
    let mut shelf = HostShelf::new(&rt);
    let mut out = HostSink::new(writer);
    exit_code(run_given(&rt, alloc, words, &mut shelf, &mut out))
}
