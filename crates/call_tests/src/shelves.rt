//! Runs over shelves that no row describes, and the line of an ending that no row reaches.

ghost use Rattle.std.specs.Prelude.{None};
ghost use Rattle.std.proofs.Common.{rules};

use liszt::{Ended, OpenGate, end_refused, run_words, status_of};
use liszt_base::{NoMemory, WordList};
use liszt_io::{CallList, Failed, MemorySink, Shelf};
use std::alloc::Global;
use std::sync::Wait;
use std::test::Fail;
use std::thread::Threads;

/// The words of these texts.
pub fn word_list(alloc: Global, texts: &[&str]) -> Result<WordList, NoMemory> {
    let mut words = WordList::new(alloc);
    for text in texts {
        words.push(String::from_str(alloc, text)?)?;
    }
    Ok(words)
}

/// A sink of a thousand bytes.
fn sink(alloc: Global) -> Result<MemorySink, NoMemory> {
    MemorySink::new(alloc, 5, 1000, CallList::new(alloc))
}

/// The ending of a run over a shelf, and the sink that has its text.
fn run_over<R: Threads + Wait + Sync, F: Shelf>(
    rt: &R,
    alloc: Global,
    texts: &[&str],
    shelf: &mut F,
) -> Result<(Ended, MemorySink), NoMemory> {
    let words = word_list(alloc, texts)?;
    let mut out = sink(alloc)?;
    let ended = run_words(rt, alloc, &words, shelf, &mut out, &OpenGate);
    Ok((ended, out))
}

/// A shelf that counts its calls and fails each.
#[derive(Drop)]
struct Untouched {
    calls: u64,
}

impl Shelf for Untouched {
    ghost contents = { λ _. None };

    ghost cursor = { λ _. None };

    ghost faults = { λ s. s.calls };

    ghost tally = { λ _. record { strays = 0; others = 0; last = None } };

    fn open_name(&mut self, _name: &str) -> Result<(), Failed> {
        self.calls = self.calls.saturating_add(1);
        Err(Failed)
    }

    fn read(&mut self, _buf: &mut [u8]) -> Result<usize, Failed> {
        self.calls = self.calls.saturating_add(1);
        Err(Failed)
    }

    ghost total = { λ s files is. Prim.search rules };
}

/// Words that are no command leave the shelf alone.
#[test]
fn usage_leaves_the_shelf_alone(rt: HostRuntime) -> Result<(), Fail> {
    let mut shelf = Untouched { calls: 0 };
    let (ended, _) = run_over(&rt, rt.alloc(), &["seq", "p", "n"], &mut shelf)?;
    assert_eq!(&rt; ended, Ended::Usage);
    assert_eq!(&rt; shelf.calls, 0);
    Ok(())
}

/// A shelf of files without end.
#[derive(Drop)]
struct Endless;

impl Shelf for Endless {
    ghost contents = { λ _. None };

    ghost cursor = { λ _. None };

    ghost faults = { λ _. 0 };

    ghost tally = { λ _. record { strays = 0; others = 0; last = None } };

    fn open_name(&mut self, _name: &str) -> Result<(), Failed> {
        Ok(())
    }

    fn read(&mut self, buf: &mut [u8]) -> Result<usize, Failed> {
        Ok(buf.len())
    }

    ghost total = { λ s files is. Prim.search rules };
}

/// A file of more bytes than the limit.
#[test]
fn endless_program(rt: HostRuntime) -> Result<(), Fail> {
    let mut shelf = Endless;
    let (ended, out) = run_over(&rt, rt.alloc(), &["seq", "p", "n", "e"], &mut shelf)?;
    assert_eq!(&rt;
        out.bytes(),
        b"limit File program over 67108864\n".as_slice()
    );
    assert_eq!(&rt; status_of(ended), 6);
    Ok(())
}

/// The line and the status where memory is refused, which no row reaches.
#[test]
fn out_of_memory(rt: HostRuntime) -> Result<(), Fail> {
    let mut out = sink(rt.alloc())?;
    let ended = end_refused(&mut out, Ended::NoMemory);
    assert_eq!(&rt; out.bytes(), b"no memory\n".as_slice());
    assert_eq!(&rt; status_of(ended), 10);
    Ok(())
}
