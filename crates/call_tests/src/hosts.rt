//! Files and writers of the system.

use crate::shelves::word_list;
use liszt::{Ended, HostShelf, HostSink, OpenGate, run_words};
use liszt_base::{Input, NoMemory};
use liszt_io::{Failed, Sink};
use std::alloc::{AllocError, Global};
use std::fs;
use std::io::{self, BufWriter, ErrorKind, Write};
use std::process::Abort;
use std::rt::Files;
use std::sync::Wait;
use std::test::Fail;
use std::thread::Threads;

/// Runs a program over files of the system, and compares its text and its ending.
fn compare_run<R: Threads + Wait + Abort + AllocGlobal + Sync + Files>(
    rt: &R,
    text: &str,
    ending: Ended,
) -> Result<(), NoMemory> {
    let alloc = rt.alloc();
    let words = word_list(alloc, &["seq", "p", "n", "e"])?;
    let mut shelf = HostShelf::new(rt);
    let mut bytes = Vec::new(alloc);
    let Ok(writer) = BufWriter::new(alloc, &mut bytes) else {
        return Err(NoMemory);
    };
    let mut out = HostSink::new(writer);
    let ended = run_words(rt, alloc, &words, &mut shelf, &mut out, &OpenGate);
    drop(out);
    assert_eq!(rt; bytes.as_slice(), text.as_bytes());
    assert_eq!(rt; ended, ending);
    Ok(())
}

/// Files of the system, a missing one, and a folder.
#[test]
fn real_files(rt: HostRuntime) -> Result<(), Fail> {
    fs::write(
        &rt,
        "p",
        "field A : Cell = 5; for (c <- cells(mesh)) { A(c) += 2 }\n",
    )?;
    fs::write(&rt, "n", "4\n0 0 0 0\n1 1 0 0\n2 0 1 0\n3 0 0 1\n")?;
    fs::write(&rt, "e", "1\n0 0 1 2 3\n")?;
    compare_run(&rt, "A 0 7\n", Ended::Done)?;
    fs::remove_file(&rt, "n")?;
    compare_run(&rt, "read fault node\n", Ended::ReadFault(Input::Node))?;
    fs::create_dir(&rt, "n")?;
    compare_run(&rt, "read fault node\n", Ended::ReadFault(Input::Node))?;
    fs::remove_dir(&rt, "n")?;
    fs::remove_file(&rt, "p")?;
    fs::remove_file(&rt, "e")?;
    Ok(())
}

/// A writer whose first `times` calls are interrupted.
#[derive(Drop)]
struct Interrupted {
    times: u32,
}

impl Write for Interrupted {
    fn write(&mut self, buf: &[u8]) -> io::Result<usize> {
        self.flush()?;
        Ok(buf.len())
    }

    fn flush(&mut self) -> io::Result<()> {
        if self.times > 0 {
            self.times -= 1;
            return Err(io::Error::from(ErrorKind::Interrupted));
        }
        Ok(())
    }
}

/// A sink over such a writer, with a buffer that has no room.
fn interrupted_sink(alloc: Global, times: u32) -> Result<HostSink<Interrupted>, AllocError> {
    match BufWriter::with_capacity(alloc, 0, Interrupted { times }) {
        Ok(writer) => Ok(HostSink::new(writer)),
        Err(_) => Err(AllocError),
    }
}

/// An interrupted write or flush is tried again a thousand times, and no more.
#[test]
fn interrupted_calls(rt: HostRuntime) -> Result<(), Fail> {
    let alloc = rt.alloc();
    let mut out = interrupted_sink(alloc, 1000)?;
    assert_eq!(&rt; out.write(b"text"), Ok(4));
    assert_eq!(&rt; out.write(b""), Ok(0));
    let mut out = interrupted_sink(alloc, 1001)?;
    assert_eq!(&rt; out.write(b"text"), Err(Failed));
    assert_eq!(&rt; out.write(b"text"), Ok(4));
    let mut out = interrupted_sink(alloc, 1000)?;
    assert_eq!(&rt; out.flush(), Ok(()));
    let mut out = interrupted_sink(alloc, 1001)?;
    assert_eq!(&rt; out.flush(), Err(Failed));
    Ok(())
}
