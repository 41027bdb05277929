//! Solgrinn embedded: a program runs over a mesh in memory, and its text comes back as bytes.
//!
//! `run_words` takes the words of a command line, a shelf that the words name files of, and a sink for the text. Its
//! contract (`liszt/src/top.rt`) says which ending and which text come of which words and files. In place of `MemoryShelf`
//! and `MemorySink` stand `HostShelf` and `HostSink` for files and writers of the system, or types of your own: whatever
//! implements `Shelf` and `Sink`. The status of the ending is `status_of(ended)`, and a gate that lets everything pass is
//! `OpenGate`.
#![tactic(auto)]

ghost use Rattle.std.specs.Prelude.{◌≡◌, IfOk};

use liszt::{
    ByteList, CallList, FileList, HeldFile, MemoryShelf, MemorySink, OpenGate, WordList, run_words,
};
use liszt_base::NoMemory;
use std::alloc::Global;
use std::io::{self, Write};
use std::sync::Wait;
use std::thread::Threads;

/// A file in memory.
fn file(alloc: Global, name: &[u8], bytes: &[u8]) -> Result<HeldFile, NoMemory>
    ensures { IfOk result (λ file. file.name ≡ name.now) }
{
    let mut file = HeldFile {
        name: ByteList::new(alloc),
        bytes: ByteList::new(alloc),
    };
    file.name.extend(name)?;
    file.bytes.extend(bytes)?;
    Ok(file)
}

/// A shelf of a program and the two files of a mesh of one cell. The names of its files have to be different.
fn shelf(alloc: Global) -> Result<MemoryShelf, NoMemory> {
    let mut files = FileList::new(alloc);
    let program = b"field A : Cell = 5;\nfor (c <- cells(mesh)) { A(c) += 2 }\n";
    let program = file(alloc, b"p", program)?;
    let node = file(alloc, b"n", b"4\n0 0 0 0\n1 1 0 0\n2 0 1 0\n3 0 0 1\n")?;
    let ele = file(alloc, b"e", b"1\n0 0 1 2 3\n")?;
    files.push(program)?;
    files.push(node)?;
    files.push(ele)?;
    Ok(MemoryShelf::new(files, 4096, CallList::new(alloc)))
}

/// Runs `seq p n e` over the shelf. The result is the sink that has taken the text.
fn run<R: Threads + Wait + Sync + AllocGlobal>(rt: &R) -> Result<MemorySink, NoMemory> {
    let alloc = rt.alloc();
    let mut words = WordList::new(alloc);
    for word in ["seq", "p", "n", "e"] {
        words.push(String::from_str(alloc, word)?)?;
    }
    let mut shelf = shelf(alloc)?;
    let mut sink = MemorySink::new(alloc, 4096, 4096, CallList::new(alloc))?;
    run_words(rt, alloc, &words, &mut shelf, &mut sink, &OpenGate);
    Ok(sink)
}

fn main(rt: HostRuntime) -> io::Result<()> {
    match run(&rt) {
        Ok(sink) => io::writer(&rt).write_all(sink.bytes()),
        Err(NoMemory) => eprintln!(&rt; "no memory"),
    }
}
