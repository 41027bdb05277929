//! The run of a row over memory.

ghost use Rattle.std.specs.Prelude.{◌≡◌, ◌<◌, ◌≤◌, map, IfOk, OnOk, OnErr};
ghost use Rattle.std.specs.List.{IsDistinct, list_any};
ghost use Rattle.std.specs.Str.{bytes_eq};

use crate::decoder::Fault;
use crate::setting::{Behaviour, Setting, copied_file};
use liszt::{Ended, OpenGate, run_words, status_of};
use liszt_base::NoMemory;
use liszt_io::{CallList, FileList, HeldFile, MemoryShelf, MemorySink};
use std::alloc::Global;
use std::sync::Wait;
use std::thread::Threads;

/// The bytes that a call moves at most, where none is set.
const STEP: usize = 4096;

/// The bytes that a sink takes in all, where no cut is set.
const CUT: usize = 4096;

/// What came of a run.
#[derive(Drop)]
pub struct Outcome {
    pub sink: MemorySink,
    pub status: u8,
}

/// Whether one of the files has this name.
fn has_name(files: &[HeldFile], name: &[u8]) -> bool
    ensures { result ≡ list_any (λ file. bytes_eq name.now file.name) files.now }
{
    files.iter().any(|file| name == file.name.as_slice())
}

/// Adds a copy of a file, unless one of its name is there.
fn push_new(alloc: Global, files: &mut FileList, file: &HeldFile) -> Result<(), NoMemory>
    requires { IsDistinct bytes_eq (map (λ f. f.name) files.old) }
    ensures { IsDistinct bytes_eq (map (λ f. f.name) files.new) }
{
    if has_name(files.as_slice(), file.name.as_slice()) {
        return Ok(());
    }
    files.push(copied_file(alloc, file)?)
}

/// Adds copies of the files whose names are not there yet, the last of each name.
fn push_all(alloc: Global, files: &mut FileList, added: &[HeldFile]) -> Result<(), NoMemory>
    requires { IsDistinct bytes_eq (map (λ f. f.name) files.old) }
    ensures { IsDistinct bytes_eq (map (λ f. f.name) files.new) }
{
    for file in added.iter().rev() {
        push_new(alloc, files, file)?;
    }
    Ok(())
}

/// The files of a row, and those given whose names the row does not have.
fn files_of(alloc: Global, given: &Setting, row: &Setting) -> Result<FileList, NoMemory>
    ensures { IfOk result (λ files. IsDistinct bytes_eq (map (λ f. f.name) files)) }
{
    let mut files = FileList::new(alloc);
    push_all(alloc, &mut files, row.files.as_slice())?;
    push_all(alloc, &mut files, given.files.as_slice())?;
    Ok(files)
}

/// The bytes that a call moves at most.
fn step_of(given: &Behaviour, row: &Behaviour) -> usize
    ensures { 0 < result }
{
    row.step.or(given.step).unwrap_or(STEP).max(1)
}

/// The numbers of the calls that fail.
fn fails_of(alloc: Global, given: &Behaviour, row: &Behaviour) -> Result<CallList, NoMemory> {
    let mut fails = CallList::new(alloc);
    if let Some(set) = row.fails.as_ref().or(given.fails.as_ref()) {
        fails.extend(set.as_slice())?;
    }
    Ok(fails)
}

/// The shelf of a row.
fn shelf_of(alloc: Global, given: &Setting, row: &Setting) -> Result<MemoryShelf, NoMemory> {
    let files = files_of(alloc, given, row)?;
    let fails = fails_of(alloc, &given.shelf, &row.shelf)?;
    Ok(MemoryShelf::new(files, step_of(&given.shelf, &row.shelf), fails))
}

/// The sink of a row.
fn sink_of(alloc: Global, given: &Setting, row: &Setting) -> Result<MemorySink, NoMemory> {
    let fails = fails_of(alloc, &given.sink, &row.sink)?;
    let cut = row.cut.or(given.cut).unwrap_or(CUT);
    MemorySink::new(alloc, step_of(&given.sink, &row.sink), cut, fails)
}

/// Runs a row. What it does not set is as given.
pub fn run_row<R: Threads + Wait + Sync>(
    rt: &R,
    alloc: Global,
    given: &Setting,
    row: &Setting,
) -> Result<Outcome, Fault> {
    let Some(words) = row.words.as_ref().or(given.words.as_ref()) else {
        return Err(Fault::NoWords);
    };
    let mut shelf = shelf_of(alloc, given, row)?;
    let mut sink = sink_of(alloc, given, row)?;
    let ended: Ended = run_words(rt, alloc, words, &mut shelf, &mut sink, &OpenGate);
    Ok(Outcome {
        sink,
        status: status_of(ended),
    })
}
