ghost use Rattle.std.specs.Prelude.{◌≡◌, ◌<◌, ◌≤◌, [], length, None, IfOk, OnOk, true};
ghost use Rattle.std.specs.Io.Buffered.{writer_buffer, writer_contents};
ghost use Rattle.std.proofs.Common.{rules};
ghost use Rattle.std.specs.Io.KnownBytes.{WriteAppends, ReadConsumes, Keeps};

use crate::outside::{Failed, Shelf, Sink};
use std::fs;
use std::io::{BufWriter, ErrorKind, Read, Write};
use std::rt::Files;

/// How often a call is tried: once, and a thousand times again where it was interrupted.
const TRIES: u32 = 1001;

/// Reads the next bytes of a file into the start of a buffer.
fn read_some<F: Read>(file: &mut F, buf: &mut [u8]) -> Result<usize, Failed>
    ensures count { IfOk result (λ count. count ≤ length buf.new) }
    ensures bytes { ReadConsumes (F.remaining file.old) (F.remaining file.new) result buf.new }
{
    for _ in 0..TRIES {
        match file.read(buf) {
            Ok(count) => return Ok(count),
            Err(e) if e.kind() == ErrorKind::Interrupted => {}
            Err(_) => return Err(Failed),
        }
    }
    Err(Failed)
}

/// Writes the first bytes of a piece, at least one. A write of none is a fault.
fn write_some<W: Write>(writer: &mut W, piece: &[u8]) -> Result<usize, Failed>
    ensures some { IfOk result (λ count. (0 < count) × (count ≤ length piece.now)) }
    ensures bytes { WriteAppends (W.contents writer.old) (W.contents writer.new) result piece.now }
{
    for _ in 0..TRIES {
        match writer.write(piece) {
            Ok(0) => return Err(Failed),
            Ok(size) => return Ok(size),
            Err(e) if e.kind() == ErrorKind::Interrupted => {}
            Err(_) => return Err(Failed),
        }
    }
    Err(Failed)
}

/// Flushes a writer. Afterwards its buffer is empty.
fn flush_all<W: Write + Drop>(writer: &mut BufWriter<W>) -> Result<(), Failed>
    ensures bytes { Keeps (writer_contents W.contents writer.old) (writer_contents W.contents writer.new) }
    ensures empty { OnOk result (writer_buffer writer.new ≡ []) }
{
    for _ in 0..TRIES {
        match writer.flush() {
            Ok(()) => return Ok(()),
            Err(e) if e.kind() == ErrorKind::Interrupted => {}
            Err(_) => return Err(Failed),
        }
    }
    Err(Failed)
}

/// Opens the file of a name.
fn open_file<R: Files>(rt: &R, name: &str) -> Result<R::File, Failed> {
    for _ in 0..TRIES {
        match fs::open(rt, name) {
            Ok(file) => return Ok(file),
            Err(e) if e.kind() == ErrorKind::Interrupted => {}
            Err(_) => return Err(Failed),
        }
    }
    Err(Failed)
}

/// The files of the system, by name. It exposes no bytes.
#[derive(Drop)]
pub struct HostShelf<'a, R: Files> {
    rt: &'a R,
    file: Option<R::File>,
    faults: u64,
}

impl<'a, R: Files> HostShelf<'a, R> {
    /// A shelf without an open file.
    pub fn new(rt: &'a R) -> Self
        ensures faults { result.faults ≡ 0 }
        ensures no_cursor { result.file ≡ None }
    {
        HostShelf {
            rt,
            file: None,
            faults: 0,
        }
    }
}

impl<R: Files> Shelf for HostShelf<'_, R> {
    ghost use Rattle.std.specs.Prelude.{◌≡◌, ◌≤◌, ℕ, List, length, Some, None, IsSome, IfOk, OnOk, OnErr};
    ghost use Rattle.std.specs.Option.{option_map};
    ghost use Rattle.liszt_io.specs.Causes.{HasCause};
    ghost use Rattle.liszt_io.specs.Hosts.{ReadsOpenFile};
    ghost use Rattle.liszt_io.specs.Shelves.{Files as FileMap, file as file_bytes, no_faults, no_cursor, Opens, Reads, ReadsWithoutCursor};

    ghost contents = { λ _. None };

    ghost cursor = { λ _. no_cursor };

    ghost faults = { λ s. s.faults };

    ghost tally = { λ _. no_faults };

    fn open_name(&mut self, name: &str) -> Result<(), Failed>
        ensures cause { HasCause self.old.faults self.new.faults result }
        ensures opens { (files : FileMap) → None ≡ Some files
            → Opens files name.now result no_cursor no_faults no_faults }
        ensures opened { OnOk result (IsSome self.new.file) }
        ensures closed { OnErr result (self.new.file ≡ None) }
    {
        self.file = None;
        match open_file(self.rt, name) {
            Ok(file) => {
                self.file = Some(file);
                Ok(())
            }
            Err(failed) => {
                self.faults = self.faults.saturating_add(1);
                Err(failed)
            }
        }
    }

    fn read(&mut self, buf: &mut [u8]) -> Result<usize, Failed>
        ensures cause { HasCause self.old.faults self.new.faults result }
        ensures count { IfOk result (λ count. count ≤ length buf.new) }
        ensures reads { (files : FileMap) (name bytes : List ℕ) (place : ℕ) → None ≡ Some files
            → no_cursor ≡ Some (name, place) → file_bytes files name ≡ Some bytes
            → Reads name bytes place result buf.new no_cursor no_faults no_faults }
        ensures no_cursor { (files : FileMap) → None ≡ Some files → no_cursor ≡ no_cursor
            → ReadsWithoutCursor result no_cursor no_faults no_faults }
        ensures bytes { ReadsOpenFile (option_map R.File.remaining self.old.file)
            (option_map R.File.remaining self.new.file) result buf.new }
    {
        let read = match &mut self.file {
            Some(file) => read_some(file, buf),
            None => Err(Failed),
        };
        if read.is_err() {
            self.faults = self.faults.saturating_add(1);
        }
        read
    }

    ghost total = { λ s files is. Prim.search rules };
}

/// A writer of the system, over a buffer. It exposes no bytes.
#[derive(Drop)]
pub struct HostSink<W: Write + Drop> {
    inner: BufWriter<W>,
    is_flushed: bool,
    faults: u64,
}

impl<W: Write + Drop> HostSink<W> {
    /// A sink that writes to this writer, whose buffer may have no room.
    pub fn new(inner: BufWriter<W>) -> Self
        ensures { result ≡ record { inner = inner; is_flushed = true; faults = 0 } }
    {
        HostSink {
            inner,
            is_flushed: true,
            faults: 0,
        }
    }
}

impl<W: Write + Drop> Sink for HostSink<W> {
    ghost use Rattle.std.specs.Prelude.{◌≡◌, [], None, OnOk};
    ghost use Rattle.std.specs.Io.Buffered.{writer_buffer, writer_contents};
    ghost use Rattle.std.specs.Io.KnownBytes.{WriteAppends, Keeps};
    ghost use Rattle.liszt_io.specs.Causes.{HasCause};
    ghost use Rattle.liszt_io.specs.Sinks.{Takes, flushed_by_write, flushed_by_flush};

    ghost output = { λ _. None };

    ghost is_flushed = { λ s. s.is_flushed };

    ghost faults = { λ s. s.faults };

    fn write(&mut self, piece: &[u8]) -> Result<usize, Failed>
        ensures cause { HasCause self.old.faults self.new.faults result }
        ensures takes { Takes None None piece.now result }
        ensures flushed { self.new.is_flushed ≡ flushed_by_write self.old.is_flushed result }
        ensures bytes { WriteAppends (writer_contents W.contents self.old.inner)
            (writer_contents W.contents self.new.inner) result piece.now }
    {
        if piece.is_empty() {
            return Ok(0);
        }
        let written = write_some(&mut self.inner, piece);
        match written {
            Ok(_) => self.is_flushed = false,
            Err(_) => self.faults = self.faults.saturating_add(1),
        }
        written
    }

    fn flush(&mut self) -> Result<(), Failed>
        ensures cause { HasCause self.old.faults self.new.faults result }
        ensures flushed { self.new.is_flushed ≡ flushed_by_flush self.old.is_flushed result }
        ensures bytes { Keeps (writer_contents W.contents self.old.inner)
            (writer_contents W.contents self.new.inner) }
        ensures empty { OnOk result (writer_buffer self.new.inner ≡ []) }
    {
        let flushed = flush_all(&mut self.inner);
        match flushed {
            Ok(()) => self.is_flushed = true,
            Err(_) => self.faults = self.faults.saturating_add(1),
        }
        flushed
    }
}
