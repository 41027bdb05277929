ghost use Rattle.std.specs.Prelude.{◌≡◌, ℕ, ◌≤◌, Bool, List, length, Option, Some, None, IfOk};
ghost use Rattle.liszt_io.specs.Causes.{HasCause};
ghost use Rattle.liszt_io.specs.Shelves.{Files, file, Cursor, Tally, all_faults, Opens, Reads, ReadsWithoutCursor};
ghost use Rattle.liszt_io.specs.Sinks.{Takes, flushed_by_write, flushed_by_flush};

use thiserror::Error;

/// A call of a shelf or a sink failed; its count of faults rose.
#[derive(Clone, Copy, Debug, PartialEq, Eq)]
pub struct Failed;

/// The text was not written whole; the sink's count of faults rose.
#[derive(Clone, Copy, Debug, PartialEq, Eq)]
pub struct WriteFault;

/// Why a file was not read whole.
#[derive(Clone, Copy, Debug, PartialEq, Eq, Error)]
pub enum WholeFault {
    #[error("a call of the shelf failed")]
    ReadFault,
    #[error("the file is longer than the limit")]
    TooLong,
    #[error("no memory")]
    NoMemory,
}

/// Named files that are read one at a time, each from its beginning.
///
/// A count of faults stays at 2^64 - 1 once it is there; that it rose is said also where it stands there.
pub trait Shelf {
    /// The files, which no call changes, where the shelf exposes them.
    ghost contents: { Self → Option Files };

    /// The name of the open file and the place in its bytes. It has a meaning only where the shelf exposes its files.
    ghost cursor: { Self → Option Cursor };

    /// The number of calls that have failed.
    ghost faults: { Self → ℕ };

    /// The faults by kind. They have a meaning only where the shelf exposes its files.
    ghost tally: { Self → Tally };

    /// Opens the file of that name at its beginning. A name without a file is a fault.
    fn open_name(&mut self, name: &str) -> Result<(), Failed>
        ensures contents { contents self.new ≡ contents self.old }
        ensures cause { HasCause (faults self.old) (faults self.new) result }
        ensures opens { (files : Files) → contents self.old ≡ Some files
            → Opens files name.now result (cursor self.new) (tally self.old) (tally self.new) };

    /// Puts the next bytes of the open file at the start of the buffer. The result is their number; 0 for a nonempty
    /// buffer is the end. Without an open file it is a fault.
    fn read(&mut self, buf: &mut [u8]) -> Result<usize, Failed>
        ensures contents { contents self.new ≡ contents self.old }
        ensures cause { HasCause (faults self.old) (faults self.new) result }
        ensures count { IfOk result (λ count. count ≤ length buf.new) }
        ensures reads { (files : Files) (name bytes : List ℕ) (place : ℕ)
            → contents self.old ≡ Some files
            → cursor self.old ≡ Some (name, place) → file files name ≡ Some bytes
            → Reads name bytes place result buf.new (cursor self.new) (tally self.old)
            (tally self.new) }
        ensures no_cursor { (files : Files) → contents self.old ≡ Some files
            → cursor self.old ≡ None
            → ReadsWithoutCursor result (cursor self.new) (tally self.old) (tally self.new) };

    /// The count of faults is that of both kinds together, where the shelf exposes its files.
    ghost total: { (s : Self) (files : Files) → contents s ≡ Some files
        → faults s ≡ all_faults (tally s) };
}

/// A place that takes bytes.
pub trait Sink {
    /// The bytes written, where the sink exposes them.
    ghost output: { Self → Option (List ℕ) };

    /// Whether all bytes written have been flushed.
    ghost is_flushed: { Self → Bool };

    /// The number of calls that have failed. The count stays at 2^64 - 1 once it is there.
    ghost faults: { Self → ℕ };

    /// Takes the first bytes of the piece, at least one of a nonempty piece. The result is their number.
    fn write(&mut self, piece: &[u8]) -> Result<usize, Failed>
        ensures cause { HasCause (faults self.old) (faults self.new) result }
        ensures takes { Takes (output self.old) (output self.new) piece.now result }
        ensures flushed { is_flushed self.new ≡ flushed_by_write (is_flushed self.old) result };

    /// Flushes all bytes written to their destination.
    fn flush(&mut self) -> Result<(), Failed>
        ensures cause { HasCause (faults self.old) (faults self.new) result }
        ensures takes { output self.new ≡ output self.old }
        ensures flushed { is_flushed self.new ≡ flushed_by_flush (is_flushed self.old) result };
}
