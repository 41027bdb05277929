ghost use Rattle.std.specs.Prelude.{◌≡◌, ◌+◌, ◌-◌, ◌<◌, ◌≤◌, ℕ, min, map, length, List, IfSome, IfNone, Some, None};
ghost use Rattle.std.specs.Option.{option_map, ForSome};
ghost use Rattle.liszt_io.specs.Shelves.{file, IsPiece};
ghost use Rattle.liszt_io.specs.FileLists.{files_of, name_at, IsFileAt, IsOpenAt};

use crate::held_file::{CallList, FileList, HeldFile};
use crate::outside::{Failed, Shelf};
use crate::script::Script;

/// The file that is open, and the place in it.
#[derive(Clone, Copy, Debug)]
struct OpenFile {
    index: usize,
    place: usize,
}

/// A shelf of files in memory that fails at given calls. No call of it takes memory.
#[derive(Debug, Drop)]
pub struct MemoryShelf {
    files: FileList,
    script: Script,
    current: Option<OpenFile>,
    strays: u64,
    others: u64,
    last: Option<usize>,
    ghost moves: { 0 < script.step },
    ghost sound: { ForSome current (λ o. IsOpenAt files o.index o.place) },
}

impl MemoryShelf {
    ghost use Rattle.std.specs.Prelude.{◌<◌, map};
    ghost use Rattle.std.specs.List.{IsDistinct};
    ghost use Rattle.std.specs.Str.{bytes_eq};
    ghost use Rattle.liszt_io.specs.InMemory.{IsNewShelf};

    /// A shelf of these files, whose names are different. A read gives at most `step` bytes. The calls whose
    /// numbers, from 1 over both kinds, are in `fails` fail.
    pub fn new(files: FileList, step: usize, fails: CallList) -> MemoryShelf
        requires step { 0 < step }
        requires names { IsDistinct bytes_eq (map (λ f. f.name) files) }
        ensures { IsNewShelf files step fails result }
    {
        MemoryShelf {
            files,
            script: Script {
                step,
                fails,
                calls: 0,
            },
            current: None,
            strays: 0,
            others: 0,
            last: None,
        }
    }
}

/// The index of the file of that name.
fn place_of(files: &[HeldFile], name: &[u8]) -> Option<usize>
    ensures found { IfSome result (λ i. IsFileAt files.now i) }
    ensures name { IfSome result (λ i. name_at files.now i ≡ name.now) }
    ensures none { IfNone result (file (files_of files.now) name.now ≡ None) }
{
    for (index, file) in files.iter().enumerate() {
        if file.name.as_slice() == name {
            return Some(index);
        }
    }
    None
}

/// Copies the bytes from `place` on, at most `step` of them, to the start of the buffer. The result is their number.
fn copy_piece(bytes: &[u8], place: usize, step: usize, buf: &mut [u8]) -> usize
    requires inside { place ≤ length bytes.now }
    requires moves { 0 < step }
    ensures piece { IsPiece bytes.now place result buf.new }
    ensures count { result ≡ min (min (length bytes.now - place) (length buf.old)) step }
{
    let count = (bytes.len() - place).min(buf.len()).min(step);
    buf[..count].copy_from_slice(&bytes[place..place + count]);
    count
}

impl Shelf for MemoryShelf {
    ghost use Rattle.std.specs.Prelude.{◌≡◌, ℕ, ◌≤◌, List, length, Some, None, IfOk, is_ok, refl};
    ghost use Rattle.std.specs.Option.{option_map};
    ghost use Rattle.liszt_io.specs.Causes.{HasCause};
    ghost use Rattle.liszt_io.specs.Shelves.{Files, file, all_faults, Opens, Reads, ReadsWithoutCursor};
    ghost use Rattle.liszt_io.specs.InMemory.{contents_of, cursor_of, tally_of, opens_next, reads_next, tally_after_open, tally_after_read, GivesNext, IsShelfLater};

    ghost contents = { λ s. Some (contents_of s) };

    ghost cursor = { cursor_of };

    ghost faults = { λ s. all_faults (tally_of s) };

    ghost tally = { tally_of };

    fn open_name(&mut self, name: &str) -> Result<(), Failed>
        ensures contents { Some (contents_of self.new) ≡ Some (contents_of self.old) }
        ensures cause { HasCause (all_faults (tally_of self.old)) (all_faults (tally_of self.new))
            result }
        ensures opens { (files : Files) → Some (contents_of self.old) ≡ Some files
            → Opens files name.now result (cursor_of self.new) (tally_of self.old)
            (tally_of self.new) }
        ensures exact { is_ok result ≡ opens_next self.old name.now }
        ensures counts { tally_of self.new ≡ tally_after_open self.old name.now result }
        ensures later { IsShelfLater self.old self.new }
    {
        let fails = self.script.count_call();
        self.current = None;
        let Some(index) = place_of(self.files.as_slice(), name.as_bytes()) else {
            self.strays = self.strays.saturating_add(1);
            return Err(Failed);
        };
        if fails {
            self.others = self.others.saturating_add(1);
            self.last = Some(index);
            return Err(Failed);
        }
        self.current = Some(OpenFile { index, place: 0 });
        Ok(())
    }

    fn read(&mut self, buf: &mut [u8]) -> Result<usize, Failed>
        ensures contents { Some (contents_of self.new) ≡ Some (contents_of self.old) }
        ensures cause { HasCause (all_faults (tally_of self.old)) (all_faults (tally_of self.new))
            result }
        ensures count { IfOk result (λ count. count ≤ length buf.new) }
        ensures reads { (files : Files) (name bytes : List ℕ) (place : ℕ)
            → Some (contents_of self.old) ≡ Some files
            → cursor_of self.old ≡ Some (name, place) → file files name ≡ Some bytes
            → Reads name bytes place result buf.new (cursor_of self.new) (tally_of self.old)
            (tally_of self.new) }
        ensures no_cursor { (files : Files) → Some (contents_of self.old) ≡ Some files
            → cursor_of self.old ≡ None
            → ReadsWithoutCursor result (cursor_of self.new) (tally_of self.old)
            (tally_of self.new) }
        ensures exact { is_ok result ≡ reads_next self.old (length buf.old) }
        ensures counts { tally_of self.new ≡ tally_after_read self.old result }
        ensures gives { IfOk result (GivesNext self.old (length buf.old)) }
        ensures later { IsShelfLater self.old self.new }
    {
        let fails = self.script.count_call();
        let Some(open) = self.current else {
            self.strays = self.strays.saturating_add(1);
            return Err(Failed);
        };
        if buf.is_empty() {
            return Ok(0);
        }
        if fails {
            self.others = self.others.saturating_add(1);
            self.last = Some(open.index);
            return Err(Failed);
        }
        let file = &self.files.as_slice()[open.index];
        let count = copy_piece(file.bytes.as_slice(), open.place, self.script.step, buf);
        self.current = Some(OpenFile {
            index: open.index,
            place: open.place + count,
        });
        Ok(count)
    }

    ghost total = { λ s files is. refl };
}
