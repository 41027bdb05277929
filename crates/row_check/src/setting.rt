//! What a row or a `given` part sets.

ghost use Rattle.std.specs.Prelude.{◌≡◌, IfOk};

use liszt_base::{ByteList, NoMemory, PlainList, WordList};
use liszt_io::{CallList, FileList, HeldFile};
use std::alloc::Global;

/// How a shelf or a sink in memory behaves, as far as it is set.
#[derive(Drop)]
pub struct Behaviour {
    /// The greatest number of bytes that a call moves, at least 1.
    pub step: Option<usize>,
    /// The numbers of the calls that fail, from 1.
    pub fails: Option<CallList>,
}

/// The words, the files and the behaviour of a run, and the text and the status that are wanted of it, as far as they
/// are set. Of files with one name the last counts.
#[derive(Drop)]
pub struct Setting {
    pub words: Option<WordList>,
    pub files: FileList,
    pub shelf: Behaviour,
    pub sink: Behaviour,
    /// The number of bytes that the sink takes in all.
    pub cut: Option<usize>,
    pub text: Option<ByteList>,
    pub status: Option<u8>,
}

impl Behaviour {
    /// Nothing is set.
    fn new() -> Behaviour {
        Behaviour {
            step: None,
            fails: None,
        }
    }

    /// Sets what the other one sets, and leaves the rest.
    fn set(&mut self, alloc: Global, other: &Behaviour) -> Result<(), NoMemory> {
        self.step = other.step.or(self.step);
        if let Some(fails) = &other.fails {
            self.fails = Some(copied_list(alloc, fails.as_slice())?);
        }
        Ok(())
    }
}

impl Setting {
    /// Nothing is set.
    pub fn new(alloc: Global) -> Setting {
        Setting {
            words: None,
            files: FileList::new(alloc),
            shelf: Behaviour::new(),
            sink: Behaviour::new(),
            cut: None,
            text: None,
            status: None,
        }
    }

    /// Sets what the other one sets, and leaves the rest.
    pub fn set(&mut self, alloc: Global, other: &Setting) -> Result<(), NoMemory> {
        for file in other.files.as_slice() {
            self.files.push(copied_file(alloc, file)?)?;
        }
        if let Some(words) = &other.words {
            self.words = Some(copied_words(alloc, words)?);
        }
        if let Some(text) = &other.text {
            self.text = Some(copied_list(alloc, text.as_slice())?);
        }
        self.shelf.set(alloc, &other.shelf)?;
        self.sink.set(alloc, &other.sink)?;
        self.cut = other.cut.or(self.cut);
        self.status = other.status.or(self.status);
        Ok(())
    }
}

/// A copy of a list.
fn copied_list<T: Copy>(alloc: Global, items: &[T]) -> Result<PlainList<T>, NoMemory>
    ensures { IfOk result (λ copy. copy ≡ items.now) }
{
    let mut copy = PlainList::new(alloc);
    copy.extend(items)?;
    Ok(copy)
}

/// A copy of words.
fn copied_words(alloc: Global, words: &WordList) -> Result<WordList, NoMemory> {
    let mut copy = WordList::new(alloc);
    for word in words.as_slice() {
        copy.push(word.clone()?)?;
    }
    Ok(copy)
}

/// A copy of a file.
pub fn copied_file(alloc: Global, file: &HeldFile) -> Result<HeldFile, NoMemory>
    ensures name { IfOk result (λ copy. copy.name ≡ file.now.name) }
    ensures bytes { IfOk result (λ copy. copy.bytes ≡ file.now.bytes) }
{
    let name = copied_list(alloc, file.name.as_slice())?;
    let bytes = copied_list(alloc, file.bytes.as_slice())?;
    Ok(HeldFile { name, bytes })
}
