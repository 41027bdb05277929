//! The turns of a command, which have no effect on a run yet.

use command_words::{Command, Mode, command_of};
use liszt_base::{NoMemory, WordList};
use std::alloc::Global;
use std::test::Fail;

/// The turns of the command `seq` that words name, parted by blanks.
fn turns(alloc: Global, text: &str) -> Result<Option<u64>, NoMemory> {
    let mut words = WordList::new(alloc);
    for word in text.split(' ') {
        words.push(String::from_str(alloc, word)?)?;
    }
    match command_of(alloc, &words)? {
        Some(
            Command {
                mode: Mode::Seq { turns },
                ..
            },
        ) => Ok(Some(turns)),
        _ => Ok(None),
    }
}

#[test]
fn turns_of_commands(rt: HostRuntime) -> Result<(), Fail> {
    for (words, expected) in [
        ("seq p n e", Some(1_000_000)),
        ("--turns 5 seq p n e", Some(5)),
        ("seq p --turns=5 n e", Some(5)),
        ("seq p n e --turns 0005", Some(5)),
        ("seq p n e --turns 1", Some(1)),
        ("seq p n e --turns 0000000001", Some(1)),
        ("seq p n e --turns 999999999", Some(999_999_999)),
        ("seq p n e --turns=1000000000", Some(1_000_000_000)),
        ("seq p n e --turns 1000000001", None),
        ("seq p n e --turns 0", None),
        ("check p n e", None),
    ] {
        assert_eq!(&rt; turns(rt.alloc(), words)?, expected, "{words}");
    }
    Ok(())
}
