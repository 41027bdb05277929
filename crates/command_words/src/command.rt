ghost use Rattle.std.specs.Prelude.{◌≡◌, ◌∷◌, ◌++◌, [], ℕ, List, None, Ok, IfOk};
ghost use Rattle.std.specs.Option.{option_map, option_and_then};
ghost use Rattle.clap.specs.Words.{found_of};
ghost use Rattle.command_words.specs.Commands.{command_of, invocation, mode_in, turns_in, without_options};
ghost use Rattle.command_words.specs.Internal.CommandReading.{command_after, options_so_far, plain_so_far, remaining_command};
ghost use Rattle.command_words.specs.Internal.Matches.{matched_command};

use crate::matched::matches_of;
use crate::options::{OptionName, is_name, number_in, option_of, option_with_value};
use clap::ArgMatches;
use liszt_base::{DEFAULT_TURNS, NoMemory, TURN_LIMIT, WordList};
use std::alloc::Global;

/// What a command does with a program and a mesh.
#[derive(Clone, Copy, Debug)]
pub enum Mode {
    /// Checks the program, and counts the elements of the mesh.
    Check,
    /// Infers the stencils of the program's comprehensions on the mesh.
    Stencil,
    /// Runs the program on the mesh, with the greatest number of turns of its loops.
    Seq { turns: u64 },
}

/// A command: its mode, and the names of its three files.
#[derive(Clone, Copy, Debug)]
pub struct Command<'a> {
    pub mode: Mode,
    pub program: &'a str,
    pub node: &'a str,
    pub ele: &'a str,
}

/// The words read so far: the option whose value is the next word, the value of `--turns`, and at most four plain words.
#[derive(Clone, Copy)]
struct WordsRead<'a> {
    pending_option: Option<OptionName>,
    turns: Option<&'a [u8]>,
    plain: [&'a str; 4],
    count: usize,
}

/// The command that the words name, if they name one. Whether they do is tested here; the command is then read by clap.
pub fn command_of(alloc: Global, words: &WordList) -> Result<Option<Command<'_>>, NoMemory>
    ensures command { IfOk result (λ command. option_map invocation command
        ≡ command_of words.now) }
    ensures none { command_of words.now ≡ None → result ≡ Ok None }
{
    let Some(_) = tested_command(words) else {
        return Ok(None);
    };
    let Ok(matches) = matches_of(alloc, words) else {
        return Err(NoMemory);
    };
    let Some(command) = matched_command(&matches) else {
        unreachable!()
    };
    Ok(Some(command))
}

/// The command with the values that clap found.
fn matched_command<'a>(matches: &ArgMatches<'a>) -> Option<Command<'a>>
    ensures { option_map invocation result ≡ matched_command (found_of matches.now) }
{
    let mode = matches.get_str("mode")?;
    let program = matches.get_str("program")?;
    let node = matches.get_str("node")?;
    let ele = matches.get_str("ele")?;
    let turns = match matches.get_str("turns") {
        Some(value) => Some(value.as_bytes()),
        None => None,
    };
    let found = WordsRead {
        pending_option: None,
        turns,
        plain: [mode, program, node, ele],
        count: 4,
    };
    found.command()
}

/// The command that the words name, if they name one, computed word by word.
fn tested_command(words: &WordList) -> Option<Command<'_>>
    ensures { option_map invocation result ≡ command_of words.now }
{
    let mut words_read = WordsRead {
        pending_option: None,
        turns: None,
        plain: [""; 4],
        count: 0,
    };
    for word in words.as_slice() {
        words_read = words_read.with(word.as_str())?;
    }
    words_read.command()
}

impl<'a> WordsRead<'a> {
    /// The state after one more word, or `None` where no command starts with these words.
    fn with(self, word: &'a str) -> Option<WordsRead<'a>>
        ensures { (rest : List (List ℕ)) → remaining_command self.entry (word.now ∷ rest)
            ≡ option_and_then (λ t. remaining_command t rest) result }
    {
        let bytes = word.as_bytes();
        match self.pending_option {
            Some(name) if is_name(bytes) => self.with_option(name, bytes),
            Some(_) => None,
            None => self.with_next(word),
        }
    }

    /// The state after a word that is not the value of an option.
    fn with_next(self, word: &'a str) -> Option<WordsRead<'a>>
        ensures { (rest : List (List ℕ)) → command_after None (options_so_far self.entry)
            (plain_so_far self.entry) (word.now ∷ rest)
            ≡ option_and_then (λ t. remaining_command t rest) result }
    {
        let bytes = word.as_bytes();
        if let Some(name) = option_of(bytes) {
            Some(WordsRead {
                pending_option: Some(name),
                ..self
            })
        } else if let Some((name, value)) = option_with_value(bytes) {
            self.with_option(name, value)
        } else if is_name(bytes) {
            self.with_plain(word)
        } else {
            None
        }
    }

    /// The state after an option and its value. A command has only `--turns`, at most once.
    fn with_option(self, name: OptionName, value: &'a [u8]) -> Option<WordsRead<'a>>
        ensures { (rest : List (List ℕ)) → command_after None
            (options_so_far self.entry ++ (name, value.now) ∷ []) (plain_so_far self.entry) rest
            ≡ option_and_then (λ t. remaining_command t rest) result }
    {
        match (name, self.turns) {
            (OptionName::Turns, None) => Some(WordsRead {
                pending_option: None,
                turns: Some(value),
                ..self
            }),
            _ => None,
        }
    }

    /// The state after a plain word. A command has at most four.
    fn with_plain(self, word: &'a str) -> Option<WordsRead<'a>>
        ensures { (rest : List (List ℕ)) → command_after None (options_so_far self.entry)
            (plain_so_far self.entry ++ word.now ∷ []) rest
            ≡ option_and_then (λ t. remaining_command t rest) result }
    {
        if self.count >= self.plain.len() {
            return None;
        }
        let mut plain = self.plain;
        plain[self.count] = word;
        Some(WordsRead {
            pending_option: None,
            plain,
            count: self.count + 1,
            ..self
        })
    }

    /// The command that the words name if no more words follow.
    fn command(self) -> Option<Command<'a>>
        ensures { option_map invocation result ≡ remaining_command self.entry [] }
    {
        if self.pending_option.is_some() || self.count < self.plain.len() {
            return None;
        }
        let [word, program, node, ele] = self.plain;
        let mode = self.mode(word)?;
        Some(Command {
            mode,
            program,
            node,
            ele,
        })
    }

    /// The mode that a word names, with the options so far.
    fn mode(self, word: &str) -> Option<Mode>
        ensures { result ≡ mode_in word.now (options_so_far self.entry) }
    {
        if word == "check" {
            self.without_options(Mode::Check)
        } else if word == "stencil" {
            self.without_options(Mode::Stencil)
        } else if word == "seq" {
            let turns = self.turns()?;
            Some(Mode::Seq { turns })
        } else {
            None
        }
    }

    /// A mode that has no option.
    fn without_options(self, mode: Mode) -> Option<Mode>
        ensures { result ≡ without_options mode (options_so_far self.entry) }
    {
        match self.turns {
            Some(_) => None,
            None => Some(mode),
        }
    }

    /// The number of turns that the options give, if it is within bounds.
    fn turns(self) -> Option<u64>
        ensures { result ≡ turns_in (options_so_far self.entry) }
    {
        match self.turns {
            Some(value) => number_in(1, TURN_LIMIT, value),
            None => Some(DEFAULT_TURNS),
        }
    }
}
