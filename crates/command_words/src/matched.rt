//! The words of a command line, read by clap.
ghost use Rattle.std.specs.Prelude.{◌≡◌, IfOk, IfErr, Some};
ghost use Rattle.clap.specs.Words.{app_of, found_of, kind_of};
ghost use Rattle.clap.specs.declared.error.kind.ErrorKind.TheVariants.{OutOfMemory};
ghost use Rattle.command_words.specs.Commands.{Invocation, command_of};
ghost use Rattle.command_words.specs.Internal.Matches.{matched_command, command_app};

use clap::{Arg, ArgMatches, Command, Error};
use liszt_base::WordList;
use std::alloc::{AllocError, Global};

/// The values that clap finds in the words. For the words of a command the only error is out of memory.
pub fn matches_of(alloc: Global, words: &WordList) -> Result<ArgMatches<'_>, Error>
    ensures command { (c : Invocation) → command_of words.now ≡ Some c
        → IfOk result (λ m. matched_command (found_of m) ≡ Some c) }
    ensures out_of_memory { (c : Invocation) → command_of words.now ≡ Some c
        → IfErr result (λ e. kind_of e ≡ OutOfMemory) }
{
    let grammar = grammar(alloc)?;
    grammar.try_get_matches_from(words.as_slice())
}

/// Four plain words, with the option `--turns`. Which modes have it is tested elsewhere.
fn grammar<'a>(alloc: Global) -> Result<Command<'a>, AllocError>
    ensures { IfOk result (λ c. app_of c ≡ command_app) }
{
    let turns = Arg::new(alloc, "turns").long("turns");
    Command::new(alloc, "liszt_run")
        .no_binary_name(true)
        .disable_help_flag(true)
        .arg(Arg::new(alloc, "mode"))?
        .arg(Arg::new(alloc, "program"))?
        .arg(Arg::new(alloc, "node"))?
        .arg(Arg::new(alloc, "ele"))?
        .arg(turns)
}
