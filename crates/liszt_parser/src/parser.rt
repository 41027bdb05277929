//! The parser: the tree of a text's tokens, or their fault.
ghost use Rattle.std.specs.Prelude.{◌≡◌, ◌<◌, ◌^◌, ℕ, List, Some, Ok, length};
ghost use Rattle.liszt_base.specs.declared.answers.Refused.TheVariants.{Fault};
ghost use Rattle.liszt_lexer.specs.Lexed.{lexed_text};
ghost use Rattle.liszt_parser.specs.Grammar.{lexemes};
ghost use Rattle.liszt_parser.specs.ParserAnswers.{ParsesTo};
ghost use Rattle.liszt_parser.specs.Internal.ProgramParsing.{RefusesBy};
ghost use Rattle.liszt_parser.specs.Internal.Nesting.{IsFirstDeep};
ghost use Rattle.liszt_parser.specs.ParseFault.{fault_at, place_of};

use crate::nesting::first_deep;
use crate::program::read_program;
use liszt_base::{Place, ProgramFault, ProgramWhat, Refused};
use liszt_lexer::TokenList;
use liszt_tree::Program;
use std::alloc::Global;

/// The program of a text with these tokens. The fault is `Syntax` at the first token, or the end, that continues no program, or
/// `Deep` at the first token that is deeper than the limit, whichever is earlier; at the same token it is `Syntax`.
pub fn parse(
    alloc: Global,
    text: &[u8],
    tokens: &TokenList,
) -> Result<Program, Refused<ProgramFault>>
    requires short { length text.now < 2 ^ 31 }
    requires lexed { lexed_text text.now ≡ Ok tokens.now }
    ensures { ParsesTo (lexemes text.now tokens.now.tokens) tokens.now.end result }
{
    let Some(deep) = first_deep(alloc, text, tokens.as_slice())? else {
        return match read_program(alloc, text, tokens.as_slice()) {
            Ok(program) => Ok(program),
            Err(Refused::Fault(place)) => Err(fault_of(tokens, ProgramWhat::Syntax, place)),
            Err(Refused::NoMemory) => Err(Refused::NoMemory),
        };
    };
    Err(fault_up_to(alloc, text, tokens, deep))
}

/// The fault of tokens the first of which that is too deep has this index.
fn fault_up_to(alloc: Global, text: &[u8], tokens: &TokenList, deep: usize) -> Refused<ProgramFault>
    requires short { length text.now < 2 ^ 31 }
    requires lexed { lexed_text text.now ≡ Ok tokens.now }
    requires deep { IsFirstDeep (lexemes text.now tokens.now.tokens) (Some deep) }
    ensures { RefusesBy (lexemes text.now tokens.now.tokens) tokens.now.end result }
{
    match read_program(alloc, text, &tokens.as_slice()[..deep + 1]) {
        Ok(_) => fault_of(tokens, ProgramWhat::Deep, deep),
        Err(Refused::Fault(place)) if place > deep => fault_of(tokens, ProgramWhat::Deep, deep),
        Err(Refused::Fault(place)) => fault_of(tokens, ProgramWhat::Syntax, place),
        Err(Refused::NoMemory) => Refused::NoMemory,
    }
}

/// The fault at a token, or at the end.
fn fault_of(tokens: &TokenList, what: ProgramWhat, place: usize) -> Refused<ProgramFault>
    ensures { (text : List ℕ) → result ≡ Fault (fault_at what
        (place_of (lexemes text tokens.now.tokens) tokens.now.end place)) }
{
    let all = tokens.as_slice();
    let place = if place < all.len() {
        all[place].place
    } else {
        tokens.end()
    };
    Refused::Fault(ProgramFault {
        what,
        place,
        first: None,
    })
}
