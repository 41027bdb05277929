ghost use Rattle.std.specs.List.{AllByRecursion};
ghost use Rattle.liszt_parser.specs.Grammar.{lexemes};
ghost use Rattle.liszt_parser.specs.Internal.TokenBounds.{IsInText};
ghost use Rattle.liszt_parser.specs.Internal.ProgramParsing.{IsParsed};

use crate::item::items;
use crate::source::Source;
use liszt_base::Refused;
use liszt_lexer::Token;
use liszt_tree::Program;
use std::alloc::Global;

/// The program that the tokens of a text are, or the index of the first token that continues no program. The end counts as a
/// token.
pub(crate) fn read_program(
    alloc: Global,
    text: &[u8],
    tokens: &[Token],
) -> Result<Program, Refused<usize>>
    requires { AllByRecursion (IsInText text.now) tokens.now }
    ensures { IsParsed (lexemes text.now tokens.now) result }
{
    let source = Source::new(alloc, text, tokens);
    let (items, at) = items(&source, 0)?;
    match source.token(at) {
        None => Ok(Program { items }),
        Some(_) => Err(Refused::Fault(at)),
    }
}
