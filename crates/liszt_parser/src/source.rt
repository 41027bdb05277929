//! The tokens of a text that a parser reads, by their indices from 0.

ghost use Rattle.std.specs.Prelude.{◌≡◌, ℕ, Some};
ghost use Rattle.std.specs.List.{AllByRecursion, slice_get};
ghost use Rattle.liszt_lexer.specs.declared.token.Token.{Token as TokenOf};
ghost use Rattle.liszt_parser.specs.Grammar.{lexemes};
ghost use Rattle.liszt_parser.specs.Internal.TokenBounds.{IsInText};

use liszt_base::Refused;
use liszt_lexer::Token;
use std::alloc::Global;

/// What a parser read and the index of the next token, or the index of the first token that continues no program.
pub(crate) type Parsed<T> = Result<(T, usize), Refused<usize>>;

/// The tokens of a text, and the allocator for trees.
#[derive(Drop)]
pub(crate) struct Source<'a> {
    pub(crate) alloc: Global,
    pub(crate) text: &'a [u8],
    pub(crate) tokens: &'a [Token],
    ghost tokens_in_text: { (place : ℕ) (t : TokenOf) → slice_get tokens.now place ≡ Some t → IsInText text.now t },
}

impl<'a> Source<'a> {
    pub(crate) fn new(alloc: Global, text: &'a [u8], tokens: &'a [Token]) -> Source<'a>
        requires { AllByRecursion (IsInText text.now) tokens.now }
        ensures { lexemes result.text.now result.tokens.now ≡ lexemes text.now tokens.now }
    {
        Source {
            alloc,
            text,
            tokens,
        }
    }
}
