//! Reading one token at an index.

ghost use Rattle.std.specs.Prelude.{◌≡◌, ◌++◌, ◌∷◌, [], ◌≤◌, IfOk, OnOk, length, drop};
ghost use Rattle.liszt_lexer.specs.Lexer.{bytes_of};
ghost use Rattle.liszt_parser.specs.Internal.TokenBounds.{IsInText};
ghost use Rattle.liszt_parser.specs.Internal.Reading as Reading;
ghost use Rattle.liszt_parser.specs.Internal.Reading.{IsAt, Outcome, Sees};
ghost use Rattle.liszt_parser.specs.Internal.Sources.{source_lexemes, source_lexeme};

use crate::source::{Parsed, Source};
use liszt_base::{NoMemory, Refused};
use liszt_lexer::{Token, TokenKind};
use liszt_tree::{Expr, Name};
use sqlite_items::{Boxed, Items};
use std::alloc::Global;

impl<'a> Source<'a> {
    /// The allocator for trees.
    pub(crate) fn alloc(&self) -> Global {
        self.alloc
    }

    /// The token at an index, or `None` at the end.
    pub(crate) fn token(&self, at: usize) -> Option<Token>
        ensures { Sees self.now.text.now (source_lexemes self.now)
            (source_lexeme self.now) at result }
    {
        sqlite_items::at(self.tokens, at).copied()
    }

    /// Whether the token at an index has this kind.
    pub(crate) fn is(&self, at: usize, kind: TokenKind) -> bool
        ensures { IsAt kind (drop at (source_lexemes self.now)) result }
    {
        matches!(self.token(at), Some(token) if token.kind == kind)
    }

    /// The token at an index, which has to have this kind.
    pub(crate) fn expect(&self, at: usize, kind: TokenKind) -> Parsed<Token>
        requires { at ≤ length (source_lexemes self.now) }
        ensures outcome { Outcome 1 (Reading.token kind) (source_lexeme self.now)
            (source_lexemes self.now) at result }
        ensures in_text { IfOk result (λ x. IsInText self.now.text.now x.0) }
    {
        match self.token(at) {
            Some(token) if token.kind == kind => Ok((token, at + 1)),
            _ => Err(Refused::Fault(at)),
        }
    }

    /// A copy of the bytes of a token.
    pub(crate) fn name(&self, token: Token) -> Result<Name, NoMemory>
        requires { IsInText self.now.text.now token }
        ensures { IfOk result (λ name. name ≡ bytes_of self.now.text.now token) }
    {
        let mut name = Name::new(self.alloc);
        name.extend(&self.text[token.start as usize..token.end as usize])?;
        Ok(name)
    }

    /// An expression on the heap, as a part of another one.
    pub(crate) fn boxed(&self, e: Expr) -> Result<Boxed<Expr>, NoMemory>
        ensures { IfOk result (λ b. b ≡ e) }
    {
        Ok(Boxed::new(self.alloc, e)?)
    }
}

/// Appends an item to a list.
pub(crate) fn push<T: Drop>(items: &mut Items<T>, item: T) -> Result<(), NoMemory>
    ensures { OnOk result (items.new ≡ items.old ++ item ∷ []) }
{
    items.push(item)?;
    Ok(())
}
