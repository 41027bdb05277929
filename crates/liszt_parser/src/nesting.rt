//! The depth of a program at its tokens: the number of brackets and braces that are open, and of prefix operators whose operand is
//! not complete.
ghost use Rattle.std.specs.Prelude.{◌≡◌, ◌<◌, ◌+◌, ◌^◌, ◌∷◌, ◌++◌, [], List, IfOk, OnOk, nat_lt};
ghost use Rattle.liszt_base.specs.Limits.{depth_limit};
ghost use Rattle.liszt_parser.specs.Depth.{depth};
ghost use Rattle.liszt_parser.specs.Grammar.{Lexeme, lexemes};
ghost use Rattle.liszt_parser.specs.Internal.Nesting.{IsNesting, IsFirstDeep};

use crate::operand::{
    Nesting, count_waiting, ends_operand, is_closing, is_opening, is_prefix, step_operands,
};
use liszt_base::{DEPTH_LIMIT, NoMemory};
use liszt_lexer::{Token, TokenKind};
use std::alloc::Global;

impl Nesting {
    /// The counts of no tokens.
    fn new(alloc: Global) -> Nesting
        ensures { IsNesting [] result }
    {
        Nesting {
            opened: 0,
            closed: 0,
            after_operand: false,
            operands: Vec::new(alloc),
        }
    }

    /// Counts one more token.
    fn take(&mut self, alloc: Global, kind: TokenKind) -> Result<(), NoMemory>
        requires opened { self.old.opened + 1 < 2 ^ 64 }
        requires closed { self.old.closed + 1 < 2 ^ 64 }
        ensures { (front : List Lexeme) (t : Lexeme) → IsNesting front self.old → t.kind ≡ kind
            → OnOk result (IsNesting (front ++ t ∷ []) self.new) }
    {
        let prefix = is_prefix(self.after_operand, kind);
        self.operands = step_operands(alloc, self.operands.as_slice(), prefix, kind)?;
        self.after_operand = ends_operand(kind);
        self.opened += usize::from(is_opening(kind));
        self.closed += usize::from(is_closing(kind));
        Ok(())
    }

    /// Whether the program is too deep at the last token.
    fn is_too_deep(&self) -> bool
        ensures { (front : List Lexeme) → IsNesting front self.now
            → result ≡ nat_lt depth_limit (depth front) }
    {
        let brackets = self.opened.saturating_sub(self.closed);
        brackets > DEPTH_LIMIT || count_waiting(self.operands.as_slice()) > DEPTH_LIMIT - brackets
    }
}

/// The index of the first token at which the program is too deep, if there is one.
pub fn first_deep(alloc: Global, text: &[u8], tokens: &[Token]) -> Result<Option<usize>, NoMemory>
    ensures { IfOk result (IsFirstDeep (lexemes text.now tokens.now)) }
{
    let mut nesting = Nesting::new(alloc);
    for (place, token) in tokens.iter().enumerate() {
        nesting.take(alloc, token.kind)?;
        if nesting.is_too_deep() {
            return Ok(Some(place));
        }
    }
    Ok(None)
}
