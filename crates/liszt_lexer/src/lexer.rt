//! The tokens of a text, by the longest match.
ghost use Rattle.std.specs.Prelude.{◌≡◌, ◌+◌, ◌^◌, ◌<◌, length};
ghost use Rattle.liszt_lexer.specs.Internal.Leading.{piece_of};
ghost use Rattle.liszt_base.specs.Gives.{Gives};
ghost use Rattle.liszt_lexer.specs.Lexed.{lexed_text};
ghost use Rattle.liszt_lexer.specs.Internal.Remaining.{finding_at, append_optional, Appends};

use crate::cursor::Cursor;
use crate::leading::{FoundPiece, LeadingPiece, leading_piece};
use crate::token::Token;
use liszt_base::{Place, PlainList, ProgramFault, ProgramWhat, Refused, TOKEN_LIMIT};
use std::alloc::Global;
use std::marker::Model;

/// The tokens of a text, in their order, and the place of the end of the text. Contracts see both.
#[derive(Debug, Drop)]
pub struct TokenList {
    tokens: PlainList<Token>,
    end: Place,
}

impl Model for TokenList {
    ghost use Rattle.liszt_lexer.specs.Lexed.{LexedText};

    ghost Value = { LexedText };

    ghost view = { λ t. record { tokens = t.tokens; end = t.end } };
}

impl TokenList {
    /// The tokens, in the order of the text.
    pub fn as_slice(&self) -> &[Token]
        ensures { result.now ≡ self.now.tokens }
    {
        self.tokens.as_slice()
    }

    /// The place of the end of the text.
    pub fn end(&self) -> Place
        ensures { result ≡ self.now.end }
    {
        self.end
    }
}

/// The tokens of a text, or its first fault in the order of its bytes.
pub fn tokens(alloc: Global, text: &[u8]) -> Result<TokenList, Refused<ProgramFault>>
    requires { length text.now < 2 ^ 31 }
    ensures { Gives (lexed_text text.now) result }
{
    let mut tokens = PlainList::new(alloc);
    let mut cursor = Cursor::new();
    while cursor.passed < text.len() {
        let front = leading_piece(&text[cursor.passed..]);
        append_piece(&mut tokens, cursor, front)?;
        cursor.pass(text, front.size);
    }
    Ok(TokenList {
        tokens,
        end: cursor.place,
    })
}

/// Appends the token of the piece at the cursor, if the piece is one; a piece that is a fault is returned as an error.
fn append_piece(
    tokens: &mut PlainList<Token>,
    cursor: Cursor,
    front: LeadingPiece,
) -> Result<(), Refused<ProgramFault>>
    requires { cursor.passed + front.size < 2 ^ 32 }
    ensures { Appends (append_optional tokens.old (finding_at cursor front.size
        (piece_of front.content))) result tokens.new }
{
    match front.content {
        FoundPiece::Gap => Ok(()),
        FoundPiece::Token(kind) => append_token(
            tokens,
            Token {
                kind,
                place: cursor.place,
                start: cursor.passed as u32,
                end: (cursor.passed + front.size) as u32,
            },
        ),
        FoundPiece::Fault(what) => Err(fault_at(what, cursor.place)),
    }
}

/// The refusal by a fault at this place.
fn fault_at(what: ProgramWhat, place: Place) -> Refused<ProgramFault>
    ensures { result ≡ Refused.Fault (record { what = what; place = place; first = None }) }
{
    Refused::Fault(ProgramFault {
        what,
        place,
        first: None,
    })
}

/// Appends a token. A token past the limit is `Big`.
fn append_token(tokens: &mut PlainList<Token>, token: Token) -> Result<(), Refused<ProgramFault>>
    ensures { Appends (append_optional tokens.old (Some (Ok token))) result tokens.new }
{
    if tokens.as_slice().len() >= TOKEN_LIMIT {
        return Err(fault_at(ProgramWhat::Big, token.place));
    }
    tokens.push(token)?;
    Ok(())
}
