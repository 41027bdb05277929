//! Tokens with one of several values.

ghost use Rattle.liszt_parser.specs.Grammar as Grammar;
ghost use Rattle.liszt_parser.specs.Internal.Productions as Productions;
ghost use Rattle.liszt_parser.specs.Internal.Reading.{Chooses};
ghost use Rattle.liszt_parser.specs.Internal.Sources.{source_lexemes, source_lexeme};

use crate::kinds::{fun_of, how_of, kind_of, mesh_set_of, number_of, rel_of, set_of, sign_of};
use crate::source::Source;
use liszt_base::{Kind, SetName};
use liszt_lexer::Token;
use liszt_tree::{Fun, How, Level, Rel, Sign};

/// The operator of a level at an index.
pub(crate) fn sign(source: &Source, at: usize, level: Level) -> Option<((Token, Sign), usize)>
    ensures { Chooses (Grammar.sign_of level) (source_lexeme source.now)
        (source_lexemes source.now) at result }
{
    let token = source.token(at)?;
    Some(((token, sign_of(level, token.kind)?), at + 1))
}

/// The comparison operator at an index.
pub(crate) fn rel(source: &Source, at: usize) -> Option<((Token, Rel), usize)>
    ensures { Chooses Grammar.rel_of (source_lexeme source.now)
        (source_lexemes source.now) at result }
{
    let token = source.token(at)?;
    Some(((token, rel_of(token.kind)?), at + 1))
}

/// The function of an element at an index.
pub(crate) fn fun(source: &Source, at: usize) -> Option<((Token, Fun), usize)>
    ensures { Chooses Grammar.fun_of (source_lexeme source.now)
        (source_lexemes source.now) at result }
{
    let token = source.token(at)?;
    Some(((token, fun_of(token.kind)?), at + 1))
}

/// The assignment operator at an index.
pub(crate) fn how(source: &Source, at: usize) -> Option<((Token, How), usize)>
    ensures { Chooses Grammar.how_of (source_lexeme source.now)
        (source_lexemes source.now) at result }
{
    let token = source.token(at)?;
    Some(((token, how_of(token.kind)?), at + 1))
}

/// The kind at an index.
pub(crate) fn kind(source: &Source, at: usize) -> Option<((Token, Kind), usize)>
    ensures { Chooses Grammar.kind_of (source_lexeme source.now)
        (source_lexemes source.now) at result }
{
    let token = source.token(at)?;
    Some(((token, kind_of(token.kind)?), at + 1))
}

/// The kind of the set of a mesh at an index.
pub(crate) fn mesh_set(source: &Source, at: usize) -> Option<((Token, Kind), usize)>
    ensures { Chooses Grammar.mesh_set_of (source_lexeme source.now)
        (source_lexemes source.now) at result }
{
    let token = source.token(at)?;
    Some(((token, mesh_set_of(token.kind)?), at + 1))
}

/// The set of an element at an index.
pub(crate) fn set(source: &Source, at: usize) -> Option<((Token, SetName), usize)>
    ensures { Chooses Grammar.set_of (source_lexeme source.now)
        (source_lexemes source.now) at result }
{
    let token = source.token(at)?;
    Some(((token, set_of(token.kind)?), at + 1))
}

/// The number at an index.
pub(crate) fn digits(source: &Source, at: usize) -> Option<((Token, i64), usize)>
    ensures { Chooses Productions.number_of (source_lexeme source.now)
        (source_lexemes source.now) at result }
{
    let token = source.token(at)?;
    Some(((token, number_of(token.kind)?), at + 1))
}
