//! Statements of the body of a comprehension. A list of statements is read by a loop, blocks by recursion.

ghost use Rattle.std.specs.Prelude.{◌≤◌, IfOk, length, drop, map};
ghost use Rattle.std.specs.Option.{option_map};
ghost use Rattle.liszt_tree.specs.Tree.{expression as tree, body_of, statement_tree};
ghost use Rattle.liszt_parser.specs.Internal.Productions.{assignments, blocks, bodies, branches, closings, constants, elses, repetitions, set_loops, statements, variables};
ghost use Rattle.liszt_parser.specs.Internal.Productions as Productions;
ghost use Rattle.liszt_parser.specs.Internal.Reading.{EndsAt, Outcome, Settled};
ghost use Rattle.liszt_parser.specs.Internal.TokenBounds.{IsInText};
ghost use Rattle.liszt_parser.specs.Internal.Sources.{source_lexemes, source_lexeme};

use crate::choices::{how, set};
use crate::expression::{argument, bracketed_expression, expression};
use crate::kinds::{
    ARROW, CLOSE_BRACE, CLOSE_BRACKET, ELSE, FOR, IF, OPEN_BRACE, OPEN_BRACKET, SEMICOLON, SET_TO,
    VAL, VAR, WHILE,
};
use crate::source::{Parsed, Source};
use crate::tokens::push;
use liszt_base::Refused;
use liszt_lexer::{Token, TokenKind};
use liszt_tree::{Expr, Stmt, StmtList};
use sqlite_items::Items;

/// Whether a list of statements ends at an index, before `}` or the end.
pub(crate) fn ends(source: &Source, at: usize) -> bool
    ensures { EndsAt (drop at (source_lexemes source.now)) result }
{
    match source.token(at) {
        None => true,
        Some(token) => token.kind == CLOSE_BRACE,
    }
}

/// The end of a statement: a `;`, or nothing before a `}` or the end.
fn closing(source: &Source, at: usize) -> Parsed<()>
    requires { at ≤ length (source_lexemes source.now) }
    ensures { Outcome 0 closings (λ _. tt) (source_lexemes source.now) at result }
{
    match source.token(at) {
        None => Ok(((), at)),
        Some(token) if token.kind == SEMICOLON => Ok(((), at + 1)),
        Some(token) if token.kind == CLOSE_BRACE => Ok(((), at)),
        Some(_) => Err(Refused::Fault(at)),
    }
}

/// An expression and the end of the statement.
pub(crate) fn closed_expression(source: &Source, at: usize) -> Parsed<Expr>
    requires { at ≤ length (source_lexemes source.now) }
    ensures { Outcome 1 Productions.closed_expression tree (source_lexemes source.now) at result }
{
    let (e, at) = expression(source, at)?;
    let ((), at) = closing(source, at)?;
    Ok((e, at))
}

/// A declaration that starts with a word: the tokens of the word and of the name, and the initial expression.
pub(crate) fn declaration(
    source: &Source,
    at: usize,
    word: TokenKind,
) -> Parsed<(Token, Token, Expr)>
    requires within { at ≤ length (source_lexemes source.now) }
    ensures outcome { Outcome 1 (Productions.declaration word)
        (λ x. (source_lexeme source.now x.0, (source_lexeme source.now x.1, tree x.2)))
        (source_lexemes source.now) at result }
    ensures in_text { IfOk result (λ x. IsInText source.now.text.now x.0.1) }
{
    let (word, at) = source.expect(at, word)?;
    let (name, at) = source.expect(at, TokenKind::Name)?;
    let (_, at) = source.expect(at, SET_TO)?;
    let (init, at) = closed_expression(source, at)?;
    Ok(((word, name, init), at))
}

/// A statement. Only an `if` may be followed by `else`.
#[cycle(statement)]
fn statement(source: &Source, at: usize) -> Parsed<Stmt>
    requires { at ≤ length (source_lexemes source.now) }
    ensures { Outcome 1 statements statement_tree (source_lexemes source.now) at result }
{
    let (s, end) = statement_by_token(source, at)?;
    if source.is(end, ELSE) {
        return Err(Refused::Fault(end));
    }
    Ok((s, end))
}

/// A statement, by its first token, whatever token follows the statement.
#[cycle(statement)]
fn statement_by_token(source: &Source, at: usize) -> Parsed<Stmt>
    requires { at ≤ length (source_lexemes source.now) }
    ensures { Settled statements statement_tree (source_lexemes source.now) at result }
{
    if source.is(at, VAR) {
        return variable(source, at);
    }
    if source.is(at, VAL) {
        return constant(source, at);
    }
    if source.is(at, IF) {
        return conditional(source, at);
    }
    if source.is(at, WHILE) {
        return repetition(source, at);
    }
    if source.is(at, FOR) {
        return set_loop(source, at);
    }
    assignment(source, at)
}

/// A `var`.
fn variable(source: &Source, at: usize) -> Parsed<Stmt>
    requires { at ≤ length (source_lexemes source.now) }
    ensures { Outcome 1 variables statement_tree (source_lexemes source.now) at result }
{
    let ((word, name, init), end) = declaration(source, at, VAR)?;
    let (place, at, name) = (word.place, name.place, source.name(name)?);
    Ok((
        Stmt::Var {
            place,
            name,
            at,
            init,
        },
        end,
    ))
}

/// A `val`.
fn constant(source: &Source, at: usize) -> Parsed<Stmt>
    requires { at ≤ length (source_lexemes source.now) }
    ensures { Outcome 1 constants statement_tree (source_lexemes source.now) at result }
{
    let ((word, name, init), end) = declaration(source, at, VAL)?;
    let (place, at, name) = (word.place, name.place, source.name(name)?);
    Ok((
        Stmt::Val {
            place,
            name,
            at,
            init,
        },
        end,
    ))
}

/// An assignment.
fn assignment(source: &Source, at: usize) -> Parsed<Stmt>
    requires { at ≤ length (source_lexemes source.now) }
    ensures { Outcome 1 assignments statement_tree (source_lexemes source.now) at result }
{
    let (word, at) = source.expect(at, TokenKind::Name)?;
    let (target, at) = argument(source, at)?;
    let Some(((_, how), at)) = how(source, at) else {
        return Err(Refused::Fault(at));
    };
    let (value, at) = closed_expression(source, at)?;
    let (place, name) = (word.place, source.name(word)?);
    Ok((
        Stmt::Assign {
            place,
            name,
            target,
            how,
            value,
        },
        at,
    ))
}

/// An `if` with or without `else`.
#[cycle(statement)]
fn conditional(source: &Source, at: usize) -> Parsed<Stmt>
    requires { at ≤ length (source_lexemes source.now) }
    ensures { Outcome 1 branches statement_tree (source_lexemes source.now) at result }
{
    let (word, at) = source.expect(at, IF)?;
    let (test, at) = bracketed_expression(source, at)?;
    let (yes, at) = block(source, at)?;
    let (no, at) = else_block(source, at)?;
    let place = word.place;
    match no {
        None => {
            let no = Items::new(source.alloc());
            Ok((
                Stmt::If {
                    place,
                    test,
                    yes,
                    no,
                    has_else: false,
                },
                at,
            ))
        }
        Some(no) => Ok((
            Stmt::If {
                place,
                test,
                yes,
                no,
                has_else: true,
            },
            at,
        )),
    }
}

/// An `else` and its block, if there is one. No `else` follows it.
#[cycle(statement)]
fn else_block(source: &Source, at: usize) -> Parsed<Option<StmtList>>
    requires { at ≤ length (source_lexemes source.now) }
    ensures { Outcome 0 elses (option_map (λ b. body_of (map statement_tree b)))
        (source_lexemes source.now) at result }
{
    if !source.is(at, ELSE) {
        return Ok((None, at));
    }
    let (_, at) = source.expect(at, ELSE)?;
    let (body, end) = block(source, at)?;
    if source.is(end, ELSE) {
        return Err(Refused::Fault(end));
    }
    Ok((Some(body), end))
}

/// A `while`.
#[cycle(statement)]
fn repetition(source: &Source, at: usize) -> Parsed<Stmt>
    requires { at ≤ length (source_lexemes source.now) }
    ensures { Outcome 1 repetitions statement_tree (source_lexemes source.now) at result }
{
    let (word, at) = source.expect(at, WHILE)?;
    let (test, at) = bracketed_expression(source, at)?;
    let (body, at) = block(source, at)?;
    Ok((
        Stmt::While {
            place: word.place,
            test,
            body,
        },
        at,
    ))
}

/// A `for` over the set of an element.
#[cycle(statement)]
fn set_loop(source: &Source, at: usize) -> Parsed<Stmt>
    requires { at ≤ length (source_lexemes source.now) }
    ensures { Outcome 1 set_loops statement_tree (source_lexemes source.now) at result }
{
    let (word, at) = source.expect(at, FOR)?;
    let (_, at) = source.expect(at, OPEN_BRACKET)?;
    let (name, at) = source.expect(at, TokenKind::Name)?;
    let (_, at) = source.expect(at, ARROW)?;
    let Some(((of, set), at)) = set(source, at) else {
        return Err(Refused::Fault(at));
    };
    let (arg, at) = bracketed_expression(source, at)?;
    let (_, at) = source.expect(at, CLOSE_BRACKET)?;
    let (body, end) = block(source, at)?;
    let (place, at, set_at) = (word.place, name.place, of.place);
    let name = source.name(name)?;
    Ok((
        Stmt::For {
            place,
            name,
            at,
            set,
            set_at,
            arg,
            body,
        },
        end,
    ))
}

/// Statements up to `}` or the end.
#[cycle(statement)]
fn body(source: &Source, at: usize) -> Parsed<StmtList>
    requires { at ≤ length (source_lexemes source.now) }
    ensures { Outcome 0 bodies (λ b. body_of (map statement_tree b))
        (source_lexemes source.now) at result }
{
    let mut here = at;
    let mut body = Items::new(source.alloc());
    while !ends(source, here) {
        let (s, end) = statement(source, here)?;
        push(&mut body, s)?;
        here = end;
    }
    Ok((body, here))
}

/// Statements in braces.
#[cycle(statement)]
pub(crate) fn block(source: &Source, at: usize) -> Parsed<StmtList>
    requires { at ≤ length (source_lexemes source.now) }
    ensures { Outcome 1 blocks (λ b. body_of (map statement_tree b))
        (source_lexemes source.now) at result }
{
    let (_, at) = source.expect(at, OPEN_BRACE)?;
    let (body, at) = body(source, at)?;
    let (_, at) = source.expect(at, CLOSE_BRACE)?;
    Ok((body, at))
}
