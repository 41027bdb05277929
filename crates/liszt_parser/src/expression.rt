//! Expressions, with a function for each rank. A chain is read by a loop, brackets and prefix operators by recursion.

ghost use Rattle.std.specs.Prelude.{◌≡◌, ◌≤◌, length, drop, map};
ghost use Rattle.std.specs.Option.{option_map};
ghost use Rattle.liszt_tree.specs.declared.tree.Level.TheVariants.{Sum};
ghost use Rattle.liszt_tree.specs.Tree as Tree;
ghost use Rattle.liszt_tree.specs.Tree.{expression as tree, links_of};
ghost use Rattle.liszt_parser.specs.Grammar.{lowest_rank, primary_expression as primary_rank, chain as chain_rank, comparison as comparison_rank, operand as operand_rank, prefix_expression as prefix_rank};
ghost use Rattle.liszt_parser.specs.Internal.Productions as Productions;
ghost use Rattle.liszt_parser.specs.Internal.Productions.{arguments, brackets, calls, logical_nots, expressions, names, negations, numbers, orientations, seconds};
ghost use Rattle.liszt_parser.specs.Internal.Reading.{Outcome, Settled};
ghost use Rattle.liszt_parser.specs.Internal.Sorts.{Stops};
ghost use Rattle.liszt_parser.specs.Internal.Sources.{source_lexemes, source_lexeme};

use crate::choices::{digits, fun, rel, sign};
use crate::kinds::{BANG, CLOSE_BRACKET, COMMA, MINUS, OPEN_BRACKET, TOWARDS};
use crate::source::{Parsed, Source};
use crate::tokens::push;
use liszt_base::{Place, Refused};
use liszt_lexer::{Token, TokenKind};
use liszt_tree::{Expr, Level, Link, LinkList, Rel};
use sqlite_items::Items;

/// An expression.
#[cycle(expression)]
pub(crate) fn expression(source: &Source, at: usize) -> Parsed<Expr>
    requires { at ≤ length (source_lexemes source.now) }
    ensures { Outcome 1 (expressions lowest_rank) tree (source_lexemes source.now) at result }
{
    chain(source, at, Level::Or)
}

/// A chain of a level, or one operand.
#[cycle(expression)]
fn chain(source: &Source, at: usize, level: Level) -> Parsed<Expr>
    requires { at ≤ length (source_lexemes source.now) }
    ensures { Outcome 1 (expressions (chain_rank level)) tree
        (source_lexemes source.now) at result }
{
    let (first, at) = operand(source, at, level)?;
    let (rest, at) = links(source, at, level)?;
    if rest.is_empty() {
        return Ok((first, at));
    }
    let first = source.boxed(first)?;
    Ok((Expr::Chain { level, first, rest }, at))
}

/// An operand of a chain of a level.
#[cycle(expression)]
fn operand(source: &Source, at: usize, level: Level) -> Parsed<Expr>
    requires { at ≤ length (source_lexemes source.now) }
    ensures { Outcome 1 (expressions (operand_rank level)) tree
        (source_lexemes source.now) at result }
{
    match level {
        Level::Or => chain(source, at, Level::And),
        Level::And => comparison(source, at),
        Level::Sum => chain(source, at, Level::Product),
        Level::Product => prefix_expression(source, at),
    }
}

/// The operators of a chain, each with the operand after it.
#[cycle(expression)]
fn links(source: &Source, at: usize, level: Level) -> Parsed<LinkList>
    requires within { at ≤ length (source_lexemes source.now) }
    requires stops { Stops (operand_rank level) (drop at (source_lexemes source.now)) }
    ensures { Outcome 0 (Productions.links level) (λ rest. links_of
        (map (λ l. (l.op, l.place, tree l.arg)) rest)) (source_lexemes source.now) at result }
{
    let mut here = at;
    let mut rest = Items::new(source.alloc());
    while let Some(((token, op), after)) = sign(source, here, level) {
        let (arg, end) = operand(source, after, level)?;
        push(
            &mut rest,
            Link {
                op,
                place: token.place,
                arg,
            },
        )?;
        here = end;
    }
    Ok((rest, here))
}

/// A comparison of two sums, or one sum.
#[cycle(expression)]
fn comparison(source: &Source, at: usize) -> Parsed<Expr>
    requires { at ≤ length (source_lexemes source.now) }
    ensures { Outcome 1 (expressions comparison_rank) tree (source_lexemes source.now) at result }
{
    let (left, at) = chain(source, at, Level::Sum)?;
    let (second, at) = comparison_tail(source, at)?;
    let Some((token, rel, right)) = second else {
        return Ok((left, at));
    };
    let left = source.boxed(left)?;
    let right = source.boxed(right)?;
    Ok((
        Expr::Compare {
            place: token.place,
            rel,
            left,
            right,
        },
        at,
    ))
}

/// The comparison operator and the second sum, if any. A comparison is not compared.
#[cycle(expression)]
fn comparison_tail(source: &Source, at: usize) -> Parsed<Option<(Token, Rel, Expr)>>
    requires within { at ≤ length (source_lexemes source.now) }
    requires stops { Stops (chain_rank Sum) (drop at (source_lexemes source.now)) }
    ensures { Outcome 0 seconds (option_map (λ x. ((source_lexeme source.now x.0, x.1), tree x.2)))
        (source_lexemes source.now) at result }
{
    let Some(((token, relation), after)) = rel(source, at) else {
        return Ok((None, at));
    };
    let (right, end) = chain(source, after, Level::Sum)?;
    match rel(source, end) {
        None => Ok((Some((token, relation, right)), end)),
        Some(_) => Err(Refused::Fault(end)),
    }
}

/// An expression after any number of prefix operators.
#[cycle(expression)]
fn prefix_expression(source: &Source, at: usize) -> Parsed<Expr>
    requires { at ≤ length (source_lexemes source.now) }
    ensures { Outcome 1 (expressions prefix_rank) tree (source_lexemes source.now) at result }
{
    if source.is(at, MINUS) {
        return negation(source, at);
    }
    if source.is(at, BANG) {
        return logical_not(source, at);
    }
    primary_expression(source, at)
}

/// An expression after `-`.
#[cycle(expression)]
fn negation(source: &Source, at: usize) -> Parsed<Expr>
    requires { at ≤ length (source_lexemes source.now) }
    ensures { Outcome 1 negations tree (source_lexemes source.now) at result }
{
    let (token, at) = source.expect(at, MINUS)?;
    let (arg, at) = prefix_expression(source, at)?;
    let arg = source.boxed(arg)?;
    Ok((
        Expr::Neg {
            place: token.place,
            arg,
        },
        at,
    ))
}

/// An expression after `!`.
#[cycle(expression)]
fn logical_not(source: &Source, at: usize) -> Parsed<Expr>
    requires { at ≤ length (source_lexemes source.now) }
    ensures { Outcome 1 logical_nots tree (source_lexemes source.now) at result }
{
    let (token, at) = source.expect(at, BANG)?;
    let (arg, at) = prefix_expression(source, at)?;
    let arg = source.boxed(arg)?;
    Ok((
        Expr::Not {
            place: token.place,
            arg,
        },
        at,
    ))
}

/// A primary expression. No opening bracket follows it.
#[cycle(expression)]
fn primary_expression(source: &Source, at: usize) -> Parsed<Expr>
    requires { at ≤ length (source_lexemes source.now) }
    ensures { Outcome 1 (expressions primary_rank) tree (source_lexemes source.now) at result }
{
    let (e, end) = value(source, at)?;
    if source.is(end, OPEN_BRACKET) {
        return Err(Refused::Fault(end));
    }
    Ok((e, end))
}

/// A number, a name, a field, a call or an expression in brackets, whatever token follows.
#[cycle(expression)]
fn value(source: &Source, at: usize) -> Parsed<Expr>
    requires { at ≤ length (source_lexemes source.now) }
    ensures { Settled (expressions primary_rank) tree (source_lexemes source.now) at result }
{
    if source.is(at, TokenKind::Name) {
        return name(source, at);
    }
    if source.is(at, TOWARDS) {
        return towards(source, at);
    }
    if source.is(at, OPEN_BRACKET) {
        return bracketed_expression(source, at);
    }
    match fun(source, at) {
        Some(_) => call(source, at),
        None => number(source, at),
    }
}

/// A number.
fn number(source: &Source, at: usize) -> Parsed<Expr>
    requires { at ≤ length (source_lexemes source.now) }
    ensures { Outcome 1 numbers tree (source_lexemes source.now) at result }
{
    match digits(source, at) {
        Some(((token, value), end)) => Ok((literal(token.place, value), end)),
        None => Err(Refused::Fault(at)),
    }
}

/// A number as an expression.
fn literal(place: Place, value: i64) -> Expr
    ensures { tree result ≡ Tree.Number place value }
{
    Expr::Number { place, value }
}

/// A name, or a field with its argument.
#[cycle(expression)]
fn name(source: &Source, at: usize) -> Parsed<Expr>
    requires { at ≤ length (source_lexemes source.now) }
    ensures { Outcome 1 names tree (source_lexemes source.now) at result }
{
    let (token, at) = source.expect(at, TokenKind::Name)?;
    let (arg, at) = argument(source, at)?;
    let (place, name) = (token.place, source.name(token)?);
    let Some(arg) = arg else {
        return Ok((Expr::Name { place, name }, at));
    };
    let arg = source.boxed(arg)?;
    Ok((Expr::Field { place, name, arg }, at))
}

/// An argument in brackets, if there is one. No opening bracket follows it.
#[cycle(expression)]
pub(crate) fn argument(source: &Source, at: usize) -> Parsed<Option<Expr>>
    requires { at ≤ length (source_lexemes source.now) }
    ensures { Outcome 0 arguments (option_map tree) (source_lexemes source.now) at result }
{
    if !source.is(at, OPEN_BRACKET) {
        return Ok((None, at));
    }
    let (e, end) = bracketed_expression(source, at)?;
    if source.is(end, OPEN_BRACKET) {
        return Err(Refused::Fault(end));
    }
    Ok((Some(e), end))
}

/// A function of an element.
#[cycle(expression)]
fn call(source: &Source, at: usize) -> Parsed<Expr>
    requires { at ≤ length (source_lexemes source.now) }
    ensures { Outcome 1 calls tree (source_lexemes source.now) at result }
{
    let Some(((token, fun), at)) = fun(source, at) else {
        return Err(Refused::Fault(at));
    };
    let (arg, at) = bracketed_expression(source, at)?;
    let arg = source.boxed(arg)?;
    Ok((
        Expr::Call {
            place: token.place,
            fun,
            arg,
        },
        at,
    ))
}

/// An orientation of an element, towards another.
#[cycle(expression)]
fn towards(source: &Source, at: usize) -> Parsed<Expr>
    requires { at ≤ length (source_lexemes source.now) }
    ensures { Outcome 1 orientations tree (source_lexemes source.now) at result }
{
    let (word, at) = source.expect(at, TOWARDS)?;
    let (_, at) = source.expect(at, OPEN_BRACKET)?;
    let (arg, at) = expression(source, at)?;
    let (_, at) = source.expect(at, COMMA)?;
    let (to, at) = expression(source, at)?;
    let (_, at) = source.expect(at, CLOSE_BRACKET)?;
    let arg = source.boxed(arg)?;
    let to = source.boxed(to)?;
    Ok((
        Expr::Towards {
            place: word.place,
            arg,
            to,
        },
        at,
    ))
}

/// An expression in brackets.
#[cycle(expression)]
pub(crate) fn bracketed_expression(source: &Source, at: usize) -> Parsed<Expr>
    requires { at ≤ length (source_lexemes source.now) }
    ensures { Outcome 1 brackets tree (source_lexemes source.now) at result }
{
    let (_, at) = source.expect(at, OPEN_BRACKET)?;
    let (e, at) = expression(source, at)?;
    let (_, at) = source.expect(at, CLOSE_BRACKET)?;
    Ok((e, at))
}
