//! The items of a main program, read like the statements of a body.

ghost use Rattle.std.specs.Prelude.{◌≤◌, length, map};
ghost use Rattle.std.specs.Option.{option_map};
ghost use Rattle.liszt_tree.specs.Tree.{item_tree, main_of};
ghost use Rattle.liszt_parser.specs.Internal.Productions.{comprehensions, fields, main_assignments, main_blocks, main_branches, main_elses, main_items, main_repetitions, main_variables, mains, prints};
ghost use Rattle.liszt_parser.specs.Internal.Reading.{Outcome, Settled};
ghost use Rattle.liszt_parser.specs.Internal.Sources.{source_lexemes};

use crate::choices::{how, kind, mesh_set};
use crate::expression::bracketed_expression;
use crate::kinds::{
    ARROW, CLOSE_BRACE, CLOSE_BRACKET, COLON, ELSE, FIELD, FOR, IF, MESH, OPEN_BRACE, OPEN_BRACKET,
    PRINT, SET_TO, VAR, WHILE,
};
use crate::source::{Parsed, Source};
use crate::statement::{block, closed_expression, declaration, ends};
use crate::tokens::push;
use liszt_base::Refused;
use liszt_lexer::TokenKind;
use liszt_tree::{Item, ItemList};
use sqlite_items::Items;

/// An item. Only an `if` may be followed by `else`.
#[cycle(item)]
fn item(source: &Source, at: usize) -> Parsed<Item>
    requires { at ≤ length (source_lexemes source.now) }
    ensures { Outcome 1 main_items item_tree (source_lexemes source.now) at result }
{
    let (i, end) = item_by_token(source, at)?;
    if source.is(end, ELSE) {
        return Err(Refused::Fault(end));
    }
    Ok((i, end))
}

/// An item, by its first token, whatever token follows the item.
#[cycle(item)]
fn item_by_token(source: &Source, at: usize) -> Parsed<Item>
    requires { at ≤ length (source_lexemes source.now) }
    ensures { Settled main_items item_tree (source_lexemes source.now) at result }
{
    if source.is(at, FIELD) {
        return field(source, at);
    }
    if source.is(at, VAR) {
        return variable(source, at);
    }
    if source.is(at, IF) {
        return conditional(source, at);
    }
    if source.is(at, WHILE) {
        return repetition(source, at);
    }
    if source.is(at, FOR) {
        return comprehension(source, at);
    }
    if source.is(at, PRINT) {
        return output(source, at);
    }
    assignment(source, at)
}

/// A field.
fn field(source: &Source, at: usize) -> Parsed<Item>
    requires { at ≤ length (source_lexemes source.now) }
    ensures { Outcome 1 fields item_tree (source_lexemes source.now) at result }
{
    let (word, at) = source.expect(at, FIELD)?;
    let (name, at) = source.expect(at, TokenKind::Name)?;
    let (_, at) = source.expect(at, COLON)?;
    let Some(((_, kind), at)) = kind(source, at) else {
        return Err(Refused::Fault(at));
    };
    let (_, at) = source.expect(at, SET_TO)?;
    let (init, end) = closed_expression(source, at)?;
    let (place, at, name) = (word.place, name.place, source.name(name)?);
    Ok((
        Item::Field {
            place,
            name,
            at,
            kind,
            init,
        },
        end,
    ))
}

/// A `var`.
fn variable(source: &Source, at: usize) -> Parsed<Item>
    requires { at ≤ length (source_lexemes source.now) }
    ensures { Outcome 1 main_variables item_tree (source_lexemes source.now) at result }
{
    let ((word, name, init), end) = declaration(source, at, VAR)?;
    let (place, at, name) = (word.place, name.place, source.name(name)?);
    Ok((
        Item::Var {
            place,
            name,
            at,
            init,
        },
        end,
    ))
}

/// An assignment.
fn assignment(source: &Source, at: usize) -> Parsed<Item>
    requires { at ≤ length (source_lexemes source.now) }
    ensures { Outcome 1 main_assignments item_tree (source_lexemes source.now) at result }
{
    let (word, at) = source.expect(at, TokenKind::Name)?;
    let Some(((_, how), at)) = how(source, at) else {
        return Err(Refused::Fault(at));
    };
    let (value, at) = closed_expression(source, at)?;
    let (place, name) = (word.place, source.name(word)?);
    Ok((
        Item::Assign {
            place,
            name,
            how,
            value,
        },
        at,
    ))
}

/// A `print`.
fn output(source: &Source, at: usize) -> Parsed<Item>
    requires { at ≤ length (source_lexemes source.now) }
    ensures { Outcome 1 prints item_tree (source_lexemes source.now) at result }
{
    let (word, at) = source.expect(at, PRINT)?;
    let (value, at) = closed_expression(source, at)?;
    Ok((
        Item::Print {
            place: word.place,
            value,
        },
        at,
    ))
}

/// An `if` with or without `else`.
#[cycle(item)]
fn conditional(source: &Source, at: usize) -> Parsed<Item>
    requires { at ≤ length (source_lexemes source.now) }
    ensures { Outcome 1 main_branches item_tree (source_lexemes source.now) at result }
{
    let (word, at) = source.expect(at, IF)?;
    let (test, at) = bracketed_expression(source, at)?;
    let (yes, at) = main_block(source, at)?;
    let (no, at) = else_block(source, at)?;
    let place = word.place;
    match no {
        None => {
            let no = Items::new(source.alloc());
            Ok((
                Item::If {
                    place,
                    test,
                    yes,
                    no,
                    has_else: false,
                },
                at,
            ))
        }
        Some(no) => Ok((
            Item::If {
                place,
                test,
                yes,
                no,
                has_else: true,
            },
            at,
        )),
    }
}

/// An `else` and its block, if there is one. No `else` follows it.
#[cycle(item)]
fn else_block(source: &Source, at: usize) -> Parsed<Option<ItemList>>
    requires { at ≤ length (source_lexemes source.now) }
    ensures { Outcome 0 main_elses (option_map (λ b. main_of (map item_tree b)))
        (source_lexemes source.now) at result }
{
    if !source.is(at, ELSE) {
        return Ok((None, at));
    }
    let (_, at) = source.expect(at, ELSE)?;
    let (body, end) = main_block(source, at)?;
    if source.is(end, ELSE) {
        return Err(Refused::Fault(end));
    }
    Ok((Some(body), end))
}

/// A `while`.
#[cycle(item)]
fn repetition(source: &Source, at: usize) -> Parsed<Item>
    requires { at ≤ length (source_lexemes source.now) }
    ensures { Outcome 1 main_repetitions item_tree (source_lexemes source.now) at result }
{
    let (word, at) = source.expect(at, WHILE)?;
    let (test, at) = bracketed_expression(source, at)?;
    let (body, at) = main_block(source, at)?;
    Ok((
        Item::While {
            place: word.place,
            test,
            body,
        },
        at,
    ))
}

/// A comprehension, a `for` over all elements of a kind.
fn comprehension(source: &Source, at: usize) -> Parsed<Item>
    requires { at ≤ length (source_lexemes source.now) }
    ensures { Outcome 1 comprehensions item_tree (source_lexemes source.now) at result }
{
    let (word, at) = source.expect(at, FOR)?;
    let (_, at) = source.expect(at, OPEN_BRACKET)?;
    let (name, at) = source.expect(at, TokenKind::Name)?;
    let (_, at) = source.expect(at, ARROW)?;
    let Some(((_, over), at)) = mesh_set(source, at) else {
        return Err(Refused::Fault(at));
    };
    let (_, at) = source.expect(at, OPEN_BRACKET)?;
    let (_, at) = source.expect(at, MESH)?;
    let (_, at) = source.expect(at, CLOSE_BRACKET)?;
    let (_, at) = source.expect(at, CLOSE_BRACKET)?;
    let (body, end) = block(source, at)?;
    let (place, at, name) = (word.place, name.place, source.name(name)?);
    Ok((
        Item::For {
            place,
            name,
            at,
            over,
            body,
        },
        end,
    ))
}

/// Items up to `}` or the end.
#[cycle(item)]
pub(crate) fn items(source: &Source, at: usize) -> Parsed<ItemList>
    requires { at ≤ length (source_lexemes source.now) }
    ensures { Outcome 0 mains (λ b. main_of (map item_tree b))
        (source_lexemes source.now) at result }
{
    let mut here = at;
    let mut items = Items::new(source.alloc());
    while !ends(source, here) {
        let (i, end) = item(source, here)?;
        push(&mut items, i)?;
        here = end;
    }
    Ok((items, here))
}

/// Items in braces.
#[cycle(item)]
fn main_block(source: &Source, at: usize) -> Parsed<ItemList>
    requires { at ≤ length (source_lexemes source.now) }
    ensures { Outcome 1 main_blocks (λ b. main_of (map item_tree b))
        (source_lexemes source.now) at result }
{
    let (_, at) = source.expect(at, OPEN_BRACE)?;
    let (items, at) = items(source, at)?;
    let (_, at) = source.expect(at, CLOSE_BRACE)?;
    Ok((items, at))
}
