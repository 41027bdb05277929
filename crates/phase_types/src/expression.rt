//! Expressions of a tree, resolved.

ghost use Rattle.std.specs.Prelude.{◌≡◌, map};
ghost use Rattle.liszt_base.specs.Gives.{Gives};
ghost use Rattle.liszt_tree.specs.Tree.{expression, links_of, Call, Neg, Not};
ghost use Rattle.phase_types.specs.Internal.Results.{paired, resolved_field, state_of};
ghost use Rattle.phase_types.specs.Resolve as Resolve;
ghost use Rattle.phase_types.specs.Walk as Walk;
ghost use Rattle.phase_types.specs.declared.resolution.TypedCode.TheVariants as Typed;
ghost use Rattle.resolved_code.specs.declared.expressions.NumberCode.TheVariants as number;

use crate::names::Names;
use crate::resolution::{ChainCode, Resolution, TypedCode};
use crate::values::{
    Resolved, boxed, called_code, comparison_code, element_in, element_of_kind, extended_chain,
    fails, first_of_chain, is_same_mode, named_field, number_in, towards_code, truth_in,
    whole_chain,
};
use liszt_base::{Kind, Mode, Place, ProgramFault, ProgramWhat, Refused};
use liszt_tree::{Expr, Fun, Link};
use resolved_code::{AccessAt, ElementCode, FirstAccesses, NumberCode, Subject, TruthCode};
use std::alloc::Global;

/// The place of an expression.
pub fn place_of(e: &Expr) -> Place
    ensures { result ≡ Walk.place_of (expression e.now) }
{
    match e {
        Expr::Number { place, .. } => *place,
        Expr::Name { place, .. } => *place,
        Expr::Field { place, .. } => *place,
        Expr::Call { place, .. } => *place,
        Expr::Towards { place, .. } => *place,
        Expr::Neg { place, .. } => *place,
        Expr::Not { place, .. } => *place,
        Expr::Chain { first, rest, .. } => match rest.as_slice() {
            [] => place_of(first.get()),
            [link, ..] => link.place,
        },
        Expr::Compare { place, .. } => *place,
    }
}

/// Notes an access in a comprehension. The fault is a conflict with the first access to the same field or scalar.
pub fn note_access(
    accesses: &mut Option<FirstAccesses>,
    subject: Subject,
    mode: Mode,
    place: Place,
) -> Resolved<()>
    ensures { Gives (Resolve.with_access accesses.old subject mode place)
        (state_of result accesses.new) }
{
    let Some(firsts) = accesses else {
        return Ok(());
    };
    let Some(first) = firsts.first(subject) else {
        return match firsts.add(AccessAt {
            subject,
            mode,
            place,
        }) {
            Ok(()) => Ok(()),
            Err(_) => Err(Refused::NoMemory),
        };
    };
    if is_same_mode(mode, first.mode) {
        return Ok(());
    }
    Err(Refused::Fault(ProgramFault {
        what: ProgramWhat::PhaseConflict,
        place,
        first: Some(first.place),
    }))
}

/// A name without an argument.
fn resolve_name(
    accesses: &mut Option<FirstAccesses>,
    place: Place,
    found: Option<Resolution>,
) -> Resolved<TypedCode>
    ensures { Gives (Resolve.resolved_name place accesses.old found)
        (paired result accesses.new) }
{
    match found {
        None => fails(ProgramWhat::NameUnknown, place),
        Some(Resolution::Field { .. }) => fails(ProgramWhat::TypeMismatch, place),
        Some(Resolution::Scalar { scalar }) => {
            note_access(accesses, Subject::Scalar(scalar), Mode::Read, place)?;
            Ok(TypedCode::Number {
                code: NumberCode::Scalar { scalar },
            })
        }
        Some(Resolution::Number { slot }) => Ok(TypedCode::Number {
            code: NumberCode::Local { slot },
        }),
        Some(Resolution::Element { slot, kind }) => Ok(TypedCode::Element {
            kind,
            code: ElementCode::Slot { slot },
        }),
    }
}

/// A number as it is written.
fn constant(value: i64) -> TypedCode
    ensures { result ≡ Typed.Number (number.Constant value) }
{
    TypedCode::Number {
        code: NumberCode::Constant { value },
    }
}

/// An expression with the visible names, with its accesses added.
#[cycle(resolve)]
pub fn resolve_expression(
    alloc: Global,
    names: &Names,
    accesses: &mut Option<FirstAccesses>,
    e: &Expr,
) -> Resolved<TypedCode>
    ensures { Gives (Resolve.resolved_expression names.now accesses.old (expression e.now))
        (paired result accesses.new) }
{
    match e {
        Expr::Number { value, .. } => Ok(constant(*value)),
        Expr::Name { place, name } => {
            resolve_name(accesses, *place, names.resolution(name.as_slice()))
        }
        Expr::Field { place, name, arg } => {
            let found = names.resolution(name.as_slice());
            resolve_field(alloc, names, accesses, *place, found, arg.get())
        }
        Expr::Call { place, fun, arg } => {
            resolve_call(alloc, names, accesses, *place, *fun, arg.get())
        }
        Expr::Towards { place, arg, to } => {
            let first = resolve_expression(alloc, names, accesses, arg.get())?;
            let second = resolve_expression(alloc, names, accesses, to.get())?;
            towards_code(alloc, *place, first, second)
        }
        Expr::Neg { place, arg } => resolve_negation(alloc, names, accesses, *place, arg.get()),
        Expr::Not { place, arg } => resolve_inversion(alloc, names, accesses, *place, arg.get()),
        Expr::Chain { first, rest, .. } => {
            let operand = resolve_expression(alloc, names, accesses, first.get())?;
            let chain = first_of_chain(alloc, operand);
            resolve_links(alloc, names, accesses, chain, rest.as_slice())
        }
        Expr::Compare {
            place,
            rel,
            left,
            right,
        } => {
            let first = resolve_expression(alloc, names, accesses, left.get())?;
            let second = resolve_expression(alloc, names, accesses, right.get())?;
            comparison_code(*place, *rel, first, second)
        }
    }
}

/// A call of a function.
#[cycle(resolve)]
fn resolve_call(
    alloc: Global,
    names: &Names,
    accesses: &mut Option<FirstAccesses>,
    place: Place,
    fun: Fun,
    arg: &Expr,
) -> Resolved<TypedCode>
    ensures { Gives (Resolve.resolved_expression names.now accesses.old
        (Call place fun (expression arg.now))) (paired result accesses.new) }
{
    let operand = resolve_expression(alloc, names, accesses, arg)?;
    called_code(alloc, place, fun, operand)
}

/// The negation of an expression.
#[cycle(resolve)]
fn resolve_negation(
    alloc: Global,
    names: &Names,
    accesses: &mut Option<FirstAccesses>,
    place: Place,
    arg: &Expr,
) -> Resolved<TypedCode>
    ensures { Gives (Resolve.resolved_expression names.now accesses.old
        (Neg place (expression arg.now))) (paired result accesses.new) }
{
    let operand = resolve_expression(alloc, names, accesses, arg)?;
    negated(alloc, place, operand)
}

/// The logical negation of an expression.
#[cycle(resolve)]
fn resolve_inversion(
    alloc: Global,
    names: &Names,
    accesses: &mut Option<FirstAccesses>,
    place: Place,
    arg: &Expr,
) -> Resolved<TypedCode>
    ensures { Gives (Resolve.resolved_expression names.now accesses.old
        (Not place (expression arg.now))) (paired result accesses.new) }
{
    let operand = resolve_expression(alloc, names, accesses, arg)?;
    inverted(alloc, place, operand)
}

/// A field at an argument, by what its name denotes.
#[cycle(resolve)]
fn resolve_field(
    alloc: Global,
    names: &Names,
    accesses: &mut Option<FirstAccesses>,
    place: Place,
    found: Option<Resolution>,
    arg: &Expr,
) -> Resolved<TypedCode>
    ensures { Gives (resolved_field names.now accesses.old place found (expression arg.now))
        (paired result accesses.new) }
{
    let (field, kind) = named_field(place, found)?;
    let operand = resolve_expression(alloc, names, accesses, arg)?;
    let target = element_of_kind(kind, place, operand)?;
    note_access(accesses, Subject::Field(field), Mode::Read, place)?;
    Ok(TypedCode::Number {
        code: NumberCode::Field {
            place,
            field,
            arg: target,
        },
    })
}

/// The further operands of a chain.
#[cycle(resolve)]
fn resolve_links(
    alloc: Global,
    names: &Names,
    accesses: &mut Option<FirstAccesses>,
    chain: ChainCode,
    links: &[Link],
) -> Resolved<TypedCode>
    ensures { Gives (Resolve.resolved_links names.now accesses.old chain
        (links_of (map (λ l. (l.op, l.place, expression l.arg)) links.now)))
        (paired result accesses.new) }
{
    let mut done = chain;
    for link in links {
        let operand = resolve_expression(alloc, names, accesses, &link.arg)?;
        done = extended_chain(link.place, link.op, done, operand)?;
    }
    whole_chain(alloc, done)
}

/// The negation of a value.
fn negated(alloc: Global, place: Place, operand: TypedCode) -> Resolved<TypedCode>
    ensures { Gives (Resolve.negated place operand) result }
{
    let arg = number_in(place, operand)?;
    let arg = boxed(alloc, arg)?;
    Ok(TypedCode::Number {
        code: NumberCode::Neg { place, arg },
    })
}

/// The logical negation of a value.
fn inverted(alloc: Global, place: Place, operand: TypedCode) -> Resolved<TypedCode>
    ensures { Gives (Resolve.inverted place operand) result }
{
    let arg = truth_in(place, operand)?;
    let arg = boxed(alloc, arg)?;
    Ok(TypedCode::Truth {
        code: TruthCode::Not { arg },
    })
}

/// An expression that has to be a number.
pub fn resolve_number(
    alloc: Global,
    names: &Names,
    accesses: &mut Option<FirstAccesses>,
    e: &Expr,
) -> Resolved<NumberCode>
    ensures { Gives (Resolve.resolved_number names.now accesses.old (expression e.now))
        (paired result accesses.new) }
{
    let operand = resolve_expression(alloc, names, accesses, e)?;
    number_in(place_of(e), operand)
}

/// An expression that has to be a truth value.
pub fn resolve_truth(
    alloc: Global,
    names: &Names,
    accesses: &mut Option<FirstAccesses>,
    e: &Expr,
) -> Resolved<TruthCode>
    ensures { Gives (Resolve.resolved_truth names.now accesses.old (expression e.now))
        (paired result accesses.new) }
{
    let operand = resolve_expression(alloc, names, accesses, e)?;
    truth_in(place_of(e), operand)
}

/// An expression that has to be an element.
pub fn resolve_element(
    alloc: Global,
    names: &Names,
    accesses: &mut Option<FirstAccesses>,
    e: &Expr,
) -> Resolved<(Kind, ElementCode)>
    ensures { Gives (Resolve.resolved_element names.now accesses.old (expression e.now))
        (paired result accesses.new) }
{
    let operand = resolve_expression(alloc, names, accesses, e)?;
    element_in(place_of(e), operand)
}
