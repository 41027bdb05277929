//! Values of expressions by their types: checks, calls, operators and chains.

ghost use Rattle.std.specs.Prelude.{◌≡◌, ◌∷◌, ◌++◌, [], Ok, Err, OnOk};
ghost use Rattle.liszt_base.specs.Gives.{Gives};
ghost use Rattle.liszt_base.specs.declared.answers.Refused.TheVariants.{Fault};
ghost use Rattle.liszt_base.specs.Kinds as Kinds;
ghost use Rattle.phase_types.specs.Resolve as Resolve;
ghost use Rattle.phase_types.specs.Types as Types;
ghost use Rattle.phase_types.specs.Walk as Walk;
ghost use Rattle.phase_types.specs.Walk.{fault_at, is_mode};
ghost use Rattle.phase_types.specs.declared.resolution.TypedCode.TheVariants as Typed;
ghost use Rattle.phase_types.specs.declared.resolution.ChainCode.TheVariants as Chain;
ghost use Rattle.resolved_code.specs.declared.expressions.ElementCode.TheVariants as Element;

use crate::resolution::{ChainCode, Resolution, TypedCode};
use liszt_base::{Kind, Mode, NoMemory, Op, Place, ProgramFault, ProgramWhat, Refused, SetName};
use liszt_tree::{Fun, Rel, Sign};
use resolved_code::{
    Arithmetic, Connective, ElementCode, ElementFun, NumberCode, NumberLink, TruthCode, TruthLink,
};
use sqlite_items::{Boxed, Items};
use std::alloc::Global;

/// A value, a fault of the program, or out of memory.
pub type Resolved<T> = Result<T, Refused<ProgramFault>>;

/// A fault at a place.
pub fn fails<T>(what: ProgramWhat, place: Place) -> Resolved<T>
    ensures { result ≡ Err (Fault (fault_at what place)) }
{
    Err(Refused::Fault(ProgramFault {
        what,
        place,
        first: None,
    }))
}

/// A value on the heap, as a part of another one.
pub fn boxed<T: Drop>(alloc: Global, value: T) -> Resolved<Boxed<T>>
    ensures { Gives (Ok value) result }
{
    match Boxed::new(alloc, value) {
        Ok(value) => Ok(value),
        Err(_) => Err(Refused::NoMemory),
    }
}

/// Appends an item to a list.
pub fn push<T: Drop>(items: &mut Items<T>, item: T) -> Result<(), NoMemory>
    ensures { OnOk result (items.new ≡ items.old ++ item ∷ []) }
{
    items.push(item)?;
    Ok(())
}

/// Whether two kinds are one.
pub fn is_kind(kind: Kind, other: Kind) -> bool
    ensures { result ≡ Kinds.is_kind kind other }
{
    match (kind, other) {
        (Kind::Vertex, Kind::Vertex) => true,
        (Kind::Edge, Kind::Edge) => true,
        (Kind::Face, Kind::Face) => true,
        (Kind::Cell, Kind::Cell) => true,
        _ => false,
    }
}

/// Whether two operators are one.
fn is_op(op: Op, other: Op) -> bool
    ensures { result ≡ Walk.is_op op other }
{
    match (op, other) {
        (Op::Add, Op::Add) => true,
        (Op::Mul, Op::Mul) => true,
        (Op::And, Op::And) => true,
        (Op::Or, Op::Or) => true,
        (Op::Xor, Op::Xor) => true,
        (Op::Min, Op::Min) => true,
        (Op::Max, Op::Max) => true,
        _ => false,
    }
}

/// Whether two modes are one.
pub fn is_same_mode(mode: Mode, other: Mode) -> bool
    ensures { result ≡ is_mode mode other }
{
    match (mode, other) {
        (Mode::Read, Mode::Read) => true,
        (Mode::Write, Mode::Write) => true,
        (Mode::Reduce(op), Mode::Reduce(other)) => is_op(op, other),
        _ => false,
    }
}

/// Whether elements of a kind have a set.
fn has_set(kind: Kind, set: SetName) -> bool
    ensures { result ≡ Kinds.has_set kind set }
{
    match (kind, set) {
        (Kind::Edge, SetName::Edges) => false,
        (Kind::Face, SetName::Faces) => false,
        (Kind::Face, SetName::EdgesCcw) => true,
        (_, SetName::EdgesCcw) => false,
        _ => true,
    }
}

/// The kind of the members of a set.
pub fn kind_of(set: SetName) -> Kind
    ensures { result ≡ Kinds.kind_of set }
{
    match set {
        SetName::Vertices => Kind::Vertex,
        SetName::Edges | SetName::EdgesCcw => Kind::Edge,
        SetName::Faces => Kind::Face,
        SetName::Cells => Kind::Cell,
    }
}

/// A number, or a type mismatch.
pub fn number_in(place: Place, value: TypedCode) -> Resolved<NumberCode>
    ensures { Gives (Resolve.number_in place value) result }
{
    match value {
        TypedCode::Number { code } => Ok(code),
        _ => fails(ProgramWhat::TypeMismatch, place),
    }
}

/// A truth value, or a type mismatch.
pub fn truth_in(place: Place, value: TypedCode) -> Resolved<TruthCode>
    ensures { Gives (Resolve.truth_in place value) result }
{
    match value {
        TypedCode::Truth { code } => Ok(code),
        _ => fails(ProgramWhat::TypeMismatch, place),
    }
}

/// An element with its kind, or a type mismatch.
pub fn element_in(place: Place, value: TypedCode) -> Resolved<(Kind, ElementCode)>
    ensures { Gives (Resolve.element_in place value) result }
{
    match value {
        TypedCode::Element { kind, code } => Ok((kind, code)),
        _ => fails(ProgramWhat::TypeMismatch, place),
    }
}

/// An element of a kind, or a type mismatch.
pub fn element_of_kind(kind: Kind, place: Place, value: TypedCode) -> Resolved<ElementCode>
    ensures { Gives (Resolve.element_of_kind kind place value) result }
{
    match value {
        TypedCode::Element { kind: other, code } => {
            if is_kind(kind, other) {
                Ok(code)
            } else {
                fails(ProgramWhat::TypeMismatch, place)
            }
        }
        _ => fails(ProgramWhat::TypeMismatch, place),
    }
}

/// An element that has a set, or a type mismatch.
pub fn element_with_set(set: SetName, place: Place, value: TypedCode) -> Resolved<ElementCode>
    ensures { Gives (Resolve.element_with_set set place value) result }
{
    match value {
        TypedCode::Element { kind, code } => {
            if has_set(kind, set) {
                Ok(code)
            } else {
                fails(ProgramWhat::TypeMismatch, place)
            }
        }
        _ => fails(ProgramWhat::TypeMismatch, place),
    }
}

/// The field that a name with an argument denotes.
pub fn named_field(place: Place, found: Option<Resolution>) -> Resolved<(u32, Kind)>
    ensures { Gives (Resolve.named_field place found) result }
{
    match found {
        None => fails(ProgramWhat::NameUnknown, place),
        Some(Resolution::Field { field, kind }) => Ok((field, kind)),
        Some(_) => fails(ProgramWhat::TypeMismatch, place),
    }
}

/// A call of a function that gives an element.
fn element_call(alloc: Global, kind: Kind, fun: ElementFun, arg: ElementCode) -> Resolved<TypedCode>
    ensures { Gives (Ok (Typed.Element kind (Element.Call fun arg))) result }
{
    let arg = boxed(alloc, arg)?;
    Ok(TypedCode::Element {
        kind,
        code: ElementCode::Call { fun, arg },
    })
}

/// A call of a function with a value.
pub fn called_code(alloc: Global, place: Place, fun: Fun, value: TypedCode) -> Resolved<TypedCode>
    ensures { Gives (Resolve.called_code place fun value) result }
{
    let TypedCode::Element { kind, code } = value else {
        return fails(ProgramWhat::TypeMismatch, place);
    };
    match (fun, kind) {
        (Fun::Head, Kind::Edge) => element_call(alloc, Kind::Vertex, ElementFun::Head, code),
        (Fun::Tail, Kind::Edge) => element_call(alloc, Kind::Vertex, ElementFun::Tail, code),
        (Fun::Inside, Kind::Face) => element_call(alloc, Kind::Cell, ElementFun::Inside, code),
        (Fun::Outside, Kind::Face) => element_call(alloc, Kind::Cell, ElementFun::Outside, code),
        (Fun::Flip, Kind::Edge) => element_call(alloc, Kind::Edge, ElementFun::Flip, code),
        (Fun::Flip, Kind::Face) => element_call(alloc, Kind::Face, ElementFun::Flip, code),
        (Fun::Valid, _) => Ok(TypedCode::Truth {
            code: TruthCode::Valid { arg: code },
        }),
        (Fun::Id, _) => Ok(TypedCode::Number {
            code: NumberCode::Id { place, arg: code },
        }),
        _ => fails(ProgramWhat::TypeMismatch, place),
    }
}

/// Whether `towards` takes elements of these kinds.
fn are_towards_kinds(kind: Kind, other: Kind) -> bool
    ensures { result ≡ Types.are_towards_kinds kind other }
{
    matches!(
        (kind, other),
        (Kind::Edge, Kind::Vertex) | (Kind::Face, Kind::Cell)
    )
}

/// An orientation of an element towards another.
pub fn towards_code(
    alloc: Global,
    place: Place,
    first: TypedCode,
    second: TypedCode,
) -> Resolved<TypedCode>
    ensures { Gives (Resolve.towards_code place first second) result }
{
    let TypedCode::Element { kind, code: arg } = first else {
        return fails(ProgramWhat::TypeMismatch, place);
    };
    let TypedCode::Element {
        kind: other,
        code: to,
    } = second
    else {
        return fails(ProgramWhat::TypeMismatch, place);
    };
    if !are_towards_kinds(kind, other) {
        return fails(ProgramWhat::TypeMismatch, place);
    }
    let arg = boxed(alloc, arg)?;
    let to = boxed(alloc, to)?;
    Ok(TypedCode::Element {
        kind,
        code: ElementCode::Towards { arg, to },
    })
}

/// Whether a comparison also takes elements.
fn is_sameness(rel: Rel) -> bool
    ensures { result ≡ Types.is_sameness rel }
{
    matches!(rel, Rel::Same | Rel::Other)
}

/// Whether a comparison is `==`.
fn is_equality(rel: Rel) -> bool
    ensures { result ≡ Resolve.is_equality rel }
{
    matches!(rel, Rel::Same)
}

/// A comparison of two values.
pub fn comparison_code(
    place: Place,
    rel: Rel,
    first: TypedCode,
    second: TypedCode,
) -> Resolved<TypedCode>
    ensures { Gives (Resolve.comparison_code place rel first second) result }
{
    match first {
        TypedCode::Number { code: left } => {
            let TypedCode::Number { code: right } = second else {
                return fails(ProgramWhat::TypeMismatch, place);
            };
            Ok(TypedCode::Truth {
                code: TruthCode::CompareNumbers { rel, left, right },
            })
        }
        TypedCode::Element { kind, code: left } => {
            let TypedCode::Element {
                kind: other,
                code: right,
            } = second
            else {
                return fails(ProgramWhat::TypeMismatch, place);
            };
            if !(is_sameness(rel) && is_kind(kind, other)) {
                return fails(ProgramWhat::TypeMismatch, place);
            }
            Ok(TypedCode::Truth {
                code: TruthCode::CompareElements {
                    is_equal: is_equality(rel),
                    left,
                    right,
                },
            })
        }
        TypedCode::Truth { .. } => fails(ProgramWhat::TypeMismatch, place),
    }
}

/// The operator between numbers that a sign is.
fn arithmetic_of(sign: Sign) -> Option<Arithmetic>
    ensures { result ≡ Resolve.arithmetic_of sign }
{
    match sign {
        Sign::Plus => Some(Arithmetic::Plus),
        Sign::Minus => Some(Arithmetic::Minus),
        Sign::Times => Some(Arithmetic::Times),
        Sign::Over => Some(Arithmetic::Over),
        Sign::Rest => Some(Arithmetic::Rest),
        Sign::Or | Sign::And => None,
    }
}

/// The operator between truth values that a sign is.
fn connective_of(sign: Sign) -> Option<Connective>
    ensures { result ≡ Resolve.connective_of sign }
{
    match sign {
        Sign::Or => Some(Connective::Or),
        Sign::And => Some(Connective::And),
        _ => None,
    }
}

/// The start of a chain by its first operand.
pub fn first_of_chain(alloc: Global, value: TypedCode) -> ChainCode
    ensures { result ≡ Resolve.first_of_chain value }
{
    match value {
        TypedCode::Number { code } => ChainCode::Numbers {
            first: code,
            rest: Items::new(alloc),
        },
        TypedCode::Truth { code } => ChainCode::Truths {
            first: code,
            rest: Items::new(alloc),
        },
        TypedCode::Element { kind, code } => ChainCode::Element { kind, code },
    }
}

/// The operand of a chain of numbers after a sign.
fn number_link(place: Place, sign: Sign, operand: TypedCode) -> Resolved<NumberLink>
    ensures { Gives (Resolve.number_operand place sign operand) result }
{
    let arg = number_in(place, operand)?;
    match arithmetic_of(sign) {
        Some(op) => Ok(NumberLink { op, place, arg }),
        None => fails(ProgramWhat::TypeMismatch, place),
    }
}

/// The operand of a chain of truth values after a sign.
fn truth_link(place: Place, sign: Sign, operand: TypedCode) -> Resolved<TruthLink>
    ensures { Gives (Resolve.truth_operand place sign operand) result }
{
    let arg = truth_in(place, operand)?;
    match connective_of(sign) {
        Some(op) => Ok(TruthLink { op, arg }),
        None => fails(ProgramWhat::TypeMismatch, place),
    }
}

/// A chain of numbers with a further operand.
fn longer_numbers(
    first: NumberCode,
    rest: Items<NumberLink>,
    next: NumberLink,
) -> Resolved<ChainCode>
    ensures { Gives (Ok (Chain.Numbers first (rest ++ next ∷ []))) result }
{
    let mut rest = rest;
    match push(&mut rest, next) {
        Ok(()) => Ok(ChainCode::Numbers { first, rest }),
        Err(NoMemory) => Err(Refused::NoMemory),
    }
}

/// A chain of truth values with a further operand.
fn longer_truths(first: TruthCode, rest: Items<TruthLink>, next: TruthLink) -> Resolved<ChainCode>
    ensures { Gives (Ok (Chain.Truths first (rest ++ next ∷ []))) result }
{
    let mut rest = rest;
    match push(&mut rest, next) {
        Ok(()) => Ok(ChainCode::Truths { first, rest }),
        Err(NoMemory) => Err(Refused::NoMemory),
    }
}

/// A chain with a further operand, after an operator at a place.
pub fn extended_chain(
    place: Place,
    sign: Sign,
    chain: ChainCode,
    operand: TypedCode,
) -> Resolved<ChainCode>
    ensures { Gives (Resolve.extended_chain place sign chain operand) result }
{
    match chain {
        ChainCode::Numbers { first, rest } => match number_link(place, sign, operand) {
            Ok(next) => longer_numbers(first, rest, next),
            Err(refused) => Err(refused),
        },
        ChainCode::Truths { first, rest } => match truth_link(place, sign, operand) {
            Ok(next) => longer_truths(first, rest, next),
            Err(refused) => Err(refused),
        },
        ChainCode::Element { .. } => fails(ProgramWhat::TypeMismatch, place),
    }
}

/// The value of a chain.
pub fn whole_chain(alloc: Global, chain: ChainCode) -> Resolved<TypedCode>
    ensures { Gives (Ok (Resolve.whole_chain chain)) result }
{
    match chain {
        ChainCode::Numbers { first, rest } => {
            if rest.is_empty() {
                return Ok(TypedCode::Number { code: first });
            }
            let first = boxed(alloc, first)?;
            Ok(TypedCode::Number {
                code: NumberCode::Chain { first, rest },
            })
        }
        ChainCode::Truths { first, rest } => {
            if rest.is_empty() {
                return Ok(TypedCode::Truth { code: first });
            }
            let first = boxed(alloc, first)?;
            Ok(TypedCode::Truth {
                code: TruthCode::Chain { first, rest },
            })
        }
        ChainCode::Element { kind, code } => Ok(TypedCode::Element { kind, code }),
    }
}
