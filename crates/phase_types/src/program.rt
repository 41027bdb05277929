//! Items of the main program, resolved.

ghost use Rattle.std.specs.Prelude.{◌≡◌, ◌∷◌, ◌++◌, [], OnOk, map};
ghost use Rattle.liszt_base.specs.Gives.{Gives};
ghost use Rattle.liszt_tree.specs.Tree.{body_of, expression, item_tree, main_of, statement_tree, MainAssign, Print};
ghost use Rattle.phase_types.specs.Checked as Checked;
ghost use Rattle.phase_types.specs.Internal.Results.{ExtendsNames, comprehension_item, field_item, main_choice_code, main_repetition_code, paired, resolved_block, resolved_else, scalar_item, some_block};

use crate::expression::{resolve_number, resolve_truth};
use crate::info::FieldInfo;
use crate::names::Names;
use crate::resolution::Resolution;
use crate::state::MainState;
use crate::statement::{new_name, resolve_comprehension};
use crate::values::{Resolved, boxed, fails, push};
use liszt_base::{ByteList, Kind, Place, ProgramWhat, Refused};
use liszt_tree::{Expr, How, Item, Name, Stmt};
use resolved_code::{BlockCode, ItemCode, ItemCodes, NumberCode, TruthCode};
use sqlite_items::{Boxed, Items};
use std::alloc::Global;

/// A number of the main program.
fn main_number(alloc: Global, names: &Names, e: &Expr) -> Resolved<NumberCode>
    ensures { Gives (Checked.main_number names.now (expression e.now)) result }
{
    let mut accesses = None;
    resolve_number(alloc, names, &mut accesses, e)
}

/// A truth value of the main program.
fn main_truth(alloc: Global, names: &Names, e: &Expr) -> Resolved<TruthCode>
    ensures { Gives (Checked.main_truth names.now (expression e.now)) result }
{
    let mut accesses = None;
    resolve_truth(alloc, names, &mut accesses, e)
}

/// The test of an `if` of the main program.
fn main_condition(alloc: Global, names: &Names, e: &Expr) -> Resolved<Boxed<TruthCode>>
    ensures { Gives (Checked.main_truth names.now (expression e.now)) result }
{
    let test = main_truth(alloc, names, e)?;
    boxed(alloc, test)
}

/// Declares a field, whose number is returned.
fn declare_field(
    alloc: Global,
    state: &mut MainState,
    name: &[u8],
    at: Place,
    kind: Kind,
) -> Resolved<u32>
    ensures { Gives (Checked.declared_field state.old name.now at kind)
        (paired result state.new) }
{
    new_name(state.names.resolution(name), at)?;
    let Ok(index) = u32::try_from(state.fields.len()) else {
        return Err(Refused::NoMemory);
    };
    let Some(field) = index.checked_add(6) else {
        return Err(Refused::NoMemory);
    };
    state
        .names
        .declare(alloc, name, Resolution::Field { field, kind })?;
    let mut copy = ByteList::new(alloc);
    copy.extend(name)?;
    push(
        &mut state.fields,
        FieldInfo {
            name: copy,
            kind,
            scope: state.scope,
        },
    )?;
    Ok(field)
}

/// Declares a scalar, whose number is returned.
fn declare_scalar(alloc: Global, state: &mut MainState, name: &[u8], at: Place) -> Resolved<u32>
    ensures { Gives (Checked.declared_scalar state.old name.now at) (paired result state.new) }
{
    new_name(state.names.resolution(name), at)?;
    let Ok(scalar) = u32::try_from(state.scalars.len()) else {
        return Err(Refused::NoMemory);
    };
    state
        .names
        .declare(alloc, name, Resolution::Scalar { scalar })?;
    let mut copy = ByteList::new(alloc);
    copy.extend(name)?;
    push(&mut state.scalars, copy)?;
    Ok(scalar)
}

/// The scalar that is the target of an assignment.
fn assigned_scalar(place: Place, found: Option<Resolution>) -> Resolved<u32>
    ensures { Gives (Checked.assigned_scalar place found) result }
{
    match found {
        None => fails(ProgramWhat::NameUnknown, place),
        Some(Resolution::Scalar { scalar }) => Ok(scalar),
        Some(_) => fails(ProgramWhat::TypeMismatch, place),
    }
}

/// The declaration of a field.
fn resolve_field_item(
    alloc: Global,
    state: &mut MainState,
    name: &Name,
    at: Place,
    kind: Kind,
    init: &Expr,
) -> Resolved<ItemCode>
    ensures { Gives (field_item state.old name.now at kind (expression init.now))
        (paired result state.new) }
{
    let init = main_number(alloc, &state.names, init)?;
    match declare_field(alloc, state, name.as_slice(), at, kind) {
        Ok(field) => Ok(ItemCode::Field { field, init }),
        Err(refused) => Err(refused),
    }
}

/// The declaration of a scalar.
fn resolve_scalar_item(
    alloc: Global,
    state: &mut MainState,
    name: &Name,
    at: Place,
    init: &Expr,
) -> Resolved<ItemCode>
    ensures { Gives (scalar_item state.old name.now at (expression init.now))
        (paired result state.new) }
{
    let init = main_number(alloc, &state.names, init)?;
    match declare_scalar(alloc, state, name.as_slice(), at) {
        Ok(scalar) => Ok(ItemCode::Var { scalar, init }),
        Err(refused) => Err(refused),
    }
}

/// An assignment to a scalar.
fn resolve_assignment(
    alloc: Global,
    state: &mut MainState,
    place: Place,
    name: &Name,
    how: How,
    value: &Expr,
) -> Resolved<ItemCode>
    ensures { Gives (Checked.resolved_item state.old
        (MainAssign place name.now how (expression value.now))) (paired result state.new) }
{
    let scalar = assigned_scalar(place, state.names.resolution(name.as_slice()))?;
    let value = main_number(alloc, &state.names, value)?;
    Ok(ItemCode::Assign { scalar, how, value })
}

/// A number that is printed.
fn resolve_print(
    alloc: Global,
    state: &mut MainState,
    place: Place,
    value: &Expr,
) -> Resolved<ItemCode>
    ensures { Gives (Checked.resolved_item state.old (Print place (expression value.now)))
        (paired result state.new) }
{
    let value = main_number(alloc, &state.names, value)?;
    Ok(ItemCode::Print { place, value })
}

/// A comprehension, which is added to those of the program.
fn resolve_comprehension_item(
    alloc: Global,
    state: &mut MainState,
    name: &Name,
    at: Place,
    over: Kind,
    body: &[Stmt],
) -> Resolved<ItemCode>
    ensures { Gives (comprehension_item state.old name.now at over
        (body_of (map statement_tree body.now))) (paired result state.new) }
{
    let code = resolve_comprehension(alloc, &mut state.names, name.as_slice(), at, over, body)?;
    let Ok(comprehension) = u32::try_from(state.comprehensions.len()) else {
        return Err(Refused::NoMemory);
    };
    push(&mut state.comprehensions, code)?;
    Ok(ItemCode::For { comprehension })
}

/// An item.
#[cycle(items)]
fn resolve_item(alloc: Global, state: &mut MainState, i: &Item) -> Resolved<ItemCode>
    ensures { Gives (Checked.resolved_item state.old (item_tree i.now)) (paired result state.new) }
{
    match i {
        Item::Field {
            name,
            at,
            kind,
            init,
            ..
        } => resolve_field_item(alloc, state, name, *at, *kind, init),
        Item::Var { name, at, init, .. } => resolve_scalar_item(alloc, state, name, *at, init),
        Item::Assign {
            place,
            name,
            how,
            value,
        } => resolve_assignment(alloc, state, *place, name, *how, value),
        Item::If {
            test,
            yes,
            no,
            has_else,
            ..
        } => {
            let test = main_condition(alloc, &state.names, test)?;
            let first = resolve_block(alloc, state, yes.as_slice())?;
            resolve_choice(alloc, state, no.as_slice(), *has_else, test, first)
        }
        Item::While { place, test, body } => {
            resolve_repetition(alloc, state, *place, body.as_slice(), test)
        }
        Item::For {
            name,
            at,
            over,
            body,
            ..
        } => resolve_comprehension_item(alloc, state, name, *at, *over, body.as_slice()),
        Item::Print { place, value } => resolve_print(alloc, state, *place, value),
    }
}

/// An `if` of a resolved test and a resolved first block.
#[cycle(items)]
fn resolve_choice(
    alloc: Global,
    state: &mut MainState,
    items: &[Item],
    has_else: bool,
    test: Boxed<TruthCode>,
    first: BlockCode,
) -> Resolved<ItemCode>
    ensures { Gives (main_choice_code state.old test first (main_of (map item_tree items.now))
        has_else) (paired result state.new) }
{
    match resolve_else(alloc, state, items, has_else) {
        Ok(second) => Ok(ItemCode::If {
            test: test.into_inner(),
            first,
            second,
        }),
        Err(refused) => Err(refused),
    }
}

/// A `while`.
#[cycle(items)]
fn resolve_repetition(
    alloc: Global,
    state: &mut MainState,
    place: Place,
    body: &[Item],
    test: &Expr,
) -> Resolved<ItemCode>
    ensures { Gives (main_repetition_code state.old place (expression test.now)
        (main_of (map item_tree body.now))) (paired result state.new) }
{
    let test = main_truth(alloc, &state.names, test)?;
    match resolve_block(alloc, state, body) {
        Ok(body) => Ok(ItemCode::While { place, test, body }),
        Err(refused) => Err(refused),
    }
}

/// The block after `else`, if there is one.
#[cycle(items)]
fn resolve_else(
    alloc: Global,
    state: &mut MainState,
    items: &[Item],
    has_else: bool,
) -> Resolved<Option<BlockCode>>
    ensures { Gives (resolved_else state.old (main_of (map item_tree items.now)) has_else)
        (paired result state.new) }
{
    match items {
        [] => {
            if has_else {
                resolve_some_block(alloc, state, items)
            } else {
                Ok(None)
            }
        }
        [_, ..] => resolve_some_block(alloc, state, items),
    }
}

/// A block that is there.
#[cycle(items)]
fn resolve_some_block(
    alloc: Global,
    state: &mut MainState,
    items: &[Item],
) -> Resolved<Option<BlockCode>>
    ensures { Gives (some_block state.old (main_of (map item_tree items.now)))
        (paired result state.new) }
{
    match resolve_block(alloc, state, items) {
        Ok(block) => Ok(Some(block)),
        Err(refused) => Err(refused),
    }
}

/// A block. Its names end with it.
#[cycle(items)]
fn resolve_block(alloc: Global, state: &mut MainState, items: &[Item]) -> Resolved<BlockCode>
    ensures { Gives (resolved_block state.old (main_of (map item_tree items.now)))
        (paired result state.new) }
{
    let depth = state.names.len();
    let outer = state.scope;
    let Ok(scope) = u32::try_from(state.scopes.len()) else {
        return Err(Refused::NoMemory);
    };
    push(&mut state.scopes, outer)?;
    state.scope = scope;
    let items = resolve_items(alloc, state, items)?;
    state.scope = outer;
    state.names.truncate(depth);
    Ok(BlockCode { scope, items })
}

/// The items of a main program, or of a block in it.
#[cycle(items)]
pub fn resolve_items(alloc: Global, state: &mut MainState, items: &[Item]) -> Resolved<ItemCodes>
    ensures gives { Gives (Checked.resolved_items state.old [] (main_of (map item_tree items.now)))
        (paired result state.new) }
    ensures names { OnOk result (ExtendsNames state.old.names state.new.names) }
{
    let mut done = Items::new(alloc);
    for i in items {
        let code = resolve_item(alloc, state, i)?;
        push(&mut done, code)?;
    }
    Ok(done)
}
