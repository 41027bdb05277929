//! Checks a program: its code, or its first fault.

ghost use Rattle.std.specs.Prelude.{◌≡◌, ◌≤◌, ◌<◌, Some, Err, OnOk, IfOk, length};
ghost use Rattle.liszt_base.specs.Gives.{Gives};
ghost use Rattle.liszt_base.specs.Limits.{token_limit};
ghost use Rattle.liszt_base.specs.declared.answers.ProgramFault.{ProgramFault as FaultOf};
ghost use Rattle.liszt_base.specs.declared.answers.Refused.TheVariants.{Fault};
ghost use Rattle.liszt_tree.specs.Tree.{program_tree};
ghost use Rattle.phase_types.specs.Checked as Definitions;
ghost use Rattle.phase_types.specs.Checked.{checked_kind, checked_mode, checked_program, item_count, HasPartsOf, IsChecked, IsWithin};
ghost use Rattle.phase_types.specs.Typed.{IsTyped};
ghost use Rattle.phase_types.specs.Walk.{OfField, OfScalar, check_fault};

use crate::info::FieldInfo;
use crate::names::Names;
use crate::program::resolve_items;
use crate::resolution::Resolution;
use crate::state::{CheckedProgram, MainState};
use crate::values::{Resolved, push};
use liszt_base::{Kind, Mode, NoMemory};
use liszt_tree::{Name, Program};
use resolved_code::{ComprehensionCode, ItemCode, Subject};
use sqlite_items::Items;
use std::alloc::Global;
use std::marker::Model;

/// A program that is checked. Contracts see its parts.
#[derive(Drop)]
pub struct Checked {
    program: CheckedProgram,
}

impl Model for Checked {
    ghost use Rattle.std.specs.Coded.{codes};
    ghost use Rattle.resolved_code.specs.contracts.expressions.ElementCode as element;
    ghost use Rattle.resolved_code.specs.contracts.expressions.NumberCode as number;
    ghost use Rattle.resolved_code.specs.contracts.expressions.TruthCode as truth;
    ghost use Rattle.resolved_code.specs.contracts.statements.StatementCode as statement;
    ghost use Rattle.resolved_code.specs.contracts.items.ItemCode as item;
    ghost use Rattle.phase_types.specs.Checked.{CheckedProgram as Parts, IsChecked};

    ghost Value = { Parts };

    ghost coded = { Prim.hlevel (
      codes,
      element.the_row.coded,
      number.the_row.coded,
      truth.the_row.coded,
      statement.the_row.coded,
      item.the_row.coded,
    ) };

    ghost view = { λ c. c.program };

    ghost invariant = { λ c. IsChecked c.program };
}

impl Checked {
    /// States that every checked program is that of a program of at most 131,072 items, and so has no more fields, scalars or
    /// comprehensions; it has no effect.
    pub fn is_checked(&self)
        ensures program { IsChecked self.now }
        ensures within { IsWithin token_limit self.now }
    {
        let _fields = self.program.fields.len();
    }

    /// The declared fields, in the order of the text. A field's number is 6 more than its index.
    pub fn fields(&self) -> &[FieldInfo]
        ensures { result.now ≡ self.now.fields }
    {
        self.program.fields.as_slice()
    }

    /// The names of the scalars, by their numbers.
    pub fn scalars(&self) -> &[Name]
        ensures { result.now ≡ self.now.scalars }
    {
        self.program.scalars.as_slice()
    }

    /// The scopes by their numbers, each by the number of the scope around it. Scope 0 is the whole program, and has itself.
    pub fn scopes(&self) -> &[u32]
        ensures { result.now ≡ self.now.scopes }
    {
        self.program.scopes.as_slice()
    }

    /// The comprehensions, in the order of the text.
    pub fn comprehensions(&self) -> &[ComprehensionCode]
        ensures { result.now ≡ self.now.comprehensions }
    {
        self.program.comprehensions.as_slice()
    }

    /// The items of the main program outside blocks.
    pub fn items(&self) -> &[ItemCode]
        ensures { result.now ≡ self.now.items }
    {
        self.program.items.as_slice()
    }

    /// The number of comprehensions.
    pub fn comps(&self) -> u32
        ensures { result ≡ length self.now.comprehensions }
    {
        self.program.comprehensions.len() as u32
    }

    /// The kind of the elements that a comprehension is over.
    pub fn comp_kind(&self, k: u32) -> Kind
        requires { k < length self.now.comprehensions }
        ensures { checked_kind self.now k ≡ Some result }
    {
        self.program.comprehensions.as_slice()[k as usize].over
    }

    /// The mode of a comprehension's accesses to a field, if it has any.
    pub fn mode(&self, k: u32, field: u32) -> Option<Mode>
        ensures { result ≡ checked_mode self.now k (OfField field) }
    {
        let c = self.program.comprehensions.as_slice().get(k as usize)?;
        let access = c.accesses.first(Subject::Field(field))?;
        Some(access.mode)
    }

    /// The mode of a comprehension's accesses to a scalar, if it has any.
    pub fn scalar_mode(&self, k: u32, scalar: u32) -> Option<Mode>
        ensures { result ≡ checked_mode self.now k (OfScalar scalar) }
    {
        let c = self.program.comprehensions.as_slice().get(k as usize)?;
        let access = c.accesses.first(Subject::Scalar(scalar))?;
        Some(access.mode)
    }
}

/// The built-in fields as the visible names.
fn built_in_names(alloc: Global) -> Result<Names, NoMemory>
    ensures { IfOk result (λ names. names ≡ Definitions.built_in_names) }
{
    let mut names = Names::new(alloc);
    let kind = Kind::Vertex;
    names.declare(alloc, b"PosX", Resolution::Field { field: 0, kind })?;
    names.declare(alloc, b"PosY", Resolution::Field { field: 1, kind })?;
    names.declare(alloc, b"PosZ", Resolution::Field { field: 2, kind })?;
    names.declare(alloc, b"Mark", Resolution::Field { field: 3, kind })?;
    let kind = Kind::Cell;
    names.declare(alloc, b"Region", Resolution::Field { field: 4, kind })?;
    Ok(names)
}

/// The state at the start of a program.
fn first_state(alloc: Global) -> Result<MainState, NoMemory>
    ensures { IfOk result (λ state. state ≡ Definitions.first_state) }
{
    let names = built_in_names(alloc)?;
    let mut scopes = Items::new(alloc);
    push(&mut scopes, 0)?;
    Ok(MainState {
        names,
        scope: 0,
        fields: Items::new(alloc),
        scalars: Items::new(alloc),
        scopes,
        comprehensions: Items::new(alloc),
    })
}

/// The checked program, or the first fault.
fn check_program(alloc: Global, p: &Program) -> Resolved<CheckedProgram>
    ensures { Gives (checked_program (program_tree p.now)) result }
{
    let mut state = first_state(alloc)?;
    let items = resolve_items(alloc, &mut state, p.items.as_slice())?;
    let MainState {
        fields,
        scalars,
        scopes,
        comprehensions,
        ..
    } = state;
    Ok(CheckedProgram {
        fields,
        scalars,
        scopes,
        comprehensions,
        items,
    })
}

/// Checks the names, types, phases and writes of a program of at most 131,072 items, those in blocks counted. Gives the checked program,
/// or the first fault in the order of the walk.
pub fn check(alloc: Global, p: &Program) -> Resolved<Checked>
    requires { item_count (program_tree p.now) ≤ token_limit }
    ensures gives { Gives (checked_program (program_tree p.now)) result }
    ensures typed { OnOk result (IsTyped (program_tree p.now)) }
    ensures parts { IfOk result (λ checked. HasPartsOf (program_tree p.now) checked) }
    ensures fault { (fault : FaultOf) → result ≡ Err (Fault fault)
        → check_fault (program_tree p.now) ≡ Some fault }
{
    match check_program(alloc, p) {
        Ok(program) => Ok(Checked { program }),
        Err(refused) => Err(refused),
    }
}
