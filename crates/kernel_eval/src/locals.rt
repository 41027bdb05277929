//! What iterations work with.

ghost use Rattle.std.specs.Prelude.{◌≡◌, ◌<◌, ◌≤◌, ℕ, IfOk, Some, get_or, length, pos, slice_get};
ghost use Rattle.liszt_base.specs.Reductions.{identity_of};
ghost use Rattle.liszt_base.specs.declared.accesses.Mode.TheVariants.{Reduce};
ghost use Rattle.liszt_base.specs.declared.elements.Op.{Op as OpOf};
ghost use Rattle.resolved_code.specs.declared.items.ComprehensionCode.{ComprehensionCode as CodeOf};
ghost use Rattle.kernel_eval.specs.Running.{HasBegun, HasIdentities, IsPrepared};

use code_eval::Activation;
use liszt_base::{Elem, Kind, Mode, NoMemory, Place, Trap, TrapKind, identity};
use phase_types::Checked;
use resolved_code::ComprehensionCode;
use sqlite_items::Items;
use std::alloc::Global;

/// The slots, scalars and partials with which the iterations of a checked program run.
#[derive(Debug, Drop)]
pub struct Locals {
    pub activation: Activation,
}

/// The greatest number of number slots of a comprehension.
fn most_numbers(codes: &[ComprehensionCode]) -> u32
    ensures { (k : ℕ) (code : CodeOf) → slice_get codes.now k ≡ Some code → code.numbers ≤ result }
{
    let mut most = 0;
    for code in codes {
        if most < code.numbers {
            most = code.numbers;
        }
    }
    most
}

/// The greatest number of element slots of a comprehension, at least 1.
fn most_elements(codes: &[ComprehensionCode]) -> usize
    ensures most { (k : ℕ) (code : CodeOf) → slice_get codes.now k ≡ Some code
        → length code.elements ≤ result }
    ensures room { 0 < result }
{
    let mut most = 1;
    for code in codes {
        if most < code.elements.len() {
            most = code.elements.len();
        }
    }
    most
}

/// A list of zeros.
pub fn zeros(alloc: Global, count: usize) -> Result<Items<i64>, NoMemory>
    ensures { IfOk result (λ list. length list ≡ count) }
{
    let mut list = Items::new(alloc);
    while list.len() < count {
        list.push(0)?;
    }
    Ok(list)
}

/// A list of nils.
fn nils(alloc: Global, count: usize) -> Result<Items<Option<Elem>>, NoMemory>
    ensures { IfOk result (λ list. length list ≡ count) }
{
    let mut list = Items::new(alloc);
    while list.len() < count {
        list.push(None)?;
    }
    Ok(list)
}

/// Replaces the numbers of a list by others, index by index.
fn write_over(list: &mut Items<i64>, numbers: &[i64])
    requires { length list.old ≡ length numbers.now }
    ensures { list.new ≡ numbers.now }
{
    for i in 0..numbers.len() {
        list.set(i, numbers[i]);
    }
}

/// The first partial of a scalar, by a comprehension's mode of it: the identity of the operator that reduces it, or else 0.
fn first_partial(mode: Option<Mode>) -> i64
    ensures { (op : OpOf) → mode ≡ Some (Reduce op) → result ≡ identity_of op }
{
    match mode {
        Some(Mode::Reduce(op)) => identity(op),
        _ => 0,
    }
}

/// Sets the partial of each scalar that a comprehension reduces to the identity of its operator there.
fn set_partials(c: &Checked, k: u32, partials: &mut Items<i64>)
    requires { length partials.old ≡ length c.now.scalars }
    ensures length { length partials.new ≡ length partials.old }
    ensures identities { HasIdentities c.now k partials.new }
{
    c.is_checked();
    for scalar in 0..c.scalars().len() {
        partials.set(scalar, first_partial(c.scalar_mode(k, scalar as u32)));
    }
}

impl Locals {
    /// Locals for a checked program, or out of memory.
    pub fn prepare(alloc: Global, c: &Checked) -> Result<Locals, NoMemory>
        ensures { IfOk result (λ l. IsPrepared c.now l.activation) }
    {
        let scalars = c.scalars().len();
        Ok(Locals {
            activation: Activation {
                numbers: zeros(alloc, most_numbers(c.comprehensions()) as usize)?,
                elements: nils(alloc, most_elements(c.comprehensions()))?,
                scalars: zeros(alloc, scalars)?,
                partials: zeros(alloc, scalars)?,
                turns: 0,
                elem: Elem {
                    kind: Kind::Vertex,
                    id: 0,
                    flipped: false,
                },
                trap: Trap {
                    kind: TrapKind::Spent,
                    place: Place { line: 1, col: 1 },
                    elem: None,
                },
            },
        })
    }

    /// Begins a comprehension: the scalars have these numbers, and the partial of each scalar that the comprehension reduces is the
    /// identity of its operator there.
    pub fn begin(&mut self, c: &Checked, k: u32, scalars: &[i64])
        requires prepared { IsPrepared c.now self.old.activation }
        requires comprehension { k < length c.now.comprehensions }
        requires scalars { length scalars.now ≡ length c.now.scalars }
        ensures begun { HasBegun c.now k scalars.now self.new.activation }
        ensures prepared { IsPrepared c.now self.new.activation }
    {
        write_over(&mut self.activation.scalars, scalars);
        set_partials(c, k, &mut self.activation.partials);
    }

    /// The partial of a scalar of the program: what the iterations since `begin` reduce it by.
    pub fn partial(&self, scalar: u32) -> i64
        requires { scalar < length self.now.activation.partials }
        ensures { result ≡ get_or self.now.activation.partials scalar (pos 0) }
    {
        self.activation.partials.as_slice()[scalar as usize]
    }
}
