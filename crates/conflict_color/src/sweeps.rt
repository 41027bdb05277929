//! The colours of iterations, one sweep over the iterations without a colour for each colour.

ghost use Rattle.std.specs.Prelude.{◌≡◌, ◌+◌, ◌<◌, ◌≤◌, ◌^◌, ℕ, cond, IfOk, OnOk, MatchBool, length, slice_index};
ghost use Rattle.std.specs.List.{All, Any, range_with_len};
ghost use Rattle.liszt_base.specs.Corners.{is_in};
ghost use Rattle.conflict_color.specs.Colours.{AreColours, number_of_colours, positions_of};
ghost use Rattle.conflict_color.specs.Internal.LeastColours.{colours_of, positions_from};

use crate::colours::Colours;
use liszt_base::{NoMemory, PlainLists};
use std::alloc::Global;

/// The colour of each iteration, where list `i` has the numbers that iteration `i` touches: the least number that no earlier
/// iteration in conflict has. Two different iterations are in conflict where a number is in both lists. There are fewer than 2^32
/// lists. A list is tested once for each colour up to its iteration's own. The memory grows with the greatest number.
pub fn colour(alloc: Global, touched: &PlainLists<u32>) -> Result<Colours, NoMemory>
    requires { length touched.now < 2 ^ 32 }
    ensures { IfOk result (AreColours touched.now) }
{
    let mut colours = vec![in alloc; 0; touched.len()]?;
    let mut batches = PlainLists::new(alloc);
    let mut first_free = vec![in alloc; 0; number_bound(touched)]?;
    let mut remaining = first_numbers(alloc, touched.len() as u32)?;
    let mut colour = 0;
    while !remaining.is_empty() {
        let Sweep { batch, rest } = next_sweep(
            alloc,
            touched,
            &remaining,
            &mut first_free,
            colour,
        )?;
        fill_at(&mut colours, &batch, colour);
        batches.push(&batch)?;
        remaining = rest;
        colour += 1;
    }
    Ok(Colours { colours, batches })
}

/// The numbers below a count, ascending.
fn first_numbers(alloc: Global, count: u32) -> Result<Vec<u32>, NoMemory>
    ensures { IfOk result (λ numbers. numbers.items ≡ range_with_len 0 count) }
{
    let mut numbers = Vec::with_capacity(alloc, count as usize)?;
    for number in 0..count {
        numbers.push(number)?;
    }
    Ok(numbers)
}

/// The iterations that a sweep gives its colour, and the others.
#[derive(Drop)]
struct Sweep {
    batch: Vec<u32>,
    rest: Vec<u32>,
}

/// Gives `colour` to each iteration that is in conflict with none that has it already. `first_free` has for each number the least
/// colour that is above those of its iterations.
fn next_sweep(
    alloc: Global,
    touched: &PlainLists<u32>,
    remaining: &[u32],
    first_free: &mut [u32],
    colour: u32,
) -> Result<Sweep, NoMemory>
    requires few { colour + 1 < 2 ^ 32 }
    requires numbers { All (All (λ x. x < length first_free.old)) touched.now }
    requires remaining { remaining.now ≡ positions_from colour (colours_of touched.now) }
    requires free { All (λ c. c ≤ colour) first_free.old }
    ensures batch { IfOk result (λ s. s.batch.items ≡ positions_of colour (colours_of touched.now)) }
    ensures rest { IfOk result
        (λ s. s.rest.items ≡ positions_from (colour + 1) (colours_of touched.now)) }
    ensures free { OnOk result (All (λ c. c ≤ colour + 1) first_free.new) }
{
    let mut batch = Vec::new(alloc);
    let mut rest = Vec::new(alloc);
    for iteration in remaining {
        let numbers = touched.of(*iteration as usize);
        if are_free(first_free, numbers, colour) {
            fill_at(first_free, numbers, colour + 1);
            batch.push(*iteration)?;
        } else {
            rest.push(*iteration)?;
        }
    }
    Ok(Sweep { batch, rest })
}

/// Whether a colour is free for all of these numbers.
fn are_free(first_free: &[u32], numbers: &[u32], colour: u32) -> bool
    requires { All (λ x. x < length first_free.now) numbers.now }
    ensures { MatchBool result (All (λ x. slice_index first_free.now x ≤ colour) numbers.now)
        (Any (λ x. colour < slice_index first_free.now x) numbers.now) }
{
    for number in numbers {
        if first_free[*number as usize] > colour {
            return false;
        }
    }
    true
}

/// Puts a value at each of these indices.
fn fill_at(values: &mut [u32], indices: &[u32], value: u32)
    requires { All (λ x. x < length values.old) indices.now }
    ensures { (x : ℕ) → x < length values.old
        → slice_index values.new x ≡ cond (is_in indices.now x) value (slice_index values.old x) }
{
    for index in indices {
        values[*index as usize] = value;
    }
}

/// A number above all numbers of all lists.
fn number_bound(touched: &PlainLists<u32>) -> usize
    ensures { All (All (λ x. x < result)) touched.now }
{
    let mut bound: usize = 0;
    for i in 0..touched.len() {
        bound = bound.max(list_bound(touched.of(i)));
    }
    bound
}

/// A number above all numbers of a list.
fn list_bound(numbers: &[u32]) -> usize
    ensures { All (λ x. x < result) numbers.now }
{
    match numbers.iter().max() {
        Some(greatest) => *greatest as usize + 1,
        None => 0,
    }
}
