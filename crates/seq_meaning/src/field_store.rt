//! The words of all declared fields of a sequential run.

ghost use Rattle.std.specs.Prelude.{◌≡◌, ◌≤◌, ◌+◌, IfOk, IsSome, Some, length, pos, replicate};
ghost use Rattle.liszt_base.specs.Gives.{Gives};
ghost use Rattle.liszt_base.specs.Limits.{word_limit};
ghost use Rattle.liszt_base.specs.declared.accesses.Spot.{Spot as SpotOf};
ghost use Rattle.seq_meaning.specs.FieldStores.{HasSameRanges, HasSpotsOf, IsLaidOut, IsStoreOf, declared_value, filled, index_in, prepared_store, range_of as RangeOf, ranges_from, stored_value, value_after_store, view_of, word_index, words_of as WordsOf};

use code_eval::Words;
use liszt_base::{LimitFault, LimitWhat, NoMemory, Refused, Spot, WORD_LIMIT};
use mesh_topology::Mesh;
use phase_types::{Checked, FieldInfo};
use sqlite_items::{Items, at};
use std::alloc::Global;
use std::marker::Model;

/// The first number of a declared field.
const FIRST_DECLARED: u32 = 6;

/// The words of a declared field: the index of the first one, and their number.
#[derive(Clone, Copy, Debug, PartialEq, Eq)]
pub struct FieldRange {
    pub first: u32,
    pub count: u32,
}

/// The words of all declared fields, one for each element of each field. Contracts see the ranges of the fields and the words.
#[derive(Drop)]
pub struct FieldStore {
    ranges: Items<FieldRange>,
    words: Items<i64>,
}

impl Model for FieldStore {
    ghost use Rattle.std.specs.Prelude.{length};
    ghost use Rattle.seq_meaning.specs.FieldStores.{IsLaidOut, StoreWords};

    ghost Value = { StoreWords };

    ghost view = { λ s. record { ranges = s.ranges; words = s.words } };

    ghost invariant = { λ s. IsLaidOut s.ranges (length s.words) };
}

/// The number of words of declared fields.
fn words_of(c: &Checked, m: &Mesh) -> u64
    ensures { result ≡ WordsOf m.now c.now.fields }
{
    c.is_checked();
    let mut total = 0;
    for info in c.fields() {
        total += m.count(info.kind) as u64;
    }
    total
}

/// The ranges of the words of declared fields.
fn ranges_of(alloc: Global, fields: &[FieldInfo], m: &Mesh) -> Result<Items<FieldRange>, NoMemory>
    requires { WordsOf m.now fields.now ≤ word_limit }
    ensures { IfOk result (λ ranges. ranges ≡ ranges_from m.now 0 fields.now) }
{
    let mut ranges = Items::new(alloc);
    let mut first = 0;
    for info in fields {
        let count = m.count(info.kind);
        ranges.push(FieldRange { first, count })?;
        first += count;
    }
    Ok(ranges)
}

/// A list of zeros.
fn zeros(alloc: Global, count: usize) -> Result<Items<i64>, NoMemory>
    ensures { IfOk result (λ list. list ≡ replicate count (pos 0)) }
{
    Ok(Items::from_vec(Vec::from_elem(alloc, 0, count)?))
}

/// The range of the words of a field, if it is declared.
fn range_of(ranges: &[FieldRange], field: u32) -> Option<FieldRange>
    ensures { result ≡ RangeOf ranges.now field }
{
    if field < FIRST_DECLARED {
        None
    } else {
        at(ranges, (field - FIRST_DECLARED) as usize).copied()
    }
}

/// The index of the word of a spot, if its field is declared and has the element.
fn index_of(ranges: &[FieldRange], spot: Spot) -> Option<usize>
    ensures { result ≡ word_index ranges.now spot }
{
    let range = range_of(ranges, spot.field)?;
    if spot.id < range.count {
        Some(range.first as usize + spot.id as usize)
    } else {
        None
    }
}

/// Sets all words of a range to a value.
fn fill(words: &mut Items<i64>, range: FieldRange, value: i64)
    requires { range.first + range.count ≤ length words.old }
    ensures filled { words.new ≡ filled range.first range.count value words.old }
    ensures length { length words.new ≡ length words.old }
{
    for offset in 0..range.count {
        words.set(range.first as usize + offset as usize, value);
    }
}

impl FieldStore {
    /// A store of the words of a program's declared fields on a mesh, all of them zero. The fault is Words, where the fields have
    /// more words than allowed.
    pub fn prepare(alloc: Global, c: &Checked, m: &Mesh) -> Result<FieldStore, Refused<LimitFault>>
        ensures gives { Gives (prepared_store c.now.fields m.now) result }
        ensures store { IfOk result (IsStoreOf c.now.fields m.now) }
        ensures spots { IfOk result (HasSpotsOf c.now.fields m.now) }
    {
        let found = words_of(c, m);
        if found > WORD_LIMIT as u64 {
            return Err(Refused::Fault(LimitFault {
                what: LimitWhat::Words,
                allowed: WORD_LIMIT as u64,
                found,
            }));
        }
        let ranges = ranges_of(alloc, c.fields(), m)?;
        let words = zeros(alloc, found as usize)?;
        Ok(FieldStore { ranges, words })
    }

    /// States that the ranges of every store are within its words and do not overlap; it has no effect.
    pub fn is_laid_out(&self)
        ensures { IsLaidOut self.now.ranges (length self.now.words) }
    {
        let _words = self.words.len();
    }

    /// Declares a field: all of its elements have the value. A field that the store has no words for has no element.
    pub fn declare(&mut self, field: u32, value: i64)
        ensures same { HasSameRanges self.old self.new }
        ensures values { (spot : SpotOf) → stored_value self.new spot
            ≡ declared_value field value spot (stored_value self.old spot) }
    {
        let Some(range) = range_of(self.ranges.as_slice(), field) else {
            return;
        };
        fill(&mut self.words, range, value);
    }

    /// The value of a declared field at an element.
    pub fn value(&self, field: u32, id: u32) -> i64
        requires { IsSome (stored_value self.now (record { field = field; id = id })) }
        ensures { stored_value self.now (record { field = field; id = id }) ≡ Some result }
    {
        let Some(index) = index_of(self.ranges.as_slice(), Spot { field, id }) else {
            unreachable!()
        };
        self.words.as_slice()[index]
    }

    /// Sets the value at a spot.
    fn set(&mut self, spot: Spot, value: i64)
        requires { IsSome (stored_value self.old spot) }
        ensures same { HasSameRanges self.old self.new }
        ensures values { (other : SpotOf) → stored_value self.new other
            ≡ value_after_store spot value other (stored_value self.old other) }
    {
        let Some(index) = index_of(self.ranges.as_slice(), spot) else {
            unreachable!()
        };
        self.words.set(index, value);
    }
}

impl Words for FieldStore {
    ghost store = { view_of };

    fn load(&mut self, spot: Spot) -> i64 {
        self.value(spot.field, spot.id)
    }

    fn store(&mut self, spot: Spot, value: i64) {
        self.set(spot, value);
    }
}
