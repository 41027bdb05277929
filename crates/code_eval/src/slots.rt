//! Slots of an activation. A slot that is not there reads as 0 or nil, and keeps nothing.

ghost use Rattle.std.specs.Prelude.{◌≡◌, get_or, pos, None};
ghost use Rattle.std.specs.List.{slice_set};

use liszt_base::Elem;
use sqlite_items::Items;

/// The number at a slot.
pub(crate) fn number_at(numbers: &[i64], slot: u32) -> i64
    ensures { result ≡ get_or numbers.now slot (pos 0) }
{
    let slot = slot as usize;
    if slot < numbers.len() {
        numbers[slot]
    } else {
        0
    }
}

/// The element at a slot.
pub(crate) fn element_at(elements: &[Option<Elem>], slot: u32) -> Option<Elem>
    ensures { result ≡ get_or elements.now slot None }
{
    let slot = slot as usize;
    if slot < elements.len() {
        elements[slot]
    } else {
        None
    }
}

/// Stores a number at a slot.
pub(crate) fn set_number(numbers: &mut Items<i64>, slot: u32, n: i64)
    ensures { numbers.new ≡ slice_set numbers.old slot n }
{
    let slot = slot as usize;
    if slot < numbers.len() {
        numbers.set(slot, n);
    }
}

/// Stores an element at a slot.
pub(crate) fn set_element(elements: &mut Items<Option<Elem>>, slot: u32, x: Option<Elem>)
    ensures { elements.new ≡ slice_set elements.old slot x }
{
    let slot = slot as usize;
    if slot < elements.len() {
        elements.set(slot, x);
    }
}
