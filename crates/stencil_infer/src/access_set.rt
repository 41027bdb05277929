//! A set of accesses that is gathered one by one.

ghost use Rattle.std.specs.Prelude.{◌≡◌, [], ◌∷◌, IfSome, List, None, OnOk, false, true};
ghost use Rattle.std.specs.List.{AllPairs};
ghost use Rattle.liszt_base.specs.declared.accesses.Access.{Access as AccessOf};
ghost use Rattle.stencil_infer.specs.Internal.AccessSets.{Adds, HasMembers, HasOneMode, Holds, IsOrdered, IsOverfull};
ghost use Rattle.stencil_infer.specs.Internal.CodeAccesses.{at_element};
ghost use Rattle.stencil_infer.specs.Stencils.{Precedes};

use liszt_base::{Access, ENTRY_LIMIT, Elem, Mode, NoMemory, Spot};
use std::alloc::Global;

/// Accesses, some of them repeated, until there are `bound` of them; then each is kept once. A set with more accesses than all
/// stencils may have together is full, and takes no more.
#[derive(Drop)]
pub struct AccessSet {
    items: Vec<Access>,
    bound: usize,
    is_full: bool,
}

/// Sorts accesses by their spots, and keeps one of each spot.
fn order(items: &mut Vec<Access>)
    ensures ascending { AllPairs Precedes items.new.items }
    ensures members { HasOneMode items.old.items → HasMembers items.old.items items.new.items }
{
    items.sort_unstable_by_key(|access| (access.spot.field, access.spot.id));
    items.dedup_by_key(|access| (access.spot.field, access.spot.id));
}

impl AccessSet {
    /// The empty set.
    pub fn new(alloc: Global) -> AccessSet
        ensures { Holds result [] }
    {
        AccessSet {
            items: Vec::new(alloc),
            bound: 64,
            is_full: false,
        }
    }

    /// Removes all accesses.
    pub fn clear(&mut self)
        ensures { Holds self.new [] }
    {
        self.items.clear();
        self.bound = 64;
        self.is_full = false;
    }

    /// Keeps each access once, in their order.
    fn compact(&mut self)
        ensures ascending { AllPairs Precedes self.new.items.items }
        ensures held { (past : List AccessOf) → Holds self.old past → Holds self.new past }
    {
        order(&mut self.items);
        let len = self.items.len();
        self.bound = len.saturating_mul(2).max(64);
        if len > ENTRY_LIMIT as usize {
            self.is_full = true;
        }
    }

    /// Makes room for one more access.
    fn make_room(&mut self)
        ensures { (past : List AccessOf) → Holds self.old past → Holds self.new past }
    {
        if self.items.len() >= self.bound {
            self.compact();
        }
    }

    /// Adds an access.
    fn add(&mut self, access: Access) -> Result<(), NoMemory>
        ensures { OnOk result (Adds (access ∷ []) self.old self.new) }
    {
        self.make_room();
        if self.is_full {
            return Ok(());
        }
        self.items.push(access)?;
        Ok(())
    }

    /// Adds the access to a field at an element; at nil there is none.
    pub fn add_at(&mut self, mode: Mode, field: u32, x: Option<Elem>) -> Result<(), NoMemory>
        ensures { OnOk result (Adds (at_element mode field x) self.old self.new) }
    {
        let Some(x) = x else { return Ok(()) };
        let id = x.id;
        let spot = Spot { field, id };
        self.add(Access { spot, mode })
    }

    /// The accesses in their order, or `None` if there are too many.
    pub fn ordered(&mut self) -> Option<&[Access]>
        ensures some { IfSome result (λ items. (past : List AccessOf) → Holds self.old past
            → HasOneMode past → IsOrdered past items.now) }
        ensures none { result ≡ None → (past : List AccessOf) → Holds self.old past → HasOneMode past
            → IsOverfull past }
    {
        self.compact();
        if self.is_full {
            None
        } else {
            Some(self.items.as_slice())
        }
    }
}
