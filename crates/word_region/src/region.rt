ghost use Rattle.std.specs.Prelude.{◌≡◌, ◌<◌, ◌≤◌, ◌+◌, ◌^◌, IfOk, Some, length};
ghost use Rattle.liszt_base.specs.Gives.{Gives};
ghost use Rattle.word_region.specs.Regions.{AreFields, AreScopes, IsLive, IsRegion, MayOpen, closed, first_word_of, index_of, opened, peak_of, planned, size_at};

use crate::sums::{Sums, enclosing, first_words};
use liszt_base::{LimitFault, LimitWhat, NoMemory, PlainList, Refused};
use std::alloc::Global;
use std::marker::Model;

/// The number of the first declared field.
const FIRST_DECLARED: u32 = 6;

/// One region of words for the fields of all scopes of a program. The fields of a scope have words while the scope is open, and share
/// them with those of scopes that are never open together with it. Contracts see the scopes, the fields and the innermost open scope.
#[derive(Drop)]
pub struct Region {
    scopes: PlainList<u32>,
    sizes: PlainList<(u32, u32)>,
    firsts: PlainList<u32>,
    peak: u32,
    innermost: Option<u32>,
}

impl Model for Region {
    ghost use Rattle.word_region.specs.Regions.{RegionState};
    ghost use Rattle.word_region.specs.Internal.Tables.{HasWords};

    ghost Value = { RegionState };

    ghost view = { λ r. record { scopes = r.scopes; sizes = r.sizes; innermost = r.innermost } };

    ghost invariant = { λ r. HasWords
        (record { scopes = r.scopes; sizes = r.sizes; innermost = r.innermost }) r.firsts r.peak };
}

/// A list of copies of the items of a slice.
fn copy_of<T: Copy>(alloc: Global, items: &[T]) -> Result<PlainList<T>, NoMemory>
    ensures { IfOk result (λ list. list ≡ items.now) }
{
    let mut list = PlainList::new(alloc);
    list.extend(items)?;
    Ok(list)
}

impl Region {
    /// A region for scopes, each given by its parent, and fields, each given by its scope and its number of entries, with no scope
    /// open. A declared field's number is 6 more than its index. The fault is Words, where a scope and its ancestors have more
    /// words than `limit`; the greatest number of them is found.
    pub fn plan(
        alloc: Global,
        scopes: &[u32],
        sizes: &[(u32, u32)],
        limit: u32,
    ) -> Result<Region, Refused<LimitFault>>
        requires scopes { AreScopes scopes.now }
        requires fields { AreFields scopes.now sizes.now }
        requires few { length sizes.now < 2 ^ 32 }
        ensures { Gives (planned scopes.now sizes.now limit) result }
    {
        let sums = Sums::of(alloc, scopes, sizes)?;
        let found = sums.peak;
        if found > u64::from(limit) {
            return Err(Refused::Fault(LimitFault {
                what: LimitWhat::Words,
                allowed: u64::from(limit),
                found,
            }));
        }
        let firsts = first_words(alloc, sums.starts, sizes)?;
        Ok(Region {
            scopes: copy_of(alloc, scopes)?,
            sizes: copy_of(alloc, sizes)?,
            firsts,
            peak: found as u32,
            innermost: None,
        })
    }

    /// Opens a scope whose parent is the innermost open scope, or scope 0 where none is open.
    pub fn open_scope(&mut self, scope: u32)
        requires { MayOpen self.old scope }
        ensures { self.new ≡ opened self.old scope }
    {
        self.innermost = Some(scope);
    }

    /// Closes the innermost open scope.
    pub fn close_scope(&mut self, scope: u32)
        requires { self.old.innermost ≡ Some scope }
        ensures { self.new ≡ closed self.old scope }
    {
        self.innermost = enclosing(self.scopes.as_slice(), scope as usize);
    }

    /// The first word of a live field. It is from 1 on, and the field's last word is at most the peak.
    pub fn first_word(&self, field: u32) -> u32
        requires { IsLive self.now field }
        ensures first { result ≡ first_word_of self.now.scopes self.now.sizes field }
        ensures some { 1 ≤ result }
        ensures within { result + size_at self.now.sizes (index_of field)
            ≤ peak_of self.now.scopes self.now.sizes + 1 }
    {
        self.firsts.as_slice()[(field - FIRST_DECLARED) as usize]
    }

    /// The greatest number of words of a scope and its ancestors.
    pub fn peak(&self) -> u32
        ensures { result ≡ peak_of self.now.scopes self.now.sizes }
    {
        self.peak
    }

    /// States what holds of the scopes and fields of each region; it has no effect.
    pub fn is_laid_out(&self)
        ensures { IsRegion self.now }
    {
        let _fields = self.sizes.as_slice();
    }
}
