//! The sums from which a region is planned.

ghost use Rattle.std.specs.Prelude.{◌≡◌, ◌<◌, ◌+◌, ◌^◌, ℕ, All, IfOk, length, slice_index};
ghost use Rattle.word_region.specs.Regions.{AreFields, AreScopes, enclosing as Enclosing, own_words as OwnWords};
ghost use Rattle.word_region.specs.Internal.Tables.{AreSums, IsTable, all_words, first_after};

use liszt_base::{NoMemory, PlainList};
use std::alloc::Global;

/// The scope that encloses a scope.
pub(crate) fn enclosing(scopes: &[u32], scope: usize) -> Option<u32>
    requires { scope < length scopes.now }
    ensures { result ≡ Enclosing scopes.now scope }
{
    if scope == 0 {
        None
    } else {
        Some(scopes[scope])
    }
}

/// The sums of a plan: the words of the ancestors of each scope, and the greatest number of words of a scope and its ancestors.
#[derive(Drop)]
pub(crate) struct Sums {
    pub(crate) starts: PlainList<u64>,
    pub(crate) peak: u64,
}

impl Sums {
    /// The sums of the fields of scopes.
    pub(crate) fn of(alloc: Global, scopes: &[u32], sizes: &[(u32, u32)]) -> Result<Sums, NoMemory>
        requires scopes { AreScopes scopes.now }
        requires fields { AreFields scopes.now sizes.now }
        requires few { length sizes.now < 2 ^ 32 }
        ensures { IfOk result (λ sums. AreSums scopes.now sizes.now sums.starts sums.peak) }
    {
        let own = own_words(alloc, scopes.len(), sizes)?;
        let mut starts = PlainList::new(alloc);
        let mut peak = 0;
        for scope in 0..scopes.len() {
            let words = match enclosing(scopes, scope) {
                Some(parent) => starts.as_slice()[parent as usize]
                    + own.as_slice()[parent as usize],
                None => 0,
            };
            starts.push(words)?;
            peak = peak.max(words + own.as_slice()[scope]);
        }
        Ok(Sums { starts, peak })
    }
}

/// A list of zeros.
#[tactic(auto, using(crate::proofs::TableLemmas::table_none, crate::proofs::TableLemmas::table_more))]
fn zeros(alloc: Global, count: usize) -> Result<PlainList<u64>, NoMemory>
    ensures { IfOk result (IsTable count (λ _. 0)) }
{
    let mut list = PlainList::new(alloc);
    for _ in 0..count {
        list.push(0)?;
    }
    Ok(list)
}

/// The words of the fields of each scope.
fn own_words(alloc: Global, scopes: usize, sizes: &[(u32, u32)]) -> Result<PlainList<u64>, NoMemory>
    requires fields { All (λ field. field.0 < scopes) sizes.now }
    requires few { length sizes.now < 2 ^ 32 }
    ensures words { IfOk result (IsTable scopes (OwnWords sizes.now)) }
    ensures fit { IfOk result (λ _. all_words sizes.now < 2 ^ 64) }
{
    let mut own = zeros(alloc, scopes)?;
    for &(scope, size) in sizes {
        let words = own.as_slice()[scope as usize];
        own.set(scope as usize, words + size as u64);
    }
    Ok(own)
}

/// The first word of each field, by its index, from the words of each scope's ancestors; those of a scope and its ancestors fit a `u32`.
/// The first word of an empty field may not fit one, and is then refused as memory.
pub(crate) fn first_words(
    alloc: Global,
    starts: PlainList<u64>,
    sizes: &[(u32, u32)],
) -> Result<PlainList<u32>, NoMemory>
    requires fields { All (λ field. field.0 < length starts) sizes.now }
    requires fit { (scope : ℕ) → scope < length starts
        → slice_index starts scope + OwnWords sizes.now scope < 2 ^ 32 }
    ensures { IfOk result (IsTable (length sizes.now) (first_after starts sizes.now)) }
{
    let mut firsts = PlainList::new(alloc);
    let mut ends = starts;
    for &(scope, size) in sizes {
        let words = ends.as_slice()[scope as usize];
        let Ok(first) = u32::try_from(words + 1) else {
            return Err(NoMemory);
        };
        firsts.push(first)?;
        ends.set(scope as usize, words + size as u64);
    }
    Ok(firsts)
}
