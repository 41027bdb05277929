//! What the calls answer where memory is there.

ghost use Rattle.std.specs.Prelude.{◌≡◌, ◌<◌, ◌≤◌, All, IfOk, None, Some, length};
ghost use Rattle.std.specs.Bool.{OnTrue};
ghost use Rattle.word_region.specs.Regions.{AreScopes};

use crate::Region;
use crate::sums::enclosing;
use liszt_base::{LimitFault, LimitWhat, Refused};
use std::alloc::Global;
use std::test::Fail;

/// Scopes and fields, a limit that they fit, the peak and the first word of each field.
#[derive(Clone, Copy)]
struct PlanRow(
    &'static [u32],
    &'static [(u32, u32)],
    u32,
    u32,
    &'static [u32],
);

const PLANS: [PlanRow; 8] = [
    PlanRow(&[0], &[], 0, 0, &[]),
    PlanRow(&[0], &[(0, 0)], 0, 0, &[1]),
    PlanRow(&[0, 0, 0], &[(0, 5), (1, 3), (2, 6)], 100, 11, &[1, 6, 6]),
    PlanRow(&[0, 0, 0], &[(1, 4), (2, 5)], 5, 5, &[1, 1]),
    PlanRow(&[0], &[(0, 3), (0, 4)], 7, 7, &[1, 4]),
    PlanRow(
        &[0, 0, 1, 0],
        &[(2, 1), (0, 2), (1, 0), (0, 3), (3, 9), (1, 4), (2, 7)],
        17,
        17,
        &[10, 1, 6, 3, 6, 6, 11],
    ),
    PlanRow(
        &[0, 0],
        &[(0, 0), (1, 0), (0, 2), (1, 0)],
        2,
        2,
        &[1, 3, 1, 3],
    ),
    PlanRow(&[0], &[(0, u32::MAX)], u32::MAX, u32::MAX, &[1]),
];

/// Scopes and fields, a limit that they exceed, and the greatest number of words of a scope and its ancestors.
#[derive(Clone, Copy)]
struct FaultRow(&'static [u32], &'static [(u32, u32)], u32, u64);

const FAULTS: [FaultRow; 4] = [
    FaultRow(&[0, 0, 0], &[(1, 4), (2, 5)], 4, 5),
    FaultRow(&[0], &[(0, 3), (0, 4)], 6, 7),
    FaultRow(&[0], &[(0, u32::MAX), (0, 1)], u32::MAX, 4_294_967_296),
    FaultRow(&[0, 0], &[(0, u32::MAX), (1, u32::MAX)], 9, 8_589_934_590),
];

/// Whether scope 0 is its own parent, and each other parent has a lower number.
fn are_scopes(scopes: &[u32]) -> bool
    ensures { OnTrue result (AreScopes scopes.now) }
{
    for scope in 1..scopes.len() {
        if scopes[scope] as usize >= scope {
            return false;
        }
    }
    !scopes.is_empty() && scopes[0] == 0
}

/// Whether each field's scope is below their number.
fn are_fields(scopes: usize, sizes: &[(u32, u32)]) -> bool
    ensures { OnTrue result (All (λ field. field.0 < scopes) sizes.now) }
{
    for &(scope, _) in sizes {
        if scope as usize >= scopes {
            return false;
        }
    }
    true
}

/// Opens the scopes of a chain, from the outermost inwards.
fn open_chain(region: &mut Region, scopes: &[u32], scope: u32)
    requires scopes { region.old.scopes ≡ scopes.now }
    requires none { region.old.innermost ≡ None }
    requires exists { scope < length scopes.now }
    ensures { region.new ≡ record region.old { innermost = Some scope } }
{
    region.is_laid_out();
    if let Some(parent) = enclosing(scopes, scope as usize) {
        open_chain(region, scopes, parent);
    }
    region.open_scope(scope);
}

/// Closes the scopes of a chain, from the innermost outwards.
fn close_chain(region: &mut Region, scopes: &[u32], scope: u32)
    requires scopes { region.old.scopes ≡ scopes.now }
    requires innermost { region.old.innermost ≡ Some scope }
    ensures { region.new ≡ record region.old { innermost = None } }
{
    region.is_laid_out();
    region.close_scope(scope);
    if let Some(parent) = enclosing(scopes, scope as usize) {
        close_chain(region, scopes, parent);
    }
}

/// The first word of the field at an index, read after its scope was opened.
fn word_of(region: &mut Region, scopes: &[u32], sizes: &[(u32, u32)], index: u32) -> u32
    requires scopes { region.old.scopes ≡ scopes.now }
    requires sizes { region.old.sizes ≡ sizes.now }
    requires none { region.old.innermost ≡ None }
    requires exists { index < length sizes.now }
    requires few { index < 1000 }
    ensures { region.new ≡ region.old }
{
    region.is_laid_out();
    let (scope, _) = sizes[index as usize];
    open_chain(region, scopes, scope);
    region.is_laid_out();
    let first = region.first_word(index + 6);
    close_chain(region, scopes, scope);
    first
}

/// Whether each field has the first word that is expected, twice.
fn has_first_words(
    region: &mut Region,
    scopes: &[u32],
    sizes: &[(u32, u32)],
    firsts: &[u32],
) -> bool
    requires scopes { region.old.scopes ≡ scopes.now }
    requires sizes { region.old.sizes ≡ sizes.now }
    requires none { region.old.innermost ≡ None }
    requires all { length firsts.now ≡ length sizes.now }
    requires few { length sizes.now ≤ 1000 }
{
    for index in 0..firsts.len() {
        let first = word_of(region, scopes, sizes, index as u32);
        let again = word_of(region, scopes, sizes, index as u32);
        if first != firsts[index] || again != first {
            return false;
        }
    }
    true
}

/// What a plan gives, where the scopes and the fields are as it requires.
fn plan(
    alloc: Global,
    scopes: &[u32],
    sizes: &[(u32, u32)],
    limit: u32,
) -> Result<Region, Refused<LimitFault>>
    ensures few { IfOk result (λ _. length sizes.now ≤ 1000) }
    ensures region { IfOk result (λ region. region
        ≡ record { scopes = scopes.now; sizes = sizes.now; innermost = None }) }
{
    if !are_scopes(scopes) || !are_fields(scopes.len(), sizes) || sizes.len() > 1000 {
        return Err(Refused::NoMemory);
    }
    Region::plan(alloc, scopes, sizes, limit)
}

/// Whether a plan has this peak and these first words.
fn is_planned(
    alloc: Global,
    scopes: &[u32],
    sizes: &[(u32, u32)],
    limit: u32,
    peak: u32,
    firsts: &[u32],
) -> bool {
    match plan(alloc, scopes, sizes, limit) {
        Ok(mut region) => {
            region.peak() == peak
                && firsts.len() == sizes.len()
                && has_first_words(&mut region, scopes, sizes, firsts)
        }
        Err(_) => false,
    }
}

#[test]
fn regions_are_planned(rt: HostRuntime) -> Result<(), Fail> {
    for row in PLANS {
        let PlanRow(scopes, sizes, limit, peak, firsts) = row;
        let holds = is_planned(rt.alloc(), scopes, sizes, limit, peak, firsts);
        assert!(&rt; holds, "a peak of {peak}");
    }
    Ok(())
}

#[test]
fn limits_are_exceeded(rt: HostRuntime) -> Result<(), Fail> {
    for row in FAULTS {
        let FaultRow(scopes, sizes, limit, found) = row;
        let expected = LimitFault {
            what: LimitWhat::Words,
            allowed: u64::from(limit),
            found,
        };
        let holds = match plan(rt.alloc(), scopes, sizes, limit) {
            Err(Refused::Fault(fault)) => fault == expected,
            _ => false,
        };
        assert!(&rt; holds, "{found} words");
    }
    Ok(())
}

/// An empty field whose first word would be 2^32.
#[test]
fn no_word_is_past_a_u32(rt: HostRuntime) -> Result<(), Fail> {
    let made = plan(rt.alloc(), &[0], &[(0, u32::MAX), (0, 0)], u32::MAX);
    assert!(rt; matches!(made, Err(Refused::NoMemory)));
    Ok(())
}

/// A chain of 64 scopes, each with a field of one word.
#[test]
fn chains_are_deep(rt: HostRuntime) -> Result<(), Fail> {
    let mut scopes = Vec::new(rt.alloc());
    let mut sizes = Vec::new(rt.alloc());
    let mut firsts = Vec::new(rt.alloc());
    for scope in 0u32..64 {
        scopes.push(scope.saturating_sub(1))?;
        sizes.push((scope, 1))?;
        firsts.push(scope + 1)?;
    }
    assert!(rt; is_planned(rt.alloc(), &scopes, &sizes, 64, 64, &firsts));
    Ok(())
}
