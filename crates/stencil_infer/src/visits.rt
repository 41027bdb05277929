//! Visits of resolved expressions, counted up to the greatest number of 64 bits.

ghost use Rattle.std.specs.Prelude.{◌≡◌, ◌^◌, ◌-◌, map, min};
ghost use Rattle.stencil_infer.specs.Internal.CodeAccesses as Code;

use resolved_code::{ElementCode, NumberCode, NumberLink, TruthCode, TruthLink};

/// The visits of an element expression.
pub fn element_visits(code: &ElementCode) -> u64
    ensures { result ≡ min (Code.element_visits code.now) (2 ^ 64 - 1) }
{
    match code {
        ElementCode::Slot { .. } => 1,
        ElementCode::Call { arg, .. } => element_visits(arg.get()).saturating_add(1),
        ElementCode::Towards { arg, to } => element_visits(arg.get())
            .saturating_add(element_visits(to.get()))
            .saturating_add(1),
    }
}

/// The visits of a number expression.
#[cycle(numbers)]
pub fn number_visits(code: &NumberCode) -> u64
    ensures { result ≡ min (Code.number_visits code.now) (2 ^ 64 - 1) }
{
    match code {
        NumberCode::Constant { .. } | NumberCode::Local { .. } | NumberCode::Scalar { .. } => 1,
        NumberCode::Field { arg, .. } => element_visits(arg).saturating_add(1),
        NumberCode::Id { arg, .. } => element_visits(arg).saturating_add(1),
        NumberCode::Neg { arg, .. } => number_visits(arg.get()).saturating_add(1),
        NumberCode::Chain { first, rest } => number_visits(first.get())
            .saturating_add(number_link_visits(rest.as_slice()))
            .saturating_add(1),
    }
}

/// The visits of the operands of a chain of numbers after the first.
#[cycle(numbers)]
fn number_link_visits(links: &[NumberLink]) -> u64
    ensures { result
        ≡ min (Code.total (map Code.visits_of_number_link links.now)) (2 ^ 64 - 1) }
{
    let mut visits: u64 = 0;
    for link in links {
        visits = visits.saturating_add(number_visits(&link.arg));
    }
    visits
}

/// The visits of a truth expression.
#[cycle(truths)]
pub fn truth_visits(code: &TruthCode) -> u64
    ensures { result ≡ min (Code.truth_visits code.now) (2 ^ 64 - 1) }
{
    match code {
        TruthCode::Valid { arg } => element_visits(arg).saturating_add(1),
        TruthCode::Not { arg } => truth_visits(arg.get()).saturating_add(1),
        TruthCode::Chain { first, rest } => truth_visits(first.get())
            .saturating_add(truth_link_visits(rest.as_slice()))
            .saturating_add(1),
        TruthCode::CompareNumbers { left, right, .. } => number_visits(left)
            .saturating_add(number_visits(right))
            .saturating_add(1),
        TruthCode::CompareElements { left, right, .. } => element_visits(left)
            .saturating_add(element_visits(right))
            .saturating_add(1),
    }
}

/// The visits of the operands of a chain of truth values after the first.
#[cycle(truths)]
fn truth_link_visits(links: &[TruthLink]) -> u64
    ensures { result
        ≡ min (Code.total (map Code.visits_of_truth_link links.now)) (2 ^ 64 - 1) }
{
    let mut visits: u64 = 0;
    for link in links {
        visits = visits.saturating_add(truth_visits(&link.arg));
    }
    visits
}
