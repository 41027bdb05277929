//! Arithmetic of numbers of 64 bits.

ghost use Rattle.std.specs.Prelude.{◌≡◌, ℤ, neg_ℤ};
ghost use Rattle.code_eval.specs.Arithmetic.{arithmetic_result, assigned_value, holds, in_range as InRange, operand as OperandOf};
ghost use Rattle.code_eval.specs.Internal.Ranges.{IsIfFits};
ghost use Rattle.resolved_code.specs.declared.expressions.Arithmetic.TheVariants.{Over, Rest};

use liszt_base::{Op, TrapKind, fold_op};
use liszt_tree::{How, Rel};
use resolved_code::Arithmetic;

/// A number, or an overflow where it does not fit.
fn in_range(n: Option<i64>) -> Result<i64, TrapKind>
    ensures { (k : ℤ) → IsIfFits n k → result ≡ InRange k }
{
    match n {
        Some(k) => Ok(k),
        None => Err(TrapKind::Overflow),
    }
}

/// The quotient of two numbers, rounded towards zero.
fn divide(n: i64, k: i64) -> Result<i64, TrapKind>
    ensures { result ≡ arithmetic_result Over n k }
{
    if k == 0 {
        Err(TrapKind::ZeroDivide)
    } else {
        in_range(n.checked_div(k))
    }
}

/// The remainder of two numbers, with the sign of the first.
fn remainder(n: i64, k: i64) -> Result<i64, TrapKind>
    ensures { result ≡ arithmetic_result Rest n k }
{
    if k == 0 {
        Err(TrapKind::ZeroDivide)
    } else {
        Ok(n.wrapping_rem(k))
    }
}

/// The result of an operator between two numbers, or the kind of its trap.
pub fn operate(op: Arithmetic, n: i64, k: i64) -> Result<i64, TrapKind>
    ensures { result ≡ arithmetic_result op n k }
{
    match op {
        Arithmetic::Plus => in_range(n.checked_add(k)),
        Arithmetic::Minus => in_range(n.checked_sub(k)),
        Arithmetic::Times => in_range(n.checked_mul(k)),
        Arithmetic::Over => divide(n, k),
        Arithmetic::Rest => remainder(n, k),
    }
}

/// The negation of a number, which overflows for the least one.
pub fn negate(n: i64) -> Result<i64, TrapKind>
    ensures { result ≡ InRange (neg_ℤ n) }
{
    in_range(n.checked_neg())
}

/// Whether a comparison of numbers holds.
pub fn compare(rel: Rel, n: i64, k: i64) -> bool
    ensures { result ≡ holds rel n k }
{
    match rel {
        Rel::Same => n <= k && k <= n,
        Rel::Other => !(n <= k && k <= n),
        Rel::Below => n < k,
        Rel::AtMost => n <= k,
        Rel::Above => k < n,
        Rel::AtLeast => k <= n,
    }
}

/// The operand of an assignment: for `-=` the negation, modulo 2^64.
pub(crate) fn operand(how: How, n: i64) -> i64
    ensures { result ≡ OperandOf how n }
{
    match how {
        How::Less => n.wrapping_neg(),
        _ => n,
    }
}

/// The value after an assignment.
pub fn assigned(how: How, old: i64, n: i64) -> i64
    ensures { result ≡ assigned_value how old n }
{
    match how {
        How::Set => n,
        How::Fold(op) => fold_op(op, old, n),
        How::Less => fold_op(Op::Add, old, operand(how, n)),
    }
}
