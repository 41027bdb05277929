//! The operators of reductions.

ghost use Rattle.std.specs.Prelude.{◌≡◌};
ghost use Rattle.liszt_base.specs.Reductions.{fold, identity_of, word, value};

use crate::elements::Op;

/// `a` and `b` by the operator. Sums and products wrap around past 64 bits, and nothing fails.
pub fn fold_op(op: Op, a: i64, b: i64) -> i64
    ensures { result ≡ fold op a b }
{
    match op {
        Op::Add => a.wrapping_add(b),
        Op::Mul => a.wrapping_mul(b),
        Op::And => a & b,
        Op::Or => a | b,
        Op::Xor => a ^ b,
        Op::Min => a.min(b),
        Op::Max => a.max(b),
    }
}

/// What leaves each number as it is by the operator.
pub fn identity(op: Op) -> i64
    ensures { result ≡ identity_of op }
{
    match op {
        Op::Add | Op::Or | Op::Xor => 0,
        Op::Mul => 1,
        Op::And => -1,
        Op::Min => i64::MAX,
        Op::Max => i64::MIN,
    }
}

/// The word of a number, two's complement.
pub fn word_of(v: i64) -> u64
    ensures { result ≡ word v }
{
    v.cast_unsigned()
}

/// The number of a word, two's complement.
pub fn value_of(w: u64) -> i64
    ensures { result ≡ value w }
{
    w.cast_signed()
}
