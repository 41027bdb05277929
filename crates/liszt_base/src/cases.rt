//! Worked cases of the definitions, which the checker computes. Each function does nothing; its contract is the case.
#![allow(dead_code)]

ghost use Rattle.std.specs.Prelude.{◌≡◌, pos, neg_ℤ};
ghost use Rattle.liszt_base.specs.declared.elements.Op.TheVariants.{Add, Mul, And, Or, Xor, Min, Max};
ghost use Rattle.liszt_base.specs.Reductions.{fold, identity_of, word, value};

/// Sums and products that wrap around.
fn wraps()
    ensures past_most { fold Add (pos 9223372036854775807) (pos 1)
        ≡ neg_ℤ (pos 9223372036854775808) }
    ensures past_least { fold Add (neg_ℤ (pos 9223372036854775808)) (neg_ℤ (pos 1))
        ≡ pos 9223372036854775807 }
    ensures sum { fold Add (neg_ℤ (pos 7)) (pos 5) ≡ neg_ℤ (pos 2) }
    ensures least_negated { fold Mul (neg_ℤ (pos 9223372036854775808)) (neg_ℤ (pos 1))
        ≡ neg_ℤ (pos 9223372036854775808) }
    ensures product_gone { fold Mul (pos 4294967296) (pos 4294967296) ≡ pos 0 }
    ensures product { fold Mul (neg_ℤ (pos 7)) (pos 5) ≡ neg_ℤ (pos 35) }
{}

/// The bit operators, on negative numbers.
fn bits()
    ensures and { fold And (neg_ℤ (pos 6)) (pos 12) ≡ pos 8 }
    ensures or { fold Or (neg_ℤ (pos 6)) (pos 1) ≡ neg_ℤ (pos 5) }
    ensures xor { fold Xor (neg_ℤ (pos 6)) (neg_ℤ (pos 1)) ≡ pos 5 }
    ensures xor_sign { fold Xor (neg_ℤ (pos 9223372036854775808)) (pos 3)
        ≡ neg_ℤ (pos 9223372036854775805) }
{}

/// The lesser and the greater.
fn picks()
    ensures lesser { fold Min (neg_ℤ (pos 3)) (pos 2) ≡ neg_ℤ (pos 3) }
    ensures greater { fold Max (neg_ℤ (pos 3)) (pos 2) ≡ pos 2 }
{}

/// What leaves each number as it is.
fn identities()
    ensures add { identity_of Add ≡ pos 0 }
    ensures mul { identity_of Mul ≡ pos 1 }
    ensures and { identity_of And ≡ neg_ℤ (pos 1) }
    ensures or { identity_of Or ≡ pos 0 }
    ensures xor { identity_of Xor ≡ pos 0 }
    ensures min { identity_of Min ≡ pos 9223372036854775807 }
    ensures max { identity_of Max ≡ neg_ℤ (pos 9223372036854775808) }
{}

/// Words, and the numbers that they are.
fn words()
    ensures minus_one { word (neg_ℤ (pos 1)) ≡ 18446744073709551615 }
    ensures least { word (neg_ℤ (pos 9223372036854775808)) ≡ 9223372036854775808 }
    ensures most { value 9223372036854775807 ≡ pos 9223372036854775807 }
    ensures half { value 9223372036854775808 ≡ neg_ℤ (pos 9223372036854775808) }
    ensures all { value 18446744073709551615 ≡ neg_ℤ (pos 1) }
{}
