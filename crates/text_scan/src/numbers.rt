//! The numbers that words spell.

ghost use Rattle.std.specs.Prelude.{◌≡◌, ◌+◌, ◌-◌, ◌*◌, ◌^◌, ◌≤◌, ◌++◌, min, if◌then◌else◌, true, length, position, take, pos, neg_ℤ, Some, None, IfSome, IfNone};
ghost use Rattle.std.specs.Char.{is_ascii_digit};
ghost use Rattle.std.specs.List.{list_any, list_all, before_first, after_first};
ghost use Rattle.std.specs.Option.{option_map};
ghost use Rattle.std.specs.Str.Parse.{digits_value, digits_value_after, without_leading_sign, starts_with_minus};
ghost use Rattle.text_scan.specs.Numbers as spec;

use crate::faults::NumberFault;

/// The greatest number of bytes of a coordinate.
const MOST_BYTES: usize = 64;

/// The greatest number of digits of a whole number.
const MOST_DIGITS: usize = 18;

/// The greatest size of a coordinate, in millionths.
const MOST_MILLIONTHS: u64 = 1_000_000_000_000_000;

/// The greatest number of places that an exponent counts.
const MOST_PLACES: u64 = 100;

/// The greatest value that digits are given; larger values are not told apart.
const CAP: u64 = 1_000_000_000_000_000_000;

/// The whole number that `text` spells: an optional sign and 1 to 18 digits. Other texts are `BadNumber`.
pub fn whole(text: &[u8]) -> Result<i64, NumberFault>
    ensures { result ≡ spec.whole_of text.now }
{
    let (minus, digits) = split_sign(text);
    if is_numeral(digits) && digits.len() <= MOST_DIGITS {
        Ok(with_sign(minus, number_after(0, digits)))
    } else {
        Err(NumberFault::BadNumber)
    }
}

/// The coordinate that `text` spells, in millionths, truncated towards zero. A coordinate has at most 64 bytes: an optional sign, one
/// digit or more with at most one point, and an optional exponent. Other texts are `BadNumber`; more than 10^15 millionths are
/// `CoordRange`.
pub fn millionths(text: &[u8]) -> Result<i64, NumberFault>
    ensures { result ≡ spec.millionths_of text.now }
{
    if text.len() > MOST_BYTES {
        return Err(NumberFault::BadNumber);
    }
    let parts = parts_of(text);
    if !are_digits(parts.whole, parts.fraction) {
        return Err(NumberFault::BadNumber);
    }
    let Some(places) = places(parts.whole.len() + 6, parts.exponent) else {
        return Err(NumberFault::BadNumber);
    };
    let size = leading_value(places, parts.whole, parts.fraction);
    if size > MOST_MILLIONTHS {
        return Err(NumberFault::CoordRange);
    }
    Ok(with_sign(parts.minus, size))
}

/// The parts of a coordinate's text, split at the sign, the exponent mark and the point. They are not tested.
#[derive(Clone, Copy)]
struct Parts<'a> {
    minus: bool,
    whole: &'a [u8],
    fraction: &'a [u8],
    exponent: Option<&'a [u8]>,
}

fn parts_of(text: &[u8]) -> Parts<'_>
    ensures minus { result.minus ≡ starts_with_minus text.now }
    ensures whole { result.whole.now ≡ before_first spec.is_decimal_point (spec.mantissa text.now) }
    ensures fraction { result.fraction.now ≡ spec.fraction text.now }
    ensures exponent { option_map (λ rest. rest.now) result.exponent
        ≡ (if list_any spec.is_exponent_mark text.now then Some (spec.exponent text.now)
        else None) }
{
    let (minus, unsigned) = split_sign(text);
    let (mantissa, exponent) = split_exponent(unsigned);
    let (whole, fraction) = split_point(mantissa);
    Parts {
        minus,
        whole,
        fraction,
        exponent,
    }
}

/// Whether the text begins with a minus, and the text without its sign.
fn split_sign(text: &[u8]) -> (bool, &[u8])
    ensures minus { result.0 ≡ starts_with_minus text.now }
    ensures rest { result.1.now ≡ without_leading_sign text.now }
{
    match text {
        [b'-', rest @ ..] => (true, rest),
        [b'+', rest @ ..] => (false, rest),
        _ => (false, text),
    }
}

/// The index of the first exponent mark.
fn exponent_mark_position(text: &[u8]) -> Option<usize>
    ensures { result ≡ position spec.is_exponent_mark text.now }
{
    text.iter().position(|b| *b == b'e' || *b == b'E')
}

/// The text before the first exponent mark, and the text after it where there is one.
fn split_exponent(text: &[u8]) -> (&[u8], Option<&[u8]>)
    ensures before { result.0.now ≡ before_first spec.is_exponent_mark text.now }
    ensures after { option_map (λ rest. rest.now) result.1
        ≡ (if list_any spec.is_exponent_mark text.now
        then Some (after_first spec.is_exponent_mark text.now) else None) }
{
    match exponent_mark_position(text) {
        Some(place) => (&text[..place], Some(&text[place + 1..])),
        None => (text, None),
    }
}

/// The index of the first point.
fn point_position(text: &[u8]) -> Option<usize>
    ensures { result ≡ position spec.is_decimal_point text.now }
{
    text.iter().position(|b| *b == b'.')
}

/// The text before the first point and the text after it.
fn split_point(text: &[u8]) -> (&[u8], &[u8])
    ensures before { result.0.now ≡ before_first spec.is_decimal_point text.now }
    ensures after { result.1.now ≡ after_first spec.is_decimal_point text.now }
{
    match point_position(text) {
        Some(place) => (&text[..place], &text[place + 1..]),
        None => (text, &[]),
    }
}

fn all_digits(text: &[u8]) -> bool
    ensures { result ≡ list_all is_ascii_digit text.now }
{
    text.iter().all(|b| b.is_ascii_digit())
}

fn is_numeral(text: &[u8]) -> bool
    ensures { result ≡ spec.is_numeral text.now }
{
    !text.is_empty() && all_digits(text)
}

/// Whether two texts are digits only, with at least one digit.
fn are_digits(front: &[u8], back: &[u8]) -> bool
    ensures { result ≡ spec.is_numeral (front.now ++ back.now) }
{
    front.len() + back.len() > 0 && all_digits(front) && all_digits(back)
}

/// The number that the digits of `front` followed by these digits write, or the cap.
fn number_after(front: u64, digits: &[u8]) -> u64
    requires low { front ≤ 10 ^ 18 }
    requires digits { list_all is_ascii_digit digits.now ≡ true }
    ensures { result ≡ min (digits_value_after 10 front digits.now) (10 ^ 18) }
{
    let mut value = front;
    for b in digits {
        value = (value * 10 + u64::from(*b - b'0')).min(CAP);
    }
    value
}

/// The number of digits before the point after an exponent moves it, from `point` digits without one; `None` where the exponent
/// is malformed. The exponent counts up to 100 places.
fn places(point: usize, exponent: Option<&[u8]>) -> Option<usize>
    requires { point ≤ 100 }
    ensures none { IfNone exponent.entry (result ≡ Some point) }
    ensures some { IfSome exponent.entry (λ text. result
        ≡ (if spec.is_numeral (without_leading_sign text.now)
        then Some (if starts_with_minus text.now
        then point - min (digits_value 10 (without_leading_sign text.now)) 100
        else point + min (digits_value 10 (without_leading_sign text.now)) 100)
        else None)) }
    ensures few { IfSome result (λ places. places ≤ 1000) }
{
    let Some(text) = exponent else {
        return Some(point);
    };
    let (minus, digits) = split_sign(text);
    if !is_numeral(digits) {
        return None;
    }
    let size = number_after(0, digits).min(MOST_PLACES) as usize;
    Some(if minus {
        point.saturating_sub(size)
    } else {
        point + size
    })
}

/// The number that the first `places` digits of two texts write, padded with zeros on the right, or the cap.
fn leading_value(places: usize, whole: &[u8], fraction: &[u8]) -> u64
    requires few { places ≤ 1000 }
    requires whole { list_all is_ascii_digit whole.now ≡ true }
    requires fraction { list_all is_ascii_digit fraction.now ≡ true }
    ensures { result ≡ min (digits_value 10 (take places (whole.now ++ fraction.now))
        * 10 ^ (places - length (whole.now ++ fraction.now))) (10 ^ 18) }
{
    let front = &whole[..places.min(whole.len())];
    let left = places - front.len();
    let back = &fraction[..left.min(fraction.len())];
    let zeros = left - back.len();
    let value = number_after(number_after(0, front), back);
    value
        .saturating_mul(10u64.saturating_pow(zeros as u32))
        .min(CAP)
}

/// The number of this size, negative where `minus` is set.
fn with_sign(minus: bool, size: u64) -> i64
    requires { size ≤ 10 ^ 18 }
    ensures { result ≡ (if minus then neg_ℤ (pos size) else pos size) }
{
    if minus { -(size as i64) } else { size as i64 }
}
