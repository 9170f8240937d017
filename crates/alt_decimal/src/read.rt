//! Number texts are read.

ghost use Rattle.std.specs.Prelude.{◌≡◌, ◌≢◌, ◌-◌, replicate, slice_index, ◌+◌, ◌<◌, ◌≤◌, length, MatchOption, None, Some, Ok, Err, if◌then◌else◌, ◌++◌, Bool};
ghost use Rattle.std.specs.Str.Parse.{AllDigits, digits_value};
ghost use Rattle.std.specs.Float.Numeral.{digits_len};
ghost use Rattle.alt_decimal.specs.Number.{fitted};
ghost use Rattle.alt_decimal.specs.Digits.{digit_count};
ghost use Rattle.alt_decimal.specs.Coefficient.{IsCoefficient, Trims};
ghost use Rattle.alt_decimal.specs.NumberText.{TextReadsAs, is_minus, fraction_digits};
ghost use Rattle.alt_decimal.specs.Reading.{sign_of, behind_sign, front_digits, behind_digits, fraction_of, behind_fraction, ExponentIs, exponent_of, exponent_from, capped};

use crate::sum::fit;
use crate::{Decimal, NumberFault, digits};

// An exponent past which every number is too large or too small.
const FAR: u128 = 1_000_000_000_000_000_000_000_000_000_000_000_000;

impl Decimal {
    /// Reads a number text: an optional sign, digits with at most one point, and optionally `e` or `E` and an exponent of any
    /// length. The faults are tested in the order of `NumberFault`.
    /// DynamoDB API Reference, "AttributeValue", N.
    pub fn parse(text: &[u8]) -> Result<Decimal, NumberFault>
        ensures reads { TextReadsAs text.now result }
    {
        let (negative, rest) = split_sign(text);
        let (whole, rest) = split_digits(rest);
        let (fraction, rest) = split_fraction(rest);
        if whole.is_empty() && fraction.is_empty() {
            return Err(NumberFault::NotANumber);
        }
        match exponent_in(rest) {
            None => Err(NumberFault::NotANumber),
            Some((below, exponent)) => number(negative, whole, fraction, below, exponent),
        }
    }
}

// A sign at the front, and what stands behind it.
fn split_sign(text: &[u8]) -> (bool, &[u8])
    ensures sign { result.0 ≡ is_minus (sign_of text.now) }
    ensures rest { result.1.now ≡ behind_sign text.now }
{
    match text {
        [b'-', rest @ ..] => (true, rest),
        [b'+', rest @ ..] => (false, rest),
        _ => (false, text),
    }
}

// The digits at the front, and what stands behind them.
fn split_digits(text: &[u8]) -> (&[u8], &[u8])
    ensures digits { result.0.now ≡ front_digits text.now }
    ensures rest { result.1.now ≡ behind_digits text.now }
{
    text.split_at(digits_end(text))
}

// How many digits stand at the front.
fn digits_end(text: &[u8]) -> usize
    ensures count { result ≡ digits_len text.now }
    ensures within { result ≤ length text.now }
{
    for (i, b) in text.iter().enumerate() {
        if !b.is_ascii_digit() {
            return i;
        }
    }
    text.len()
}

// The digits behind a point at the front, and what stands behind them.
fn split_fraction(text: &[u8]) -> (&[u8], &[u8])
    ensures digits { result.0.now ≡ fraction_digits (fraction_of text.now) }
    ensures rest { result.1.now ≡ behind_fraction text.now }
{
    match text {
        [b'.', rest @ ..] => split_digits(rest),
        _ => (&[], text),
    }
}

// Whether the exponent is negative, and its digits, none where there is no exponent; None where the text is no exponent.
fn exponent_in(text: &[u8]) -> Option<(bool, &[u8])>
    ensures { MatchOption result (exponent_of text.now ≡ None)
        (λ r. ExponentIs (exponent_of text.now) r.0 r.1.now) }
{
    match text {
        [] => Some((false, text)),
        [b'e' | b'E', rest @ ..] => exponent_behind(rest),
        _ => None,
    }
}

// The same behind the letter, in either case of that.
fn exponent_behind(text: &[u8]) -> Option<(bool, &[u8])>
    ensures { (upper : Bool) → MatchOption result
        (exponent_from upper (sign_of text.now) (behind_sign text.now) ≡ None)
        (λ r. ExponentIs (exponent_from upper (sign_of text.now) (behind_sign text.now)) r.0
        r.1.now) }
{
    let (below, rest) = split_sign(text);
    let (digits, end) = split_digits(rest);
    if digits.is_empty() {
        None
    } else if end.is_empty() {
        Some((below, rest))
    } else {
        None
    }
}

// The number of these digits and this exponent, where it fits.
fn number(
    negative: bool,
    whole: &[u8],
    fraction: &[u8],
    below: bool,
    exponent: &[u8],
) -> Result<Decimal, NumberFault>
    requires whole_digits { AllDigits 10 whole.now }
    requires fraction_digits { AllDigits 10 fraction.now }
    requires exponent_digits { AllDigits 10 exponent.now }
    ensures { result ≡ fitted (record {
      negative = negative;
      c = digits_value 10 (whole.now ++ fraction.now);
      up = (if below then 0 else digits_value 10 exponent.now);
      down = (if below then digits_value 10 exponent.now else 0) + length fraction.now;
    }) }
{
    let (c, behind) = match coefficient(whole, fraction) {
        Some(c) => c,
        None => return Err(NumberFault::TooManyDigits),
    };
    if c == 0 {
        return Ok(Decimal {
            negative: false,
            coefficient: 0,
            zeros: 0,
        });
    }
    let tens = exponent_value(exponent);
    let places = fraction.len() as u128;
    if below {
        fit(negative, c, behind, tens + places)
    } else {
        fit(negative, c, behind + tens, places)
    }
}

// The digits as a coefficient without zeros behind it, and how many zeros these are; None where it has over 38 digits.
fn coefficient(whole: &[u8], fraction: &[u8]) -> Option<(u128, u128)>
    requires whole_digits { AllDigits 10 whole.now }
    requires fraction_digits { AllDigits 10 fraction.now }
    ensures { MatchOption result (38 < digit_count (digits_value 10 (whole.now ++ fraction.now)))
        (λ r. IsCoefficient (digits_value 10 (whole.now ++ fraction.now)) r.0 r.1) }
{
    let (w, f, behind) = trimmed(whole, fraction);
    if w.len() as u128 + f.len() as u128 > 38 {
        None
    } else {
        Some((digits::append(digits::append(0, w), f), behind))
    }
}

// The digits from the first to the last that is not 0, and how many zeros stand behind them.
fn trimmed<'a>(whole: &'a [u8], fraction: &'a [u8]) -> (&'a [u8], &'a [u8], u128)
    requires whole_digits { AllDigits 10 whole.now }
    requires fraction_digits { AllDigits 10 fraction.now }
    ensures { Trims whole.now fraction.now result.0.now result.1.now result.2 }
{
    let f = before_zeros(fraction);
    let w = behind_zeros(whole);
    let cut = (fraction.len() - f.len()) as u128;
    if f.is_empty() {
        let v = before_zeros(w);
        (v, f, cut + (w.len() - v.len()) as u128)
    } else if w.is_empty() {
        (w, behind_zeros(f), cut)
    } else {
        (w, f, cut)
    }
}

// The digits without the zeros that they begin with.
fn behind_zeros(digits: &[u8]) -> &[u8]
    ensures zeros { digits.now ≡ replicate (length digits.now - length result.now) 48
        ++ result.now }
    ensures within { length result.now ≤ length digits.now }
    ensures first { 0 < length result.now → slice_index result.now 0 ≢ 48 }
{
    let mut rest = digits;
    while let [b'0', behind @ ..] = rest {
        rest = behind;
    }
    rest
}

// The digits without the zeros that they end with.
fn before_zeros(digits: &[u8]) -> &[u8]
    ensures zeros { digits.now ≡ result.now ++ replicate
        (length digits.now - length result.now) 48 }
    ensures within { length result.now ≤ length digits.now }
    ensures last { 0 < length result.now → slice_index result.now (length result.now - 1) ≢ 48 }
{
    let mut rest = digits;
    while let [before @ .., b'0'] = rest {
        rest = before;
    }
    rest
}

// The exponent, or 10^36 where it is greater: past that every number is too large or too small.
fn exponent_value(digits: &[u8]) -> u128
    requires { AllDigits 10 digits.now }
    ensures { result ≡ capped digits.now }
{
    let short = behind_zeros(digits);
    if short.len() > 36 {
        FAR
    } else {
        digits::append(0, short)
    }
}
