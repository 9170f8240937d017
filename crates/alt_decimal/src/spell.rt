//! The spelling of numbers in bytes whose order is that of the numbers.

ghost use Rattle.std.specs.Prelude.{MatchOption, IfNone, pos, ◌-◌, All, [], ◌∷◌, ◌+◌, ◌*◌, ◌%◌, ◌^◌, ◌<◌, ◌≡◌, ◌≤◌, ℤ, List, ℕ, Some, IfSome, ◌++◌, take, length};
ghost use Rattle.std.specs.Ordering.{int_cmp, nat_cmp};
ghost use Rattle.std.specs.Cmp.Lexicographic.{slice_cmp};
ghost use Rattle.alt_decimal.specs.Number.{FitsDecimal, IsMagnitude, with_sign};
ghost use Rattle.alt_decimal.specs.Spelled.{spelled, digit_pairs, complement, magnitude_bytes};
ghost use Rattle.alt_decimal.specs.Unspelled.{raw as raw_of, raws, pairs_value_after, Ends, PairsAreWhole, Decodes, IsSpelledAt};

use crate::print::put;
use crate::{Decimal, digits};
use std::cmp::Ordering;

// The first byte of a spelling: of a negative number, of zero and of a positive one.
const BELOW_ZERO: u8 = 1;

const AT_ZERO: u8 = 2;

const ABOVE_ZERO: u8 = 3;

impl Decimal {
    /// Writes the number's spelling at the front of the buffer, and answers its length in bytes. What stood behind it in the
    /// buffer has no promise.
    pub fn spell(&self, buf: &mut [u8; 22]) -> usize
        ensures length { result ≡ length (spelled self.now) }
        ensures within { result ≤ 22 }
        ensures bytes { take result buf.new ≡ spelled self.now }
    {
        if self.coefficient == 0 {
            return put(buf, 0, &[AT_ZERO]);
        }
        if self.negative {
            let end = put_magnitude(buf, BELOW_ZERO, self.coefficient, self.zeros);
            flip(&mut buf[1..end]);
            end
        } else {
            put_magnitude(buf, ABOVE_ZERO, self.coefficient, self.zeros)
        }
    }

    /// Reads the spelling at the front of the bytes: the number, and the length of its spelling. None where no spelling stands
    /// there.
    pub fn unspell(bytes: &[u8]) -> Option<(Decimal, usize)>
        ensures spelling { IfSome result (λ r. (take r.1 bytes.now ≡ spelled r.0) × FitsDecimal r.0) }
        // Whatever follows a spelling, it is read; so None comes exactly where no spelling stands at the front.
        ensures every { (z : ℤ) (rest : List ℕ) → FitsDecimal z → bytes.now ≡ spelled z ++ rest
            → result ≡ Some (z, length (spelled z)) }
    {
        match bytes {
            [first, rest @ ..] => {
                if *first == AT_ZERO {
                    Some((zero(), 1))
                } else if *first == BELOW_ZERO {
                    read_magnitude(rest, true)
                } else if *first == ABOVE_ZERO {
                    read_magnitude(rest, false)
                } else {
                    None
                }
            }
            [] => None,
        }
    }
}

/// The order of two numbers, which is that of the bytes of their spellings.
pub fn spelling_order(a: &Decimal, b: &Decimal) -> Ordering
    ensures numbers { result ≡ int_cmp a.now b.now }
    ensures spellings { result ≡ slice_cmp nat_cmp (spelled a.now) (spelled b.now) }
    // No spelling is a prefix of another.
    ensures apart { (after rest : List ℕ) → spelled a.now ++ after ≡ spelled b.now ++ rest
        → a.now ≡ b.now }
{
    // The proof sees the parts of both numbers by these two lines; they do nothing.
    let _ = &a.negative;
    let _ = &b.negative;
    a.order(b)
}

fn zero() -> Decimal
    ensures { result ≡ pos 0 }
{
    Decimal {
        negative: false,
        coefficient: 0,
        zeros: 0,
    }
}

// Reads the bytes of a magnitude behind the first byte: the number, and the length of its spelling.
fn read_magnitude(bytes: &[u8], negative: bool) -> Option<(Decimal, usize)>
    ensures spelling { IfSome result (λ r. IsSpelledAt negative bytes.now r.0 r.1) }
    ensures every { (m : ℕ) (rest : List ℕ) → IsMagnitude m
        → bytes.now ≡ raws negative (magnitude_bytes m) ++ rest
        → result ≡ Some (with_sign negative m, 1 + length (magnitude_bytes m)) }
{
    match bytes {
        [first, rest @ ..] => match read_pairs(rest, negative) {
            Some((c, count)) => match decode(negative, raw(negative, *first), c, count) {
                Some(number) => Some((number, count + 3)),
                None => None,
            },
            None => None,
        },
        [] => None,
    }
}

// A byte as it was before those of a negative number were flipped.
fn raw(negative: bool, byte: u8) -> u8
    ensures { result ≡ raw_of negative byte }
{
    if negative { 255 - byte } else { byte }
}

// The number that the pairs write, and how many they are; None where no 0 stands behind at most 19 pairs.
fn read_pairs(bytes: &[u8], negative: bool) -> Option<(u128, usize)>
    ensures { MatchOption result ((n : ℕ) → Ends (raws negative bytes.now) n → ⊥)
        (λ r. Ends (raws negative bytes.now) r.1
        × (r.0 ≡ pairs_value_after 0 (take r.1 (raws negative bytes.now)))) }
{
    let mut c: u128 = 0;
    for (i, byte) in bytes.iter().enumerate() {
        let pair = raw(negative, *byte);
        if pair == 0 {
            return Some((c, i));
        }
        if pair > 100 {
            return None;
        }
        if i >= 19 {
            return None;
        }
        c = c * 100 + (pair - 1) as u128;
    }
    None
}

// The number of these pairs, where they are those of a spelling.
fn decode(negative: bool, first: u8, c: u128, count: usize) -> Option<Decimal>
    requires few { count ≤ 19 }
    requires below { c < 10 ^ (2 * count) }
    ensures some { IfSome result (Decodes negative first c count) }
    ensures none { IfNone result (PairsAreWhole c count → ⊥) }
{
    let width = 2 * count as u32;
    if count == 0 {
        None
    } else if c < digits::power(width - 1) {
        None
    } else if c % 100 == 0 {
        None
    } else if c % 10 == 0 {
        Some(Decimal {
            negative,
            coefficient: c / 10,
            zeros: first as u32 + 39 - width,
        })
    } else {
        Some(Decimal {
            negative,
            coefficient: c,
            zeros: first as u32 + 38 - width,
        })
    }
}

// Writes the first byte and the bytes of a magnitude of c * 10^zeros units, and answers where they end.
fn put_magnitude(buf: &mut [u8], sign: u8, c: u128, zeros: u32) -> usize
    requires few { c < 10 ^ 38 }
    requires last { 0 < c % 10 }
    requires few_zeros { zeros ≤ 292 }
    requires least { 10 ^ 37 ≤ c * 10 ^ zeros }
    requires below { c * 10 ^ zeros < 10 ^ 293 }
    requires room { 22 ≤ length buf.old }
    ensures bytes { take result buf.new ≡ sign ∷ magnitude_bytes (c * 10 ^ zeros) }
    ensures end { result ≡ 1 + length (magnitude_bytes (c * 10 ^ zeros)) }
    ensures within { result ≤ 22 }
{
    let width = digits::width(c);
    let digits = digits::spread(digits::filled(c, 38 - width), 0);
    let count = ((width + 1) / 2) as usize;
    let first = (width + zeros - 38) as u8;
    put_spelling(buf, sign, first, &digits[..2 * count], count)
}

// Writes the first byte, the place of the first digit, the pairs of the digits and 0, and answers where they end.
fn put_spelling(buf: &mut [u8], sign: u8, first: u8, digits: &[u8], count: usize) -> usize
    requires even { length digits.now ≡ 2 * count }
    requires below { All (λ d. d < 10) digits.now }
    requires room { count + 3 ≤ length buf.old }
    ensures bytes { take result buf.new ≡ sign ∷ first ∷ (digit_pairs digits.now ++ 0 ∷ []) }
    ensures end { result ≡ count + 3 }
{
    let at = put(buf, 0, &[sign, first]);
    let end = at + count;
    put_pairs(&mut buf[at..end], digits);
    put(buf, end, &[0])
}

// Fills the bytes with the pairs of the digits.
fn put_pairs(out: &mut [u8], digits: &[u8])
    requires even { length digits.now ≡ 2 * length out.old }
    requires below { All (λ d. d < 10) digits.now }
    ensures { out.new ≡ digit_pairs digits.now }
{
    let mut i = 0;
    while i < out.len() {
        out[i] = 10 * digits[2 * i] + digits[2 * i + 1] + 1;
        i += 1;
    }
}

// Subtracts each byte from 255.
fn flip(bytes: &mut [u8])
    ensures { bytes.new ≡ complement bytes.old }
{
    for byte in bytes.iter_mut() {
        *byte = 255 - *byte;
    }
}
