//! Sums and differences, exact or refused.

ghost use Rattle.std.specs.Prelude.{◌≡◌, ℕ, ◌+◌, ◌*◌, ◌^◌, ◌<◌, ◌%◌, ◌≤◌, ◌+ℤ◌, ◌-ℤ◌, neg_ℤ, MatchOption};
ghost use Rattle.alt_decimal.specs.Number.{fitted, fitted_units, with_sign};

use crate::{Decimal, NumberFault, digits};

/// Ten to the number of digits that a `Decimal` has room for.
const ROOM: u128 = 100_000_000_000_000_000_000_000_000_000_000_000_000;

impl Decimal {
    /// The exact sum, where it fits; else TooManyDigits, TooLarge or TooSmall, the first of these that applies to it.
    pub fn add(&self, other: &Decimal) -> Result<Decimal, NumberFault>
        ensures { result ≡ fitted_units (self.now +ℤ other.now) }
    {
        if self.coefficient == 0 {
            return Ok(*other);
        }
        if other.coefficient == 0 {
            return Ok(*self);
        }
        if other.zeros <= self.zeros {
            let shift = self.zeros - other.zeros;
            total(
                self.negative,
                self.coefficient,
                shift,
                other.negative,
                other.coefficient,
                other.zeros,
            )
        } else {
            let shift = other.zeros - self.zeros;
            total(
                other.negative,
                other.coefficient,
                shift,
                self.negative,
                self.coefficient,
                self.zeros,
            )
        }
    }

    /// The exact difference, where it fits; else TooManyDigits, TooLarge or TooSmall, the first of these that applies to it.
    pub fn subtract(&self, other: &Decimal) -> Result<Decimal, NumberFault>
        ensures { result ≡ fitted_units (self.now -ℤ other.now) }
    {
        self.add(&other.negated())
    }

    // The number on the other side of zero.
    fn negated(&self) -> Decimal
        ensures { result ≡ neg_ℤ self.now }
    {
        Decimal {
            negative: !self.negative && self.coefficient > 0,
            coefficient: self.coefficient,
            zeros: self.zeros,
        }
    }
}

// The sum of a * 10^(zeros + shift) and b * 10^zeros. Where it has no room in 128 bits its last digit is that of b, or of 10 - b,
// so that it has over 38 digits.
fn total(
    a_negative: bool,
    a: u128,
    shift: u32,
    b_negative: bool,
    b: u128,
    zeros: u32,
) -> Result<Decimal, NumberFault>
    requires few_a { a < 10 ^ 38 }
    requires few_b { b < 10 ^ 38 }
    requires last_a { 0 < a % 10 }
    requires last_b { 0 < b % 10 }
    requires few_zeros { zeros ≤ 292 }
    ensures { result ≡ fitted_units (with_sign a_negative
        (a * 10 ^ (zeros + shift)) +ℤ with_sign b_negative (b * 10 ^ zeros)) }
{
    match widened(a, shift) {
        None => Err(NumberFault::TooManyDigits),
        Some(x) => match signed_sum(a_negative, x, b_negative, b) {
            None => Err(NumberFault::TooManyDigits),
            Some((negative, sum)) => fit_units(negative, sum, zeros),
        },
    }
}

// a with zeros behind it, or None where that has no room in 128 bits.
fn widened(a: u128, zeros: u32) -> Option<u128>
    requires { 0 < a }
    ensures { MatchOption result (2 ^ 128 ≤ a * 10 ^ zeros) (λ x. x ≡ a * 10 ^ zeros) }
{
    if zeros <= 38 {
        a.checked_mul(digits::power(zeros))
    } else {
        None
    }
}

// The sum of two magnitudes with their signs, at every scale p; None where it has no room in 128 bits.
fn signed_sum(a_negative: bool, a: u128, b_negative: bool, b: u128) -> Option<(bool, u128)>
    ensures { MatchOption result ((a_negative ≡ b_negative) × (2 ^ 128 ≤ a + b))
        (λ s. (p : ℕ) → with_sign a_negative (a * p) +ℤ with_sign b_negative (b * p)
        ≡ with_sign s.0 (s.1 * p)) }
{
    if a_negative == b_negative {
        match a.checked_add(b) {
            Some(sum) => Some((a_negative, sum)),
            None => None,
        }
    } else if b <= a {
        Some((a_negative, a - b))
    } else {
        Some((b_negative, b - a))
    }
}

// The number n * 10^zeros of units, where it fits.
fn fit_units(negative: bool, n: u128, zeros: u32) -> Result<Decimal, NumberFault>
    requires { zeros ≤ 292 }
    ensures { result ≡ fitted_units (with_sign negative (n * 10 ^ zeros)) }
{
    if n == 0 {
        Ok(Decimal {
            negative: false,
            coefficient: 0,
            zeros: 0,
        })
    } else if n < ROOM {
        fit_short(negative, n, zeros)
    } else if n % 10 == 0 {
        fit_short(negative, n / 10, zeros + 1)
    } else {
        Err(NumberFault::TooManyDigits)
    }
}

// The same for n of at most 38 digits.
fn fit_short(negative: bool, n: u128, zeros: u32) -> Result<Decimal, NumberFault>
    requires above { 0 < n }
    requires few { n < 10 ^ 38 }
    requires few_zeros { zeros ≤ 293 }
    ensures { result ≡ fitted_units (with_sign negative (n * 10 ^ zeros)) }
{
    let (c, behind) = digits::stripped(n);
    fit(negative, c, (behind + zeros) as u128, 167)
}

/// The number c * 10^up / 10^down, where it fits. The last digit of c is not 0.
pub fn fit(negative: bool, c: u128, up: u128, down: u128) -> Result<Decimal, NumberFault>
    requires few { c < 10 ^ 38 }
    requires last { 0 < c % 10 }
    requires up_room { up < 2 ^ 127 }
    requires down_room { down < 2 ^ 127 }
    ensures { result ≡ fitted (record { negative = negative; c = c; up = up; down = down }) }
{
    let first = digits::width(c) as u128 + up;
    if first > 126 + down {
        Err(NumberFault::TooLarge)
    } else if first + 129 < down {
        Err(NumberFault::TooSmall)
    } else {
        Ok(Decimal {
            negative,
            coefficient: c,
            zeros: (up + 167 - down) as u32,
        })
    }
}
