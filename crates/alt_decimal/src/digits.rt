//! Decimal digits of whole numbers. A coefficient of 38 digits is split once by 10^19, and its halves are read in 64 bits.

ghost use Rattle.std.specs.Prelude.{◌≡◌, length, ◌+◌, ◌*◌, ◌%◌, ◌^◌, ◌<◌, ◌≤◌};
ghost use Rattle.std.specs.Str.Parse.{AllDigits, digits_value, digits_value_after};
ghost use Rattle.alt_decimal.specs.Digits.{width as width_of, padded, glyphs};

/// Ten to the number of digits in a half of a coefficient.
pub const HALF: u128 = 10_000_000_000_000_000_000;

/// How many digits n has.
pub fn width(n: u128) -> u32
    ensures digits { result ≡ width_of n }
    ensures bound { result ≤ 39 }
{
    if n == 0 { 0 } else { n.ilog10() + 1 }
}

/// Ten to the k.
pub fn power(k: u32) -> u128
    requires { k ≤ 38 }
    ensures { result ≡ 10 ^ k }
{
    10u128.pow(k)
}

/// n with zeros behind it, 38 digits in all at most.
pub fn filled(n: u128, zeros: u32) -> u128
    requires { width_of n + zeros ≤ 38 }
    ensures { result ≡ n * 10 ^ zeros }
{
    n * power(zeros)
}

/// n without the zeros behind it, and how many these are.
pub fn stripped(n: u128) -> (u128, u32)
    requires above { 0 < n }
    requires few { n < 10 ^ 38 }
    ensures value { n ≡ result.0 * 10 ^ result.1 }
    ensures last { 0 < result.0 % 10 }
    ensures bound { result.1 < 38 }
{
    let (high, low) = (n / HALF, (n % HALF) as u64);
    if low == 0 {
        let (c, zeros) = stripped_half(high as u64);
        (c as u128, zeros + 19)
    } else {
        let (c, zeros) = stripped_half(low);
        (high * power(19 - zeros) + c as u128, zeros)
    }
}

// The same for a half.
fn stripped_half(n: u64) -> (u64, u32)
    requires above { 0 < n }
    requires few { n < 10 ^ 19 }
    ensures value { n ≡ result.0 * 10 ^ result.1 }
    ensures last { 0 < result.0 % 10 }
    ensures bound { result.1 < 19 }
{
    let mut c = n;
    let mut zeros = 0;
    while c % 10 == 0 {
        c /= 10;
        zeros += 1;
    }
    (c, zeros)
}

/// The number that the digits write when they follow those of c.
pub fn append(c: u128, digits: &[u8]) -> u128
    requires digits { AllDigits 10 digits.now }
    requires room { (c + 1) * 10 ^ length digits.now ≤ 10 ^ 38 }
    ensures { result ≡ digits_value_after 10 c digits.now }
{
    if digits.len() <= 19 {
        append_half(c, digits)
    } else {
        let (front, back) = digits.split_at(19);
        append_half(append_half(c, front), back)
    }
}

// The same for 19 digits at most.
fn append_half(c: u128, digits: &[u8]) -> u128
    requires digits { AllDigits 10 digits.now }
    requires few { length digits.now ≤ 19 }
    requires room { (c + 1) * 10 ^ length digits.now ≤ 10 ^ 38 }
    ensures { result ≡ digits_value_after 10 c digits.now }
{
    c * power(digits.len() as u32) + half_value(digits) as u128
}

// The number that 19 digits at most write.
fn half_value(digits: &[u8]) -> u64
    requires digits { AllDigits 10 digits.now }
    requires few { length digits.now ≤ 19 }
    ensures { result ≡ digits_value 10 digits.now }
{
    let mut value: u64 = 0;
    for digit in digits {
        value = value * 10 + (*digit - b'0') as u64;
    }
    value
}

/// The 38 last digits of n, each with `zero` added to it.
pub fn spread(n: u128, zero: u8) -> [u8; 38]
    requires few { n < 10 ^ 38 }
    requires room { zero ≤ 48 }
    ensures { result ≡ glyphs zero (padded 38 n) }
{
    let mut digits = [0; 38];
    put_half((n / HALF) as u64, zero, &mut digits[..19]);
    put_half((n % HALF) as u64, zero, &mut digits[19..]);
    digits
}

// Fills the slice with the last digits of n, each with `zero` added to it.
fn put_half(n: u64, zero: u8, out: &mut [u8])
    requires { zero ≤ 48 }
    ensures { out.new ≡ glyphs zero (padded (length out.old) n) }
{
    let mut rest = n;
    let mut at = out.len();
    while at > 0 {
        at -= 1;
        out[at] = zero + (rest % 10) as u8;
        rest /= 10;
    }
}
