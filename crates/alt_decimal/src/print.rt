//! Numbers are printed in plain decimal notation.

ghost use Rattle.std.specs.Prelude.{◌≡◌, ◌+◌, ◌<◌, ◌≤◌, take, replicate, Ok, length, ◌++◌};
ghost use Rattle.std.specs.Fmt.{sign_text as minus_if};
ghost use Rattle.alt_decimal.specs.Printed.{printed};
ghost use Rattle.alt_decimal.specs.Layout.{magnitude_text};
ghost use Rattle.alt_decimal.specs.NumberText.{TextReadsAs};

use crate::{Decimal, digits};

// A unit is 10^-167: so many digits stand behind the point at most.
const PLACES: u32 = 167;

impl Decimal {
    /// Writes the number's printed form at the front of the buffer, and answers its length in bytes. What stood behind it in the
    /// buffer has no promise.
    pub fn print(&self, buf: &mut [u8; 176]) -> usize
        ensures length { result ≡ length (printed self.now) }
        ensures within { result ≤ 176 }
        ensures text { take result buf.new ≡ printed self.now }
        // The text reads as the number.
        ensures denotes { TextReadsAs (printed self.now) (Ok self.now) }
    {
        if self.coefficient == 0 {
            return put(buf, 0, b"0");
        }
        let count = digits::width(self.coefficient);
        let digits = digits::spread(digits::filled(self.coefficient, 38 - count), b'0');
        let at = put_sign(buf, self.negative);
        put_magnitude(buf, at, &digits[..count as usize], self.zeros)
    }
}

// `-` at the front for a negative number; the length of what was written.
fn put_sign(buf: &mut [u8], negative: bool) -> usize
    requires { 0 < length buf.old }
    ensures text { take result buf.new ≡ minus_if negative }
    ensures end { result ≡ length (minus_if negative) }
{
    if negative { put(buf, 0, b"-") } else { 0 }
}

// The digits, with `zeros` zeros behind them in units, behind the first `at` bytes; the length of these and what was written.
fn put_magnitude(buf: &mut [u8], at: usize, digits: &[u8], zeros: u32) -> usize
    requires some { 0 < length digits.now }
    requires few { length digits.now ≤ 38 }
    requires least { 38 ≤ length digits.now + zeros }
    requires below { length digits.now + zeros ≤ 293 }
    requires room { at + 175 ≤ length buf.old }
    ensures text { take result buf.new ≡ take at buf.old ++ magnitude_text digits.now zeros }
    ensures end { result ≡ at + length (magnitude_text digits.now zeros) }
{
    let count = digits.len() as u32 + zeros;
    if PLACES <= zeros {
        let end = put(buf, at, digits);
        put_zeros(buf, end, (zeros - PLACES) as usize)
    } else if PLACES < count {
        let (whole, fraction) = digits.split_at((count - PLACES) as usize);
        let end = put(buf, at, whole);
        let end = put(buf, end, b".");
        put(buf, end, fraction)
    } else {
        let end = put(buf, at, b"0.");
        let end = put_zeros(buf, end, (PLACES - count) as usize);
        put(buf, end, digits)
    }
}

/// Writes the bytes behind the first `at`, and answers where they end.
pub fn put(buf: &mut [u8], at: usize, bytes: &[u8]) -> usize
    requires { at + length bytes.now ≤ length buf.old }
    ensures text { take result buf.new ≡ take at buf.old ++ bytes.now }
    ensures end { result ≡ at + length bytes.now }
{
    let end = at + bytes.len();
    buf[at..end].copy_from_slice(bytes);
    end
}

// Writes so many zeros behind the first `at` bytes, and answers where they end.
fn put_zeros(buf: &mut [u8], at: usize, count: usize) -> usize
    requires { at + count ≤ length buf.old }
    ensures text { take result buf.new ≡ take at buf.old ++ replicate count 48 }
    ensures end { result ≡ at + count }
{
    let end = at + count;
    buf[at..end].fill(b'0');
    end
}
