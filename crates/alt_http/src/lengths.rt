//! Numbers that are written in digits.

ghost use Rattle.std.specs.Prelude.{◌≡◌, min, true};
ghost use Rattle.std.specs.Char.{is_ascii_digit};
ghost use Rattle.std.specs.List.{list_all};
ghost use Rattle.std.specs.Str.Parse.{digits_value};
ghost use Rattle.alt_http.specs.Lengths as numbers;

/// The longest body that is taken: 16 MB.
pub const LONGEST_BODY: u64 = 16_777_216;

/// Whether the text is a number.
pub(crate) fn is_length(text: &[u8]) -> bool
    ensures { result ≡ numbers.is_length text.now }
{
    !text.is_empty() && all_digits(text)
}

fn all_digits(text: &[u8]) -> bool
    ensures { result ≡ list_all is_ascii_digit text.now }
{
    text.iter().all(|b| b.is_ascii_digit())
}

/// The digits from the first on that isn't 0.
fn without_zeros(text: &[u8]) -> &[u8]
    ensures { result.now ≡ numbers.without_zeros text.now }
{
    for (place, digit) in text.iter().enumerate() {
        if *digit != b'0' {
            return &text[place..];
        }
    }
    &text[text.len()..]
}

/// Whether the text is no number, or another than the first.
pub(crate) fn is_other_length(first: &[u8], text: &[u8]) -> bool
    ensures { result ≡ numbers.is_other_length first.now text.now }
{
    !is_length(text) || without_zeros(text) != without_zeros(first)
}

/// The number, or one more than the longest body where it is longer.
pub(crate) fn length_of(text: &[u8]) -> u64
    requires { numbers.is_length text.now ≡ true }
    ensures { result ≡ min (digits_value 10 text.now) 16777217 }
{
    let mut value = 0u64;
    for digit in text {
        value = (value * 10 + (*digit - b'0') as u64).min(LONGEST_BODY + 1);
    }
    value
}
