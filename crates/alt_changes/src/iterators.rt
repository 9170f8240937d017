//! Iterators, which stand for the changes of a stream from a number on (docs/API.md): the stream's name, `|`, and the number in 21 digits.

ghost use Rattle.std.specs.Prelude.{◌≡◌, ◌≤◌, ◌<◌, ◌^◌, Some, IfOk, IfSome, length, option_map};
ghost use Rattle.std.specs.Char.{is_ascii_digit};
ghost use Rattle.std.specs.List.{list_all};
ghost use Rattle.alt_machine.specs.Streams as machine;
ghost use Rattle.alt_schema.specs.Json.{stream_arn};

use alt_base::NoMemory;
use alt_schema::{TableSchema, label, stream_arn};
use alt_value::Text;
use std::alloc::Global;

/// The largest number of an iterator: 2^62, one past the last number of a write.
const LAST: u64 = 1 << 62;

/// The bytes of a text from its bar on.
const TAIL: usize = 22;

/// The most digits of a sequence number (Streams API Reference, "GetShardIterator").
const MOST_DIGITS: usize = 40;

/// The text of the iterator from a number on in the stream of a table.
pub fn iterator_text(alloc: Global, schema: &TableSchema, number: u64) -> Result<Text, NoMemory>
    ensures text { IfOk result (λ text. text ≡ machine.iterator_text
        (record { arn = stream_arn schema.now.name schema.now.number; from = number })) }
    // It is read as that iterator again.
    ensures again { number ≤ 2 ^ 62 → IfOk result (λ text. machine.iterator_of text
        ≡ Some (record { arn = stream_arn schema.now.name schema.now.number; from = number })) }
{
    written(alloc, schema, number)
}

fn written(alloc: Global, schema: &TableSchema, number: u64) -> Result<Text, NoMemory>
    ensures { IfOk result (λ text. text ≡ machine.iterator_text
        (record { arn = stream_arn schema.now.name schema.now.number; from = number })) }
{
    let mut text = stream_arn(alloc, schema.name.as_str(), schema.number)?;
    text.push_str("|")?;
    text.push_str(label(alloc, number)?.as_str())?;
    Text::new(alloc, text.as_str())
}

/// The name of a stream and the number that a text stands for, `None` exactly where it hasn't the form of an iterator's.
pub fn iterator_of(text: &str) -> Option<(&str, u64)>
    ensures iterator { option_map (λ p. record { arn = p.0.now; from = p.1 }) result
        ≡ machine.iterator_of text.now }
{
    let (arn, tail) = text.split_at_checked(text.len().checked_sub(TAIL)?)?;
    let number = number_of(tail.strip_prefix('|')?)?;
    Some((arn, number))
}

/// The number of a change that a text denotes: 1 to 40 digits of a value below 2^62. `None` exactly where it isn't such a text.
pub fn sequence_number(text: &str) -> Option<u64>
    ensures number { result ≡ machine.sequence_number text.now }
    ensures small { IfSome result (λ n. n < 2 ^ 62) }
{
    if text.is_empty() || text.len() > MOST_DIGITS {
        return None;
    }
    let number = number_of(text)?;
    if number < LAST { Some(number) } else { None }
}

/// The number that a text of digits alone denotes, where an iterator may have it.
fn number_of(digits: &str) -> Option<u64>
    requires { 0 < length digits.now }
    ensures { result ≡ machine.number_within (2 ^ 62) digits.now }
{
    if !all_digits(digits.as_bytes()) {
        return None;
    }
    let number = digits.parse::<u64>().ok()?;
    if number <= LAST { Some(number) } else { None }
}

fn all_digits(text: &[u8]) -> bool
    ensures { result ≡ list_all is_ascii_digit text.now }
{
    text.iter().all(|byte| byte.is_ascii_digit())
}
