//! The header fields of a head, where spans tell them.

ghost use Rattle.std.specs.Prelude.{◌≡◌, length, All};
ghost use Rattle.std.specs.List.{list_any};
ghost use Rattle.httparse.specs.Spans.{IsHeaderWithin};
ghost use Rattle.alt_http.specs.Fields.{is_word, values_named, first_field_value};
ghost use Rattle.alt_http.specs.Asked.{passes_test, found_value};
ghost use Rattle.alt_http.specs.Spans.{fields_at};

use crate::lengths::is_other_length;
use httparse::spans::HeaderSpan;

/// A test of a field's value.
#[derive(Clone, Copy)]
pub(crate) enum Test<'a> {
    Any,
    Is(&'a [u8]),
    IsNot(&'a [u8]),
    IsOtherLength(&'a [u8]),
}

fn value_passes(test: Test, value: &[u8]) -> bool
    ensures { result ≡ passes_test test.entry value.now }
{
    match test {
        Test::Any => true,
        Test::Is(word) => is_word(word, value),
        Test::IsNot(word) => !is_word(word, value),
        Test::IsOtherLength(first) => is_other_length(first, value),
    }
}

fn is_word(word: &[u8], text: &[u8]) -> bool
    ensures { result ≡ is_word word.now text.now }
{
    text.eq_ignore_ascii_case(word)
}

/// Whether some field with this name has a value that passes.
pub(crate) fn has_value(buf: &[u8], headers: &[HeaderSpan], name: &[u8], test: Test) -> bool
    requires { All (IsHeaderWithin (length buf.now)) headers.now }
    ensures { result ≡ list_any (passes_test test.entry)
        (values_named name.now (fields_at buf.now headers.now)) }
{
    for header in headers {
        if is_word(name, header.name.of(buf)) && value_passes(test, header.value.of(buf)) {
            return true;
        }
    }
    false
}

/// The value of the first field with this name.
pub(crate) fn first_value<'b>(
    buf: &'b [u8],
    headers: &[HeaderSpan],
    name: &[u8],
) -> Option<&'b [u8]>
    requires { All (IsHeaderWithin (length buf.now)) headers.now }
    ensures { found_value result ≡ first_field_value (values_named name.now
        (fields_at buf.now headers.now)) }
{
    for header in headers {
        if is_word(name, header.name.of(buf)) {
            return Some(header.value.of(buf));
        }
    }
    None
}
