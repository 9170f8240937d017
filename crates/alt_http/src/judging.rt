//! The refusals of a head in their order, and what a head that isn't refused says.

ghost use Rattle.std.specs.Prelude.{◌≡◌, length, All, IfOk, MatchResult, Some, None, codes};
ghost use Rattle.httparse.specs.Spans.{IsHeaderWithin, IsWithin};
ghost use Rattle.alt_http.specs.Fields.{values_named};
ghost use Rattle.alt_http.specs.Judged.{body_length, judged_head, head_refusal, length_refusal, taken_head_of};
ghost use Rattle.alt_http.specs.Spans.{fields_at, parts_at};

use crate::fields::{Test, first_value, has_value};
use crate::lengths::{LONGEST_BODY, length_of};
use crate::outcome::Scan;
use alt_base::NoMemory;
use alt_fields::Bytes;
use httparse::spans::{HeaderSpan, RequestSpans};
use std::alloc::Global;

/// What is answered for a head whose fields are these.
pub(crate) fn judge(
    alloc: Global,
    buf: &[u8],
    fields: &[HeaderSpan],
    head: RequestSpans,
) -> Result<Scan, NoMemory>
    requires fields_in { All (IsHeaderWithin (length buf.now)) fields.now }
    requires method_in { IsWithin (length buf.now) head.method }
    requires path_in { IsWithin (length buf.now) head.path }
    ensures { IfOk result (λ scan. scan ≡ judged_head (parts_at buf.now fields.now head)) }
{
    match checked(buf, fields, head) {
        Ok(length) => taken_head(alloc, buf, fields, head, length),
        Err(number) => Ok(Scan::Refused(number)),
    }
}

/// The length of the body, or the first refusal that applies.
fn checked(buf: &[u8], fields: &[HeaderSpan], head: RequestSpans) -> Result<u64, u8>
    requires fields_in { All (IsHeaderWithin (length buf.now)) fields.now }
    requires method_in { IsWithin (length buf.now) head.method }
    requires path_in { IsWithin (length buf.now) head.path }
    ensures { MatchResult result
        (λ n. (head_refusal (parts_at buf.now fields.now head) ≡ None)
        × (n ≡ body_length (values_named (codes "content-length") (fields_at buf.now fields.now))))
        (λ k. head_refusal (parts_at buf.now fields.now head) ≡ Some k) }
{
    if has_value(buf, fields, b"transfer-encoding", Test::Any) {
        return Err(3);
    }
    if head.method.of(buf) != b"POST".as_slice() {
        return Err(4);
    }
    if head.path.of(buf) != b"/".as_slice() {
        return Err(5);
    }
    if has_value(buf, fields, b"content-encoding", Test::IsNot(b"identity")) {
        return Err(6);
    }
    checked_length(buf, fields)
}

fn checked_length(buf: &[u8], fields: &[HeaderSpan]) -> Result<u64, u8>
    requires { All (IsHeaderWithin (length buf.now)) fields.now }
    ensures { let values = values_named (codes "content-length") (fields_at buf.now fields.now) in
        MatchResult result (λ n. (length_refusal values ≡ None) × (n ≡ body_length values))
        (λ k. length_refusal values ≡ Some k) }
{
    let Some(first) = first_value(buf, fields, b"content-length") else {
        return Err(7);
    };
    if has_value(buf, fields, b"content-length", Test::IsOtherLength(first)) {
        return Err(8);
    }
    let length = length_of(first);
    if length > LONGEST_BODY {
        Err(9)
    } else {
        Ok(length)
    }
}

/// A head that isn't refused.
fn taken_head(
    alloc: Global,
    buf: &[u8],
    fields: &[HeaderSpan],
    head: RequestSpans,
    body: u64,
) -> Result<Scan, NoMemory>
    requires fields_in { All (IsHeaderWithin (length buf.now)) fields.now }
    ensures { IfOk result (λ scan. scan ≡ taken_head_of body (parts_at buf.now fields.now head)) }
{
    let target = match first_value(buf, fields, b"x-amz-target") {
        None => None,
        Some(value) => match Bytes::new(alloc, value) {
            Ok(bytes) => Some(bytes),
            Err(fault) => return Err(fault),
        },
    };
    let expect = has_value(buf, fields, b"expect", Test::Is(b"100-continue"));
    let close = head.version == 0 || has_value(buf, fields, b"connection", Test::Is(b"close"));
    Ok(Scan::Head {
        taken: head.len,
        target,
        length: body,
        expect,
        close,
    })
}
