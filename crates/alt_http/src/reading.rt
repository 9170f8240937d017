//! The head at the front of bytes. Only the longest front that ends in a line feed is read, since a head ends in one.

ghost use Rattle.std.specs.Prelude.{◌≡◌, ◌≤◌, [], length, take, IfOk, MatchOption};
ghost use Rattle.std.specs.Bool.{OnTrue};
ghost use Rattle.httparse.specs.Spans.{IsRequestOf, IsRequestWithin};
ghost use Rattle.alt_http.specs.Feeds.{IsLastFront, IsPlain};
ghost use Rattle.alt_http.specs.Heads.{CanGoOn};
ghost use Rattle.alt_http.specs.Heads as heads;
ghost use Rattle.alt_http.specs.Judged.{IsScan, LiesIn, ScanStays};
ghost use Rattle.alt_http.specs.Reading.{scan_of};

use crate::judging::judge;
use crate::outcome::Scan;
use alt_base::NoMemory;
use httparse::spans::{EMPTY_HEADER_SPAN, HeaderSpan, RequestSpans, parse_request};
use httparse::{Error, Status};
use memchr::memrchr;
use std::alloc::Global;

/// The most bytes of a head.
pub const LONGEST_HEAD: usize = 16_384;

/// As many fields as a head has that isn't meant badly. One with more takes memory.
const USUAL_FIELDS: usize = 64;

/// What stands at the front of the bytes. It is the same however they came, so it is to be asked for again only where a line
/// feed came, or where the bytes reach the limit of a head.
pub fn scan(alloc: Global, bytes: &[u8]) -> Result<Scan, NoMemory>
    // The answer, read byte by byte; and it is the one that httparse's grammar gives.
    ensures answer { IfOk result (λ scan. scan ≡ scan_of bytes.now) }
    ensures meant { IfOk result (IsScan bytes.now) }

    // What a server stands on.
    ensures nothing { bytes.now ≡ [] → IfOk result (λ scan. scan ≡ Scan.More) }
    ensures stays { IfOk result (ScanStays bytes.now) }
    ensures within { IfOk result (LiesIn bytes.now) }
{
    answer(alloc, bytes)
}

/// Whether bytes that were answered by `More` when there were `seen` of them are still answered so: where no line feed came since, and
/// the limit of a head isn't reached. So a server that takes a head in small pieces scans once a line.
pub fn is_still_more(bytes: &[u8], seen: usize) -> bool
    requires { seen ≤ length bytes.now }
    ensures { OnTrue result (scan_of (take seen bytes.now) ≡ Scan.More
        → scan_of bytes.now ≡ Scan.More) }
{
    bytes.len() < LONGEST_HEAD && has_no_feed(&bytes[seen..])
}

fn has_no_feed(bytes: &[u8]) -> bool
    ensures { OnTrue result (IsPlain bytes.now) }
{
    memrchr(b'\n', bytes).is_none()
}

fn answer(alloc: Global, bytes: &[u8]) -> Result<Scan, NoMemory>
    ensures { IfOk result (IsScan bytes.now) }
{
    match last_front(bytes) {
        Some(front) => read(alloc, bytes, front),
        None => Ok(without_head(bytes)),
    }
}

/// The longest front, within the limit of a head, that ends in a line feed.
pub(crate) fn last_front(bytes: &[u8]) -> Option<&[u8]>
    ensures { MatchOption result (IsPlain (heads.window bytes.now))
        (λ front. IsLastFront bytes.now front.now) }
{
    let within = window(bytes);
    match memrchr(b'\n', within) {
        Some(place) => Some(&within[..place + 1]),
        None => None,
    }
}

fn window(bytes: &[u8]) -> &[u8]
    ensures { result.now ≡ heads.window bytes.now }
{
    &bytes[..bytes.len().min(LONGEST_HEAD)]
}

/// The answer where no head stands at the front, and one may still.
pub(crate) fn without_head(bytes: &[u8]) -> Scan
    requires { CanGoOn bytes.now }
    ensures { IsScan bytes.now result }
{
    if bytes.len() < LONGEST_HEAD {
        Scan::More
    } else {
        Scan::Refused(2)
    }
}

pub(crate) fn read(alloc: Global, bytes: &[u8], front: &[u8]) -> Result<Scan, NoMemory>
    requires { IsLastFront bytes.now front.now }
    ensures { IfOk result (IsScan bytes.now) }
{
    let mut headers = [EMPTY_HEADER_SPAN; USUAL_FIELDS];
    match parse_request(front, &mut headers) {
        Ok(Status::Complete(head)) => found(alloc, bytes, front, &headers, head),
        Ok(Status::Partial) => Ok(without_head(bytes)),
        Err(Error::TooManyHeaders) => read_long(alloc, bytes, front),
        Err(_) => Ok(Scan::Refused(1)),
    }
}

/// A field has three bytes or more, so that there is room for all.
fn read_long(alloc: Global, bytes: &[u8], front: &[u8]) -> Result<Scan, NoMemory>
    requires { IsLastFront bytes.now front.now }
    ensures { IfOk result (IsScan bytes.now) }
{
    let Ok(mut headers) = vec![in alloc; EMPTY_HEADER_SPAN; front.len() / 3 + 1] else {
        return Err(NoMemory);
    };
    match parse_request(front, &mut headers) {
        Ok(Status::Complete(head)) => found(alloc, bytes, front, &headers, head),
        Ok(Status::Partial) => Ok(without_head(bytes)),
        Err(_) => Ok(Scan::Refused(1)),
    }
}

fn found(
    alloc: Global,
    bytes: &[u8],
    front: &[u8],
    headers: &[HeaderSpan],
    head: RequestSpans,
) -> Result<Scan, NoMemory>
    requires last { IsLastFront bytes.now front.now }
    requires within { IsRequestWithin front.now headers.now head }
    requires reads { IsRequestOf front.now headers.now head }
    ensures { IfOk result (IsScan bytes.now) }
{
    judge(alloc, front, &headers[..head.headers], head)
}
