//! A head that comes in pieces: what was read before isn't read again.

ghost use Rattle.std.specs.Prelude.{◌≡◌, ◌≢◌, ◌≤◌, length, take, not, true, false, IfOk};
ghost use Rattle.httparse.specs.Pieces.{is_newline};
ghost use Rattle.alt_http.specs.Judged.{IsScan};
ghost use Rattle.alt_http.specs.Reading.{scan_of};
ghost use Rattle.alt_http.specs.SoFar.{IsResumed, IsWithinFields, IsBlank, LastLineIsFilled};

use crate::outcome::Scan;
use crate::reading::{is_still_more, last_front, read, without_head};
use alt_base::NoMemory;
use httparse::spans::{EMPTY_HEADER_SPAN, parse_headers, parse_request};
use httparse::{Error, Status};
use std::alloc::Global;

/// As many fields as come at once where a head comes in pieces. Where more do, the head is read from its front.
const NEW_FIELDS: usize = 16;

/// What stands at the front of the bytes, where `seen` of them were answered by `More`. Only the lines that came since are read, and the
/// head once more when its last line has come: so however a head is cut, it is read a few times.
pub fn scan_more(alloc: Global, bytes: &[u8], seen: usize) -> Result<Scan, NoMemory>
    requires within { seen ≤ length bytes.now }
    requires more { scan_of (take seen bytes.now) ≡ Scan.More }
    ensures { IfOk result (λ scan. scan ≡ scan_of bytes.now) }
{
    if is_still_more(bytes, seen) {
        return Ok(Scan::More);
    }
    resumed(alloc, bytes, seen)
}

fn resumed(alloc: Global, bytes: &[u8], seen: usize) -> Result<Scan, NoMemory>
    requires within { seen ≤ length bytes.now }
    requires more { scan_of (take seen bytes.now) ≡ Scan.More }
    ensures { IfOk result (IsScan bytes.now) }
{
    let Some(front) = last_front(bytes) else {
        return Ok(without_head(bytes));
    };
    match last_front(&bytes[..seen]) {
        Some(old) => resume(alloc, bytes, front, old.len()),
        None => read(alloc, bytes, front),
    }
}

/// The lines of the front behind those that were read before.
fn resume(alloc: Global, bytes: &[u8], front: &[u8], before: usize) -> Result<Scan, NoMemory>
    requires { IsResumed bytes.now front.now before }
    ensures { IfOk result (IsScan bytes.now) }
{
    if before == front.len() {
        return Ok(without_head(bytes));
    }
    if is_filled(&front[..before]) {
        resume_fields(alloc, bytes, front, before)
    } else {
        resume_start(alloc, bytes, front, before)
    }
}

/// Behind a first line and fields come fields.
fn resume_fields(alloc: Global, bytes: &[u8], front: &[u8], before: usize) -> Result<Scan, NoMemory>
    requires resumed { IsResumed bytes.now front.now before }
    requires within { IsWithinFields (take before front.now) }
    ensures { IfOk result (IsScan bytes.now) }
{
    let mut headers = [EMPTY_HEADER_SPAN; NEW_FIELDS];
    match parse_headers(&front[before..], &mut headers) {
        Ok(Status::Complete(_)) => read(alloc, bytes, front),
        Ok(Status::Partial) => Ok(without_head(bytes)),
        Err(Error::TooManyHeaders) => read(alloc, bytes, front),
        Err(_) => Ok(Scan::Refused(1)),
    }
}

/// Behind empty lines comes a head.
fn resume_start(alloc: Global, bytes: &[u8], front: &[u8], before: usize) -> Result<Scan, NoMemory>
    requires resumed { IsResumed bytes.now front.now before }
    requires more { before ≢ length front.now }
    requires blank { IsBlank (take before front.now) }
    ensures { IfOk result (IsScan bytes.now) }
{
    let mut headers = [EMPTY_HEADER_SPAN; NEW_FIELDS];
    match parse_request(&front[before..], &mut headers) {
        Ok(Status::Complete(_)) => read(alloc, bytes, front),
        Ok(Status::Partial) => Ok(without_head(bytes)),
        Err(Error::TooManyHeaders) => read(alloc, bytes, front),
        Err(_) => Ok(Scan::Refused(1)),
    }
}

/// Whether the last line has a byte beside its end.
fn is_filled(lines: &[u8]) -> bool
    ensures filled { LastLineIsFilled lines.now → result ≡ true }
    ensures blank { IsBlank lines.now → result ≡ false }
{
    let size = lines.len();
    if size < 2 {
        return false;
    }
    if lines[size - 2] != b'\r' {
        return is_other(lines[size - 2]);
    }
    size >= 3 && is_other(lines[size - 3])
}

fn is_other(byte: u8) -> bool
    ensures { result ≡ not (is_newline byte) }
{
    byte != b'\r' && byte != b'\n'
}
