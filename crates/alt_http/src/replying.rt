//! The bytes of replies.

ghost use Rattle.std.specs.Prelude.{◌≡◌, ◌<◌, ◌≤◌, ◌++◌, OnOk, OnErr, IsTrue};
ghost use Rattle.alt_http.specs.Dates.{date_at};
ghost use Rattle.alt_http.specs.Pieces.{piece_text, pieces_text};
ghost use Rattle.alt_http.specs.Replies as replies;

use alt_base::NoMemory;
use httpdate::HttpDate;
use itoa::Buffer;

/// What is said to a client that waits to be told to go on.
pub const CONTINUE: &[u8] = b"HTTP/1.1 100 Continue\r\n\r\n";

/// Room for the longest head: so that a reply is put together without its bytes being moved.
const HEAD_ROOM: usize = 256;

/// A part of a head.
#[derive(Clone, Copy)]
pub(crate) enum Piece {
    Text(&'static [u8]),
    Number(u64),
    Date([u8; 29]),
}

/// Appends a reply, head and body: it is to be said by one call. At `Err` nothing is appended.
pub fn reply(
    status: u16,
    moment: u64,
    close: bool,
    body: &[u8],
    out: &mut Vec<u8>,
) -> Result<(), NoMemory>
    requires known { IsTrue (replies.is_status status) }
    requires dated { moment < 253_402_300_800 }
    ensures ok { OnOk result (out.new.items ≡ out.old.items
        ++ replies.reply_text status moment close body.now) }
    ensures err { OnErr result (out.new.items ≡ out.old.items) }
{
    let before = out.len();
    if out.reserve(body.len().saturating_add(HEAD_ROOM)).is_err() {
        return Err(NoMemory);
    }
    let date = date(moment);
    if put_head(out, status, date, close, body.len()).is_err() {
        return Err(NoMemory);
    }
    if out.extend_from_slice(body).is_err() {
        out.truncate(before);
        return Err(NoMemory);
    }
    Ok(())
}

fn put_head(
    out: &mut Vec<u8>,
    status: u16,
    date: [u8; 29],
    close: bool,
    length: usize,
) -> Result<(), NoMemory>
    ensures ok { OnOk result (out.new.items ≡ out.old.items
        ++ replies.head_text status date close length) }
    ensures err { OnErr result (out.new.items ≡ out.old.items) }
{
    put_all(
        out,
        &[
            Piece::Text(b"HTTP/1.1 "),
            Piece::Number(status as u64),
            Piece::Text(b" "),
            Piece::Text(phrase(status)),
            Piece::Text(b"\r\nServer: alternator\r\nDate: "),
            Piece::Date(date),
            Piece::Text(b"\r\nContent-Type: application/x-amz-json-1.0\r\nContent-Length: "),
            Piece::Number(length as u64),
            Piece::Text(b"\r\nConnection: "),
            Piece::Text(connection_word(close)),
            Piece::Text(b"\r\n\r\n"),
        ],
    )
}

fn connection_word(close: bool) -> &'static [u8]
    ensures { result.now ≡ replies.connection_word close }
{
    if close { b"close" } else { b"keep-alive" }
}

fn phrase(status: u16) -> &'static [u8]
    ensures { result.now ≡ replies.phrase status }
{
    match status {
        200 => b"OK",
        400 => b"Bad Request",
        404 => b"Not Found",
        405 => b"Method Not Allowed",
        411 => b"Length Required",
        413 => b"Content Too Large",
        415 => b"Unsupported Media Type",
        431 => b"Request Header Fields Too Large",
        _ => b"Not Implemented",
    }
}

/// The date of a moment.
fn date(moment: u64) -> [u8; 29]
    requires { moment < 253_402_300_800 }
    ensures { result ≡ date_at moment }
{
    HttpDate::from_unix_secs(moment).unwrap().to_bytes()
}

/// Appends all of the pieces, or nothing.
fn put_all(out: &mut Vec<u8>, pieces: &[Piece]) -> Result<(), NoMemory>
    ensures ok { OnOk result (out.new.items ≡ out.old.items ++ pieces_text pieces.now) }
    ensures err { OnErr result (out.new.items ≡ out.old.items) }
{
    let before = out.len();
    for piece in pieces {
        if put_piece(out, *piece).is_err() {
            out.truncate(before);
            return Err(NoMemory);
        }
    }
    Ok(())
}

fn put_piece(out: &mut Vec<u8>, piece: Piece) -> Result<(), NoMemory>
    ensures ok { OnOk result (out.new.items ≡ out.old.items ++ piece_text piece) }
    ensures err { OnErr result (out.new.items ≡ out.old.items) }
{
    let added = match piece {
        Piece::Text(text) => out.extend_from_slice(text),
        Piece::Number(n) => out.extend_from_slice(Buffer::new().format(n).as_bytes()),
        Piece::Date(date) => out.extend_from_slice(&date),
    };
    match added {
        Ok(()) => Ok(()),
        Err(_) => Err(NoMemory),
    }
}

/// The status of a refusal.
pub fn refusal_status(number: u8) -> u16
    requires low { 1 ≤ number }
    requires high { number ≤ 9 }
    ensures status { result ≡ replies.refusal_status number }
    ensures known { IsTrue (replies.is_status result) }
{
    match number {
        2 => 431,
        3 => 501,
        4 => 405,
        5 => 404,
        6 => 415,
        7 => 411,
        9 => 413,
        _ => 400,
    }
}

/// The body of a refusal.
pub fn refusal_body(number: u8) -> &'static [u8]
    requires low { 1 ≤ number }
    requires high { number ≤ 9 }
    ensures { result.now ≡ replies.refusal_body number }
{
    match number {
        1 => b"{\"message\":\"bad head\"}",
        2 => b"{\"message\":\"head too large\"}",
        3 => b"{\"message\":\"no transfer codings\"}",
        4 => b"{\"message\":\"only POST\"}",
        5 => b"{\"message\":\"only /\"}",
        6 => b"{\"message\":\"no content codings\"}",
        7 => b"{\"message\":\"length required\"}",
        8 => b"{\"message\":\"bad length\"}",
        _ => b"{\"message\":\"request too long\"}",
    }
}
