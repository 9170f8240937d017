//! Single lines: where one ends, and what is read of it.

ghost use Rattle.std.specs.Prelude.{◌≡◌, MatchOption, OnErr, IfOk, if◌then◌else◌};
ghost use Rattle.std.specs.Str.Lines.{strip_carriage_return};
ghost use Rattle.alt_lines.specs.Lines.{too_long, read_line};
ghost use Rattle.alt_lines.specs.Unread.{TellsLine};
ghost use Rattle.alt_lines.specs.Feeds.{AllPlain, FirstLineFeedStandsAt};

use alt_base::NoMemory;
use memchr::memchr;

/// How a line was read.
#[derive(Clone, Copy, Debug, PartialEq, Eq)]
pub enum Cut {
    /// Its bytes were appended.
    Whole,
    /// It has more bytes than a line may have.
    TooLong,
}

/// Where the first line feed stands.
pub(crate) fn line_feed(bytes: &[u8]) -> Option<usize>
    ensures { MatchOption result (AllPlain bytes.now) (FirstLineFeedStandsAt bytes.now) }
{
    memchr(b'\n', bytes)
}

/// The line without the one carriage return at its end.
fn stripped(line: &[u8]) -> &[u8]
    ensures { result.now ≡ strip_carriage_return line.now }
{
    if !line.is_empty() && line[line.len() - 1] == b'\r' {
        &line[..line.len() - 1]
    } else {
        line
    }
}

/// Appends a line, unless it is too long. It is where it has more than `most` bytes, or where so many of it were passed over.
pub(crate) fn read(past: bool, most: usize, line: &[u8], out: &mut Vec<u8>) -> Result<Cut, NoMemory>
    ensures told { IfOk result (λ cut.
        TellsLine (if past then too_long else read_line most line.now) cut
        out.old.items out.new.items) }
    ensures err { OnErr result (out.new.items ≡ out.old.items) }
{
    if past || line.len() > most {
        return Ok(Cut::TooLong);
    }
    match out.extend_from_slice(stripped(line)) {
        Ok(()) => Ok(Cut::Whole),
        Err(_) => Err(NoMemory),
    }
}
