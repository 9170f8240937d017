//! Lines of an input, whole and cut at each byte.

use alt_lines::{Cut, LONGEST_LINE, Lines};
use std::alloc::Global;

/// An input, and its lines of at most 4 bytes, each with a bar behind it; `!` stands for one that is too long.
static INPUTS: [(&[u8], &[u8]); 14] = [
    (b"", b""),
    (b"a", b"a|"),
    (b"a\n", b"a|"),
    (b"\n", b"|"),
    (b"\r\n", b"|"),
    (b"\r", b"|"),
    (b"a\r\r\nb\r", b"a\r|b|"),
    (b"a\rb\n\nc", b"a\rb||c|"),
    (b"abcd\nabcde\nab", b"abcd|!|ab|"),
    (b"abc\r\nabcd\r\nx", b"abc|!|x|"),
    (b"abcde", b"!|"),
    (b"abcdefghijklmnopqrstuvwxyz\n\n", b"!||"),
    (b"abcdefghij", b"!|"),
    (b"a\nbb\nccc\ndddd\neeeee\ndddd", b"a|bb|ccc|dddd|!|dddd|"),
];

/// Appends the lines that are whole, with bars.
fn take_lines(lines: &mut Lines, out: &mut Vec<u8>) -> bool {
    for _ in 0..64 {
        let mark = match lines.line(out) {
            Ok(Some(Cut::Whole)) => b"|".as_slice(),
            Ok(Some(Cut::TooLong)) => b"!|".as_slice(),
            Ok(None) => return true,
            Err(_) => return false,
        };
        if out.extend_from_slice(mark).is_err() {
            return false;
        }
    }
    false
}

/// Whether the input's lines are these, where it comes in pieces of so many bytes.
fn lines_are(alloc: Global, input: &[u8], size: usize, want: &[u8]) -> bool {
    let mut lines = Lines::new(alloc, 4);
    let mut out = Vec::new(alloc);
    let mut at = 0;
    for _ in 0..input.len() {
        if at < input.len() {
            let end = if input.len() - at < size {
                input.len()
            } else {
                at + size
            };
            if lines.give(&input[at..end]).is_err() || !take_lines(&mut lines, &mut out) {
                return false;
            }
            at = end;
        }
    }
    lines.end();
    take_lines(&mut lines, &mut out) && out.as_slice() == want
}

fn lines_are_however_cut(alloc: Global, input: &[u8], want: &[u8]) -> bool {
    for size in 1..=30 {
        if !lines_are(alloc, input, size, want) {
            return false;
        }
    }
    true
}

#[test]
fn lines_are_the_same_however_the_input_is_cut(rt: HostRuntime) {
    for (input, want) in &INPUTS {
        assert!(rt;
            lines_are_however_cut(rt.alloc(), input, want),
            "{}",
            input.escape_ascii()
        );
    }
}

/// A line of so many bytes and its line feed come in pieces of 64 KB, and one line more.
fn long_line(alloc: Global, length: usize, want: Cut) -> bool {
    let Ok(piece) = vec![in alloc; b'a'; 65_536] else {
        return false;
    };
    let mut lines = Lines::new(alloc, LONGEST_LINE);
    let mut out = Vec::new(alloc);
    for _ in 0..length / 65_536 {
        if lines.give(&piece).is_err() || lines.line(&mut out) != Ok(None) {
            return false;
        }
    }
    if lines.give(&piece[..length % 65_536]).is_err() || lines.give(b"\nx").is_err() {
        return false;
    }
    let first = lines.line(&mut out) == Ok(Some(want));
    lines.end();
    let size = out.len();
    let second = lines.line(&mut out) == Ok(Some(Cut::Whole));
    let whole = matches!(want, Cut::Whole);
    first && second && out.len() == size + 1 && size == if whole { length } else { 0 }
}

#[test]
fn a_line_has_at_most_16_777_280_bytes(rt: HostRuntime) {
    assert!(rt; long_line(rt.alloc(), 16_777_280, Cut::Whole));
    assert!(rt; long_line(rt.alloc(), 16_777_281, Cut::TooLong));
}
