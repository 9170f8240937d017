//! The parts of a line, and the words of control.

ghost use Rattle.std.specs.Prelude.{◌≡◌};
ghost use Rattle.std.specs.List.{position, before_first, after_first};
ghost use Rattle.alt_run.specs.Turns.{control_of, is_space};

/// A word of control.
#[derive(Clone, Copy, Debug, PartialEq, Eq)]
pub(crate) enum Control {
    /// That all families are flushed.
    Flush,
    /// That the files of all families are merged.
    Merge,
    /// That one step of work is made.
    Step,
    /// That the store is opened again.
    Reopen,
}

/// The word of control that a line is, if it is one.
pub(crate) fn control_of(line: &[u8]) -> Option<Control>
    ensures { result ≡ control_of line.now }
{
    if line == b"@flush".as_slice() {
        return Some(Control::Flush);
    }
    if line == b"@merge".as_slice() {
        return Some(Control::Merge);
    }
    if line == b"@step".as_slice() {
        return Some(Control::Step);
    }
    if line == b"@reopen".as_slice() {
        return Some(Control::Reopen);
    }
    None
}

/// Where the first space stands.
fn space_in(line: &[u8]) -> Option<usize>
    ensures { result ≡ position is_space line.now }
{
    line.iter().position(|b| *b == b' ')
}

/// The name before the first space and the body behind it. A line without a space is all name.
pub(crate) fn parts(line: &[u8]) -> (&[u8], &[u8])
    ensures name { result.0.now ≡ before_first is_space line.now }
    ensures body { result.1.now ≡ after_first is_space line.now }
{
    match space_in(line) {
        Some(place) => (&line[..place], &line[place + 1..]),
        None => (line, &[]),
    }
}
