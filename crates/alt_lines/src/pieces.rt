//! A part of a line that is put together.

/// A text, or a number that is written in decimal digits.
#[derive(Clone, Copy)]
pub(crate) enum Piece<'a> {
    Text(&'a [u8]),
    Number(u64),
}
