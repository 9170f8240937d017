//! The rules of a member, and the ways to break one.

/// What a member's value is to be.
#[derive(Clone, Copy)]
pub enum Kind {
    /// A text.
    Text,
    /// A whole number from `least` to `most`. A JSON number that isn't an integer of 64 bits, as
    /// `1.0`, is of another kind; a smaller or greater integer is out of range.
    Whole { least: u64, most: u64 },
    /// `true` or `false`.
    Truth,
    /// An object.
    Object,
    /// An array.
    Array,
    /// One of these texts. Another text is out of range.
    Word(&'static [&'static str]),
}

/// What one member of an object has to be. A member that is `null` counts as absent.
#[derive(Clone, Copy)]
pub struct Rule {
    /// The member's name.
    pub name: &'static str,
    /// What its value is to be, where the member is there.
    pub kind: Kind,
    /// Whether the member has to be there.
    pub must: bool,
}

/// How a rule is broken.
#[derive(Clone, Copy, Debug, PartialEq, Eq)]
pub enum Broken {
    /// The value has another JSON kind.
    WrongKind,
    /// The member has to be there and isn't.
    Missing,
    /// A whole number or a word isn't in its range.
    OutOfRange,
}

/// The first broken rule of a table, by its place from 0, and how it is broken.
#[derive(Clone, Copy, Debug, PartialEq, Eq)]
pub struct ShapeFault {
    pub rule: usize,
    pub broken: Broken,
}
