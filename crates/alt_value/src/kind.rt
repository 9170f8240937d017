//! The kinds that a key attribute may have.

/// The kind of a key attribute: a text, a number or a binary (DynamoDB API Reference, "AttributeDefinition").
#[derive(Clone, Copy, Debug, PartialEq, Eq)]
pub enum KeyKind {
    S,
    N,
    B,
}
