//! What an entry asks of its attribute.

use alt_expr::{Comparison, Items};
use alt_value::{Attr, Text};

/// A test of an attribute: an operator with its values.
#[derive(Drop)]
pub enum Test {
    Compares(Comparison, Attr),
    Between(Attr, Attr),
    Among(Items<Attr>),
    There,
    Missing,
    Has(Attr),
    HasNot(Attr),
    Begins(Attr),
}

/// An attribute's name, and what is asked of it.
#[derive(Drop)]
pub struct Entry {
    pub name: Text,
    pub test: Test,
}
