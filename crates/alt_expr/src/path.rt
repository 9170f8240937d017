//! Paths to a part of an item.

use crate::{Items, Shared};
use alt_value::Text;

/// A step of a path: to a name in a map, or to an index in a list.
#[derive(Drop)]
pub enum PathPart {
    Name(Shared<Text>),
    Index(u32),
}

/// The steps of a path, from the item down.
pub type Path = Items<PathPart>;

/// Paths in text order.
pub type Paths = Items<Path>;
