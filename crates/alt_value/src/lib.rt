//! Values and items: DynamoDB's ten kinds of attribute values, in memory.
#![tactic(auto)]

mod attr;
mod building;
mod bytes_set;
mod compare;
mod copies;
mod gather;
mod kind;
mod measure;
mod merge;
mod number_set;
mod set;
mod text;
mod text_set;

pub use attr::{Attr, AttrList, Item, held};
pub use building::ItemBuilder;
pub use bytes_set::BytesSet;
pub use compare::{equal, item_equal, order};
pub use copies::copy;
pub use kind::KeyKind;
pub use measure::{depth_within, item_size_within, size_within};
pub use number_set::NumberSet;
pub use text::Text;
pub use text_set::TextSet;
