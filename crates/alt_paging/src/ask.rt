//! What is asked of a page, and a page.

use alt_expr::{Cond, Items, Paths};
use alt_value::Item;

/// Items in their order.
pub type ItemList = Items<Item>;

/// What is asked of a page: at most how many items are examined, which of them it gives, and what it shows of each.
#[derive(Drop)]
pub struct PageAsk {
    pub limit: Option<u32>,
    pub filter: Option<Cond>,
    pub paths: Option<Paths>,
    /// No items are wanted, but their counts.
    pub count_only: bool,
}

/// The items of a page, how many they are, how many were examined, whether the page ended early, and the item that ended it.
#[derive(Drop)]
pub struct Page {
    pub items: ItemList,
    pub count: u32,
    pub scanned: u32,
    pub ended: bool,
    /// The last item that was examined, whole, where the page ended early.
    pub last: Option<Item>,
}
