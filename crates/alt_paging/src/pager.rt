//! A pager examines the items of a list one after the other, and tells where the page ends.

ghost use Rattle.std.specs.Prelude.{◌≡◌, ◌≢◌, ◌+◌, ◌-◌, ◌<◌, ◌≤◌, [], false, Some, None, IfOk, if◌then◌else◌};
ghost use Rattle.std.specs.Option.{ForSome};
ghost use Rattle.alt_paging.specs.Counted.{reached};
ghost use Rattle.alt_value.specs.Size.{item_size};

use crate::ask::{ItemList, Page, PageAsk};
use crate::look::{Look, keep};
use alt_base::NoMemory;
use alt_expr::Items;
use alt_value::{Item, item_size_within};
use std::alloc::Global;

/// The bytes of examined items after which a page ends: 1 MB (Developer Guide, "Paginating table query results").
const PAGE_BYTES: u64 = 1_048_576;

/// A page that isn't whole yet. It holds what it gives and the item that ended it, and of the other items only counts.
#[derive(Drop)]
pub struct Pager {
    alloc: Global,
    ask: PageAsk,
    /// What is asked of each item, made ready with the first one.
    look: Option<Look>,
    kept: ItemList,
    count: u32,
    scanned: u32,
    /// The bytes that examined items may still have before the page ends.
    left: u64,
    ended: bool,
    /// The item that ended the page.
    last: Option<Item>,
    ghost counted: { count ≤ scanned },
    ghost bounded: { scanned + left ≤ 1048576 },
    ghost going: { ended ≡ false → 0 < left },
    ghost within: { ended ≡ false → ForSome ask.limit (λ most. scanned < most) },
}

impl Pager {
    ghost use Rattle.std.specs.Prelude.{◌≡◌, ◌≢◌, ◌<◌, ◌≤◌, ◌∷◌, ◌++◌, [], not, true, false, length, List, All, IfOk, OnOk, OnErr, IfSome};
    ghost use Rattle.alt_expr.specs.Pages.{ends_early};
    ghost use Rattle.alt_paging.specs.Offered.{WasOffered, IsPage, ExaminesItem, has_ended};
    ghost use Rattle.alt_paging.specs.declared.ask.PageAsk.{PageAsk};
    ghost use Rattle.alt_value.specs.Size.{item_size};
    ghost use Rattle.alt_value.specs.Tree.{Pair};

    /// A page of which no item is examined yet.
    pub fn new(alloc: Global, ask: PageAsk) -> Pager
        requires limit { IfSome ask.limit (λ most. 0 < most) }
        ensures offered { WasOffered result ask [] }
        ensures open { has_ended result ≡ false }
    {
        Pager {
            alloc,
            ask,
            look: None,
            kept: Items::new(alloc),
            count: 0,
            scanned: 0,
            left: PAGE_BYTES,
            ended: false,
            last: None,
        }
    }

    /// Examines the next item, which is moved. False says that the page ends with it, and then no further one may be offered. Where memory is wanting,
    /// the pager is as it was.
    pub fn offer(&mut self, item: Item) -> Result<bool, NoMemory>
        requires some { item ≢ [] }
        requires open { has_ended self.old ≡ false }
        ensures offered { OnOk result ((ask : PageAsk) (items : List (List Pair))
            → WasOffered self.old ask items → WasOffered self.new ask (items ++ item ∷ [])) }
        ensures more { IfOk result (λ more. (ask : PageAsk) (items : List (List Pair))
            → WasOffered self.old ask items
            → more ≡ not (ends_early ask.limit (items ++ item ∷ []))) }
        ensures ended { IfOk result (λ more. has_ended self.new ≡ not more) }
        ensures err { OnErr result (self.new ≡ self.old) }
    {
        match self.examine(item) {
            Ok(()) => Ok(!self.ended),
            Err(wanting) => Err(wanting),
        }
    }

    /// So many more items, of at most `largest` bytes each, are certain to be examined: no fewer of them end the page. It is the
    /// greatest such number: so many that have as many bytes or more end it.
    pub fn certain(&self, largest: u64) -> u32
        requires largest { 0 < largest }
        requires open { has_ended self.now ≡ false }
        ensures some { 0 < result }
        ensures certain { (ask : PageAsk) (items more : List (List Pair))
            → WasOffered self.now ask items → All (λ i. item_size i ≤ largest) more
            → length more < result → ends_early ask.limit (items ++ more) ≡ false }
        ensures greatest { (ask : PageAsk) (items more : List (List Pair))
            → WasOffered self.now ask items → All (λ i. largest ≤ item_size i) more
            → length more ≡ result → ends_early ask.limit (items ++ more) ≡ true }
    {
        let by_bytes = ((self.left - 1) / largest + 1) as u32;
        match self.ask.limit {
            Some(limit) => by_bytes.min(limit - self.scanned),
            None => by_bytes,
        }
    }

    /// The page of the items that were offered.
    pub fn finish(self) -> Page
        ensures page { (ask : PageAsk) (items : List (List Pair)) → WasOffered self ask items
            → IsPage ask items result }
    {
        Page {
            items: self.kept,
            count: self.count,
            scanned: self.scanned,
            ended: self.ended,
            last: self.last,
        }
    }

    /// Keeps what is shown of an item, where it meets the filter, and counts it and its bytes.
    fn examine(&mut self, item: Item) -> Result<(), NoMemory>
        requires some { item ≢ [] }
        requires open { has_ended self.old ≡ false }
        ensures grows { OnOk result (ExaminesItem self.old item self.new) }
        ensures err { OnErr result (self.new ≡ self.old) }
    {
        let scanned = self.scanned + 1;
        let left = left_after(self.left, &item);
        let ended = reaches(self.ask.limit, scanned) || left == 0;
        let last = copy_if(ended, &item)?;
        let met = keep(self.alloc, &self.ask, &mut self.look, item, &mut self.kept)?;
        self.count += one_if(met);
        self.scanned = scanned;
        self.left = left;
        self.ended = ended;
        self.last = last;
        Ok(())
    }
}

fn one_if(met: bool) -> u32
    ensures { result ≡ (if met then 1 else 0) }
{
    if met { 1 } else { 0 }
}

/// A copy of the item that ends a page; of the others none is kept.
fn copy_if(ended: bool, item: &Item) -> Result<Option<Item>, NoMemory>
    ensures copy { IfOk result (λ last. last ≡ (if ended then Some item.now else None)) }
{
    if ended {
        Ok(Some(item.copy()?))
    } else {
        Ok(None)
    }
}

/// What an item leaves of so many bytes, none where it has more.
fn left_after(left: u64, item: &Item) -> u64
    ensures left { result ≡ left - item_size item.now }
    ensures less { 0 < left → item.now ≢ [] → result < left }
{
    let _count = item.len();
    match item_size_within(item, left) {
        Some(size) => left - size,
        None => 0,
    }
}

/// Whether as many items as the limit are examined.
fn reaches(limit: Option<u32>, scanned: u32) -> bool
    ensures { result ≡ reached limit scanned }
{
    match limit {
        Some(most) => most <= scanned,
        None => false,
    }
}
