//! The list of the items that are due next, which knows of each item of the tables, and how many bytes the largest of them has.

ghost use Rattle.std.specs.Prelude.{◌≡◌, ◌≤◌, ◌<◌, true};
ghost use Rattle.std.specs.FinMap as map;
ghost use Rattle.alt_disk.specs.Disk.{DiskState};
ghost use Rattle.alt_machine.specs.State.{State};
ghost use Rattle.alt_machine.specs.declared.TheConstants.{LARGEST_ITEM};
ghost use Rattle.alt_rowchanges.specs.OpeningSized.{AreSized};
ghost use Rattle.alt_tables.specs.Foreseen.{Foresees, ForeseesWrite};
ghost use Rattle.alt_tables.specs.private.Foretold.{FitsWrite, TimeToLiveIsTold};
ghost use Rattle.alt_tables.specs.Stands.{KeepsTables, KeepsCatalog, Stands, catalog_of, due_of, largest_of};
ghost use Rattle.alt_value.specs.Size.{item_size};

use crate::tables::Tables;
use alt_due::Due;
use alt_machine::LARGEST_ITEM;
use alt_rowchanges::expires_from;
use alt_value::{Item, Text, item_size_within};

impl Tables {
    /// The items that are due next.
    pub fn due(&self) -> &Due
        ensures due { result.now ≡ due_of self.now }
    {
        &self.due
    }

    /// Has that list of the items that are due next from here on, and hands out the one from before. One that covers nothing will always do.
    pub fn exchange_due(&mut self, due: Due) -> Due
        ensures due { result ≡ due_of self.old }
        ensures stands { (disk : DiskState) (s : State) → Stands disk self.old s
            → Foresees s.tables due → Stands disk self.new s }
        ensures catalog { KeepsCatalog self.old self.new }
    {
        std::mem::replace(&mut self.due, due)
    }

    /// A number of bytes than which no item of the tables has more. It is the size of the largest that was there since they were opened.
    pub fn largest(&self) -> u64
        ensures some { 0 < result }
        ensures sized { (disk : DiskState) (s : State) → Stands disk self.now s
            → AreSized s.tables result }
    {
        self.largest.max(1)
    }

    /// Notes from which moment on an item that is to stand at a place of a table that is there has expired, and how many bytes it has.
    pub(crate) fn foretell(&mut self, table: &str, place: &[u8], new: &Option<Item>)
        requires there { map.contains_key (catalog_of self.old) table.now ≡ true }
        ensures known { ForeseesWrite (catalog_of self.old) table.now place.now new.now
            (due_of self.new) }
        ensures fits { FitsWrite (largest_of self.new) new.now }
        ensures keeps { (disk : DiskState) → KeepsTables disk disk self.old self.new }
    {
        let Some(item) = new else {
            return;
        };
        self.largest = self.largest.max(size_of(item));
        let Some(schema) = self.catalog.get(table) else {
            unreachable!();
        };
        if let Some(first) = expires_from(schema, item) {
            self.due.note(table, place, first);
        }
    }
}

/// How many bytes an item has, if it has no more than one may have.
fn size_of(item: &Item) -> u64
    ensures { item_size item.now ≤ LARGEST_ITEM → result ≡ item_size item.now }
{
    item_size_within(item, LARGEST_ITEM).unwrap_or(LARGEST_ITEM)
}

/// Forgets the items that are due next where the items of a table get a time to live: of those that have it already nothing is known.
pub(crate) fn forget_for(due: &mut Due, ttl: &Option<Text>)
    ensures { TimeToLiveIsTold ttl.now due.old due.new }
{
    if ttl.is_some() {
        due.forget();
    }
}
