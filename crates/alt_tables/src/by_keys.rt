//! Writes of several items at one moment by their keys: one entry of the log.

ghost use Rattle.std.specs.Prelude.{◌≡◌, ◌<◌, ◌^◌, length, map as each, None, Ok, IfOk, IfErr, OnOk, IsErrOf};
ghost use Rattle.alt_base.specs.Counts.{Rose};
ghost use Rattle.alt_disk.specs.Disk.{Goes};
ghost use Rattle.alt_layout.specs.Layout.{Layout};
ghost use Rattle.alt_machine.specs.Ops.BatchWriteItem.{writes_of_all, writes_of_all_by};
ghost use Rattle.alt_machine.specs.Outcomes.{together};
ghost use Rattle.alt_machine.specs.State.{State, descriptions};
ghost use Rattle.alt_tables.specs.Faults.{WritesAll};
ghost use Rattle.alt_tables.specs.Images.{Leaves};
ghost use Rattle.alt_tables.specs.Several.{AreAllApart, Every, IsFound, MayWriteKey, WasThere, batches_of, with_batches, written_at, written_in};
ghost use Rattle.alt_tables.specs.Stands.{AreReady, HasRows, Reads, Stands, bounds_of, catalog_of};

use crate::finding::Found;
use crate::several::ItemChange;
use crate::tables::Tables;
use alt_codec::Writer;
use alt_disk::Disk;
use alt_rowchanges::{TableFault, copy_of, row_of};
use alt_value::{Item, Text};

/// What is to stand in the place of a key of a table, or nothing, with the item that is there.
#[derive(Drop)]
pub struct ItemWrite {
    pub table: Text,
    pub key: Item,
    pub old: Option<Item>,
    pub new: Option<Item>,
}

impl Tables {
    /// Leaves `new` as the item of each of these keys, or none, one after another, in one entry. `old` is the item that is there. The
    /// answer is how many of them changed something; where none does, nothing is written.
    pub fn write_items<D: Disk>(
        &mut self,
        disk: &mut D,
        writes: &[ItemWrite],
        moment: u64,
    ) -> Result<u32, TableFault>
        requires ready { AreReady (D.state disk.old) self.old }
        requires may { Every (MayWriteKey (catalog_of self.old)) writes.now }
        requires old { (s : State) → Stands (D.state disk.old) self.old s
            → Every (WasThere s) writes.now }
        requires apart { AreAllApart (each (written_in (catalog_of self.old)) writes.now) }
        requires few { length writes.now < 2 ^ 32 }
        ensures writes { (s : State) → Stands (D.state disk.old) self.old s
            → WritesAll (bounds_of self.old).file (Stands (D.state disk.new) self.new) s
            (writes_of_all s moment (each (written_in (catalog_of self.old)) writes.now)) result }
        ensures count { (s : State) → Stands (D.state disk.old) self.old s
            → IfOk result (λ n. n ≡ length (writes_of_all s moment
            (each (written_in (catalog_of self.old)) writes.now))) }
        ensures disk { (s : State) → Stands (D.state disk.old) self.old s
            → Leaves (D.state disk.old) (D.state disk.new) s (together s
            (writes_of_all s moment (each (written_in (catalog_of self.old)) writes.now))) }
        // The one entry has the row changes of each of them, as a write by itself would have them behind those before it.
        ensures rows { OnOk result ((s : State) (l : Layout)
            → Stands (D.state disk.old) self.old s → HasRows (D.state disk.old) self.old l
            → HasRows (D.state disk.new) self.new (with_batches l
            (batches_of l s moment Writer.User (each (written_in (catalog_of self.old)) writes.now)))) }
        ensures no_memory { IsErrOf result TableFault.NoMemory
            → Reads (D.state disk.old) (D.state disk.new) }
        ensures goes { Goes (D.state disk.old) (D.state disk.new) }
        ensures unchanged { result ≡ Ok 0 → D.state disk.new ≡ D.state disk.old }
        ensures catalog { catalog_of self.new ≡ catalog_of self.old }
        ensures limits { bounds_of self.new ≡ bounds_of self.old }
        ensures cause { IsErrOf result TableFault.Failed
            → Rose (D.state disk.old).faults (D.state disk.new).faults }
    {
        let changes = match self.placed_all(writes) {
            Ok(changes) => changes,
            Err(fault) => return Err(fault),
        };
        match self.write_all(disk, changes, moment, Writer::User) {
            Ok(count) => Ok(count as u32),
            Err(fault) => Err(fault),
        }
    }

    /// Leaves no item at each of these keys, since its time is over: as `write_items` does where each `new` is absent, but that a stream
    /// names time to live as who deleted them.
    pub fn expire<D: Disk>(
        &mut self,
        disk: &mut D,
        writes: &[ItemWrite],
        moment: u64,
    ) -> Result<u32, TableFault>
        requires ready { AreReady (D.state disk.old) self.old }
        requires may { Every (MayWriteKey (catalog_of self.old)) writes.now }
        requires old { (s : State) → Stands (D.state disk.old) self.old s
            → Every (WasThere s) writes.now }
        requires apart { AreAllApart (each (written_in (catalog_of self.old)) writes.now) }
        requires gone { Every (λ w. w.new ≡ None) writes.now }
        requires few { length writes.now < 2 ^ 32 }
        ensures writes { (s : State) → Stands (D.state disk.old) self.old s
            → WritesAll (bounds_of self.old).file (Stands (D.state disk.new) self.new) s
            (writes_of_all_by s moment Writer.Expiry
            (each (written_in (catalog_of self.old)) writes.now)) result }
        ensures count { (s : State) → Stands (D.state disk.old) self.old s
            → IfOk result (λ n. n ≡ length (writes_of_all_by s moment Writer.Expiry
            (each (written_in (catalog_of self.old)) writes.now))) }
        ensures disk { (s : State) → Stands (D.state disk.old) self.old s
            → Leaves (D.state disk.old) (D.state disk.new) s (together s
            (writes_of_all_by s moment Writer.Expiry
            (each (written_in (catalog_of self.old)) writes.now))) }
        // The one entry has the row changes of each of them, as a write by itself would have them behind those before it.
        ensures rows { OnOk result ((s : State) (l : Layout)
            → Stands (D.state disk.old) self.old s → HasRows (D.state disk.old) self.old l
            → HasRows (D.state disk.new) self.new (with_batches l
            (batches_of l s moment Writer.Expiry
            (each (written_in (catalog_of self.old)) writes.now)))) }
        ensures no_memory { IsErrOf result TableFault.NoMemory
            → Reads (D.state disk.old) (D.state disk.new) }
        ensures goes { Goes (D.state disk.old) (D.state disk.new) }
        ensures unchanged { result ≡ Ok 0 → D.state disk.new ≡ D.state disk.old }
        ensures catalog { catalog_of self.new ≡ catalog_of self.old }
        ensures limits { bounds_of self.new ≡ bounds_of self.old }
        ensures cause { IsErrOf result TableFault.Failed
            → Rose (D.state disk.old).faults (D.state disk.new).faults }
    {
        let changes = match self.placed_all(writes) {
            Ok(changes) => changes,
            Err(fault) => return Err(fault),
        };
        match self.write_all(disk, changes, moment, Writer::Expiry) {
            Ok(gone) => Ok(gone as u32),
            Err(fault) => Err(fault),
        }
    }

    /// These writes at the places of their keys, with what they say was there.
    fn placed_all(&self, writes: &[ItemWrite]) -> Result<Vec<ItemChange>, TableFault>
        requires may { Every (MayWriteKey (catalog_of self.now)) writes.now }
        ensures written { IfOk result (λ v. each written_at v.items
            ≡ each (written_in (catalog_of self.now)) writes.now) }
        ensures found { (s : State) → catalog_of self.now ≡ descriptions s.tables
            → Every (WasThere s) writes.now → IfOk result (λ v. Every (IsFound s) v.items) }
        ensures count { IfOk result (λ v. length v.items ≡ length writes.now) }
        ensures cause { IfErr result (λ fault. fault ≡ TableFault.NoMemory) }
    {
        let mut changes = Vec::with_capacity(self.alloc, writes.len())?;
        for write in writes {
            match self.placed(write) {
                Ok(change) => changes.push(change)?,
                Err(fault) => return Err(fault),
            }
        }
        Ok(changes)
    }

    /// One of them.
    fn placed(&self, write: &ItemWrite) -> Result<ItemChange, TableFault>
        requires may { MayWriteKey (catalog_of self.now) write.now }
        ensures written { IfOk result (λ c.
            written_at c ≡ written_in (catalog_of self.now) write.now) }
        ensures found { (s : State) → catalog_of self.now ≡ descriptions s.tables
            → WasThere s write.now → IfOk result (IsFound s) }
        ensures cause { IfErr result (λ fault. fault ≡ TableFault.NoMemory) }
    {
        let place = match self.place_in(write.table.as_str(), &write.key) {
            Ok(place) => place,
            Err(fault) => return Err(fault),
        };
        let item = copy_of(write.old.as_ref())?;
        let new = copy_of(write.new.as_ref())?;
        let row = row_of(self.alloc, &item)?;
        let table = write.table.copy()?;
        Ok(ItemChange {
            table,
            found: Found { place, item, row },
            new,
        })
    }
}
