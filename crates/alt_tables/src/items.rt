//! The items of tables by their keys: reading one, and writing one that is there.

ghost use Rattle.std.specs.Prelude.{◌≡◌, drop, ℕ, true, None, Some, IsSome, IfOk, IfErr, IfSome, IsErrOf, Ok, List, option_map};
ghost use Rattle.std.specs.FinMap as map;
ghost use Rattle.alt_base.specs.Counts.{Rose};
ghost use Rattle.alt_disk.specs.Disk.{IsTrusted, Goes};
ghost use Rattle.alt_layout.specs.Layout.{Layout};
ghost use Rattle.alt_machine.specs.Keys.{place_of};
ghost use Rattle.alt_machine.specs.Outcomes.{a_number};
ghost use Rattle.alt_machine.specs.State.{State, Table};
ghost use Rattle.alt_machine.specs.Valid.{IsStored};
ghost use Rattle.alt_machine.specs.Writes.{item_writes};
ghost use Rattle.alt_rowchanges.specs.OpeningTrimmed.{number_at};
ghost use Rattle.alt_schema.specs.declared.schema.TableSchema.{TableSchema};
ghost use Rattle.alt_tables.specs.Faults.{Writes};
ghost use Rattle.alt_tables.specs.Found.{number_taken};
ghost use Rattle.alt_tables.specs.Images.{Leaves};
ghost use Rattle.alt_rowchanges.specs.Leftovers.{leftovers, lowest_left};
ghost use Rattle.alt_rowchanges.specs.RowChanges.{changed_rows, write_changes};
ghost use Rattle.alt_tables.specs.Looking.{FailsReading, OnlyReads};
ghost use Rattle.alt_tables.specs.Stands.{AreReady, HasRows, Reads, Stands, catalog_of, bounds_of, next_write_of_tables, trimmed_of};

use crate::finding::Found;
use crate::tables::Tables;
use alt_base::NoMemory;
use alt_codec::Writer;
use alt_disk::Disk;
use alt_fields::Bytes;
use alt_rowchanges::{TableFault, copy_of, row_of};
use alt_schema::TableSchema;
use alt_value::Item;
use alt_views::place_of;

impl Tables {
    /// The item of a key in a table that is there, `None` exactly where there is none.
    pub fn item<D: Disk>(
        &mut self,
        disk: &mut D,
        table: &str,
        key: &Item,
    ) -> Result<Option<Item>, TableFault>
        requires ready { AreReady (D.state disk.old) self.old }
        requires there { map.contains_key (catalog_of self.old) table.now ≡ true }
        requires key { (d : TableSchema) → map.get (catalog_of self.old) table.now ≡ Some d
            → IsSome (place_of d key.now) }
        ensures item { (s : State) (t : Table) (place : List ℕ)
            → Stands (D.state disk.old) self.old s → map.get s.tables table.now ≡ Some t
            → place_of t.description key.now ≡ Some place
            → IfOk result (λ o. o ≡ map.get t.items place) }
        ensures only { OnlyReads (D.state disk.old) (D.state disk.new) self.old self.new }
        ensures fails { FailsReading (D.state disk.old) (D.state disk.new) self.old result }
    {
        let place = match self.place_in(table, key) {
            Ok(place) => place,
            Err(fault) => return Err(fault),
        };
        match self.find(disk, table, place) {
            Ok(found) => Ok(found.item),
            Err(fault) => Err(fault),
        }
    }

    /// Leaves `new` as the item of a key in a table that is there, or none. `old` is the item that is there. The answer is the number
    /// that the write took, and `None` exactly where there was nothing to write.
    pub fn write_item<D: Disk>(
        &mut self,
        disk: &mut D,
        table: &str,
        key: &Item,
        old: Option<&Item>,
        new: Option<&Item>,
        moment: u64,
    ) -> Result<Option<u64>, TableFault>
        requires ready { AreReady (D.state disk.old) self.old }
        requires there { map.contains_key (catalog_of self.old) table.now ≡ true }
        requires key { (d : TableSchema) → map.get (catalog_of self.old) table.now ≡ Some d
            → IsSome (place_of d key.now) }
        requires old { (s : State) (t : Table) (place : List ℕ)
            → Stands (D.state disk.old) self.old s → map.get s.tables table.now ≡ Some t
            → place_of t.description key.now ≡ Some place
            → option_map (λ i. i.now) old ≡ map.get t.items place }
        requires new { (d : TableSchema) (place : List ℕ)
            → map.get (catalog_of self.old) table.now ≡ Some d
            → place_of d key.now ≡ Some place
            → IfSome (option_map (λ i. i.now) new) (IsStored d place) }
        ensures writes { (s : State) (t : Table) (place : List ℕ)
            → Stands (D.state disk.old) self.old s → map.get s.tables table.now ≡ Some t
            → place_of t.description key.now ≡ Some place
            → Writes (bounds_of self.old).file (Stands (D.state disk.new) self.new) a_number s
            (item_writes s moment table.now t place (option_map (λ i. i.now) new.entry)) result }
        ensures number { (s : State) (t : Table) (place : List ℕ)
            → Stands (D.state disk.old) self.old s → map.get s.tables table.now ≡ Some t
            → place_of t.description key.now ≡ Some place
            → IfOk result (λ n. n ≡ number_taken (next_write_of_tables self.old)
            (item_writes s moment table.now t place (option_map (λ i. i.now) new.entry))) }
        ensures disk { (s : State) (t : Table) (place : List ℕ)
            → Stands (D.state disk.old) self.old s → map.get s.tables table.now ≡ Some t
            → place_of t.description key.now ≡ Some place
            → Leaves (D.state disk.old) (D.state disk.new) s
            (item_writes s moment table.now t place (option_map (λ i. i.now) new.entry)) }
        ensures rows { IfOk result (λ n. IsSome n → IsTrusted (D.state disk.old)
            → (d : TableSchema) (place : List ℕ) (l : Layout)
            → map.get (catalog_of self.old) table.now ≡ Some d → place_of d key.now ≡ Some place
            → HasRows (D.state disk.old) self.old l → HasRows (D.state disk.new) self.new
            (changed_rows l (write_changes d (next_write_of_tables self.old) moment Writer.User place
            (option_map (λ i. i.now) old.entry) (option_map (λ i. i.now) new.entry)
            (number_at table.now (trimmed_of self.old)) (number_at table.now (trimmed_of self.new))
            (lowest_left l d (number_at table.now (trimmed_of self.new)))))) }
        ensures leftovers { IfOk result (λ n. IsSome n → IsTrusted (D.state disk.old)
            → (d : TableSchema) (family : ℕ) (l m : Layout)
            → map.get (catalog_of self.old) table.now ≡ Some d → d.stream_family ≡ Some family
            → HasRows (D.state disk.old) self.old l → HasRows (D.state disk.new) self.new m
            → leftovers m family (number_at table.now (trimmed_of self.new))
            ≡ drop 2 (leftovers l family (number_at table.now (trimmed_of self.new)))) }
        ensures no_memory { IsErrOf result TableFault.NoMemory
            → Reads (D.state disk.old) (D.state disk.new) }
        ensures goes { Goes (D.state disk.old) (D.state disk.new) }
        ensures unchanged { result ≡ Ok None → D.state disk.new ≡ D.state disk.old }
        ensures limits { bounds_of self.new ≡ bounds_of self.old }
        ensures cause { IsErrOf result TableFault.Failed
            → Rose (D.state disk.old).faults (D.state disk.new).faults }
    {
        let place = match self.place_in(table, key) {
            Ok(place) => place,
            Err(fault) => return Err(fault),
        };
        let Ok(item) = copy_of(old) else {
            return Err(TableFault::NoMemory);
        };
        let Ok(new) = copy_of(new) else {
            return Err(TableFault::NoMemory);
        };
        let Ok(row) = row_of(self.alloc, &item) else {
            return Err(TableFault::NoMemory);
        };
        self.write(disk, table, Found { place, item, row }, new, moment)
    }

    /// The place of a key in a table that is there.
    pub(crate) fn place_in(&self, table: &str, key: &Item) -> Result<Bytes, TableFault>
        requires there { map.contains_key (catalog_of self.now) table.now ≡ true }
        requires key { (d : TableSchema) → map.get (catalog_of self.now) table.now ≡ Some d
            → IsSome (place_of d key.now) }
        ensures place { IfOk result (λ place. (d : TableSchema)
            → map.get (catalog_of self.now) table.now ≡ Some d
            → place_of d key.now ≡ Some place) }
        ensures cause { IfErr result (λ fault. fault ≡ TableFault.NoMemory) }
    {
        let Some(schema) = self.table(table) else {
            unreachable!();
        };
        match place_of(self.alloc, schema, key) {
            Ok(Some(place)) => Ok(place),
            Ok(None) => unreachable!(),
            Err(_) => Err(TableFault::NoMemory),
        }
    }
}
