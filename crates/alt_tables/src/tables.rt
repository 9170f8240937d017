//! All tables: what is known of them by their names, the numbers and families that are left, and the writes of the catalog.

ghost use Rattle.std.specs.Prelude.{◌^◌, ◌≡◌, ◌∷◌, [], ◌+◌, ◌<◌, ◌≤◌, length, true, None, Some, IsSome, IfOk, IfErr, OnOk, IsErrOf, option_map, slice_get, T};
ghost use Rattle.std.specs.FinMap as map;
ghost use Rattle.alt_base.specs.Counts.{Rose};
ghost use Rattle.alt_cells.specs.Batches.{is_distinct};
ghost use Rattle.alt_disk.specs.Disk.{IsTrusted, Goes};
ghost use Rattle.alt_layout.specs.Layout.{Layout};
ghost use Rattle.alt_machine.specs.Ops.CreateTable.{with_table};
ghost use Rattle.alt_machine.specs.Ops.DeleteTable.{without_table};
ghost use Rattle.alt_machine.specs.Ops.ListTables.{names_after};
ghost use Rattle.alt_machine.specs.Ops.UpdateTimeToLive.{with_time};
ghost use Rattle.alt_machine.specs.Outcomes.{a_number, a_table};
ghost use Rattle.alt_machine.specs.State.{State, Table};
ghost use Rattle.alt_machine.specs.Valid.{IsMade, IsValid};
ghost use Rattle.alt_machine.specs.Wanted.{table_lack};
ghost use Rattle.alt_schema.specs.Described.{IsNew};
ghost use Rattle.alt_rowchanges.specs.Faults.{IsFindFault};
ghost use Rattle.alt_tables.specs.Faults.{Writes};
ghost use Rattle.alt_tables.specs.Images.{Leaves};
ghost use Rattle.alt_rowchanges.specs.OpeningOrder.{first_after};
ghost use Rattle.alt_rowchanges.specs.RowChanges.{Turns, changed_rows};
ghost use Rattle.alt_tables.specs.Several.{BatchesAreDistinct, TurnsAll, with_batches};
ghost use Rattle.alt_tables.specs.Stands.{AreReady, HasRows, Stands, catalog_of, next_write_of_tables, next_family_of_tables, bounds_of, trimmed_of};
ghost use Rattle.alt_rowchanges.specs.OpeningOpened.{EngineHoldsState};
ghost use Rattle.alt_rowchanges.specs.OpeningTrimmed.{number_at};

use crate::foresight::forget_for;
use alt_base::NoMemory;
use alt_cells::Batch;
use alt_disk::Disk;
use alt_due::Due;
use alt_machine::{FAMILIES_END, MOST_FAMILIES, MOST_TABLES, NUMBERS_END};
use alt_rowchanges::{
    Catalog, Engine, Front, Live, TableFault, Trimmed, creation, family_count, forget,
    forget_front, named, removal, timing, trimmed_number,
};
use alt_schema::TableSchema;
use alt_schemabytes::held;
use std::alloc::Global;

/// All tables with their items, over an engine. With the disk beneath it they stand for a state of the machine (docs/ARCHITECTURE.md).
/// What is known of tables without their items is in memory.
#[derive(Drop)]
pub struct Tables {
    pub(crate) alloc: Global,
    pub(crate) engine: Engine,
    pub(crate) catalog: Catalog,
    pub(crate) live: Live,
    pub(crate) family: u32,
    pub(crate) trimmed: Vec<Trimmed>,
    pub(crate) fronts: Vec<Front>,
    pub(crate) due: Due,
    pub(crate) largest: u64,
    pub(crate) builds: bool,
}

impl Tables {
    /// The description of the table of that name, `None` exactly where there is none.
    pub fn table(&self, name: &str) -> Option<&TableSchema>
        ensures table { option_map (λ d. d.now) result ≡ map.get (catalog_of self.now) name.now }
    {
        self.catalog.get(name)
    }

    /// The description of the first table whose name comes after that one in the order of their bytes, `None` exactly where
    /// there is none. It stands under its own name.
    pub fn table_after(&self, name: &str) -> Option<&TableSchema>
        ensures table { option_map (λ d. d.now) result
            ≡ first_after name.now (catalog_of self.now) }
        ensures name { option_map (λ d. d.now.name) result
            ≡ slice_get (names_after name.now (catalog_of self.now)) 0 }
    {
        self.catalog.after(name)
    }

    /// The number of the last change of a table that was trimmed, 0 where none was, or no table has that name.
    pub fn trimmed(&self, table: &str) -> u64
        ensures trimmed { result ≡ number_at table.now (trimmed_of self.now) }
    {
        trimmed_number(self.trimmed.as_slice(), table)
    }

    /// How many tables there are.
    pub fn count(&self) -> usize
        ensures count { result ≡ map.len (catalog_of self.now) }
    {
        self.catalog.len()
    }

    /// The number of the next write.
    pub fn next_number(&self) -> u64
        ensures number { result ≡ next_write_of_tables self.now }
    {
        self.engine.next_number()
    }

    /// The family that the next table gets.
    pub fn next_family(&self) -> u32
        ensures family { result ≡ next_family_of_tables self.now }
    {
        self.family
    }

    /// Adds an empty table, where none has its name. `schema` is what `schema_of_json` gave for the next number and the next family.
    /// Where the number or 27 families from the next one on aren't free, nothing is added, whatever families `schema` has.
    pub fn create<D: Disk>(&mut self, disk: &mut D, schema: TableSchema) -> Result<(), TableFault>
        requires ready { AreReady (D.state disk.old) self.old }
        requires absent { map.get (catalog_of self.old) schema.name ≡ None }
        requires few { map.len (catalog_of self.old) < MOST_TABLES }
        requires made { IsMade schema }
        requires new { IsNew schema }
        requires number { schema.number ≡ next_write_of_tables self.old }
        requires family { table_lack (next_write_of_tables self.old) (next_family_of_tables self.old) ≡ None
            → schema.family ≡ next_family_of_tables self.old }
        ensures writes { (s : State) → Stands (D.state disk.old) self.old s
            → Writes (bounds_of self.old).file (Stands (D.state disk.new) self.new) a_table s
            (with_table s schema ∷ []) result }
        ensures disk { (s : State) → Stands (D.state disk.old) self.old s
            → Leaves (D.state disk.old) (D.state disk.new) s (with_table s schema ∷ []) }
        // On every disk: where memory, a number or families lack, no call of the disk is made.
        ensures no_memory { IsErrOf result TableFault.NoMemory
            → D.state disk.new ≡ D.state disk.old }
        ensures lacking { IsSome (table_lack (next_write_of_tables self.old) (next_family_of_tables self.old))
            → D.state disk.new ≡ D.state disk.old }
        ensures limits { bounds_of self.new ≡ bounds_of self.old }
        ensures goes { Goes (D.state disk.old) (D.state disk.new) }
        ensures cause { IsErrOf result TableFault.Failed
            → Rose (D.state disk.old).faults (D.state disk.new).faults }
    {
        let number = self.engine.next_number();
        if number >= NUMBERS_END {
            return Err(TableFault::Spent { number });
        }
        if self.family > FAMILIES_END - MOST_FAMILIES {
            return Err(TableFault::Spent {
                number: u64::from(self.family),
            });
        }
        if let Some(number) = self.engine.wanting_file() {
            return Err(TableFault::Spent { number });
        }
        held(&schema);
        let after = self.family + family_count(&schema) as u32;
        let batch = creation(self.alloc, self.family, after, &schema)?;
        let live = self.live.with_table(self.alloc, &schema)?;
        self.catalog.add(schema)?;
        match self.make(disk, &batch) {
            Ok(_) => {
                self.live = live;
                self.family = after;
                Ok(())
            }
            Err(fault) => Err(fault),
        }
    }

    /// Takes a table that is there out, with all its items.
    pub fn drop_table<D: Disk>(&mut self, disk: &mut D, name: &str) -> Result<(), TableFault>
        requires ready { AreReady (D.state disk.old) self.old }
        requires there { map.contains_key (catalog_of self.old) name.now ≡ true }
        ensures writes { (s : State) → Stands (D.state disk.old) self.old s
            → Writes (bounds_of self.old).file (Stands (D.state disk.new) self.new) a_number s
            (without_table s name.now ∷ []) result }
        ensures disk { (s : State) → Stands (D.state disk.old) self.old s
            → Leaves (D.state disk.old) (D.state disk.new) s (without_table s name.now ∷ []) }
        ensures no_memory { IsErrOf result TableFault.NoMemory
            → D.state disk.new ≡ D.state disk.old }
        ensures limits { bounds_of self.new ≡ bounds_of self.old }
        ensures goes { Goes (D.state disk.old) (D.state disk.new) }
        ensures cause { IsErrOf result TableFault.Failed
            → Rose (D.state disk.old).faults (D.state disk.new).faults }
    {
        let number = self.engine.next_number();
        if number >= NUMBERS_END {
            return Err(TableFault::Spent { number });
        }
        if let Some(number) = self.engine.wanting_file() {
            return Err(TableFault::Spent { number });
        }
        let Some(schema) = self.catalog.get(name) else {
            unreachable!();
        };
        let batch = removal(self.alloc, schema)?;
        let live = self.live.without_table(self.alloc, schema)?;
        match self.make(disk, &batch) {
            Ok(_) => {
                self.live = live;
                self.catalog.remove(name);
                forget(&mut self.trimmed, name);
                forget_front(&mut self.fronts, name);
                Ok(())
            }
            Err(fault) => Err(fault),
        }
    }

    /// Gives a table that is there that attribute for time to live, or none.
    pub fn set_ttl<D: Disk>(
        &mut self,
        disk: &mut D,
        table: &str,
        name: Option<&str>,
    ) -> Result<(), TableFault>
        requires ready { AreReady (D.state disk.old) self.old }
        requires there { map.contains_key (catalog_of self.old) table.now ≡ true }
        ensures writes { (s : State) (t : Table) → Stands (D.state disk.old) self.old s
            → map.get s.tables table.now ≡ Some t
            → Writes (bounds_of self.old).file (Stands (D.state disk.new) self.new) a_number s
            (with_time s table.now t (option_map (λ n. n.now) name.entry) ∷ []) result }
        ensures disk { (s : State) (t : Table) → Stands (D.state disk.old) self.old s
            → map.get s.tables table.now ≡ Some t
            → Leaves (D.state disk.old) (D.state disk.new) s
            (with_time s table.now t (option_map (λ n. n.now) name.entry) ∷ []) }
        ensures no_memory { IsErrOf result TableFault.NoMemory
            → D.state disk.new ≡ D.state disk.old }
        ensures limits { bounds_of self.new ≡ bounds_of self.old }
        ensures goes { Goes (D.state disk.old) (D.state disk.new) }
        ensures cause { IsErrOf result TableFault.Failed
            → Rose (D.state disk.old).faults (D.state disk.new).faults }
    {
        let number = self.engine.next_number();
        if number >= NUMBERS_END {
            return Err(TableFault::Spent { number });
        }
        if let Some(number) = self.engine.wanting_file() {
            return Err(TableFault::Spent { number });
        }
        let Some(schema) = self.catalog.get(table) else {
            unreachable!();
        };
        let ttl = named(self.alloc, name)?;
        let batch = timing(self.alloc, schema, ttl.as_ref())?;
        match self.make(disk, &batch) {
            Ok(_) => {
                forget_for(&mut self.due, &ttl);
                self.catalog.set_ttl(table, ttl);
                Ok(())
            }
            Err(fault) => Err(fault),
        }
    }

    /// Makes one write of these row changes. What is known without the disk stays, but for the number. After an Err the engine is spent.
    pub(crate) fn make<D: Disk>(&mut self, disk: &mut D, batch: &Batch) -> Result<u64, TableFault>
        requires ready { IsTrusted (D.state disk.old)
            → (s : State) × EngineHoldsState (D.state disk.old) self.old.engine s }
        requires room { next_write_of_tables self.old < NUMBERS_END }
        requires file { (bounds_of self.old).file < 2 ^ 32 }
        ensures ok { OnOk result ((s r : State) → EngineHoldsState (D.state disk.old) self.old.engine s
            → Turns batch.now s r → EngineHoldsState (D.state disk.new) self.new.engine r) }
        ensures rows { OnOk result (IsTrusted (D.state disk.old) → (l : Layout)
            → HasRows (D.state disk.old) self.old l
            → HasRows (D.state disk.new) self.new (changed_rows l batch.now)) }
        ensures number { IfOk result (λ n. n ≡ next_write_of_tables self.old) }
        ensures next { OnOk result (next_write_of_tables self.new ≡ next_write_of_tables self.old + 1) }
        ensures distinct { OnOk result (T (is_distinct batch.now)) }
        ensures kept { (self.new.catalog ≡ self.old.catalog) × (self.new.live ≡ self.old.live)
            × (self.new.family ≡ self.old.family) × (self.new.trimmed ≡ self.old.trimmed)
            × (self.new.fronts ≡ self.old.fronts) × (self.new.due ≡ self.old.due)
            × (self.new.builds ≡ self.old.builds) × (self.new.largest ≡ self.old.largest) }
        ensures limits { bounds_of self.new ≡ bounds_of self.old }
        ensures fault { IfErr result IsFindFault }
        ensures no_memory { IsErrOf result TableFault.NoMemory
            → D.state disk.new ≡ D.state disk.old }
        ensures disk { (s r : State) → EngineHoldsState (D.state disk.old) self.old.engine s → IsValid s
            → Turns batch.now s r
            → Leaves (D.state disk.old) (D.state disk.new) s (r ∷ []) }
        ensures goes { Goes (D.state disk.old) (D.state disk.new) }
        ensures cause { IsErrOf result TableFault.Failed
            → Rose (D.state disk.old).faults (D.state disk.new).faults }
    {
        let _changes = batch.as_slice();
        match self.engine.apply(disk, batch) {
            Ok(number) => Ok(number),
            Err(fault) => Err(TableFault::from(fault)),
        }
    }

    /// Makes these batches of row changes one entry, in which each is a write with the next number. What is known without the disk
    /// stays, but for the number. After an Err the engine is spent.
    pub(crate) fn make_all<D: Disk>(
        &mut self,
        disk: &mut D,
        batches: &[Batch],
    ) -> Result<(), TableFault>
        requires ready { IsTrusted (D.state disk.old)
            → (s : State) × EngineHoldsState (D.state disk.old) self.old.engine s }
        requires some { 1 ≤ length batches.now }
        requires room { next_write_of_tables self.old + length batches.now ≤ NUMBERS_END }
        requires file { (bounds_of self.old).file < 2 ^ 32 }
        requires distinct { BatchesAreDistinct batches.now }
        ensures ok { OnOk result ((s r : State) → EngineHoldsState (D.state disk.old) self.old.engine s
            → TurnsAll batches.now s r → EngineHoldsState (D.state disk.new) self.new.engine r) }
        ensures rows { OnOk result (IsTrusted (D.state disk.old) → (l : Layout)
            → HasRows (D.state disk.old) self.old l
            → HasRows (D.state disk.new) self.new (with_batches l batches.now)) }
        ensures next { OnOk result (next_write_of_tables self.new
            ≡ next_write_of_tables self.old + length batches.now) }
        ensures kept { (self.new.catalog ≡ self.old.catalog) × (self.new.live ≡ self.old.live)
            × (self.new.family ≡ self.old.family) × (self.new.trimmed ≡ self.old.trimmed)
            × (self.new.fronts ≡ self.old.fronts) × (self.new.due ≡ self.old.due)
            × (self.new.builds ≡ self.old.builds) × (self.new.largest ≡ self.old.largest) }
        ensures limits { bounds_of self.new ≡ bounds_of self.old }
        ensures fault { IfErr result IsFindFault }
        ensures no_memory { IsErrOf result TableFault.NoMemory
            → D.state disk.new ≡ D.state disk.old }
        ensures disk { (s r : State) → EngineHoldsState (D.state disk.old) self.old.engine s → IsValid s
            → TurnsAll batches.now s r
            → Leaves (D.state disk.old) (D.state disk.new) s (r ∷ []) }
        ensures goes { Goes (D.state disk.old) (D.state disk.new) }
        ensures cause { IsErrOf result TableFault.Failed
            → Rose (D.state disk.old).faults (D.state disk.new).faults }
    {
        match self.engine.apply_all(disk, batches) {
            Ok(_) => Ok(()),
            Err(fault) => Err(TableFault::from(fault)),
        }
    }
}
