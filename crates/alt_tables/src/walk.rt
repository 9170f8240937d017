//! Walks over the items of a table, or of one of its indexes, in the order of their places or the other way.

ghost use Rattle.std.specs.Prelude.{◌≡◌, ◌++◌, ◌+◌, ◌≤◌, take, true, List, Some, None, IfOk, IfSome, OnOk, OnErr};
ghost use Rattle.std.specs.FinMap as map;
ghost use Rattle.std.specs.List.{last_or};
ghost use Rattle.alt_base.specs.Prefix.{IsPrefix};
ghost use Rattle.alt_cells.specs.Walks.{RowMap};
ghost use Rattle.alt_machine.specs.Sources.{index_at};
ghost use Rattle.alt_machine.specs.State.{State, Table};
ghost use Rattle.alt_machine.specs.Walks.{items_between};
ghost use Rattle.alt_schema.specs.declared.schema.IndexSchema.{IndexSchema};
ghost use Rattle.alt_schema.specs.declared.schema.TableSchema.{TableSchema};
ghost use Rattle.alt_tables.specs.Looking.{FailsReading, OnlyReads};
ghost use Rattle.alt_tables.specs.Reading.{HasRowFiles, family_read, places_between, most_walk_reads};
ghost use Rattle.alt_tables.specs.Stands.{AreReady, Stands, catalog_of};
ghost use Rattle.alt_views.specs.Readable.{CanRead};

use crate::tables::Tables;
use alt_disk::Disk;
use alt_fields::Bytes;
use alt_keyorder::KeyRange;
use alt_rowchanges::{TableFault, read_index_page, read_page};
use alt_schema::{IndexSchema, TableSchema};
use alt_value::Item;
use alt_views::index_at;

impl Tables {
    /// Puts those items of a table that is there, or of its index of that number, whose places there are in the range at the end of the
    /// list: the first `most` of them, or all where there are fewer. They rise where it goes forward, and else they fall from the range's
    /// end. An index has the items that have its keys, with what it keeps of them. The answer is the place of the last of them.
    pub fn rows<D: Disk>(
        &mut self,
        disk: &mut D,
        table: &str,
        index: Option<usize>,
        range: &KeyRange,
        forward: bool,
        most: u32,
        out: &mut Vec<Item>,
    ) -> Result<Option<Bytes>, TableFault>
        requires ready { AreReady (D.state disk.old) self.old }
        requires there { map.contains_key (catalog_of self.old) table.now ≡ true }
        requires index { (d : TableSchema) → map.get (catalog_of self.old) table.now ≡ Some d
            → IfSome index (λ number. CanRead d number) }
        ensures rows { (s : State) (t : Table) → Stands (D.state disk.old) self.old s
            → map.get s.tables table.now ≡ Some t
            → OnOk result (out.new.items ≡ out.old.items ++ take most
            (items_between t (index_at t.description index) range.now.from range.now.to forward)) }
        ensures last { (s : State) (t : Table) → Stands (D.state disk.old) self.old s
            → map.get s.tables table.now ≡ Some t
            → IfOk result (λ last. last ≡ last_or None (take most (places_between t
            (index_at t.description index) range.now.from range.now.to forward))) }
        // It reads each row file of the family twice at most, and once more for each version of a row in them that it passes.
        ensures reads { (s : State) (t : Table) (maps : List RowMap)
            → Stands (D.state disk.old) self.old s → map.get s.tables table.now ≡ Some t
            → HasRowFiles (D.state disk.old).file
            (family_read t.description (index_at t.description index)) maps
            → OnOk result ((D.state disk.new).reads ≤ (D.state disk.old).reads
            + most_walk_reads forward range.now.from range.now.to most (places_between t
            (index_at t.description index) range.now.from range.now.to forward) maps) }
        ensures begun { OnErr result (IsPrefix out.old.items out.new.items) }
        ensures only { OnlyReads (D.state disk.old) (D.state disk.new) self.old self.new }
        ensures fails { FailsReading (D.state disk.old) (D.state disk.new) self.old result }
    {
        match index {
            Some(number) => self.index_rows(disk, table, number, range, forward, most, out),
            None => self.table_rows(disk, table, range, forward, most, out),
        }
    }

    /// The same for a table.
    fn table_rows<D: Disk>(
        &mut self,
        disk: &mut D,
        table: &str,
        range: &KeyRange,
        forward: bool,
        most: u32,
        out: &mut Vec<Item>,
    ) -> Result<Option<Bytes>, TableFault>
        requires ready { AreReady (D.state disk.old) self.old }
        requires there { map.contains_key (catalog_of self.old) table.now ≡ true }
        ensures rows { (s : State) (t : Table) → Stands (D.state disk.old) self.old s
            → map.get s.tables table.now ≡ Some t
            → OnOk result (out.new.items ≡ out.old.items
            ++ take most (items_between t None range.now.from range.now.to forward)) }
        ensures last { (s : State) (t : Table) → Stands (D.state disk.old) self.old s
            → map.get s.tables table.now ≡ Some t
            → IfOk result (λ last. last ≡ last_or None
            (take most (places_between t None range.now.from range.now.to forward))) }
        ensures reads { (s : State) (t : Table) (maps : List RowMap)
            → Stands (D.state disk.old) self.old s → map.get s.tables table.now ≡ Some t
            → HasRowFiles (D.state disk.old).file (family_read t.description None) maps
            → OnOk result ((D.state disk.new).reads ≤ (D.state disk.old).reads
            + most_walk_reads forward range.now.from range.now.to most
            (places_between t None range.now.from range.now.to forward) maps) }
        ensures begun { OnErr result (IsPrefix out.old.items out.new.items) }
        ensures only { OnlyReads (D.state disk.old) (D.state disk.new) self.old self.new }
        ensures fails { FailsReading (D.state disk.old) (D.state disk.new) self.old result }
    {
        let Some(schema) = self.catalog.get(table) else {
            unreachable!();
        };
        let family = schema.family;
        let mut page = Vec::new(self.alloc);
        match self
            .engine
            .rows(disk, family, range, forward, most, &mut page)
        {
            Ok(()) => read_page(self.alloc, family, page, out),
            Err(fault) => Err(TableFault::from(fault)),
        }
    }

    /// The same for the index of that number.
    fn index_rows<D: Disk>(
        &mut self,
        disk: &mut D,
        table: &str,
        number: usize,
        range: &KeyRange,
        forward: bool,
        most: u32,
        out: &mut Vec<Item>,
    ) -> Result<Option<Bytes>, TableFault>
        requires ready { AreReady (D.state disk.old) self.old }
        requires there { map.contains_key (catalog_of self.old) table.now ≡ true }
        requires index { (d : TableSchema) → map.get (catalog_of self.old) table.now ≡ Some d
            → CanRead d number }
        ensures rows { (s : State) (t : Table) (i : IndexSchema)
            → Stands (D.state disk.old) self.old s → map.get s.tables table.now ≡ Some t
            → index_at t.description (Some number) ≡ Some i
            → OnOk result (out.new.items ≡ out.old.items
            ++ take most (items_between t (Some i) range.now.from range.now.to forward)) }
        ensures last { (s : State) (t : Table) (i : IndexSchema)
            → Stands (D.state disk.old) self.old s → map.get s.tables table.now ≡ Some t
            → index_at t.description (Some number) ≡ Some i
            → IfOk result (λ last. last ≡ last_or None
            (take most (places_between t (Some i) range.now.from range.now.to forward))) }
        ensures reads { (s : State) (t : Table) (i : IndexSchema) (maps : List RowMap)
            → Stands (D.state disk.old) self.old s → map.get s.tables table.now ≡ Some t
            → index_at t.description (Some number) ≡ Some i
            → HasRowFiles (D.state disk.old).file (family_read t.description (Some i)) maps
            → OnOk result ((D.state disk.new).reads ≤ (D.state disk.old).reads
            + most_walk_reads forward range.now.from range.now.to most
            (places_between t (Some i) range.now.from range.now.to forward) maps) }
        ensures begun { OnErr result (IsPrefix out.old.items out.new.items) }
        ensures only { OnlyReads (D.state disk.old) (D.state disk.new) self.old self.new }
        ensures fails { FailsReading (D.state disk.old) (D.state disk.new) self.old result }
    {
        let Some(schema) = self.catalog.get(table) else {
            unreachable!();
        };
        let index = index_at(schema, number);
        let mut page = Vec::new(self.alloc);
        match self
            .engine
            .rows(disk, index.family, range, forward, most, &mut page)
        {
            Ok(()) => read_index_page(self.alloc, schema, index, page, out),
            Err(fault) => Err(TableFault::from(fault)),
        }
    }
}
