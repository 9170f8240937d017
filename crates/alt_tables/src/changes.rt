//! The changes of a table with a stream, in the order of their numbers.

ghost use Rattle.std.specs.Prelude.{◌≡◌, take, map as each, true, Some, IfOk};
ghost use Rattle.std.specs.FinMap as map;
ghost use Rattle.alt_changes.specs.ChangeRows.{change_in};
ghost use Rattle.alt_machine.specs.Ops.GetRecords.{changes_from};
ghost use Rattle.alt_machine.specs.State.{State, Table};
ghost use Rattle.alt_tables.specs.Looking.{FailsReading, OnlyReads};
ghost use Rattle.alt_tables.specs.Stands.{AreReady, KeepsTables, Stands, catalog_of};

use crate::tables::Tables;
use alt_base::NoMemory;
use alt_changes::Change;
use alt_disk::Disk;
use alt_rowchanges::{TableFault, from_kept, range_from, read_changes};

impl Tables {
    /// The changes of a table that is there, from a number on: the first `most` of them, or all where there are fewer. A table without a
    /// stream has none.
    pub fn changes<D: Disk>(
        &mut self,
        disk: &mut D,
        table: &str,
        from: u64,
        most: u32,
    ) -> Result<Vec<Change>, TableFault>
        requires ready { AreReady (D.state disk.old) self.old }
        requires there { map.contains_key (catalog_of self.old) table.now ≡ true }
        ensures changes { (s : State) (t : Table) → Stands (D.state disk.old) self.old s
            → map.get s.tables table.now ≡ Some t
            → IfOk result (λ changes. each change_in changes.items
            ≡ take most (changes_from from t.changes)) }
        ensures only { OnlyReads (D.state disk.old) (D.state disk.new) self.old self.new }
        ensures fails { FailsReading (D.state disk.old) (D.state disk.new) self.old result }
        // It leaves what is known of the tables, and the rows beneath them.
        ensures keeps { KeepsTables (D.state disk.old) (D.state disk.new) self.old self.new }
    {
        let Some(schema) = self.catalog.get(table) else {
            unreachable!();
        };
        let Some(family) = schema.stream_family else {
            return Ok(Vec::new(self.alloc));
        };
        let from = from_kept(self.trimmed(table), from);
        let Ok(range) = range_from(self.alloc, from) else {
            return Err(TableFault::NoMemory);
        };
        let mut page = Vec::new(self.alloc);
        match self
            .engine
            .rows(disk, family, &range, true, most, &mut page)
        {
            Ok(()) => read_changes(self.alloc, family, page),
            Err(fault) => Err(TableFault::from(fault)),
        }
    }
}
