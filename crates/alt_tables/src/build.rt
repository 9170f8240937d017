//! The step in which an index of a table is built further.

ghost use Rattle.std.specs.Prelude.{◌≡◌, ◌∷◌, [], ◌+◌, ◌<◌, ◌≤◌, ◌^◌, true, false, Some, IsSome, IsErrOf, take, map as each};
ghost use Rattle.std.specs.FinMap as map;
ghost use Rattle.std.specs.Str.{bytes_eq};
ghost use Rattle.alt_base.specs.Counts.{Rose};
ghost use Rattle.alt_disk.specs.Disk.{DiskState, Goes};
ghost use Rattle.alt_machine.specs.Building.{building_in, left_part, with_built};
ghost use Rattle.alt_machine.specs.Outcomes.{a_number};
ghost use Rattle.alt_machine.specs.State.{State, Table};
ghost use Rattle.alt_schema.specs.declared.schema.IndexSchema.{IndexSchema};
ghost use Rattle.alt_schema.specs.declared.schema.TableSchema.{TableSchema};
ghost use Rattle.alt_tables.specs.Built.{NoneBuilds};
ghost use Rattle.alt_tables.specs.Faults.{Writes};
ghost use Rattle.alt_tables.specs.Images.{Leaves};
ghost use Rattle.alt_tables.specs.Stands.{AreReady, KeepsCatalog, Reads, Stands, bounds_of, catalog_of, next_write_of_tables};

use crate::tables::Tables;
use alt_base::NoMemory;
use alt_disk::Disk;
use alt_machine::NUMBERS_END;
use alt_rowchanges::{TableFault, built_after, left_range, step, taken_of};
use alt_schema::{TableSchema, built_copy};
use alt_schemabytes::held;
use alt_value::Item;

impl Tables {
    /// Whether an index of a table may be being built: where it is false none is.
    pub fn may_build(&self) -> bool
        ensures none { (disk : DiskState) (s : State) → Stands disk self.now s
            → result ≡ false → NoneBuilds (catalog_of self.now) }
    {
        self.builds
    }

    /// Notes that none is being built, so that none is looked for until one comes.
    pub fn note_none_builds(&mut self)
        requires none { NoneBuilds (catalog_of self.old) }
        ensures stands { (disk : DiskState) (s : State) → Stands disk self.old s
            → Stands disk self.new s }
        ensures catalog { KeepsCatalog self.old self.new }
    {
        self.builds = false;
    }

    /// Builds the index of a table that is being built of `most` items more, or of all that are left where these are fewer: then it is
    /// whole.
    pub fn build_rows<D: Disk>(
        &mut self,
        disk: &mut D,
        table: &str,
        most: u32,
    ) -> Result<(), TableFault>
        requires ready { AreReady (D.state disk.old) self.old }
        requires there { map.contains_key (catalog_of self.old) table.now ≡ true }
        requires building { (d : TableSchema) → map.get (catalog_of self.old) table.now ≡ Some d
            → IsSome (building_in d) }
        requires some { (1 ≤ most) × (most < 1000000) }
        ensures writes { (s : State) (t : Table) (i : IndexSchema)
            → Stands (D.state disk.old) self.old s → map.get s.tables table.now ≡ Some t
            → building_in t.description ≡ Some i
            → Writes (bounds_of self.old).file (Stands (D.state disk.new) self.new) a_number s
            (with_built s most table.now t i ∷ []) result }
        ensures disk { (s : State) (t : Table) (i : IndexSchema)
            → Stands (D.state disk.old) self.old s → map.get s.tables table.now ≡ Some t
            → building_in t.description ≡ Some i
            → Leaves (D.state disk.old) (D.state disk.new) s (with_built s most table.now t i ∷ []) }
        // Where memory is wanting the disk was read alone.
        ensures no_memory { IsErrOf result TableFault.NoMemory
            → Reads (D.state disk.old) (D.state disk.new) }
        ensures limits { bounds_of self.new ≡ bounds_of self.old }
        ensures goes { Goes (D.state disk.old) (D.state disk.new) }
        ensures cause { IsErrOf result TableFault.Failed
            → Rose (D.state disk.old).faults (D.state disk.new).faults }
    {
        let number = self.engine.next_number();
        if number >= NUMBERS_END {
            return Err(TableFault::Spent { number });
        }
        if let Some(number) = self.engine.wanting_file() {
            return Err(TableFault::Spent { number });
        }
        let alloc = self.alloc;
        let Some(schema) = self.catalog.get(table) else {
            unreachable!();
        };
        let range = left_range(alloc, schema)?;
        let mut items = Vec::new(alloc);
        match self.rows(disk, table, None, &range, true, most + 1, &mut items) {
            Ok(_) => self.build_read(disk, table, most, items.as_slice()),
            Err(fault) => Err(fault),
        }
    }

    /// The same with the items that are left, of which one more was read than is taken.
    fn build_read<D: Disk>(
        &mut self,
        disk: &mut D,
        table: &str,
        most: u32,
        items: &[Item],
    ) -> Result<(), TableFault>
        requires ready { AreReady (D.state disk.old) self.old }
        requires there { map.contains_key (catalog_of self.old) table.now ≡ true }
        requires building { (d : TableSchema) → map.get (catalog_of self.old) table.now ≡ Some d
            → IsSome (building_in d) }
        requires some { 1 ≤ most }
        requires room { next_write_of_tables self.old < NUMBERS_END }
        requires file { (bounds_of self.old).file < 2 ^ 32 }
        requires read { (s : State) (t : Table) (i : IndexSchema)
            → Stands (D.state disk.old) self.old s → map.get s.tables table.now ≡ Some t
            → building_in t.description ≡ Some i → items.now ≡ take (most + 1)
            (each (λ e. e.1) (left_part t.description i.built t.items)) }
        ensures writes { (s : State) (t : Table) (i : IndexSchema)
            → Stands (D.state disk.old) self.old s → map.get s.tables table.now ≡ Some t
            → building_in t.description ≡ Some i
            → Writes (bounds_of self.old).file (Stands (D.state disk.new) self.new) a_number s
            (with_built s most table.now t i ∷ []) result }
        ensures disk { (s : State) (t : Table) (i : IndexSchema)
            → Stands (D.state disk.old) self.old s → map.get s.tables table.now ≡ Some t
            → building_in t.description ≡ Some i
            → Leaves (D.state disk.old) (D.state disk.new) s (with_built s most table.now t i ∷ []) }
        ensures no_memory { IsErrOf result TableFault.NoMemory
            → D.state disk.new ≡ D.state disk.old }
        ensures limits { bounds_of self.new ≡ bounds_of self.old }
        ensures goes { Goes (D.state disk.old) (D.state disk.new) }
        ensures cause { IsErrOf result TableFault.Failed
            → Rose (D.state disk.old).faults (D.state disk.new).faults }
    {
        let alloc = self.alloc;
        let Some(schema) = self.catalog.get(table) else {
            unreachable!();
        };
        // On a disk that doesn't tell its contents another might stand there.
        if !stands_under(schema, table) {
            return Err(TableFault::NoMemory);
        }
        let taken = taken_of(items, most);
        let built = built_after(alloc, schema, items, taken)?;
        let later = built_copy(alloc, schema, &built)?;
        held(&later);
        let batch = step(alloc, schema, &later, &items[..taken])?;
        match self.make(disk, &batch) {
            Ok(_) => {
                self.catalog.replace(later);
                Ok(())
            }
            Err(fault) => Err(fault),
        }
    }
}

/// Whether a description is of that name.
fn stands_under(schema: &TableSchema, name: &str) -> bool
    ensures { result ≡ bytes_eq schema.now.name name.now }
{
    schema.name.as_str() == name
}
