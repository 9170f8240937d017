//! The write of a table that gets a global index more, or one less.

ghost use Rattle.std.specs.Prelude.{◌≡◌, ◌∷◌, [], ◌<◌, length, true, Some, IsErrOf};
ghost use Rattle.std.specs.FinMap as map;
ghost use Rattle.alt_base.specs.Counts.{Rose};
ghost use Rattle.alt_disk.specs.Disk.{Goes};
ghost use Rattle.alt_machine.specs.Ops.UpdateTable.{with_description};
ghost use Rattle.alt_machine.specs.State.{State, Table};
ghost use Rattle.alt_machine.specs.Valid.{IsMade};
ghost use Rattle.alt_rowchanges.specs.Altering.{MayAlter, alter_wants, family_left};
ghost use Rattle.alt_tables.specs.Faults.{Writes};
ghost use Rattle.alt_tables.specs.Images.{Leaves};
ghost use Rattle.alt_tables.specs.Stands.{AreReady, Stands, catalog_of, next_family_of_tables, bounds_of};

use crate::tables::Tables;
use alt_base::NoMemory;
use alt_disk::Disk;
use alt_machine::NUMBERS_END;
use alt_rowchanges::{TableFault, alteration, family_after, has_more, lacks_family};
use alt_schema::TableSchema;
use alt_schemabytes::held;

impl Tables {
    /// Gives a table that is there another description, which has one global index more, of the next family, or one less.
    pub fn alter<D: Disk>(&mut self, disk: &mut D, schema: TableSchema) -> Result<(), TableFault>
        requires ready { AreReady (D.state disk.old) self.old }
        requires there { map.contains_key (catalog_of self.old) schema.name ≡ true }
        requires named { 0 < length schema.name }
        requires made { (s : State) → Stands (D.state disk.old) self.old s → IsMade schema }
        requires alters { (d : TableSchema) → map.get (catalog_of self.old) schema.name ≡ Some d
            → MayAlter (next_family_of_tables self.old) d schema }
        ensures writes { (s : State) (t : Table) → Stands (D.state disk.old) self.old s
            → map.get s.tables schema.name ≡ Some t
            → Writes (bounds_of self.old).file (Stands (D.state disk.new) self.new)
            (alter_wants t.description schema) s (with_description s schema.name t schema
            (family_left s.next_family t.description schema) ∷ []) result }
        ensures disk { (s : State) (t : Table) → Stands (D.state disk.old) self.old s
            → map.get s.tables schema.name ≡ Some t
            → Leaves (D.state disk.old) (D.state disk.new) s (with_description s schema.name t schema
            (family_left s.next_family t.description schema) ∷ []) }
        ensures no_memory { IsErrOf result TableFault.NoMemory
            → D.state disk.new ≡ D.state disk.old }
        ensures limits { bounds_of self.new ≡ bounds_of self.old }
        ensures goes { Goes (D.state disk.old) (D.state disk.new) }
        ensures cause { IsErrOf result TableFault.Failed
            → Rose (D.state disk.old).faults (D.state disk.new).faults }
    {
        let number = self.engine.next_number();
        if number >= NUMBERS_END {
            return Err(TableFault::Spent { number });
        }
        let Some(old) = self.catalog.get(schema.name.as_str()) else {
            unreachable!();
        };
        let more = has_more(old, &schema);
        if lacks_family(more, old, self.family) {
            return Err(TableFault::Spent {
                number: u64::from(self.family),
            });
        }
        if let Some(number) = self.engine.wanting_file() {
            return Err(TableFault::Spent { number });
        }
        held(&schema);
        let after = family_after(more, self.family);
        let batch = alteration(self.alloc, self.family, after, old, &schema)?;
        let live = self.live.without_table(self.alloc, old)?;
        let live = live.with_table(self.alloc, &schema)?;
        match self.make(disk, &batch) {
            Ok(_) => {
                self.live = live;
                self.family = after;
                self.catalog.replace(schema);
                self.builds = true;
                Ok(())
            }
            Err(fault) => Err(fault),
        }
    }
}
