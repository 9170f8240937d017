//! The items of tables at their places: what stands at one, and what is to stand there.

ghost use Rattle.std.specs.Prelude.{◌^◌, ◌≡◌, ◌<◌, ◌∷◌, [], drop, ℕ, true, false, None, Some, IsSome, IfOk, IfSome, OnOk, IsErrOf, Ok};
ghost use Rattle.std.specs.FinMap as map;
ghost use Rattle.alt_base.specs.Counts.{Rose};
ghost use Rattle.alt_disk.specs.Disk.{IsTrusted, Goes};
ghost use Rattle.alt_layout.specs.Layout.{Layout};
ghost use Rattle.alt_machine.specs.Outcomes.{a_number};
ghost use Rattle.alt_machine.specs.Same.{is_same};
ghost use Rattle.alt_machine.specs.State.{State, Table};
ghost use Rattle.alt_machine.specs.Valid.{IsStored};
ghost use Rattle.alt_machine.specs.Writes.{after_item, item_writes};
ghost use Rattle.alt_rowchanges.specs.OpeningTrimmed.{IsRenumbered, number_at};
ghost use Rattle.alt_schema.specs.declared.schema.TableSchema.{TableSchema};
ghost use Rattle.alt_tables.specs.Faults.{Writes};
ghost use Rattle.alt_tables.specs.Foreseen.{ForeseesWrite};
ghost use Rattle.alt_tables.specs.Found.{IsFoundInTable, number_taken};
ghost use Rattle.alt_tables.specs.Images.{Leaves};
ghost use Rattle.alt_rowchanges.specs.Leftovers.{leftovers, lowest_left};
ghost use Rattle.alt_rowchanges.specs.RowChanges.{changed_rows, write_changes};
ghost use Rattle.alt_rowchanges.specs.Trims.{IsNoted, IsTrim, TrimIsWithin};
ghost use Rattle.alt_tables.specs.Looking.{FailsReading, OnlyReads};
ghost use Rattle.alt_tables.specs.private.Written.{IsWrittenAs};
ghost use Rattle.alt_tables.specs.Stands.{AreReady, HasRows, Reads, Stands, catalog_of, due_of, fronts_of, bounds_of, largest_of, next_write_of_tables, trimmed_of};
ghost use Rattle.alt_tables.specs.private.Foretold.{FitsWrite};

use crate::finding::Found;
use crate::tables::Tables;
use alt_base::NoMemory;
use alt_codec::Writer;
use alt_disk::Disk;
use alt_fields::Bytes;
use alt_machine::NUMBERS_END;
use alt_rowchanges::{TableFault, Trim, item_batch, item_of, know_front, put_trim, renumber, same};
use alt_schema::TableSchema;
use alt_value::Item;
use alt_views::Unread;

impl Tables {
    /// What stands at a place of a table that is there.
    pub fn find<D: Disk>(
        &mut self,
        disk: &mut D,
        table: &str,
        place: Bytes,
    ) -> Result<Found, TableFault>
        requires ready { AreReady (D.state disk.old) self.old }
        requires there { map.contains_key (catalog_of self.old) table.now ≡ true }
        ensures place { IfOk result (λ found. found.place ≡ place) }
        ensures item { (s : State) → Stands (D.state disk.old) self.old s
            → IfOk result (IsFoundInTable s table.now) }
        ensures only { OnlyReads (D.state disk.old) (D.state disk.new) self.old self.new }
        ensures fails { FailsReading (D.state disk.old) (D.state disk.new) self.old result }
    {
        let Some(schema) = self.catalog.get(table) else {
            unreachable!();
        };
        let family = schema.family;
        let row = match self.engine.row(disk, family, place.as_slice()) {
            Ok(row) => row,
            Err(fault) => return Err(TableFault::from(fault)),
        };
        match item_of(self.alloc, &row) {
            Ok(item) => Ok(Found { place, item, row }),
            Err(Unread::Bad) => Err(TableFault::BadRow { family, key: place }),
            Err(Unread::NoMemory) => Err(TableFault::NoMemory),
        }
    }

    /// Leaves `new` at the place of what was found in a table that is there, or nothing. The answer is the number that the write
    /// took, and `None` exactly where there was nothing to write.
    pub fn write<D: Disk>(
        &mut self,
        disk: &mut D,
        table: &str,
        found: Found,
        new: Option<Item>,
        moment: u64,
    ) -> Result<Option<u64>, TableFault>
        requires ready { AreReady (D.state disk.old) self.old }
        requires there { map.contains_key (catalog_of self.old) table.now ≡ true }
        requires found { (s : State) → Stands (D.state disk.old) self.old s
            → IsFoundInTable s table.now found }
        requires new { (s : State) → Stands (D.state disk.old) self.old s → (d : TableSchema)
            → map.get (catalog_of self.old) table.now ≡ Some d
            → IfSome new (IsStored d found.place) }
        ensures writes { (s : State) (t : Table) → Stands (D.state disk.old) self.old s
            → map.get s.tables table.now ≡ Some t
            → Writes (bounds_of self.old).file (Stands (D.state disk.new) self.new) a_number s
            (item_writes s moment table.now t found.place new) result }
        ensures number { (s : State) (t : Table) → Stands (D.state disk.old) self.old s
            → map.get s.tables table.now ≡ Some t
            → IfOk result (λ n. n ≡ number_taken (next_write_of_tables self.old)
            (item_writes s moment table.now t found.place new)) }
        ensures disk { (s : State) (t : Table) → Stands (D.state disk.old) self.old s
            → map.get s.tables table.now ≡ Some t → Leaves (D.state disk.old) (D.state disk.new) s
            (item_writes s moment table.now t found.place new) }
        // The one entry of the write has these row changes: of an item that is made or goes its row is cleared, and what it has comes; of one that
        // changes what differs comes, and what is gone goes; of a stream the row of number 0 where the number of the last change that is
        // trimmed rises, and the lowest two of the rows that are left over then, which are hidden.
        ensures rows { IfOk result (λ n. IsSome n → IsTrusted (D.state disk.old)
            → (d : TableSchema) (l : Layout) → map.get (catalog_of self.old) table.now ≡ Some d
            → HasRows (D.state disk.old) self.old l → HasRows (D.state disk.new) self.new
            (changed_rows l (write_changes d (next_write_of_tables self.old) moment Writer.User found.place
            found.item new
            (number_at table.now (trimmed_of self.old)) (number_at table.now (trimmed_of self.new))
            (lowest_left l d (number_at table.now (trimmed_of self.new)))))) }
        // After it the rows that are left over are those from before with those of the changes that it trims, without the two lowest of them.
        ensures leftovers { IfOk result (λ n. IsSome n → IsTrusted (D.state disk.old)
            → (d : TableSchema) (family : ℕ) (l m : Layout)
            → map.get (catalog_of self.old) table.now ≡ Some d → d.stream_family ≡ Some family
            → HasRows (D.state disk.old) self.old l → HasRows (D.state disk.new) self.new m
            → leftovers m family (number_at table.now (trimmed_of self.new))
            ≡ drop 2 (leftovers l family (number_at table.now (trimmed_of self.new)))) }
        // On every disk: where memory is wanting nothing is written.
        ensures no_memory { IsErrOf result TableFault.NoMemory
            → Reads (D.state disk.old) (D.state disk.new) }
        ensures goes { Goes (D.state disk.old) (D.state disk.new) }
        // On every disk: a call that answers that there was nothing to write makes no call of the disk.
        ensures unchanged { result ≡ Ok None → D.state disk.new ≡ D.state disk.old }
        // Where there is nothing to write it never fails.
        ensures idle { is_same found.item new ≡ true → result ≡ Ok None }
        ensures catalog { catalog_of self.new ≡ catalog_of self.old }
        ensures limits { bounds_of self.new ≡ bounds_of self.old }
        ensures cause { IsErrOf result TableFault.Failed
            → Rose (D.state disk.old).faults (D.state disk.new).faults }
    {
        if same(&found.item, &new) {
            return Ok(None);
        }
        let number = self.engine.next_number();
        if number >= NUMBERS_END {
            return Err(TableFault::Spent { number });
        }
        if let Some(number) = self.engine.wanting_file() {
            return Err(TableFault::Spent { number });
        }
        let trim = match self.trim(disk, table, moment) {
            Ok(trim) => trim,
            Err(fault) => return Err(fault),
        };
        self.foretell(table, found.place.as_slice(), &new);
        self.write_trimmed(disk, table, found, new, moment, trim)
    }

    /// The same where what is found there differs, by what the write takes from the front of the table's stream.
    fn write_trimmed<D: Disk>(
        &mut self,
        disk: &mut D,
        table: &str,
        found: Found,
        new: Option<Item>,
        moment: u64,
        trim: Trim,
    ) -> Result<Option<u64>, TableFault>
        requires ready { AreReady (D.state disk.old) self.old }
        requires there { map.contains_key (catalog_of self.old) table.now ≡ true }
        requires found { (s : State) → Stands (D.state disk.old) self.old s
            → IsFoundInTable s table.now found }
        requires new { (s : State) → Stands (D.state disk.old) self.old s → (d : TableSchema)
            → map.get (catalog_of self.old) table.now ≡ Some d
            → IfSome new (IsStored d found.place) }
        requires differ { is_same found.item new ≡ false }
        requires room { next_write_of_tables self.old < NUMBERS_END }
        requires file { (bounds_of self.old).file < 2 ^ 32 }
        requires trim { (s : State) (t : Table) (l : Layout) → Stands (D.state disk.old) self.old s
            → map.get s.tables table.now ≡ Some t → HasRows (D.state disk.old) self.old l
            → IsTrim l t moment trim }
        requires within { (d : TableSchema) → map.get (catalog_of self.old) table.now ≡ Some d
            → IsSome d.stream_family
            → TrimIsWithin (number_at table.now (trimmed_of self.old)) (next_write_of_tables self.old) trim }
        requires foretold { ForeseesWrite (catalog_of self.old) table.now found.place new
            (due_of self.old) }
        requires fits { FitsWrite (largest_of self.old) new }
        ensures writes { (s : State) (t : Table) → Stands (D.state disk.old) self.old s
            → map.get s.tables table.now ≡ Some t
            → Writes (bounds_of self.old).file (Stands (D.state disk.new) self.new) a_number s
            (after_item s moment table.now t found.place new ∷ []) result }
        ensures number { IfOk result (λ n. n ≡ Some (next_write_of_tables self.old)) }
        ensures disk { (s : State) (t : Table) → Stands (D.state disk.old) self.old s
            → map.get s.tables table.now ≡ Some t → Leaves (D.state disk.old) (D.state disk.new) s
            (after_item s moment table.now t found.place new ∷ []) }
        ensures rows { IfOk result (λ n. IsTrusted (D.state disk.old)
            → (d : TableSchema) (l : Layout) → map.get (catalog_of self.old) table.now ≡ Some d
            → HasRows (D.state disk.old) self.old l
            → IsWrittenAs (D.state disk.new) self.new l (write_changes d (next_write_of_tables self.old) moment
            Writer.User found.place found.item new (number_at table.now (trimmed_of self.old)) trim.number
            trim.leftovers.items)) }
        ensures trimmed { OnOk result (number_at table.now (trimmed_of self.new) ≡ trim.number) }
        ensures no_memory { IsErrOf result TableFault.NoMemory
            → D.state disk.new ≡ D.state disk.old }
        ensures goes { Goes (D.state disk.old) (D.state disk.new) }
        ensures catalog { catalog_of self.new ≡ catalog_of self.old }
        ensures limits { bounds_of self.new ≡ bounds_of self.old }
        ensures cause { IsErrOf result TableFault.Failed
            → Rose (D.state disk.old).faults (D.state disk.new).faults }
    {
        let before = self.trimmed(table);
        let number = self.engine.next_number();
        let Some(schema) = self.catalog.get(table) else {
            unreachable!();
        };
        let mut batch = item_batch(
            self.alloc,
            schema,
            number,
            moment,
            Writer::User,
            found.place,
            found.row,
            &found.item,
            &new,
        )?;
        put_trim(self.alloc, schema, before, &trim, &mut batch)?;
        self.know(table, moment, &trim)?;
        match self.make(disk, &batch) {
            Ok(number) => Ok(Some(number)),
            Err(fault) => Err(fault),
        }
    }

    /// Makes known what a write at a moment leaves of the front of a table's stream.
    pub(crate) fn know(&mut self, table: &str, moment: u64, trim: &Trim) -> Result<(), NoMemory>
        requires there { map.contains_key (catalog_of self.old) table.now ≡ true }
        ensures trimmed { OnOk result (IsRenumbered table.now trim.now.number (trimmed_of self.old)
            (trimmed_of self.new)) }
        ensures fronts { (d : TableSchema) → map.get (catalog_of self.old) table.now ≡ Some d
            → OnOk result (IsNoted d table.now moment trim.now (fronts_of self.old)
            (fronts_of self.new)) }
        ensures kept { (self.new.engine ≡ self.old.engine) × (self.new.catalog ≡ self.old.catalog)
            × (self.new.live ≡ self.old.live) × (self.new.family ≡ self.old.family)
            × (self.new.due ≡ self.old.due) × (self.new.builds ≡ self.old.builds)
            × (self.new.largest ≡ self.old.largest) }
    {
        renumber(self.alloc, &mut self.trimmed, table, trim.number)?;
        let Some(schema) = self.catalog.get(table) else {
            unreachable!();
        };
        if schema.stream_family.is_none() {
            return Ok(());
        }
        let oldest = trim.oldest.unwrap_or(moment);
        know_front(self.alloc, &mut self.fronts, table, Some(oldest), trim.from)
    }
}
