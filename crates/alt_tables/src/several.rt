//! Writes of several items at one moment: one entry of the log, so a stop leaves all of them or none.

ghost use Rattle.std.specs.Prelude.{◌≡◌, ◌<◌, ◌≤◌, ◌+◌, length, map as each, option_map, true, List, Ok, Some, IsSome, IfOk, IfErr, IfSome, OnOk, IsErrOf};
ghost use Rattle.std.specs.FinMap as map;
ghost use Rattle.alt_base.specs.Counts.{Rose};
ghost use Rattle.alt_cells.specs.declared.batch.RowChange.{RowChange};
ghost use Rattle.alt_disk.specs.Disk.{Goes};
ghost use Rattle.alt_layout.specs.Layout.{Layout};
ghost use Rattle.alt_machine.specs.Ops.BatchWriteItem.{writes_of_all_by};
ghost use Rattle.alt_machine.specs.Outcomes.{together};
ghost use Rattle.alt_machine.specs.State.{State, Table};
ghost use Rattle.alt_schema.specs.declared.schema.TableSchema.{TableSchema};
ghost use Rattle.alt_rowchanges.specs.Faults.{IsFindFault, TableFaultIsUnspent};
ghost use Rattle.alt_tables.specs.Faults.{WritesAll};
ghost use Rattle.alt_tables.specs.Foreseen.{ForeseesWritten};
ghost use Rattle.alt_tables.specs.Images.{Leaves};
ghost use Rattle.alt_rowchanges.specs.RowChanges.{write_changes};
ghost use Rattle.alt_tables.specs.Several.{AreAllApart, BatchesAreDistinct, Every, IsFound, MayWrite, batches_of, with_batches, written_at};
ghost use Rattle.alt_tables.specs.Stands.{AreReady, HasRows, KeepsTables, Reads, Stands, catalog_of, due_of, fronts_of, bounds_of, largest_of, next_write_of_tables, trimmed_of};
ghost use Rattle.alt_tables.specs.private.Foretold.{FitsWrite, FitsWrites};
ghost use Rattle.alt_tables.specs.private.Staging.{AreKnown, AreNotes, Differs, IsAgain, IsStateAhead, IsTrimmedAgain, IsStaged, IsStagedOn, IsTouched, differing_of, note_at};
ghost use Rattle.alt_rowchanges.specs.Trims.{TrimIsWithin};
ghost use Rattle.alt_value.specs.Values.{IsItemOfValues};

use crate::finding::Found;
use crate::tables::Tables;
use alt_base::NoMemory;
use alt_cells::Batch;
use alt_codec::Writer;
use alt_disk::Disk;
use alt_machine::NUMBERS_END;
use alt_rowchanges::{TableFault, Trim, item_batch, put_trim, same};
use alt_value::{Item, Text};

/// What is to stand at a place of a table, with what was found there.
#[derive(Drop)]
pub struct ItemChange {
    pub table: Text,
    pub found: Found,
    pub new: Option<Item>,
}

/// What a write takes from the front of a table's stream.
#[derive(Drop)]
pub struct Noted {
    pub table: Text,
    pub trim: Trim,
}

/// The row changes of the writes so far, a batch for each, and what they take from the fronts of streams, the last of them first.
#[derive(Drop)]
pub struct Staged {
    pub batches: Vec<Batch>,
    pub notes: Vec<Noted>,
}

impl Tables {
    /// Leaves at the place of each of these what is to stand there, one after another, in one entry. The answer is how many of them
    /// changed something; where none does, nothing is written.
    pub fn write_all<D: Disk>(
        &mut self,
        disk: &mut D,
        changes: Vec<ItemChange>,
        moment: u64,
        by: Writer,
    ) -> Result<usize, TableFault>
        requires ready { AreReady (D.state disk.old) self.old }
        requires may { Every (MayWrite (catalog_of self.old)) (each written_at changes.items) }
        requires apart { AreAllApart (each written_at changes.items) }
        requires found { (s : State) → Stands (D.state disk.old) self.old s
            → Every (IsFound s) changes.items }
        ensures writes { (s : State) → Stands (D.state disk.old) self.old s
            → WritesAll (bounds_of self.old).file (Stands (D.state disk.new) self.new) s
            (writes_of_all_by s moment by (each written_at changes.items)) result }
        ensures count { (s : State) → Stands (D.state disk.old) self.old s
            → IfOk result (λ n. n
            ≡ length (writes_of_all_by s moment by (each written_at changes.items))) }
        ensures most { IfOk result (λ n. n ≤ length changes.items) }
        ensures disk { (s : State) → Stands (D.state disk.old) self.old s
            → Leaves (D.state disk.old) (D.state disk.new) s
            (together s (writes_of_all_by s moment by (each written_at changes.items))) }
        // The one entry has the row changes of each of them, as a write by itself would have them behind those before it.
        ensures rows { OnOk result ((s : State) (l : Layout)
            → Stands (D.state disk.old) self.old s → HasRows (D.state disk.old) self.old l
            → HasRows (D.state disk.new) self.new
            (with_batches l (batches_of l s moment by (each written_at changes.items)))) }
        // On every disk: where memory is wanting nothing is written.
        ensures no_memory { IsErrOf result TableFault.NoMemory
            → Reads (D.state disk.old) (D.state disk.new) }
        ensures goes { Goes (D.state disk.old) (D.state disk.new) }
        // On every disk: a call that answers that nothing was changed makes no call of the disk.
        ensures unchanged { result ≡ Ok 0 → D.state disk.new ≡ D.state disk.old }
        ensures catalog { catalog_of self.new ≡ catalog_of self.old }
        ensures limits { bounds_of self.new ≡ bounds_of self.old }
        ensures cause { IsErrOf result TableFault.Failed
            → Rose (D.state disk.old).faults (D.state disk.new).faults }
    {
        let changes = differing(changes);
        if changes.is_empty() {
            return Ok(0);
        }
        let count = changes.len();
        if self.engine.next_number().saturating_add(count as u64) > NUMBERS_END {
            return Err(TableFault::Spent {
                number: NUMBERS_END,
            });
        }
        if let Some(number) = self.engine.wanting_file() {
            return Err(TableFault::Spent { number });
        }
        let staged = match self.stage_all(disk, changes, moment, by) {
            Ok(staged) => staged,
            Err(fault) => return Err(fault),
        };
        let Staged { batches, notes } = staged;
        self.know_all(notes, moment)?;
        match self.make_all(disk, batches.as_slice()) {
            Ok(()) => Ok(count),
            Err(fault) => Err(fault),
        }
    }

    /// The row changes of these writes, each as it is behind those before it.
    fn stage_all<D: Disk>(
        &mut self,
        disk: &mut D,
        changes: Vec<ItemChange>,
        moment: u64,
        by: Writer,
    ) -> Result<Staged, TableFault>
        requires ready { AreReady (D.state disk.old) self.old }
        requires may { Every (MayWrite (catalog_of self.old)) (each written_at changes.items) }
        requires apart { AreAllApart (each written_at changes.items) }
        requires differ { Every Differs changes.items }
        requires found { (s : State) → Stands (D.state disk.old) self.old s
            → Every (IsFound s) changes.items }
        requires room { next_write_of_tables self.old + length changes.items ≤ NUMBERS_END }
        ensures staged { (s : State) (l : Layout) → Stands (D.state disk.old) self.old s
            → HasRows (D.state disk.old) self.old l
            → IfOk result (IsStaged l s moment by (each written_at changes.items)) }
        ensures distinct { IfOk result (λ r. BatchesAreDistinct r.batches.items) }
        ensures count { IfOk result (λ r. length r.batches.items ≡ length changes.items) }
        ensures notes { IfOk result (λ r.
            AreNotes (catalog_of self.old) (next_write_of_tables self.old) r.notes.items) }
        ensures foretold { OnOk result (Every (ForeseesWritten (catalog_of self.old)
            (due_of self.new)) (each written_at changes.items)) }
        ensures fits { OnOk result (FitsWrites (largest_of self.new)
            (each written_at changes.items)) }
        ensures keeps { KeepsTables (D.state disk.old) (D.state disk.new) self.old self.new }
        ensures fault { (s : State) → Stands (D.state disk.old) self.old s
            → IfErr result IsFindFault }
        ensures cause { IsErrOf result TableFault.Failed
            → Rose (D.state disk.old).faults (D.state disk.new).faults }
    {
        let mut staged = Staged {
            batches: Vec::with_capacity(self.alloc, changes.len())?,
            notes: Vec::new(self.alloc),
        };
        for change in changes {
            match self.stage(disk, change, moment, by, &mut staged) {
                Ok(()) => {}
                Err(fault) => return Err(fault),
            }
        }
        Ok(staged)
    }

    /// Puts those of one more write behind the others.
    fn stage<D: Disk>(
        &mut self,
        disk: &mut D,
        change: ItemChange,
        moment: u64,
        by: Writer,
        staged: &mut Staged,
    ) -> Result<(), TableFault>
        requires ready { AreReady (D.state disk.old) self.old }
        requires may { MayWrite (catalog_of self.old) (written_at change) }
        requires differ { Differs change }
        requires notes { AreNotes (catalog_of self.old) (next_write_of_tables self.old)
            staged.old.notes.items }
        requires room { next_write_of_tables self.old + length staged.old.batches.items < NUMBERS_END }
        ensures staged { (s r : State) (l : Layout) → Stands (D.state disk.old) self.old s
            → HasRows (D.state disk.old) self.old l → BatchesAreDistinct staged.old.batches.items
            → IsStateAhead l s moment staged.old.notes.items staged.old.batches.items r
            → IsFound r change
            → OnOk result (IsStagedOn l s moment by change r staged.old staged.new) }
        ensures distinct { BatchesAreDistinct staged.old.batches.items
            → OnOk result (BatchesAreDistinct staged.new.batches.items) }
        ensures count { OnOk result (length staged.new.batches.items
            ≡ length staged.old.batches.items + 1) }
        ensures notes { OnOk result (AreNotes (catalog_of self.old) (next_write_of_tables self.old)
            staged.new.notes.items) }
        ensures foretold { OnOk result (ForeseesWritten (catalog_of self.old) (due_of self.new)
            (written_at change)) }
        ensures fits { OnOk result (FitsWrite (largest_of self.new) (written_at change).new) }
        ensures keeps { KeepsTables (D.state disk.old) (D.state disk.new) self.old self.new }
        ensures fault { (s r : State) (l : Layout) → Stands (D.state disk.old) self.old s
            → HasRows (D.state disk.old) self.old l
            → IsStateAhead l s moment staged.old.notes.items staged.old.batches.items r
            → IfErr result IsFindFault }
        ensures cause { IsErrOf result TableFault.Failed
            → Rose (D.state disk.old).faults (D.state disk.new).faults }
    {
        let ItemChange { table, found, new } = change;
        let notes = staged.notes.as_slice();
        let (before, trim) = match self.trim_behind(disk, notes, table.as_str(), moment) {
            Ok(read) => read,
            Err(fault) => return Err(fault),
        };
        self.foretell(table.as_str(), found.place.as_slice(), &new);
        let count = staged.batches.len();
        let batch = self.batch(
            table.as_str(),
            count,
            found,
            &new,
            moment,
            by,
            before,
            &trim,
        )?;
        let _changes = batch.as_slice();
        staged.batches.push(batch)?;
        staged.notes.insert(0, Noted { table, trim })?;
        Ok(())
    }

    /// The row changes of one write behind so many others.
    fn batch(
        &self,
        table: &str,
        count: usize,
        found: Found,
        new: &Option<Item>,
        moment: u64,
        by: Writer,
        before: u64,
        trim: &Trim,
    ) -> Result<Batch, NoMemory>
        requires there { map.contains_key (catalog_of self.now) table.now ≡ true }
        requires room { next_write_of_tables self.now + count < NUMBERS_END }
        requires within { (d : TableSchema) → map.get (catalog_of self.now) table.now ≡ Some d
            → IsSome d.stream_family → TrimIsWithin before (next_write_of_tables self.now + count) trim.now }
        ensures changes { (d : TableSchema) → map.get (catalog_of self.now) table.now ≡ Some d
            → IfOk result (λ batch. batch ≡ write_changes d (next_write_of_tables self.now + count) moment
            by found.place found.item new.now before trim.now.number trim.now.leftovers.items) }
        ensures held { OnOk result (IfSome new.now IsItemOfValues) }
    {
        let number = self.engine.next_number() + count as u64;
        let Some(schema) = self.catalog.get(table) else {
            unreachable!();
        };
        let mut batch = item_batch(
            self.alloc,
            schema,
            number,
            moment,
            by,
            found.place,
            found.row,
            &found.item,
            new,
        )?;
        put_trim(self.alloc, schema, before, trim, &mut batch)?;
        Ok(batch)
    }

    /// What a write behind others takes from the front of its table's stream, with the number of the last change that was trimmed
    /// before it.
    fn trim_behind<D: Disk>(
        &mut self,
        disk: &mut D,
        notes: &[Noted],
        table: &str,
        moment: u64,
    ) -> Result<(u64, Trim), TableFault>
        requires ready { AreReady (D.state disk.old) self.old }
        requires there { map.contains_key (catalog_of self.old) table.now ≡ true }
        requires notes { AreNotes (catalog_of self.old) (next_write_of_tables self.old) notes.now }
        requires room { next_write_of_tables self.old < NUMBERS_END }
        ensures trim { (s r : State) (l : Layout) (batches : List (List RowChange)) (t : Table)
            → Stands (D.state disk.old) self.old s → HasRows (D.state disk.old) self.old l
            → BatchesAreDistinct batches → IsStateAhead l s moment notes.now batches r
            → map.get r.tables table.now ≡ Some t
            → IfOk result (IsTrimmedAgain l (with_batches l batches) t moment) }
        ensures within { (d : TableSchema) → map.get (catalog_of self.old) table.now ≡ Some d
            → IsSome d.stream_family
            → IfOk result (λ r. TrimIsWithin r.0 (next_write_of_tables self.old) r.1) }
        ensures keeps { KeepsTables (D.state disk.old) (D.state disk.new) self.old self.new }
        ensures unspent { IfErr result TableFaultIsUnspent }
        ensures fault { (s r : State) (l : Layout) (batches : List (List RowChange))
            → Stands (D.state disk.old) self.old s → HasRows (D.state disk.old) self.old l
            → IsStateAhead l s moment notes.now batches r → IfErr result IsFindFault }
        ensures cause { IsErrOf result TableFault.Failed
            → Rose (D.state disk.old).faults (D.state disk.new).faults }
    {
        if let Some(last) = note_of(notes, table) {
            return match self.trim_again(disk, table, moment, &last.trim) {
                Ok(trim) => Ok((last.trim.number, trim)),
                Err(fault) => Err(fault),
            };
        }
        let before = self.trimmed(table);
        match self.trim(disk, table, moment) {
            Ok(trim) => Ok((before, trim)),
            Err(fault) => Err(fault),
        }
    }

    /// The same where one of the others was to that table: it trimmed what there is to trim, so that only the next rows that are
    /// left over are read.
    fn trim_again<D: Disk>(
        &mut self,
        disk: &mut D,
        table: &str,
        moment: u64,
        last: &Trim,
    ) -> Result<Trim, TableFault>
        requires ready { AreReady (D.state disk.old) self.old }
        requires there { map.contains_key (catalog_of self.old) table.now ≡ true }
        requires last { (d : TableSchema) → map.get (catalog_of self.old) table.now ≡ Some d
            → IsSome d.stream_family → last.now.number < next_write_of_tables self.old }
        requires room { next_write_of_tables self.old < NUMBERS_END }
        ensures trim { (s : State) (l m : Layout) (t : Table)
            → Stands (D.state disk.old) self.old s → HasRows (D.state disk.old) self.old l
            → map.get (catalog_of self.old) table.now ≡ Some t.description
            → IsTouched l m moment last.now t → IfOk result (IsAgain l m t moment) }
        ensures within { (d : TableSchema) → map.get (catalog_of self.old) table.now ≡ Some d
            → IsSome d.stream_family
            → IfOk result (TrimIsWithin last.now.number (next_write_of_tables self.old)) }
        ensures keeps { KeepsTables (D.state disk.old) (D.state disk.new) self.old self.new }
        ensures unspent { IfErr result TableFaultIsUnspent }
        ensures fault { (s : State) (l m : Layout) (t : Table)
            → Stands (D.state disk.old) self.old s → IsTouched l m moment last.now t
            → IfErr result IsFindFault }
        ensures cause { IsErrOf result TableFault.Failed
            → Rose (D.state disk.old).faults (D.state disk.new).faults }
    {
        let Some(schema) = self.catalog.get(table) else {
            unreachable!();
        };
        let number = last.number;
        let oldest = Some(last.oldest.unwrap_or(moment));
        let Some(family) = schema.stream_family else {
            return Ok(Trim {
                number,
                oldest,
                leftovers: Vec::new(self.alloc),
                from: last.from,
            });
        };
        match self.lowest(disk, family, last.from, number) {
            Ok((leftovers, from)) => Ok(Trim {
                number,
                oldest,
                leftovers,
                from,
            }),
            Err(fault) => Err(fault),
        }
    }

    /// Makes known what these writes at a moment leave of the fronts of streams.
    fn know_all(&mut self, notes: Vec<Noted>, moment: u64) -> Result<(), NoMemory>
        requires notes { AreNotes (catalog_of self.old) (next_write_of_tables self.old) notes.items }
        ensures known { OnOk result (AreKnown (catalog_of self.old) moment notes.items
            (trimmed_of self.old) (trimmed_of self.new) (fronts_of self.old)
            (fronts_of self.new)) }
        ensures kept { (self.new.engine ≡ self.old.engine) × (self.new.catalog ≡ self.old.catalog)
            × (self.new.live ≡ self.old.live) × (self.new.family ≡ self.old.family)
            × (self.new.due ≡ self.old.due) × (self.new.builds ≡ self.old.builds)
            × (self.new.largest ≡ self.old.largest) }
    {
        let mut notes = notes;
        while let Some(note) = notes.pop() {
            self.know(note.table.as_str(), moment, &note.trim)?;
        }
        Ok(())
    }
}

/// Those that change what was found.
fn differing(changes: Vec<ItemChange>) -> Vec<ItemChange>
    ensures { result.items ≡ differing_of changes.items }
{
    let mut changes = changes;
    changes.retain(|change| !same(&change.found.item, &change.new));
    changes
}

/// What the last of the writes so far to a table takes.
fn note_of<'n>(notes: &'n [Noted], table: &str) -> Option<&'n Noted>
    ensures { option_map (λ e. e.now) result ≡ note_at table.now notes.now }
{
    notes.iter().find(|note| note.table.as_str() == table)
}
