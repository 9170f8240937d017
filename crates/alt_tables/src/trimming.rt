//! What a write takes from the front of a table's stream: the changes that are over a day older, and rows that are left over of such.

ghost use Rattle.std.specs.Prelude.{◌≡◌, ◌≤◌, ◌<◌, ◌+◌, true, ℕ, List, Some, All, IfOk, IfErr, IfSome, IsErrOf, IsSome};
ghost use Rattle.std.specs.FinMap as map;
ghost use Rattle.alt_base.specs.Counts.{Rose};
ghost use Rattle.alt_layout.specs.Layout.{Layout};
ghost use Rattle.alt_machine.specs.State.{State, Table};
ghost use Rattle.alt_rowchanges.specs.OpeningTrimmed.{number_at};
ghost use Rattle.alt_schema.specs.declared.schema.TableSchema.{TableSchema};
ghost use Rattle.alt_rowchanges.specs.Faults.{IsFindFault, TableFaultIsUnspent};
ghost use Rattle.alt_rowchanges.specs.Leftovers.{leftovers};
ghost use Rattle.alt_rowchanges.specs.Trims.{AreTwo, IsKeptFrom, IsLowest, IsLowestFrom, IsRest, IsTrim, TrimIsWithin, IsYoung, left_from};
ghost use Rattle.alt_tables.specs.Looking.{FailsReading};
ghost use Rattle.alt_tables.specs.Stands.{AreReady, HasRows, KeepsTables, Stands, catalog_of, fronts_of, next_write_of_tables as next_of, trimmed_of};

use crate::tables::Tables;
use alt_base::NoMemory;
use alt_disk::Disk;
use alt_fields::Bytes;
use alt_machine::NUMBERS_END;
use alt_rowchanges::{
    TableFault, Trim, ahead, behind, front_of, is_over, is_within, kept_in, next, numbers_of,
    range_of,
};

/// How many rows that are left over go with a write.
const LEFTOVERS: u32 = 2;

impl Tables {
    /// What a write at a moment takes from the front of the stream of a table that is there, as it is read before the write.
    pub(crate) fn trim<D: Disk>(
        &mut self,
        disk: &mut D,
        table: &str,
        moment: u64,
    ) -> Result<Trim, TableFault>
        requires ready { AreReady (D.state disk.old) self.old }
        requires there { map.contains_key (catalog_of self.old) table.now ≡ true }
        requires room { next_of self.old < NUMBERS_END }
        ensures trim { (s : State) (t : Table) (l : Layout) → Stands (D.state disk.old) self.old s
            → map.get s.tables table.now ≡ Some t → HasRows (D.state disk.old) self.old l
            → IfOk result (IsTrim l t moment) }
        ensures rest { (s : State) (t : Table) (l : Layout) → Stands (D.state disk.old) self.old s
            → map.get s.tables table.now ≡ Some t → HasRows (D.state disk.old) self.old l
            → IfOk result (IsRest l l t) }
        ensures within { (d : TableSchema) → map.get (catalog_of self.old) table.now ≡ Some d
            → IsSome d.stream_family → IfOk result
            (TrimIsWithin (number_at table.now (trimmed_of self.old)) (next_of self.old)) }
        ensures keeps { KeepsTables (D.state disk.old) (D.state disk.new) self.old self.new }
        ensures fails { FailsReading (D.state disk.old) (D.state disk.new) self.old result }
    {
        let before = self.trimmed(table);
        let Some(schema) = self.catalog.get(table) else {
            unreachable!();
        };
        let Some(family) = schema.stream_family else {
            return Ok(Trim {
                number: before,
                oldest: None,
                leftovers: Vec::new(self.alloc),
                from: 1,
            });
        };
        let (number, oldest) = match self.kept_from(disk, table, moment) {
            Ok(kept) => kept,
            Err(fault) => return Err(fault),
        };
        if !is_within(before, number, self.engine.next_number()) {
            let key = Bytes::from_vec(Vec::new(self.alloc));
            return Err(TableFault::BadRow { family, key });
        }
        let from = self.left_from(table);
        match self.lowest(disk, family, from, number) {
            Ok((leftovers, from)) => Ok(Trim {
                number,
                oldest,
                leftovers,
                from,
            }),
            Err(fault) => Err(fault),
        }
    }

    /// The number of the last change of a table with a stream that is trimmed by a write at a moment, and the moment of the oldest that
    /// is kept. Where the oldest is known not to be too old, nothing is read.
    fn kept_from<D: Disk>(
        &mut self,
        disk: &mut D,
        table: &str,
        moment: u64,
    ) -> Result<(u64, Option<u64>), TableFault>
        requires ready { AreReady (D.state disk.old) self.old }
        requires there { map.contains_key (catalog_of self.old) table.now ≡ true }
        ensures kept { (s : State) (t : Table) → Stands (D.state disk.old) self.old s
            → map.get s.tables table.now ≡ Some t
            → IfOk result (IsKeptFrom moment t.trimmed t.changes) }
        ensures keeps { KeepsTables (D.state disk.old) (D.state disk.new) self.old self.new }
        ensures fails { FailsReading (D.state disk.old) (D.state disk.new) self.old result }
    {
        let before = self.trimmed(table);
        match self.young(table, moment) {
            Some(oldest) => Ok((before, oldest)),
            None => self.first_kept(disk, table, moment, before),
        }
    }

    /// The moment of the oldest change of a table's stream, where it is known and isn't over a day before another one.
    fn young(&self, table: &str, moment: u64) -> Option<Option<u64>>
        ensures { IfSome result (IsYoung table.now moment (fronts_of self.now)) }
    {
        let Some(front) = front_of(self.fronts.as_slice(), table) else {
            return None;
        };
        if is_over(front.oldest, moment) {
            return None;
        }
        Some(front.oldest)
    }

    /// The same, by the changes from the first on that was kept so far.
    fn first_kept<D: Disk>(
        &mut self,
        disk: &mut D,
        table: &str,
        moment: u64,
        before: u64,
    ) -> Result<(u64, Option<u64>), TableFault>
        requires ready { AreReady (D.state disk.old) self.old }
        requires there { map.contains_key (catalog_of self.old) table.now ≡ true }
        requires before { before ≡ number_at table.now (trimmed_of self.old) }
        ensures kept { (s : State) (t : Table) → Stands (D.state disk.old) self.old s
            → map.get s.tables table.now ≡ Some t
            → IfOk result (IsKeptFrom moment t.trimmed t.changes) }
        ensures keeps { KeepsTables (D.state disk.old) (D.state disk.new) self.old self.new }
        ensures fails { FailsReading (D.state disk.old) (D.state disk.new) self.old result }
    {
        let mut number = before;
        'pages: for _ in 0..u64::MAX {
            let page = match self.changes(disk, table, next(number), ahead(number, before)) {
                Ok(page) => page,
                Err(fault) => return Err(fault),
            };
            let (last, oldest) = kept_in(page.as_slice(), moment, number);
            if oldest.is_some() {
                return Ok((last, oldest));
            }
            if page.is_empty() {
                return Ok((last, oldest));
            }
            number = last;
        }
        Err(TableFault::NoMemory)
    }

    /// The number from which on rows may be left over in the stream of a table.
    fn left_from(&self, table: &str) -> u64
        ensures known { result ≡ left_from table.now (fronts_of self.now) }
    {
        match front_of(self.fronts.as_slice(), table) {
            Some(front) => front.from,
            None => 1,
        }
    }

    /// The lowest rows from a number on that are left over of changes up to another one in the family of a stream, so many as go with a
    /// write, and a number below which none is once these are hidden.
    pub(crate) fn lowest<D: Disk>(
        &mut self,
        disk: &mut D,
        family: u32,
        from: u64,
        number: u64,
    ) -> Result<(Vec<u64>, u64), TableFault>
        requires ready { AreReady (D.state disk.old) self.old }
        requires number { number < next_of self.old }
        requires room { next_of self.old < NUMBERS_END }
        ensures lowest { (s : State) (name : List ℕ) (t : Table) (l : Layout)
            → Stands (D.state disk.old) self.old s → map.get s.tables name ≡ Some t
            → t.description.stream_family ≡ Some family → HasRows (D.state disk.old) self.old l
            → 1 ≤ from → All (λ n. from ≤ n) (leftovers l family number)
            → IfOk result (IsLowest l family number) }
        ensures lowest_from { (s : State) (name : List ℕ) (t : Table) (l : Layout)
            → Stands (D.state disk.old) self.old s → map.get s.tables name ≡ Some t
            → t.description.stream_family ≡ Some family → HasRows (D.state disk.old) self.old l
            → 1 ≤ from → IfOk result (IsLowestFrom l family from number) }
        ensures two { IfOk result (λ r. AreTwo number r.0.items) }
        ensures keeps { KeepsTables (D.state disk.old) (D.state disk.new) self.old self.new }
        ensures unspent { IfErr result TableFaultIsUnspent }
        ensures fault { (s : State) (name : List ℕ) (t : Table)
            → Stands (D.state disk.old) self.old s → map.get s.tables name ≡ Some t
            → t.description.stream_family ≡ Some family → 1 ≤ from → IfErr result IsFindFault }
        ensures cause { IsErrOf result TableFault.Failed
            → Rose (D.state disk.old).faults (D.state disk.new).faults }
    {
        if number < from {
            return Ok((Vec::new(self.alloc), number + 1));
        }
        let Ok(range) = range_of(self.alloc, from, number + 1) else {
            return Err(TableFault::NoMemory);
        };
        let mut page = Vec::new(self.alloc);
        match self
            .engine
            .rows(disk, family, &range, true, LEFTOVERS, &mut page)
        {
            Ok(()) => {}
            Err(fault) => return Err(TableFault::from(fault)),
        }
        match numbers_of(self.alloc, family, page, number) {
            Ok(numbers) => {
                let from = behind(numbers.as_slice(), number);
                Ok((numbers, from))
            }
            Err(fault) => Err(fault),
        }
    }
}
