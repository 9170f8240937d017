//! Rows that were put, joined by key.

ghost use Rattle.std.specs.Prelude.{◌≡◌, ◌+◌, ℕ, [], ◌∷◌, OnOk, OnErr, length, option_map};
ghost use Rattle.std.specs.BTreeMap.{IsOrdered, IsUnchanged, get as tree_get, insert_entry};
ghost use Rattle.std.specs.FinMap as map;
ghost use Rattle.alt_disk.specs.Disk.{DiskState};
ghost use Rattle.alt_cells.specs.Format.{bytes_of_row};
ghost use Rattle.alt_cells.specs.Joined.{joined_map};
ghost use Rattle.alt_cells.specs.Keys.{key_cmp};
ghost use Rattle.alt_cells.specs.Rows.{join_row};
ghost use Rattle.alt_memtable.specs.Rows.{joined_with, more_bytes};
ghost use Rattle.alt_memtable.specs.Walk.{memory_walk_holds};

use crate::MemWalk;
use crate::size::{with_more, with_row};
use alt_base::NoMemory;
use alt_cells::RowCells;
use alt_fields::Bytes;
use std::alloc::Global;
use std::collections::BTreeMap;
use std::collections::btree_map::{Entry, Range};
use std::marker::Model;

/// Rows by key, and a count of the bytes that were put.
#[derive(Drop)]
pub struct Memtable {
    alloc: Global,
    rows: BTreeMap<Bytes, RowCells>,
    bytes: u64,
}

impl Model for Memtable {
    ghost use Rattle.std.specs.Prelude.{ℕ, ◌≤◌};
    ghost use Rattle.std.specs.FinMap as map;
    ghost use Rattle.alt_cells.specs.Keys.{key_cmp};
    ghost use Rattle.alt_cells.specs.Walks.{RowMap};
    ghost use Rattle.alt_memtable.specs.Rows.{coded_table, most_bytes};

    ghost Value = { RowMap × ℕ };

    ghost coded = { coded_table };

    ghost view = { λ t. (map.from_sorted {R = key_cmp} t.rows.entries, t.bytes) };

    ghost invariant = { λ t. t.bytes ≤ most_bytes };
}

impl Memtable {
    pub fn new(alloc: Global) -> Memtable
        ensures rows { result.0 ≡ map.empty }
        ensures bytes { result.1 ≡ 0 }
    {
        Memtable {
            alloc,
            rows: BTreeMap::new(alloc),
            bytes: 0,
        }
    }

    /// Joins a row to the one of its key; one of a new key is moved and not copied. Where memory is wanting, the table is as it was.
    pub fn put(&mut self, key: &[u8], row: RowCells) -> Result<(), NoMemory>
        ensures rows { OnOk result (self.new.0
            ≡ joined_map join_row self.old.0 (map.from_sorted ((key.now, row) ∷ []))) }
        ensures bytes { OnOk result (self.new.1
            ≡ more_bytes self.old.1 (length key.now + length (bytes_of_row row))) }
        ensures err { OnErr result (self.new ≡ self.old) }
    {
        let bytes = with_row(with_more(self.bytes, key.len()), &row);
        let key = Bytes::new(self.alloc, key)?;
        put_row(&mut self.rows, key, row)?;
        self.bytes = bytes;
        Ok(())
    }

    /// The row of a key, None exactly where none was put.
    pub fn get(&self, key: &Bytes) -> Option<&RowCells>
        ensures row { option_map (λ r. r.now) result ≡ map.get self.now.0 key.now }
    {
        let _count = self.rows.len();
        self.rows.get(key)
    }

    /// How many bytes were put, keys and rows, up to 2^62.
    pub fn bytes(&self) -> u64
        ensures { result ≡ self.now.1 }
    {
        self.bytes
    }

    pub fn clear(&mut self)
        ensures rows { self.new.0 ≡ map.empty }
        ensures bytes { self.new.1 ≡ 0 }
    {
        self.rows = BTreeMap::new(self.alloc);
        self.bytes = 0;
    }

    /// The rows, in the order of their keys.
    pub fn rows(&self) -> Range<'_, Bytes, RowCells>
        ensures { result ≡ map.entries self.now.0 }
    {
        let _count = self.rows.len();
        self.rows.range(..)
    }

    /// A walk over the rows, as they stand while it lasts.
    pub fn walk(&self) -> MemWalk<'_>
        ensures { (s : DiskState) → memory_walk_holds s result self.now.0 }
    {
        MemWalk {
            alloc: self.alloc,
            rows: &self.rows,
            range: self.rows.range(..),
            forward: true,
        }
    }
}

/// Joins a row to the one of its key, or puts it where there is none. Where memory is wanting, the rows are as they were.
fn put_row(rows: &mut BTreeMap<Bytes, RowCells>, key: Bytes, row: RowCells) -> Result<(), NoMemory>
    ensures put { OnOk result (rows.new.entries ≡ insert_entry key_cmp rows.old.entries key
        (joined_with (tree_get key_cmp rows.old key) row)) }
    ensures err { OnErr result (IsUnchanged rows.old rows.new) }
    ensures ordered { IsOrdered key_cmp rows.old }
{
    match rows.entry(key)? {
        Entry::Vacant(place) => {
            place.insert(row);
            Ok(())
        }
        Entry::Occupied(mut place) => {
            let mut joined = place.get().copy()?;
            joined.absorb(row)?;
            drop(place.insert(joined));
            Ok(())
        }
    }
}
