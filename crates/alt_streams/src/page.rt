//! A page of records that is being filled (Streams API Reference, "GetRecords").

ghost use Rattle.std.specs.Prelude.{◌≡◌};

use crate::record::{record_of, record_size};
use alt_changes::Change;
use alt_fields::{Bytes, put_u64};
use alt_request::TableFault;
use alt_schema::TableSchema;
use alt_shape::Object;
use std::alloc::Global;

/// The sizes of records with which a page ends: 1 MB.
const PAGE_BYTES: u64 = 1_048_576;

/// The most changes that are read at a time, before any record is in hand and behind the first.
const FIRST_PIECE: u64 = 16;

const PIECE: u64 = 64;

/// Records in the order of their changes, how many more of them and how many more bytes the page takes, and the number that the changes
/// behind them begin with.
#[derive(Drop)]
pub(crate) struct Page {
    pub(crate) records: Vec<Object>,
    pub(crate) room: u64,
    pub(crate) left: u64,
    pub(crate) next: u64,
}

impl Page {
    ghost use Rattle.std.specs.Prelude.{◌≡◌, ◌<◌, ◌++◌, ◌∷◌, [], ℕ, false, List, Some, IfErr, IsErrOf, IsSome, OnOk};
    ghost use Rattle.alt_changes.specs.ChangeRows.{change_in};
    ghost use Rattle.alt_machine.specs.State as machine;
    ghost use Rattle.alt_schema.specs.declared.schema.TableSchema.{TableSchema};
    ghost use Rattle.alt_schema.specs.declared.schema.View.{View};
    ghost use Rattle.alt_streams.specs.private.Paged.{PageHasRecords, IsFit, is_full};
    ghost use Rattle.alt_request.specs.TablesFaults.{IsReadFault};

    /// A page without records, of the changes from a number on.
    pub(crate) fn new(alloc: Global, from: u64, most: u64) -> Page
        ensures read { (d : TableSchema) (shows : View) → PageHasRecords d shows most from result [] }
    {
        Page {
            records: Vec::new(alloc),
            room: most,
            left: PAGE_BYTES,
            next: from,
        }
    }

    /// Whether no more records may follow.
    pub(crate) fn is_full(&self) -> bool
        ensures full { result ≡ is_full self.now }
    {
        self.room == 0 || self.left == 0
    }

    /// How many changes are read next. They are few at first, so that a page that ends early reads little beyond its end.
    pub(crate) fn piece(&self) -> u32
        requires going { is_full self.now ≡ false }
        ensures some { 0 < result }
    {
        let most = if self.records.is_empty() {
            FIRST_PIECE
        } else {
            PIECE
        };
        most.min(self.room) as u32
    }

    /// Puts the record of a change behind the others. A change whose items are larger than may be stored is of a disk that doesn't
    /// keep what was written.
    pub(crate) fn put(
        &mut self,
        alloc: Global,
        schema: &TableSchema,
        change: Change,
    ) -> Result<(), TableFault>
        requires going { is_full self.old ≡ false }
        requires stream { IsSome schema.now.view }
        ensures read { (shows : View) (most from : ℕ) (seen : List machine.Change)
            → schema.now.view ≡ Some shows → PageHasRecords schema.now shows most from self.old seen
            → IsFit (change_in change)
            → OnOk result (PageHasRecords schema.now shows most from self.new
            (seen ++ change_in change ∷ [])) }
        ensures fault { IsFit (change_in change) → IfErr result IsReadFault }
        ensures unfailed { IsErrOf result TableFault.Failed → ⊥ }
    {
        let number = change.number;
        let Some(size) = record_size(alloc, schema, &change)? else {
            return Err(bad_change(alloc, schema, number));
        };
        self.records.push(record_of(alloc, schema, change)?)?;
        self.room -= 1;
        self.left = self.left.saturating_sub(size);
        self.next = number.saturating_add(1);
        Ok(())
    }
}

/// The fault of the row of a change, which the disk wasn't left with.
fn bad_change(alloc: Global, schema: &TableSchema, number: u64) -> TableFault
    ensures unfailed { result ≡ TableFault.Failed → ⊥ }
{
    let mut key = Vec::new(alloc);
    match put_u64(&mut key, number) {
        Ok(()) => TableFault::BadRow {
            family: schema.stream_family.unwrap_or(schema.family),
            key: Bytes::from_vec(key),
        },
        Err(_) => TableFault::NoMemory,
    }
}
