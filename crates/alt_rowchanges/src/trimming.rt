//! What a write takes from the front of a stream: the changes that are over a day older, and rows that are left over of such.

ghost use Rattle.std.specs.Prelude.{◌≡◌, ◌≤◌, ◌<◌, ◌+◌, ◌^◌, ◌&&◌, nat_le, nat_lt, map as each, ℕ, Some, ◌++◌, max, OnOk};
ghost use Rattle.alt_changes.specs.ChangeRows.{change_in};
ghost use Rattle.alt_rowchanges.specs.Trims.{IsKeptFrom, is_over_a_day_before, CanTrim};
ghost use Rattle.alt_changes.specs.TrimRows.{trim_changes};

use alt_base::NoMemory;
use alt_cells::Batch;
use alt_changes::{Change, trim_rows};
use alt_schema::TableSchema;
use std::alloc::Global;

/// The seconds of a day.
const DAY: u64 = 86_400;

/// How many changes are read first: a stream that is written steadily loses about as many with a write as it gains.
const FIRST_CHANGES: u32 = 4;

/// How many changes are read at once where more go: of two items each, they have 50 MB of names and values at most.
const CHANGES_AHEAD: u32 = 64;

/// What a write takes from the front of a table's stream: the number of the last change that is trimmed then, the moment of the oldest
/// that is kept, the lowest rows that are left over, and a number below which none is once these are hidden.
#[derive(Drop)]
pub struct Trim {
    pub number: u64,
    pub oldest: Option<u64>,
    pub leftovers: Vec<u64>,
    pub from: u64,
}

/// The number of the last of the first changes that are over a day before a moment, and the moment of the one behind them.
pub fn kept_in(changes: &[Change], moment: u64, before: u64) -> (u64, Option<u64>)
    ensures { IsKeptFrom moment before (each change_in changes.now) result }
{
    let mut last = before;
    for i in 0..changes.len() {
        let oldest = Some(changes[i].moment);
        if !is_over(oldest, moment) {
            return (last, oldest);
        }
        last = changes[i].number;
    }
    (last, None)
}

/// Whether the moment of the oldest change is over a day before another one.
pub fn is_over(oldest: Option<u64>, moment: u64) -> bool
    ensures { result ≡ is_over_a_day_before oldest moment }
{
    match oldest {
        Some(oldest) => oldest < moment.saturating_sub(DAY),
        None => false,
    }
}

/// The first number from one on that isn't left over.
pub fn from_kept(trimmed: u64, from: u64) -> u64
    ensures { trimmed < 2 ^ 63 → result ≡ max from (trimmed + 1) }
{
    from.max(trimmed.saturating_add(1))
}

/// Whether a number is no less than one from before, and below the next one.
pub fn is_within(before: u64, number: u64, next: u64) -> bool
    ensures { result ≡ (nat_le before number && nat_lt number next) }
{
    before <= number && number < next
}

/// The number behind one.
pub fn next(number: u64) -> u64
    ensures { number < 2 ^ 63 → result ≡ number + 1 }
{
    number.saturating_add(1)
}

/// How many changes are read at once behind a number, where the walk began behind another one.
pub fn ahead(number: u64, begun: u64) -> u32
    ensures { 1 ≤ result }
{
    if number == begun {
        FIRST_CHANGES
    } else {
        CHANGES_AHEAD
    }
}

/// Puts what a write does to the rows of the changes that the stream of a table trimmed behind the row changes of the item.
pub fn put_trim(
    alloc: Global,
    schema: &TableSchema,
    before: u64,
    trim: &Trim,
    batch: &mut Batch,
) -> Result<(), NoMemory>
    requires rows { (family : ℕ) → schema.now.stream_family ≡ Some family
        → CanTrim before trim.now batch.old family }
    ensures changes { OnOk result (batch.new ≡ batch.old
        ++ trim_changes schema.now before trim.now.number trim.now.leftovers.items) }
{
    if schema.stream_family.is_none() {
        return Ok(());
    }
    trim_rows(
        alloc,
        schema,
        trim.number,
        before,
        trim.leftovers.as_slice(),
        batch,
    )
}
