//! Reading writes back from the bytes of an entry, as docs/formats/log-entries.md lays them out.

ghost use Rattle.std.specs.Prelude.{◌≡◌, ◌<◌, ◌≤◌, ◌^◌, ◌∷◌, ◌++◌, Option, IfOk, IfErr, length};
ghost use Rattle.std.specs.Int.{w32, w64, to_be_bytes};
ghost use Rattle.alt_cells.specs.declared.batch.RowChange.{RowChange};
ghost use Rattle.alt_fields.specs.Bytes.{IsShort};
ghost use Rattle.alt_fields.specs.Field.{field};
ghost use Rattle.alt_writes.specs.Bytes.{clear_byte, value_bytes, columns_bytes, change_bytes, changes_bytes, write_bytes, writes_bytes, group_bytes, IsShortValue, AreShortCells, IsHeldChange, AreHeldChanges, IsHeldWrite, AllHeld, IsHeldGroup};
ghost use Rattle.alt_writes.specs.Reading.{IsNoGroup, IsNoWrite, IsNone, NoNumber, NoFamilyNumber, NoField, NoFlag, NoColumnValue, NoColumns, NoChange, NoChanges, NoWrite, NoWrites, write_of, writes_of};
ghost use Rattle.alt_writes.specs.Writes.{AreRising};

use alt_base::NoMemory;
use alt_cells::{CellList, RowChange};
use alt_fields::{Bytes, take_bytes, take_u32, take_u64};
use std::alloc::Global;

/// The number that no write takes: 2^62 - 1.
const LAST_NUMBER: u64 = 4_611_686_018_427_387_903;

/// Why nothing was read.
#[derive(Clone, Copy, Debug, PartialEq, Eq, Drop)]
pub enum Stop {
    /// The bytes are none of what was to be read.
    Bad,
    /// Memory was refused.
    NoMemory,
}

impl From<NoMemory> for Stop {
    ghost use Rattle.std.specs.Prelude.{◌≡◌};
    ghost use Rattle.alt_writes.specs.declared.read.Stop.TheVariants as stop;

    ghost from_gives = { λ _ s. s ≡ stop.NoMemory };

    fn from(_: NoMemory) -> Self {
        Stop::NoMemory
    }
}

/// A write as it was read.
#[derive(Drop)]
pub struct LoggedWrite {
    pub number: u64,
    pub changes: Vec<RowChange>,
}

/// The write whose bytes the bytes are. Its number isn't below the least.
pub fn read_write(alloc: Global, least: u64, bytes: &[u8]) -> Result<LoggedWrite, Stop>
    ensures held { IfOk result (λ read. IsHeldWrite (write_of read)) }
    ensures least { IfOk result (λ read. least ≤ read.number) }
    ensures bytes { IfOk result (λ read. bytes.now ≡ write_bytes (write_of read)) }
    ensures none { IfErr result (IsNone (IsNoWrite least bytes.now)) }
{
    match take_write(alloc, least, bytes) {
        Ok((alone, behind)) => {
            if behind.is_empty() {
                Ok(alone)
            } else {
                Err(Stop::Bad)
            }
        }
        Err(stop) => Err(stop),
    }
}

/// The group of writes whose bytes the bytes are. Their numbers rise, and the first isn't below the least.
pub fn read_group(alloc: Global, least: u64, bytes: &[u8]) -> Result<Vec<LoggedWrite>, Stop>
    ensures held { IfOk result (λ reads. IsHeldGroup (writes_of reads.items)) }
    ensures rising { IfOk result (λ reads. AreRising least (writes_of reads.items)) }
    ensures bytes { IfOk result (λ reads. bytes.now ≡ group_bytes (writes_of reads.items)) }
    ensures none { IfErr result (IsNone (IsNoGroup least bytes.now)) }
{
    let (count, rest) = take_number(bytes)?;
    if count == 0 {
        return Err(Stop::Bad);
    }
    match take_writes(alloc, least, count, rest) {
        Ok((reads, behind)) => {
            if behind.is_empty() {
                Ok(reads)
            } else {
                Err(Stop::Bad)
            }
        }
        Err(stop) => Err(stop),
    }
}

/// So many writes whose numbers rise from the least on, and what follows them.
fn take_writes(
    alloc: Global,
    least: u64,
    count: u64,
    bytes: &[u8],
) -> Result<(Vec<LoggedWrite>, &[u8]), Stop>
    ensures held { IfOk result (λ p. (length (writes_of p.0.items) ≡ count)
        × AllHeld (writes_of p.0.items)) }
    ensures rising { IfOk result (λ p. AreRising least (writes_of p.0.items)) }
    ensures bytes { IfOk result (λ p. bytes.now ≡ writes_bytes (writes_of p.0.items) ++ p.1.now) }
    ensures none { IfErr result (IsNone (NoWrites least count bytes.now)) }
{
    let mut reads = Vec::new(alloc);
    let mut rest = bytes;
    let mut next = least;
    for _done in 0..count {
        match take_write(alloc, next, rest) {
            Ok((read, behind)) => {
                next = read.number + 1;
                match reads.push(read) {
                    Ok(()) => {}
                    Err(_) => return Err(Stop::NoMemory),
                }
                rest = behind;
            }
            Err(stop) => return Err(stop),
        }
    }
    Ok((reads, rest))
}

/// A write whose number isn't below the least, and what follows it.
fn take_write(alloc: Global, least: u64, bytes: &[u8]) -> Result<(LoggedWrite, &[u8]), Stop>
    ensures held { IfOk result (λ p. IsHeldWrite (write_of p.0)) }
    ensures least { IfOk result (λ p. least ≤ p.0.number) }
    ensures bytes { IfOk result (λ p. bytes.now ≡ write_bytes (write_of p.0) ++ p.1.now) }
    ensures none { IfErr result (IsNone (NoWrite least bytes.now)) }
{
    let (number, counted) = take_number(bytes)?;
    if number < least {
        return Err(Stop::Bad);
    }
    if number >= LAST_NUMBER {
        return Err(Stop::Bad);
    }
    let (count, rest) = take_number(counted)?;
    match take_changes(alloc, count, rest) {
        Ok((changes, behind)) => Ok((LoggedWrite { number, changes }, behind)),
        Err(stop) => Err(stop),
    }
}

/// So many changes, and what follows them.
fn take_changes(alloc: Global, count: u64, bytes: &[u8]) -> Result<(Vec<RowChange>, &[u8]), Stop>
    ensures changes { IfOk result (λ p. (length p.0.items ≡ count) × AreHeldChanges p.0.items
        × (bytes.now ≡ changes_bytes p.0.items ++ p.1.now)) }
    ensures none { IfErr result (IsNone (NoChanges count bytes.now)) }
{
    let mut changes = Vec::new(alloc);
    let mut rest = bytes;
    for _done in 0..count {
        match take_change(alloc, rest) {
            Ok((change, behind)) => {
                match changes.push(change) {
                    Ok(()) => {}
                    Err(_) => return Err(Stop::NoMemory),
                }
                rest = behind;
            }
            Err(stop) => return Err(stop),
        }
    }
    Ok((changes, rest))
}

/// A change, and what follows it.
fn take_change(alloc: Global, bytes: &[u8]) -> Result<(RowChange, &[u8]), Stop>
    ensures change { IfOk result (λ p. IsHeldChange p.0
        × (bytes.now ≡ change_bytes p.0 ++ p.1.now)) }
    ensures none { IfErr result (IsNone (NoChange bytes.now)) }
{
    let (family, keyed) = take_family(bytes)?;
    let (key, flagged) = take_field(keyed)?;
    let (clear, counted) = take_flag(flagged)?;
    let (count, listed) = take_number(counted)?;
    match take_cells(alloc, count, listed) {
        Ok((cells, rest)) => Ok((
            RowChange {
                family,
                key: Bytes::new(alloc, key)?,
                clear,
                cells,
            },
            rest,
        )),
        Err(stop) => Err(stop),
    }
}

/// So many columns with what they are given, and what follows them.
fn take_cells(alloc: Global, count: u64, bytes: &[u8]) -> Result<(CellList, &[u8]), Stop>
    ensures cells { IfOk result (λ p. (length p.0 ≡ count) × AreShortCells p.0
        × (bytes.now ≡ columns_bytes p.0 ++ p.1.now)) }
    ensures none { IfErr result (IsNone (NoColumns count bytes.now)) }
{
    let mut cells = CellList::new(alloc);
    let mut rest = bytes;
    for _done in 0..count {
        let (name, flagged) = take_field(rest)?;
        match take_value(alloc, flagged) {
            Ok((value, behind)) => {
                cells.push(Bytes::new(alloc, name)?, value)?;
                rest = behind;
            }
            Err(stop) => return Err(stop),
        }
    }
    Ok((cells, rest))
}

/// What a column is given, and what follows it.
fn take_value(alloc: Global, bytes: &[u8]) -> Result<(Option<Bytes>, &[u8]), Stop>
    ensures value { IfOk result (λ p. IsShortValue p.0 × (bytes.now ≡ value_bytes p.0 ++ p.1.now)) }
    ensures none { IfErr result (IsNone (NoColumnValue bytes.now)) }
{
    let (given, rest) = take_flag(bytes)?;
    if !given {
        return Ok((None, rest));
    }
    let (value, behind) = take_field(rest)?;
    Ok((Some(Bytes::new(alloc, value)?), behind))
}

/// A byte that is 0 or 1, and what follows it.
fn take_flag(bytes: &[u8]) -> Result<(bool, &[u8]), Stop>
    ensures flag { IfOk result (λ p. bytes.now ≡ clear_byte p.0 ∷ p.1.now) }
    ensures none { IfErr result (IsNone (NoFlag bytes.now)) }
{
    match bytes {
        [flag, rest @ ..] => match *flag {
            0 => Ok((false, rest)),
            1 => Ok((true, rest)),
            _ => Err(Stop::Bad),
        },
        [] => Err(Stop::Bad),
    }
}

/// The number of a family, and what follows it.
fn take_family(bytes: &[u8]) -> Result<(u32, &[u8]), Stop>
    ensures family { IfOk result (λ p. (p.0 < 2 ^ 32)
        × (bytes.now ≡ to_be_bytes w32 p.0 ++ p.1.now)) }
    ensures none { IfErr result (IsNone (NoFamilyNumber bytes.now)) }
{
    match take_u32(bytes, 0) {
        Ok((number, end)) => {
            let (_, rest) = bytes.split_at(end);
            Ok((number, rest))
        }
        Err(_) => Err(Stop::Bad),
    }
}

/// A number, and what follows it.
fn take_number(bytes: &[u8]) -> Result<(u64, &[u8]), Stop>
    ensures number { IfOk result (λ p. (p.0 < 2 ^ 64)
        × (bytes.now ≡ to_be_bytes w64 p.0 ++ p.1.now)) }
    ensures none { IfErr result (IsNone (NoNumber bytes.now)) }
{
    match take_u64(bytes, 0) {
        Ok((number, end)) => {
            let (_, rest) = bytes.split_at(end);
            Ok((number, rest))
        }
        Err(_) => Err(Stop::Bad),
    }
}

/// The content of a field, and what follows it.
fn take_field(bytes: &[u8]) -> Result<(&[u8], &[u8]), Stop>
    ensures field { IfOk result (λ p. IsShort p.0.now
        × (bytes.now ≡ field p.0.now ++ p.1.now)) }
    ensures none { IfErr result (IsNone (NoField bytes.now)) }
{
    match take_bytes(bytes, 0) {
        Ok((content, end)) => {
            let (_, rest) = bytes.split_at(end);
            Ok((content, rest))
        }
        Err(_) => Err(Stop::Bad),
    }
}
