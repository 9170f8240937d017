//! The bytes of a write, and of a group of writes.

ghost use Rattle.std.specs.Prelude.{◌≡◌, ◌<◌, ◌≤◌, ◌+◌, ◌-◌, ◌^◌, ◌++◌, IfOk, OnOk, length};
ghost use Rattle.alt_fields.specs.Bytes.{IsShort};
ghost use Rattle.alt_fields.specs.Field.{field};
ghost use Rattle.alt_writes.specs.Bytes.{clear_byte, value_bytes, columns_bytes, change_bytes, changes_bytes, write_bytes, writes_bytes, group_bytes, IsShortValue, AreShortCells, IsHeldChange, AreHeldChanges, IsHeldWrite, AllHeld, IsHeldGroup};
ghost use Rattle.alt_writes.specs.Writes.{numbered};

use alt_base::NoMemory;
use alt_cells::{Batch, RowChange};
use alt_fields::{Bytes, put_bytes, put_u32, put_u64};
use std::alloc::Global;

/// Most entries take no more bytes than this, and so one block of memory.
const ROOM: usize = 1_000;

/// The bytes of a write.
pub fn write_of(alloc: Global, number: u64, changes: &[RowChange]) -> Result<Vec<u8>, NoMemory>
    requires { number < 2 ^ 62 - 1 }
    ensures bytes { IfOk result (λ bytes. bytes.items
        ≡ write_bytes (record { number = number; changes = changes.now })) }
    ensures held { OnOk result (IsHeldWrite (record { number = number; changes = changes.now })) }
{
    let mut bytes = Vec::with_capacity(alloc, ROOM)?;
    put_write(&mut bytes, number, changes)?;
    Ok(bytes)
}

/// The bytes of batches as a group of writes, which are numbered in order from this number on.
pub fn group_of(alloc: Global, number: u64, batches: &[Batch]) -> Result<Vec<u8>, NoMemory>
    requires some { 0 < length batches.now }
    requires numbers { number + length batches.now ≤ 2 ^ 62 - 1 }
    ensures bytes { IfOk result (λ bytes. bytes.items
        ≡ group_bytes (numbered number batches.now)) }
    ensures held { OnOk result (IsHeldGroup (numbered number batches.now)) }
{
    let mut bytes = Vec::with_capacity(alloc, ROOM)?;
    put_u64(&mut bytes, batches.len() as u64)?;
    put_writes(&mut bytes, number, batches)?;
    Ok(bytes)
}

/// Appends the bytes of batches as writes, which are numbered in order from this number on.
fn put_writes(out: &mut Vec<u8>, number: u64, batches: &[Batch]) -> Result<(), NoMemory>
    requires { number + length batches.now ≤ 2 ^ 62 - 1 }
    ensures appended { OnOk result (out.new.items
        ≡ out.old.items ++ writes_bytes (numbered number batches.now)) }
    ensures held { OnOk result (AllHeld (numbered number batches.now)) }
{
    let mut next = number;
    for batch in batches {
        put_write(out, next, batch.as_slice())?;
        next += 1;
    }
    Ok(())
}

/// Appends the bytes of a write.
fn put_write(out: &mut Vec<u8>, number: u64, changes: &[RowChange]) -> Result<(), NoMemory>
    requires { number < 2 ^ 62 - 1 }
    ensures appended { OnOk result (out.new.items
        ≡ out.old.items ++ write_bytes (record { number = number; changes = changes.now })) }
    ensures held { OnOk result (IsHeldWrite (record { number = number; changes = changes.now })) }
{
    put_u64(out, number)?;
    put_u64(out, changes.len() as u64)?;
    put_changes(out, changes)
}

fn put_changes(out: &mut Vec<u8>, changes: &[RowChange]) -> Result<(), NoMemory>
    ensures appended { OnOk result (out.new.items ≡ out.old.items ++ changes_bytes changes.now) }
    ensures held { OnOk result (AreHeldChanges changes.now) }
{
    for change in changes {
        put_change(out, change)?;
    }
    Ok(())
}

fn put_change(out: &mut Vec<u8>, change: &RowChange) -> Result<(), NoMemory>
    ensures appended { OnOk result (out.new.items ≡ out.old.items ++ change_bytes change.now) }
    ensures held { OnOk result (IsHeldChange change.now) }
{
    put_u32(out, change.family)?;
    put_field(out, change.key.as_slice())?;
    out.push(clear_byte(change.clear))?;
    let cells = change.cells.as_slice();
    put_u64(out, cells.len() as u64)?;
    put_cells(out, cells)
}

fn clear_byte(clear: bool) -> u8
    ensures { result ≡ clear_byte clear }
{
    if clear { 1 } else { 0 }
}

fn put_cells(out: &mut Vec<u8>, cells: &[(Bytes, Option<Bytes>)]) -> Result<(), NoMemory>
    ensures appended { OnOk result (out.new.items ≡ out.old.items ++ columns_bytes cells.now) }
    ensures held { OnOk result (AreShortCells cells.now) }
{
    for cell in cells {
        put_cell(out, &cell.0, &cell.1)?;
    }
    Ok(())
}

fn put_cell(out: &mut Vec<u8>, name: &Bytes, value: &Option<Bytes>) -> Result<(), NoMemory>
    ensures appended { OnOk result (out.new.items
        ≡ out.old.items ++ (field name.now ++ value_bytes value.now)) }
    ensures held { OnOk result (IsShort name.now × IsShortValue value.now) }
{
    put_field(out, name.as_slice())?;
    match value {
        Some(bytes) => {
            out.push(1)?;
            put_field(out, bytes.as_slice())
        }
        None => {
            out.push(0)?;
            Ok(())
        }
    }
}

/// A field, whose length its eight bytes tell.
fn put_field(out: &mut Vec<u8>, bytes: &[u8]) -> Result<(), NoMemory>
    ensures appended { OnOk result (out.new.items ≡ out.old.items ++ field bytes.now) }
    ensures held { IsShort bytes.now }
{
    let _ = bytes.len();
    put_bytes(out, bytes)
}
