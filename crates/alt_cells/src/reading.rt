//! Reading the bytes of a row.

ghost use Rattle.std.specs.Prelude.{◌≡◌, ◌<◌, ◌^◌, ◌++◌, [], ℕ, ◌↔◌, length, IsTrue, IfSome, IfOk, IfErr, Err};
ghost use Rattle.std.specs.List.{flat_map};
ghost use Rattle.std.specs.Int.{w64, to_be_bytes};
ghost use Rattle.alt_fields.specs.Field.{field};
ghost use Rattle.alt_fields.specs.declared.bytes.BytesFault.{BytesFault};
ghost use Rattle.alt_cells.specs.declared.row.RowCells.{RowCells};
ghost use Rattle.alt_cells.specs.Format.{tombstone_bytes, value_bytes, cell_bytes, bytes_of_row, IsHeldCell, IsHeldRow};
ghost use Rattle.alt_cells.specs.Places.{FieldIsCutOff, NumberIsCutOff, NoFlagged, IsNextColumnName, NoName, NoCell, AreCells, NoCells, IsHeldNumber, Stops, IsBadAt, NoRow, IsReadAsRow, IsStop};

use crate::stop::Stop;
use crate::{Cell, CellMap, RowCells};
use alt_fields::{Bytes, BytesFault, take_bytes, take_u64};
use std::alloc::Global;

/// The row whose bytes the bytes are.
///
/// Else `Bad`, with the first place where they can't go on as those of a row, or where something stands
/// behind it.
pub fn row_of(alloc: Global, bytes: &[u8]) -> Result<RowCells, BytesFault>
    ensures row { IfOk result (λ row. IsHeldRow row × (bytes.now ≡ bytes_of_row row)) }
    // Whatever row's bytes they are, it is read, unless memory is wanting.
    ensures taken { (row : RowCells) → IsHeldRow row → bytes.now ≡ bytes_of_row row
        → IsReadAsRow row result }
    ensures place { (at : ℕ) → result ≡ Err (BytesFault.Bad at)
        → IsBadAt bytes.now at × NoRow bytes.now }
{
    match take_row(alloc, bytes) {
        Ok((row, rest)) => {
            if rest.is_empty() {
                Ok(row)
            } else {
                Err(BytesFault::Bad {
                    at: bytes.len() - rest.len(),
                })
            }
        }
        Err(Stop::Left(left)) => Err(BytesFault::Bad {
            at: bytes.len() - left,
        }),
        Err(Stop::NoMemory) => Err(BytesFault::NoMemory),
    }
}

/// The row at the front of the bytes, and what follows it.
fn take_row(alloc: Global, bytes: &[u8]) -> Result<(RowCells, &[u8]), Stop>
    ensures row { IfOk result (λ p. IsHeldRow p.0 × (bytes.now ≡ bytes_of_row p.0 ++ p.1.now)) }
    ensures stop { IfErr result (IsStop (Stops bytes.now)) }
{
    let (gone, counted) = take_tombstone(bytes)?;
    let (count, behind) = take_number(counted)?;
    match take_cells(alloc, count, behind) {
        Ok((cells, rest)) => Ok((
            RowCells {
                gone,
                cells: CellMap::from_rising(cells),
            },
            rest,
        )),
        Err(stop) => Err(stop),
    }
}

/// So many cells, and what follows them.
fn take_cells(alloc: Global, count: u64, bytes: &[u8]) -> Result<(Vec<(Bytes, Cell)>, &[u8]), Stop>
    ensures cells { IfOk result (λ p. (length p.0.items ≡ count) × AreCells p.0.items
        × (bytes.now ≡ flat_map cell_bytes p.0.items ++ p.1.now)) }
    ensures stop { IfErr result (IsStop (NoCells count bytes.now)) }
{
    let mut cells = Vec::new(alloc);
    let mut rest = bytes;
    for _done in 0..count {
        match take_cell(alloc, &cells, rest) {
            Ok((name, cell, behind)) => {
                match cells.push((name, cell)) {
                    Ok(()) => {}
                    Err(_) => return Err(Stop::NoMemory),
                }
                rest = behind;
            }
            Err(stop) => return Err(stop),
        }
    }
    Ok((cells, rest))
}

/// A cell whose name stands above those so far, and what follows it.
fn take_cell<'a>(
    alloc: Global,
    done: &[(Bytes, Cell)],
    bytes: &'a [u8],
) -> Result<(Bytes, Cell, &'a [u8]), Stop>
    requires { AreCells done.now }
    ensures cell { IfOk result (λ p. IsHeldCell (p.0, p.1) × IsNextColumnName done.now p.0
        × (bytes.now ≡ cell_bytes (p.0, p.1) ++ p.2.now)) }
    ensures stop { IfErr result (IsStop (NoCell done.now bytes.now)) }
{
    let (name, numbered) = next_name(done, bytes)?;
    let (at, flagged) = take_number(numbered)?;
    match take_value(alloc, flagged) {
        Ok((value, rest)) => Ok((Bytes::new(alloc, name)?, Cell { at, value }, rest)),
        Err(stop) => Err(stop),
    }
}

/// A name that stands above those so far, and what follows it.
fn next_name<'a>(done: &[(Bytes, Cell)], bytes: &'a [u8]) -> Result<(&'a [u8], &'a [u8]), Stop>
    requires { AreCells done.now }
    ensures name { IfOk result (λ p. (length p.0.now < 2 ^ 64) × IsNextColumnName done.now p.0.now
        × (bytes.now ≡ field p.0.now ++ p.1.now)) }
    ensures stop { IfErr result (IsStop (NoName done.now bytes.now)) }
{
    let (name, rest) = take_field(bytes)?;
    if is_next_name(done, name) {
        Ok((name, rest))
    } else {
        Err(Stop::Left(bytes.len()))
    }
}

fn is_next_name(done: &[(Bytes, Cell)], name: &[u8]) -> bool
    requires { AreCells done.now }
    ensures { IsTrue result ↔ IsNextColumnName done.now name.now }
{
    match done.last() {
        Some(last) => last.0.as_slice().cmp(name).is_lt(),
        None => true,
    }
}

/// A row's tombstone, and what follows it.
fn take_tombstone(bytes: &[u8]) -> Result<(Option<u64>, &[u8]), Stop>
    ensures tombstone { IfOk result (λ p. IsHeldNumber p.0
        × (bytes.now ≡ tombstone_bytes p.0 ++ p.1.now)) }
    ensures stop { IfErr result (IsStop (NoFlagged NumberIsCutOff bytes.now)) }
{
    match bytes {
        [flag, rest @ ..] => match *flag {
            0 => Ok((None, rest)),
            1 => match take_number(rest) {
                Ok((number, rest)) => Ok((Some(number), rest)),
                Err(stop) => Err(stop),
            },
            _ => Err(Stop::Left(bytes.len())),
        },
        [] => Err(Stop::Left(0)),
    }
}

/// A cell's value, and what follows it.
fn take_value(alloc: Global, bytes: &[u8]) -> Result<(Option<Bytes>, &[u8]), Stop>
    ensures value { IfOk result (λ p. IfSome p.0 (λ v. length v < 2 ^ 64)
        × (bytes.now ≡ value_bytes p.0 ++ p.1.now)) }
    ensures stop { IfErr result (IsStop (NoFlagged FieldIsCutOff bytes.now)) }
{
    match bytes {
        [flag, rest @ ..] => match *flag {
            0 => Ok((None, rest)),
            1 => match take_field(rest) {
                Ok((value, rest)) => Ok((Some(Bytes::new(alloc, value)?), rest)),
                Err(stop) => Err(stop),
            },
            _ => Err(Stop::Left(bytes.len())),
        },
        [] => Err(Stop::Left(0)),
    }
}

/// A number, and what follows it.
fn take_number(bytes: &[u8]) -> Result<(u64, &[u8]), Stop>
    ensures number { IfOk result (λ p. (p.0 < 2 ^ 64)
        × (bytes.now ≡ to_be_bytes w64 p.0 ++ p.1.now)) }
    ensures stop { IfErr result (IsStop (NumberIsCutOff bytes.now)) }
{
    match take_u64(bytes, 0) {
        Ok((number, end)) => {
            let (_, rest) = bytes.split_at(end);
            Ok((number, rest))
        }
        Err(_) => Err(Stop::Left(0)),
    }
}

/// The content of a field, and what follows it.
fn take_field(bytes: &[u8]) -> Result<(&[u8], &[u8]), Stop>
    ensures field { IfOk result (λ p. (length p.0.now < 2 ^ 64)
        × (bytes.now ≡ field p.0.now ++ p.1.now)) }
    ensures stop { IfErr result (IsStop (FieldIsCutOff bytes.now)) }
{
    match take_bytes(bytes, 0) {
        Ok((content, end)) => {
            let (_, rest) = bytes.split_at(end);
            Ok((content, rest))
        }
        Err(_) => Err(Stop::Left(0)),
    }
}
