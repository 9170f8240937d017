//! The rows of numbers: the keys of a range of them, and the numbers of those that are read.

ghost use Rattle.std.specs.Prelude.{◌≡◌, ◌↔◌, ◌<◌, ◌-◌, ◌^◌, ℕ, List, Some, None, IfOk, IfErr, IsErrOf, IsTrue};
ghost use Rattle.alt_changes.specs.ChangeRows.{row_key};
ghost use Rattle.alt_rowchanges.specs.Faults.{IsReadFault, TableFaultIsUnspent};
ghost use Rattle.alt_rowchanges.specs.Trims.{AreNumbersOf, AreTwo, number_behind_second};

use crate::faults::TableFault;
use alt_base::NoMemory;
use alt_cells::ShownRow;
use alt_fields::{Bytes, put_u64};
use alt_keyorder::KeyRange;
use alt_opening::number_of;
use std::alloc::Global;

/// The keys of the rows of the numbers from one on and below another.
pub fn range_of(alloc: Global, from: u64, to: u64) -> Result<KeyRange, NoMemory>
    ensures from { IfOk result (λ range. range.from ≡ row_key from) }
    ensures to { IfOk result (λ range. range.to ≡ Some (row_key to)) }
{
    Ok(KeyRange {
        from: key_of(alloc, from)?,
        to: Some(key_of(alloc, to)?),
    })
}

/// The keys of the rows of the changes from a number on.
pub fn range_from(alloc: Global, number: u64) -> Result<KeyRange, NoMemory>
    ensures from { IfOk result (λ range. range.from ≡ row_key number) }
    ensures to { IfOk result (λ range. range.to ≡ None) }
{
    let mut from = Vec::new(alloc);
    put_u64(&mut from, number)?;
    Ok(KeyRange {
        from: Bytes::from_vec(from),
        to: None,
    })
}

/// The key of the row of a number.
fn key_of(alloc: Global, number: u64) -> Result<Bytes, NoMemory>
    ensures { IfOk result (λ key. key ≡ row_key number) }
{
    let mut key = Vec::new(alloc);
    put_u64(&mut key, number)?;
    Ok(Bytes::from_vec(key))
}

/// The numbers of rows: two at most, which rise from 1 on up to another one.
pub fn numbers_of(
    alloc: Global,
    family: u32,
    page: Vec<(Bytes, ShownRow)>,
    most: u64,
) -> Result<Vec<u64>, TableFault>
    ensures numbers { IfOk result (λ numbers. AreNumbersOf page.items numbers.items) }
    ensures two { IfOk result (λ numbers. AreTwo most numbers.items) }
    ensures unspent { IfErr result TableFaultIsUnspent }
    ensures fault { (numbers : List ℕ) → AreNumbersOf page.items numbers → AreTwo most numbers
        → IfErr result IsReadFault }
    ensures unfailed { IsErrOf result TableFault.Failed → ⊥ }
{
    let numbers = match numbers_at(alloc, family, page) {
        Ok(numbers) => numbers,
        Err(fault) => return Err(fault),
    };
    if are_two(numbers.as_slice(), most) {
        return Ok(numbers);
    }
    let key = Bytes::from_vec(Vec::new(alloc));
    Err(TableFault::BadRow { family, key })
}

/// The numbers of rows. A row is let go as soon as its key is read.
fn numbers_at(
    alloc: Global,
    family: u32,
    page: Vec<(Bytes, ShownRow)>,
) -> Result<Vec<u64>, TableFault>
    ensures numbers { IfOk result (λ numbers. AreNumbersOf page.items numbers.items) }
    ensures unspent { IfErr result TableFaultIsUnspent }
    ensures fault { (numbers : List ℕ) → AreNumbersOf page.items numbers → IfErr result IsReadFault }
    ensures unfailed { IsErrOf result TableFault.Failed → ⊥ }
{
    let mut numbers = Vec::new(alloc);
    for row in page {
        match number_of(row.0.as_slice()) {
            Some(number) => numbers.push(number)?,
            None => return Err(TableFault::BadRow { family, key: row.0 }),
        }
    }
    Ok(numbers)
}

/// Whether these are two numbers at most, which rise from 1 on up to another one.
fn are_two(numbers: &[u64], most: u64) -> bool
    ensures { IsTrue result ↔ AreTwo most numbers.now }
{
    if numbers.is_empty() {
        return true;
    }
    if numbers.len() == 1 {
        return 1 <= numbers[0] && numbers[0] <= most;
    }
    numbers.len() == 2 && 1 <= numbers[0] && numbers[0] < numbers[1] && numbers[1] <= most
}

/// The number behind the second of two, and behind the last that may be left over where there are fewer.
pub fn behind(numbers: &[u64], most: u64) -> u64
    requires two { AreTwo most numbers.now }
    requires room { most < 2 ^ 64 - 1 }
    ensures { result ≡ number_behind_second most numbers.now }
{
    if numbers.len() == 2 {
        numbers[1] + 1
    } else {
        most + 1
    }
}
