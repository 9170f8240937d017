//! The members of sets, read one behind another: each has to be above those before it.

ghost use Rattle.std.specs.Prelude.{◌≡◌, ◌<◌, ◌∷◌, ◌++◌, [], ◌↔◌, length, IsTrue, IfOk, IfErr};
ghost use Rattle.std.specs.List.{flat_map};
ghost use Rattle.std.specs.Ordering.{int_cmp};
ghost use Rattle.alt_decimal.specs.Number.{FitsDecimal};
ghost use Rattle.alt_decimal.specs.Spelled.{spelled};
ghost use Rattle.alt_fields.specs.Field.{field};
ghost use Rattle.alt_value.specs.Members.{IsSet, text_order};
ghost use Rattle.alt_cellbytes.specs.Places.{IsStopByBytes, NoFittingField, NoFittingNumber, IsNextText, NoTextMember, NoNumberMember, NoBinary};
ghost use Rattle.alt_fields.specs.Bytes.{IsShort};
ghost use Rattle.alt_value.specs.Values.{IsText};
ghost use Rattle.alt_cellbytes.specs.Values.{AreSetMembers};

use crate::fault::Stop;
use crate::pieces::{take_field, take_number, take_text};
use alt_decimal::Decimal;
use alt_value::{BytesSet, NumberSet, TextSet};
use std::alloc::Global;

/// So many texts, and what follows them.
pub(crate) fn take_texts(alloc: Global, count: u64, bytes: &[u8]) -> Result<(TextSet, &[u8]), Stop>
    ensures members { IfOk result (λ p. (length p.0 ≡ count) × AreSetMembers IsText text_order p.0
        × (bytes.now ≡ flat_map field p.0 ++ p.1.now)) }
    ensures stop { IfErr result (IsStopByBytes (NoTextMember count bytes.now)) }
{
    let mut set = TextSet::new(alloc);
    let mut rest = bytes;
    for _done in 0..count {
        let (text, behind) = next_text(&set, rest)?;
        set.add(text)?;
        rest = behind;
    }
    Ok((set, rest))
}

/// A text that stands above the members so far.
fn next_text<'a>(set: &TextSet, bytes: &'a [u8]) -> Result<(&'a str, &'a [u8]), Stop>
    ensures text { IfOk result (λ p. IsText p.0.now × IsSet text_order (set.now ++ p.0.now ∷ [])
        × (bytes.now ≡ field p.0.now ++ p.1.now)) }
    ensures stop { IfErr result (IsStopByBytes (NoFittingField (IsNextText set.now) bytes.now)) }
{
    let (text, rest) = take_text(bytes)?;
    if is_next_text(set, text) {
        Ok((text, rest))
    } else {
        Err(Stop::Left(bytes.len()))
    }
}

fn is_next_text(set: &TextSet, text: &str) -> bool
    ensures { IsTrue result ↔ IsSet text_order (set.now ++ text.now ∷ []) }
{
    let count = set.len();
    if count == 0 {
        return true;
    }
    match set.get(count - 1) {
        Some(last) => last < text,
        None => true,
    }
}

/// So many numbers, and what follows them.
pub(crate) fn take_numbers(
    alloc: Global,
    count: u64,
    bytes: &[u8],
) -> Result<(NumberSet, &[u8]), Stop>
    ensures members { IfOk result (λ p. (length p.0 ≡ count) × AreSetMembers FitsDecimal int_cmp p.0
        × (bytes.now ≡ flat_map spelled p.0 ++ p.1.now)) }
    ensures stop { IfErr result (IsStopByBytes (NoNumberMember count bytes.now)) }
{
    let mut set = NumberSet::new(alloc);
    let mut rest = bytes;
    for _done in 0..count {
        match next_number(&set, rest) {
            Ok((number, behind)) => {
                set.add(&number)?;
                rest = behind;
            }
            Err(stop) => return Err(stop),
        }
    }
    Ok((set, rest))
}

/// A number that stands above the members so far.
fn next_number<'a>(set: &NumberSet, bytes: &'a [u8]) -> Result<(Decimal, &'a [u8]), Stop>
    ensures number { IfOk result (λ p. FitsDecimal p.0 × IsSet int_cmp (set.now ++ p.0 ∷ [])
        × (bytes.now ≡ spelled p.0 ++ p.1.now)) }
    ensures stop { IfErr result
        (IsStopByBytes (NoFittingNumber (λ z. IsSet int_cmp (set.now ++ z ∷ [])) bytes.now)) }
{
    match take_number(bytes) {
        Ok((number, rest)) => {
            if is_next_number(set, &number) {
                Ok((number, rest))
            } else {
                Err(Stop::Left(bytes.len()))
            }
        }
        Err(stop) => Err(stop),
    }
}

fn is_next_number(set: &NumberSet, number: &Decimal) -> bool
    ensures { IsTrue result ↔ IsSet int_cmp (set.now ++ number.now ∷ []) }
{
    let count = set.len();
    if count == 0 {
        return true;
    }
    match set.get(count - 1) {
        Some(last) => last < *number,
        None => true,
    }
}

/// So many byte strings, and what follows them.
pub(crate) fn take_binaries(
    alloc: Global,
    count: u64,
    bytes: &[u8],
) -> Result<(BytesSet, &[u8]), Stop>
    ensures members { IfOk result (λ p. (length p.0 ≡ count) × AreSetMembers IsShort text_order p.0
        × (bytes.now ≡ flat_map field p.0 ++ p.1.now)) }
    ensures stop { IfErr result (IsStopByBytes (NoBinary count bytes.now)) }
{
    let mut set = BytesSet::new(alloc);
    let mut rest = bytes;
    for _done in 0..count {
        let (binary, behind) = next_binary(&set, rest)?;
        set.add(binary)?;
        rest = behind;
    }
    Ok((set, rest))
}

/// A byte string that stands above the members so far.
fn next_binary<'a>(set: &BytesSet, bytes: &'a [u8]) -> Result<(&'a [u8], &'a [u8]), Stop>
    ensures binary { IfOk result (λ p. IsShort p.0.now × IsSet text_order (set.now ++ p.0.now ∷ [])
        × (bytes.now ≡ field p.0.now ++ p.1.now)) }
    ensures stop { IfErr result
        (IsStopByBytes (NoFittingField (λ b. IsSet text_order (set.now ++ b ∷ [])) bytes.now)) }
{
    let (binary, rest) = take_field(bytes)?;
    if is_next_binary(set, binary) {
        Ok((binary, rest))
    } else {
        Err(Stop::Left(bytes.len()))
    }
}

fn is_next_binary(set: &BytesSet, binary: &[u8]) -> bool
    ensures { IsTrue result ↔ IsSet text_order (set.now ++ binary.now ∷ []) }
{
    let count = set.len();
    if count == 0 {
        return true;
    }
    match set.get(count - 1) {
        Some(last) => last.cmp(binary).is_lt(),
        None => true,
    }
}
