//! The pieces of cell bytes, each read at the front of bytes: counts, fields, texts, numbers, truth bytes.

ghost use Rattle.std.specs.Prelude.{◌≡◌, ◌<◌, ◌^◌, ◌∷◌, ◌++◌, length, if◌then◌else◌, IfOk, IfErr};
ghost use Rattle.std.specs.Str.{IsUtf8};
ghost use Rattle.alt_decimal.specs.Number.{FitsDecimal};
ghost use Rattle.alt_decimal.specs.Spelled.{spelled};
ghost use Rattle.alt_fields.specs.Field.{field};
ghost use Rattle.alt_value.specs.CellBytes.{counted, truth_byte};
ghost use Rattle.alt_cellbytes.specs.Places.{IsCut, IsStopByBytes, NoCount, NoFittingField, NoFittingNumber, NoTruth, is_cut_number as is_cut, is_unclosed as lacks_end};
ghost use Rattle.alt_fields.specs.Bytes.{IsShort};
ghost use Rattle.alt_value.specs.Values.{IsText};

use crate::fault::Stop;
use alt_decimal::Decimal;
use alt_fields::{take_bytes, take_u64};

/// A count and what follows it.
pub(crate) fn take_count(bytes: &[u8]) -> Result<(u64, &[u8]), Stop>
    ensures count { IfOk result (λ p. (p.0 < 2 ^ 64) × (bytes.now ≡ counted p.0 ++ p.1.now)) }
    ensures stop { IfErr result (IsStopByBytes (NoCount bytes.now)) }
{
    match take_u64(bytes, 0) {
        Ok((count, end)) => {
            let (_, rest) = bytes.split_at(end);
            Ok((count, rest))
        }
        Err(_) => Err(Stop::Left(0)),
    }
}

/// The content of a field and what follows it.
pub(crate) fn take_field(bytes: &[u8]) -> Result<(&[u8], &[u8]), Stop>
    ensures field { IfOk result (λ p. IsShort p.0.now × (bytes.now ≡ field p.0.now ++ p.1.now)) }
    ensures stop { IfErr result (IsStopByBytes (λ left. IsCut bytes.now × (left ≡ 0))) }
{
    match take_bytes(bytes, 0) {
        Ok((content, end)) => {
            let (_, rest) = bytes.split_at(end);
            Ok((content, rest))
        }
        Err(_) => Err(Stop::Left(0)),
    }
}

/// A text and what follows its field.
pub(crate) fn take_text(bytes: &[u8]) -> Result<(&str, &[u8]), Stop>
    ensures text { IfOk result (λ p. IsText p.0.now × (bytes.now ≡ field p.0.now ++ p.1.now)) }
    ensures stop { IfErr result (IsStopByBytes (NoFittingField IsUtf8 bytes.now)) }
{
    let (content, rest) = take_field(bytes)?;
    match std::str::from_utf8(content) {
        Ok(text) => Ok((text, rest)),
        Err(_) => Err(Stop::Left(bytes.len())),
    }
}

/// A number and what follows its spelling.
pub(crate) fn take_number(bytes: &[u8]) -> Result<(Decimal, &[u8]), Stop>
    ensures number { IfOk result (λ p. FitsDecimal p.0 × (bytes.now ≡ spelled p.0 ++ p.1.now)) }
    ensures stop { IfErr result (IsStopByBytes (NoFittingNumber (λ z. Unit {0}) bytes.now)) }
{
    match Decimal::unspell(bytes) {
        Some((number, len)) => {
            if len > bytes.len() {
                return Err(Stop::Left(left_of_number(bytes)));
            }
            let (_, rest) = bytes.split_at(len);
            Ok((number, rest))
        }
        None => Err(Stop::Left(left_of_number(bytes))),
    }
}

/// How many bytes are left where no number stands: none if one is cut off.
fn left_of_number(bytes: &[u8]) -> usize
    ensures { result ≡ (if is_cut bytes.now then 0 else length bytes.now) }
{
    if is_cut_number(bytes) { 0 } else { bytes.len() }
}

fn is_cut_number(bytes: &[u8]) -> bool
    ensures { result ≡ is_cut bytes.now }
{
    match bytes {
        [sign, rest @ ..] => match *sign {
            1 => is_unclosed(rest, 255),
            3 => is_unclosed(rest, 0),
            _ => false,
        },
        [] => true,
    }
}

/// Whether behind the first byte the number's closing byte is still to come.
fn is_unclosed(bytes: &[u8], close: u8) -> bool
    ensures { result ≡ lacks_end close bytes.now }
{
    match bytes {
        [_, pairs @ ..] => pairs.len() < 20 && !pairs.contains(&close),
        [] => true,
    }
}

/// A truth value and what follows its byte.
pub(crate) fn take_truth(bytes: &[u8]) -> Result<(bool, &[u8]), Stop>
    ensures truth { IfOk result (λ p. bytes.now ≡ truth_byte p.0 ∷ p.1.now) }
    ensures stop { IfErr result (IsStopByBytes (λ left. NoTruth bytes.now × (left ≡ length bytes.now))) }
{
    match bytes {
        [byte, rest @ ..] => match *byte {
            0 => Ok((false, rest)),
            1 => Ok((true, rest)),
            _ => Err(Stop::Left(bytes.len())),
        },
        [] => Err(Stop::Left(0)),
    }
}
