//! Sets of JSON: the members are read in list order up to the first fault, and then sorted once.

ghost use Rattle.std.specs.Prelude.{◌≡◌, ◌≢◌, Ok, Err, IfOk, IfErr};
ghost use Rattle.std.specs.Ordering.{int_cmp};
ghost use Rattle.serde_json.specs.View.{view, items_view};
ghost use Rattle.alt_value.specs.Members.{text_order};
ghost use Rattle.alt_codec.specs.Scalars.{text_in, number_in, binary_in};
ghost use Rattle.alt_codec.specs.Sets.{set_items as items_of_set, sound, first_fault, told, members_in};

use crate::ValueFault;
use crate::scalars::{binary_of, number_of, text_of};
use alt_base::NoMemory;
use alt_decimal::Decimal;
use alt_fields::Bytes;
use alt_value::{BytesSet, NumberSet, Text, TextSet};
use serde_json::Value;
use std::alloc::Global;

/// The elements of a set, of which there is one at least.
fn set_items(v: &Value) -> Result<&[Value], ValueFault>
    ensures value { IfOk result (λ items. items_of_set (view v.now) ≡ Ok (items_view items.now)) }
    ensures fault { IfErr result (λ f. items_of_set (view v.now) ≡ Err f) }
{
    match v.as_array() {
        Some(items) => {
            if items.is_empty() {
                Err(ValueFault::EmptySet)
            } else {
                Ok(items.as_slice())
            }
        }
        None => Err(ValueFault::WrongJson),
    }
}

/// A set's members, unless two of those before the first fault are equal, or there is a fault.
fn unless_fault<S: Drop>(set: Option<S>, fault: Option<ValueFault>) -> Result<S, ValueFault>
    ensures { result ≡ told set fault }
{
    match (set, fault) {
        (None, _) => Err(ValueFault::RepeatInSet),
        (Some(set), None) => Ok(set),
        (Some(_), Some(fault)) => Err(fault),
    }
}

/// A set of texts.
pub fn text_set_of(alloc: Global, v: &Value) -> Result<TextSet, ValueFault>
    ensures value { IfOk result (λ s. members_in text_order text_in (view v.now) ≡ Ok s) }
    ensures fault { IfErr result (λ f. f ≢ ValueFault.NoMemory
        → members_in text_order text_in (view v.now) ≡ Err f) }
{
    let (texts, fault) = texts_of(alloc, set_items(v)?)?;
    unless_fault(TextSet::from_members(texts), fault)
}

/// The texts up to the first fault, and that fault.
fn texts_of(alloc: Global, items: &[Value]) -> Result<(Vec<Text>, Option<ValueFault>), NoMemory>
    ensures members { IfOk result (λ r. r.0.items ≡ sound text_in (items_view items.now)) }
    ensures fault { IfOk result (λ r. r.1 ≡ first_fault text_in (items_view items.now)) }
{
    let mut texts = Vec::with_capacity(alloc, items.len())?;
    for item in items {
        match text_of(item) {
            Ok(text) => texts.push(Text::new(alloc, text)?)?,
            Err(fault) => return Ok((texts, Some(fault))),
        }
    }
    Ok((texts, None))
}

/// A set of numbers.
pub fn number_set_of(alloc: Global, v: &Value) -> Result<NumberSet, ValueFault>
    ensures value { IfOk result (λ s. members_in int_cmp number_in (view v.now) ≡ Ok s) }
    ensures fault { IfErr result (λ f. f ≢ ValueFault.NoMemory
        → members_in int_cmp number_in (view v.now) ≡ Err f) }
{
    let (numbers, fault) = numbers_of(alloc, set_items(v)?)?;
    unless_fault(NumberSet::from_members(numbers), fault)
}

/// The numbers up to the first fault, and that fault.
fn numbers_of(
    alloc: Global,
    items: &[Value],
) -> Result<(Vec<Decimal>, Option<ValueFault>), NoMemory>
    ensures members { IfOk result (λ r. r.0.items ≡ sound number_in (items_view items.now)) }
    ensures fault { IfOk result (λ r. r.1 ≡ first_fault number_in (items_view items.now)) }
{
    let mut numbers = Vec::with_capacity(alloc, items.len())?;
    for item in items {
        match number_of(item) {
            Ok(number) => numbers.push(number)?,
            Err(fault) => return Ok((numbers, Some(fault))),
        }
    }
    Ok((numbers, None))
}

/// A set of binaries.
pub fn bytes_set_of(alloc: Global, v: &Value) -> Result<BytesSet, ValueFault>
    ensures value { IfOk result (λ s. members_in text_order binary_in (view v.now) ≡ Ok s) }
    ensures fault { IfErr result (λ f. f ≢ ValueFault.NoMemory
        → members_in text_order binary_in (view v.now) ≡ Err f) }
{
    let (binaries, fault) = binaries_of(alloc, set_items(v)?)?;
    unless_fault(BytesSet::from_members(binaries), fault)
}

/// The binaries up to the first fault, and that fault.
fn binaries_of(alloc: Global, items: &[Value]) -> Result<(Vec<Bytes>, Option<ValueFault>), NoMemory>
    ensures members { IfOk result (λ r. r.0.items ≡ sound binary_in (items_view items.now)) }
    ensures fault { IfOk result (λ r. r.1 ≡ first_fault binary_in (items_view items.now)) }
{
    let mut binaries = Vec::with_capacity(alloc, items.len())?;
    for item in items {
        match binary_of(alloc, item) {
            Ok(binary) => binaries.push(binary)?,
            Err(ValueFault::NoMemory) => return Err(NoMemory),
            Err(fault) => return Ok((binaries, Some(fault))),
        }
    }
    Ok((binaries, None))
}
