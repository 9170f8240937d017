//! Sets, read straight from tokens: the members are read in the order of the text, and then sorted once.

ghost use Rattle.std.specs.Prelude.{◌<◌, IfOk};
ghost use Rattle.std.specs.Ordering.{int_cmp};
ghost use Rattle.alt_value.specs.Members.{text_order};
ghost use Rattle.alt_value.specs.Stands.{tree_of};
ghost use Rattle.alt_value.specs.Tree.{SS_tree, NS_tree, BS_tree};
ghost use Rattle.alt_codec.specs.Scalars.{text_in, number_in, binary_in};
ghost use Rattle.alt_codec.specs.Sets.{members_in};
ghost use Rattle.alt_codec.specs.Steps.{map_ok};
ghost use Rattle.alt_readahead.specs.Payloads.{ReadsBy, ReadsElements};

use crate::flat_ahead::{binary_ahead, number_ahead, text_ahead};
use crate::tokens::{Unread, open_array};
use alt_decimal::Decimal;
use alt_fields::Bytes;
use alt_value::{Attr, BytesSet, NumberSet, Text, TextSet};
use json::Reader;
use std::alloc::Global;

/// A value of kind SS.
pub(crate) fn texts_value(
    alloc: Global,
    reader: &mut Reader<'_>,
    depth: usize,
) -> Result<Attr, Unread>
    requires { 0 < depth }
    ensures value { IfOk result
        (λ a. ReadsBy (λ d. map_ok SS_tree (members_in text_order text_in d))
        depth reader.old (tree_of a) reader.new) }
{
    open_array(reader)?;
    let texts = texts_ahead(alloc, reader, depth - 1)?;
    if texts.is_empty() {
        return Err(Unread::Otherwise);
    }
    match TextSet::from_members(texts) {
        Some(set) => Ok(Attr::Ss(set)),
        None => Err(Unread::Otherwise),
    }
}

/// The texts of an array.
fn texts_ahead(alloc: Global, reader: &mut Reader<'_>, depth: usize) -> Result<Vec<Text>, Unread>
    ensures texts { IfOk result
        (λ v. ReadsElements text_in depth reader.old v.items reader.new) }
{
    let mut texts = Vec::new(alloc);
    'texts: while !reader.take_end_array() {
        let text = text_ahead(alloc, reader)?;
        texts.push(text)?;
    }
    Ok(texts)
}

/// A value of kind NS.
pub(crate) fn numbers_value(
    alloc: Global,
    reader: &mut Reader<'_>,
    depth: usize,
) -> Result<Attr, Unread>
    requires { 0 < depth }
    ensures value { IfOk result
        (λ a. ReadsBy (λ d. map_ok NS_tree (members_in int_cmp number_in d))
        depth reader.old (tree_of a) reader.new) }
{
    open_array(reader)?;
    let numbers = numbers_ahead(alloc, reader, depth - 1)?;
    if numbers.is_empty() {
        return Err(Unread::Otherwise);
    }
    match NumberSet::from_members(numbers) {
        Some(set) => Ok(Attr::Ns(set)),
        None => Err(Unread::Otherwise),
    }
}

/// The numbers of an array.
fn numbers_ahead(
    alloc: Global,
    reader: &mut Reader<'_>,
    depth: usize,
) -> Result<Vec<Decimal>, Unread>
    ensures numbers { IfOk result
        (λ v. ReadsElements number_in depth reader.old v.items reader.new) }
{
    let mut numbers = Vec::new(alloc);
    'numbers: while !reader.take_end_array() {
        let number = number_ahead(reader)?;
        numbers.push(number)?;
    }
    Ok(numbers)
}

/// A value of kind BS.
pub(crate) fn binaries_value(
    alloc: Global,
    reader: &mut Reader<'_>,
    depth: usize,
) -> Result<Attr, Unread>
    requires { 0 < depth }
    ensures value { IfOk result
        (λ a. ReadsBy (λ d. map_ok BS_tree (members_in text_order binary_in d))
        depth reader.old (tree_of a) reader.new) }
{
    open_array(reader)?;
    let binaries = binaries_ahead(alloc, reader, depth - 1)?;
    if binaries.is_empty() {
        return Err(Unread::Otherwise);
    }
    match BytesSet::from_members(binaries) {
        Some(set) => Ok(Attr::Bs(set)),
        None => Err(Unread::Otherwise),
    }
}

/// The binaries of an array.
fn binaries_ahead(
    alloc: Global,
    reader: &mut Reader<'_>,
    depth: usize,
) -> Result<Vec<Bytes>, Unread>
    ensures binaries { IfOk result
        (λ v. ReadsElements binary_in depth reader.old v.items reader.new) }
{
    let mut binaries = Vec::new(alloc);
    'binaries: while !reader.take_end_array() {
        let binary = binary_ahead(alloc, reader)?;
        binaries.push(binary)?;
    }
    Ok(binaries)
}
