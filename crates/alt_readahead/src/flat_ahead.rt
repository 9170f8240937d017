//! Texts, numbers, binaries and truth values, read straight from tokens.

ghost use Rattle.std.specs.Prelude.{IfOk};
ghost use Rattle.alt_value.specs.Stands.{tree_of};
ghost use Rattle.alt_value.specs.Tree.{S_tree, N_tree, B_tree};
ghost use Rattle.alt_codec.specs.Scalars.{text_in, number_in, binary_in, truth_in, null_in};
ghost use Rattle.alt_codec.specs.Steps.{map_ok};
ghost use Rattle.alt_readahead.specs.Payloads.{ReadsFlat};

use crate::tokens::{Unread, text, truth};
use alt_decimal::Decimal;
use alt_fields::Bytes;
use alt_value::{Attr, Text};
use base64::DecodeAllocError;
use base64::engine::general_purpose::STANDARD;
use json::Reader;
use std::alloc::Global;

/// The next text, as a text of its own.
pub(crate) fn text_ahead(alloc: Global, reader: &mut Reader<'_>) -> Result<Text, Unread>
    ensures text { IfOk result (λ s. ReadsFlat text_in reader.old s reader.new) }
{
    let text = text(reader)?;
    Ok(Text::new(alloc, text)?)
}

/// The number of the next text.
pub(crate) fn number_ahead(reader: &mut Reader<'_>) -> Result<Decimal, Unread>
    ensures number { IfOk result (λ z. ReadsFlat number_in reader.old z reader.new) }
{
    let text = text(reader)?;
    match Decimal::parse(text.as_bytes()) {
        Ok(number) => Ok(number),
        Err(_) => Err(Unread::Otherwise),
    }
}

/// The bytes of the next text in base64.
pub(crate) fn binary_ahead(alloc: Global, reader: &mut Reader<'_>) -> Result<Bytes, Unread>
    ensures binary { IfOk result (λ b. ReadsFlat binary_in reader.old b reader.new) }
{
    let text = text(reader)?;
    match STANDARD.decode(alloc, text.as_bytes()) {
        Ok(bytes) => Ok(Bytes::from_vec(bytes)),
        Err(DecodeAllocError::DecodeError(_)) => Err(Unread::Otherwise),
        Err(DecodeAllocError::OutOfMemory) => Err(Unread::NoMemory),
    }
}

/// A value of kind S.
pub(crate) fn text_value(alloc: Global, reader: &mut Reader<'_>) -> Result<Attr, Unread>
    ensures value { IfOk result (λ a. ReadsFlat (λ d. map_ok S_tree (text_in d))
        reader.old (tree_of a) reader.new) }
{
    let text = text_ahead(alloc, reader)?;
    Ok(Attr::S(text))
}

/// A value of kind N.
pub(crate) fn number_value(reader: &mut Reader<'_>) -> Result<Attr, Unread>
    ensures value { IfOk result (λ a. ReadsFlat (λ d. map_ok N_tree (number_in d))
        reader.old (tree_of a) reader.new) }
{
    let number = number_ahead(reader)?;
    Ok(Attr::N(number))
}

/// A value of kind B.
pub(crate) fn binary_value(alloc: Global, reader: &mut Reader<'_>) -> Result<Attr, Unread>
    ensures value { IfOk result (λ a. ReadsFlat (λ d. map_ok B_tree (binary_in d))
        reader.old (tree_of a) reader.new) }
{
    let bytes = binary_ahead(alloc, reader)?;
    Ok(Attr::B(bytes))
}

/// A value of kind BOOL.
pub(crate) fn truth_value(reader: &mut Reader<'_>) -> Result<Attr, Unread>
    ensures value { IfOk result (λ a. ReadsFlat truth_in reader.old (tree_of a) reader.new) }
{
    let truth = truth(reader)?;
    Ok(Attr::Bool(truth))
}

/// A value of kind NULL, which is written as true.
pub(crate) fn null_value(reader: &mut Reader<'_>) -> Result<Attr, Unread>
    ensures value { IfOk result (λ a. ReadsFlat null_in reader.old (tree_of a) reader.new) }
{
    let truth = truth(reader)?;
    if truth {
        Ok(Attr::Null)
    } else {
        Err(Unread::Otherwise)
    }
}
