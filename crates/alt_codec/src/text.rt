//! Values as the text of their JSON, written straight to a writer: no tree stands between them.

ghost use Rattle.std.specs.Prelude.{◌≡◌, [], ◌∷◌, ◌++◌, OnOk};
ghost use Rattle.json.specs.Token.{begin_object, end_object, end_array, key, string as string_token};
ghost use Rattle.json.specs.Tree.{json_tokens};
ghost use Rattle.serde_json.specs.Data.{boolean, string};
ghost use Rattle.serde_json.specs.Written.{outline};
ghost use Rattle.alt_decimal.specs.Printed.{printed};
ghost use Rattle.alt_value.specs.Stands.{tree_of};
ghost use Rattle.alt_value.specs.Tree.{N_tree, SS_tree, NS_tree, BS_tree, L_tree, trees_of};
ghost use Rattle.alt_codec.specs.Writing.{of_kind as one_member, json_of, json_of_pairs};

use alt_base::NoMemory;
use alt_decimal::Decimal;
use alt_value::{Attr, AttrList, BytesSet, Item, NumberSet, TextSet};
use base64::engine::general_purpose::STANDARD;
use json::Writer;
use std::alloc::Global;

/// Writes the JSON of an item behind what a writer has: an object of its names, each with its value
/// (DynamoDB API Reference, "AttributeValue").
#[cycle(text)]
pub fn write_item(alloc: Global, out: &mut Writer, item: &Item) -> Result<(), NoMemory>
    ensures written { OnOk result (out.new.tokens
        ≡ out.old.tokens ++ json_tokens (outline (json_of_pairs item.now))) }
    ensures before { out.new.before ≡ out.old.before }
{
    out.begin_object()?;
    for place in 0..item.len() {
        let Some((name, a)) = item.at(place) else {
            break;
        };
        out.key(name)?;
        write_attr(alloc, out, a)?;
    }
    Ok(out.end_object()?)
}

/// Writes the JSON of a value likewise: one member, whose name is the value's kind.
#[cycle(text)]
pub fn write_attr(alloc: Global, out: &mut Writer, a: &Attr) -> Result<(), NoMemory>
    ensures written { OnOk result (out.new.tokens
        ≡ out.old.tokens ++ json_tokens (outline (json_of (tree_of a.now)))) }
    ensures before { out.new.before ≡ out.old.before }
{
    match a {
        Attr::S(text) => write_text(out, "S", text.as_str()),
        Attr::N(number) => write_number(out, number),
        Attr::B(bytes) => {
            let text = STANDARD.encode(alloc, bytes.as_slice())?;
            write_text(out, "B", text.as_str())
        }
        Attr::Bool(truth) => write_truth(out, "BOOL", *truth),
        Attr::Null => write_truth(out, "NULL", true),
        Attr::Ss(set) => write_texts(out, set),
        Attr::Ns(set) => write_numbers(out, set),
        Attr::Bs(set) => write_byte_strings(alloc, out, set),
        Attr::L(list) => write_elements(alloc, out, list),
        Attr::M(map) => {
            begin_kind(out, "M")?;
            write_item(alloc, out, map)?;
            Ok(out.end_object()?)
        }
    }
}

#[cycle(text)]
fn write_elements(alloc: Global, out: &mut Writer, list: &AttrList) -> Result<(), NoMemory>
    ensures written { OnOk result (out.new.tokens
        ≡ out.old.tokens ++ json_tokens (outline (json_of (L_tree (trees_of list.now))))) }
    ensures before { out.new.before ≡ out.old.before }
{
    begin_kind(out, "L")?;
    out.begin_array()?;
    for place in 0..list.len() {
        let Some(element) = list.get(place) else {
            break;
        };
        write_attr(alloc, out, element)?;
    }
    end_array_of_kind(out)
}

/// The head of an object of one member: its kind.
fn begin_kind(out: &mut Writer, kind: &str) -> Result<(), NoMemory>
    ensures written { OnOk result (out.new.tokens
        ≡ out.old.tokens ++ begin_object ∷ key kind.now ∷ []) }
    ensures before { out.new.before ≡ out.old.before }
{
    out.begin_object()?;
    Ok(out.key(kind)?)
}

/// The end of an array that is such an object's payload.
fn end_array_of_kind(out: &mut Writer) -> Result<(), NoMemory>
    ensures written { OnOk result (out.new.tokens
        ≡ out.old.tokens ++ end_array ∷ end_object ∷ []) }
    ensures before { out.new.before ≡ out.old.before }
{
    out.end_array()?;
    Ok(out.end_object()?)
}

fn write_text(out: &mut Writer, kind: &str, text: &str) -> Result<(), NoMemory>
    ensures written { OnOk result (out.new.tokens
        ≡ out.old.tokens ++ json_tokens (outline (one_member kind.now (string text.now)))) }
    ensures before { out.new.before ≡ out.old.before }
{
    begin_kind(out, kind)?;
    out.string(text)?;
    Ok(out.end_object()?)
}

fn write_truth(out: &mut Writer, kind: &str, truth: bool) -> Result<(), NoMemory>
    ensures written { OnOk result (out.new.tokens
        ≡ out.old.tokens ++ json_tokens (outline (one_member kind.now (boolean truth)))) }
    ensures before { out.new.before ≡ out.old.before }
{
    begin_kind(out, kind)?;
    out.boolean(truth)?;
    Ok(out.end_object()?)
}

fn write_number(out: &mut Writer, number: &Decimal) -> Result<(), NoMemory>
    ensures written { OnOk result (out.new.tokens
        ≡ out.old.tokens ++ json_tokens (outline (json_of (N_tree number.now)))) }
    ensures before { out.new.before ≡ out.old.before }
{
    begin_kind(out, "N")?;
    number_string(out, number)?;
    Ok(out.end_object()?)
}

/// A number as a string in plain notation.
fn number_string(out: &mut Writer, number: &Decimal) -> Result<(), NoMemory>
    ensures written { OnOk result (out.new.tokens
        ≡ out.old.tokens ++ string_token (printed number.now) ∷ []) }
    ensures before { out.new.before ≡ out.old.before }
{
    let mut text = [0; 176];
    let len = number.print(&mut text);
    let Ok(text) = std::str::from_utf8(&text[..len]) else {
        unreachable!()
    };
    Ok(out.string(text)?)
}

fn write_texts(out: &mut Writer, set: &TextSet) -> Result<(), NoMemory>
    ensures written { OnOk result (out.new.tokens
        ≡ out.old.tokens ++ json_tokens (outline (json_of (SS_tree set.now)))) }
    ensures before { out.new.before ≡ out.old.before }
{
    begin_kind(out, "SS")?;
    out.begin_array()?;
    for place in 0..set.len() {
        let Some(text) = set.get(place) else {
            break;
        };
        out.string(text)?;
    }
    end_array_of_kind(out)
}

fn write_numbers(out: &mut Writer, set: &NumberSet) -> Result<(), NoMemory>
    ensures written { OnOk result (out.new.tokens
        ≡ out.old.tokens ++ json_tokens (outline (json_of (NS_tree set.now)))) }
    ensures before { out.new.before ≡ out.old.before }
{
    begin_kind(out, "NS")?;
    out.begin_array()?;
    for place in 0..set.len() {
        let Some(number) = set.get(place) else {
            break;
        };
        number_string(out, &number)?;
    }
    end_array_of_kind(out)
}

fn write_byte_strings(alloc: Global, out: &mut Writer, set: &BytesSet) -> Result<(), NoMemory>
    ensures written { OnOk result (out.new.tokens
        ≡ out.old.tokens ++ json_tokens (outline (json_of (BS_tree set.now)))) }
    ensures before { out.new.before ≡ out.old.before }
{
    begin_kind(out, "BS")?;
    out.begin_array()?;
    for place in 0..set.len() {
        let Some(bytes) = set.get(place) else {
            break;
        };
        let text = STANDARD.encode(alloc, bytes)?;
        out.string(text.as_str())?;
    }
    end_array_of_kind(out)
}
