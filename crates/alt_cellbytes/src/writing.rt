//! Writing cell bytes.

ghost use Rattle.std.specs.Prelude.{◌≡◌, ◌∷◌, ◌++◌, [], length, OnOk, OnErr, T};
ghost use Rattle.std.specs.List.{flat_map};
ghost use Rattle.alt_base.specs.Prefix.{IsPrefix};
ghost use Rattle.alt_decimal.specs.Spelled.{spelled};
ghost use Rattle.alt_fields.specs.Field.{field};
ghost use Rattle.alt_value.specs.CellBytes.{cell_bytes, counted, truth_byte};
ghost use Rattle.alt_value.specs.Stands.{tree_of};
ghost use Rattle.alt_value.specs.Values.{sets_full};
ghost use Rattle.alt_cellbytes.specs.Values.{AreBytesOf};
ghost use Rattle.alt_cellbytes.specs.Places.{entry_bytes};

use alt_base::NoMemory;
use alt_decimal::Decimal;
use alt_fields::{put_bytes, put_u64};
use alt_value::{Attr, AttrList, BytesSet, Item, NumberSet, TextSet, held};

/// Appends the cell bytes of a value. Where memory is wanting, the front of them may stand there.
pub fn bytes_of(a: &Attr, out: &mut Vec<u8>) -> Result<(), NoMemory>
    ensures appended { OnOk result (out.new.items ≡ out.old.items ++ cell_bytes (tree_of a.now)) }
    ensures begun { OnErr result (IsPrefix out.old.items out.new.items) }
    // What was written is read as the value again, unless it has an empty set.
    ensures again { T (sets_full (tree_of a.now))
        → AreBytesOf (cell_bytes (tree_of a.now)) (tree_of a.now) }
{
    held(a);
    put_value(a, out)
}

#[cycle(writing)]
fn put_value(a: &Attr, out: &mut Vec<u8>) -> Result<(), NoMemory>
    ensures appended { OnOk result (out.new.items ≡ out.old.items ++ cell_bytes (tree_of a.now)) }
    ensures begun { OnErr result (IsPrefix out.old.items out.new.items) }
{
    match a {
        Attr::S(text) => put_field(out, 1, text.as_str().as_bytes()),
        Attr::N(number) => put_number(out, 2, number),
        Attr::B(bytes) => put_field(out, 3, bytes.as_slice()),
        Attr::Bool(truth) => put_truth(out, *truth),
        Attr::Null => put_kind(out, 5),
        Attr::Ss(set) => put_texts(out, set),
        Attr::Ns(set) => put_numbers(out, set),
        Attr::Bs(set) => put_binaries(out, set),
        Attr::L(list) => put_elements(out, list),
        Attr::M(map) => put_entries(out, map),
    }
}

fn put_kind(out: &mut Vec<u8>, kind: u8) -> Result<(), NoMemory>
    ensures appended { OnOk result (out.new.items ≡ out.old.items ++ kind ∷ []) }
    ensures begun { OnErr result (IsPrefix out.old.items out.new.items) }
{
    out.push(kind)?;
    Ok(())
}

fn put_truth(out: &mut Vec<u8>, truth: bool) -> Result<(), NoMemory>
    ensures appended { OnOk result (out.new.items ≡ out.old.items ++ 4 ∷ truth_byte truth ∷ []) }
    ensures begun { OnErr result (IsPrefix out.old.items out.new.items) }
{
    let pair = if truth { [4u8, 1] } else { [4, 0] };
    out.extend_from_slice(&pair)?;
    Ok(())
}

fn put_field(out: &mut Vec<u8>, kind: u8, content: &[u8]) -> Result<(), NoMemory>
    ensures appended { OnOk result (out.new.items ≡ out.old.items ++ kind ∷ field content.now) }
    ensures begun { OnErr result (IsPrefix out.old.items out.new.items) }
{
    out.push(kind)?;
    put_bytes(out, content)
}

fn put_number(out: &mut Vec<u8>, kind: u8, number: &Decimal) -> Result<(), NoMemory>
    ensures appended { OnOk result (out.new.items ≡ out.old.items ++ kind ∷ spelled number.now) }
    ensures begun { OnErr result (IsPrefix out.old.items out.new.items) }
{
    out.push(kind)?;
    put_spelled(out, number)
}

fn put_spelled(out: &mut Vec<u8>, number: &Decimal) -> Result<(), NoMemory>
    ensures appended { OnOk result (out.new.items ≡ out.old.items ++ spelled number.now) }
    ensures begun { OnErr result (IsPrefix out.old.items out.new.items) }
{
    let mut buf = [0; 22];
    let end = number.spell(&mut buf);
    out.extend_from_slice(&buf[..end])?;
    Ok(())
}

/// A byte for the kind, and a count.
fn put_head(out: &mut Vec<u8>, kind: u8, count: usize) -> Result<(), NoMemory>
    ensures appended { OnOk result (out.new.items ≡ out.old.items ++ kind ∷ counted count) }
    ensures begun { OnErr result (IsPrefix out.old.items out.new.items) }
{
    out.push(kind)?;
    put_u64(out, count as u64)
}

fn put_texts(out: &mut Vec<u8>, set: &TextSet) -> Result<(), NoMemory>
    ensures appended { OnOk result
        (out.new.items ≡ out.old.items
        ++ 6 ∷ (counted (length set.now) ++ flat_map field set.now)) }
    ensures begun { OnErr result (IsPrefix out.old.items out.new.items) }
{
    put_head(out, 6, set.len())?;
    put_each_text(out, set)
}

fn put_each_text(out: &mut Vec<u8>, set: &TextSet) -> Result<(), NoMemory>
    ensures appended { OnOk result (out.new.items ≡ out.old.items ++ flat_map field set.now) }
    ensures begun { OnErr result (IsPrefix out.old.items out.new.items) }
{
    for place in 0..set.len() {
        let Some(text) = set.get(place) else {
            break;
        };
        put_bytes(out, text.as_bytes())?;
    }
    Ok(())
}

fn put_numbers(out: &mut Vec<u8>, set: &NumberSet) -> Result<(), NoMemory>
    ensures appended { OnOk result
        (out.new.items ≡ out.old.items
        ++ 7 ∷ (counted (length set.now) ++ flat_map spelled set.now)) }
    ensures begun { OnErr result (IsPrefix out.old.items out.new.items) }
{
    put_head(out, 7, set.len())?;
    put_each_number(out, set)
}

fn put_each_number(out: &mut Vec<u8>, set: &NumberSet) -> Result<(), NoMemory>
    ensures appended { OnOk result (out.new.items ≡ out.old.items ++ flat_map spelled set.now) }
    ensures begun { OnErr result (IsPrefix out.old.items out.new.items) }
{
    for place in 0..set.len() {
        let Some(number) = set.get(place) else {
            break;
        };
        put_spelled(out, &number)?;
    }
    Ok(())
}

fn put_binaries(out: &mut Vec<u8>, set: &BytesSet) -> Result<(), NoMemory>
    ensures appended { OnOk result
        (out.new.items ≡ out.old.items
        ++ 8 ∷ (counted (length set.now) ++ flat_map field set.now)) }
    ensures begun { OnErr result (IsPrefix out.old.items out.new.items) }
{
    put_head(out, 8, set.len())?;
    put_each_binary(out, set)
}

fn put_each_binary(out: &mut Vec<u8>, set: &BytesSet) -> Result<(), NoMemory>
    ensures appended { OnOk result (out.new.items ≡ out.old.items ++ flat_map field set.now) }
    ensures begun { OnErr result (IsPrefix out.old.items out.new.items) }
{
    for place in 0..set.len() {
        let Some(bytes) = set.get(place) else {
            break;
        };
        put_bytes(out, bytes)?;
    }
    Ok(())
}

#[cycle(writing)]
fn put_elements(out: &mut Vec<u8>, list: &AttrList) -> Result<(), NoMemory>
    ensures appended { OnOk result
        (out.new.items ≡ out.old.items
        ++ 9 ∷ (counted (length list.now) ++ flat_map cell_bytes list.now)) }
    ensures begun { OnErr result (IsPrefix out.old.items out.new.items) }
{
    put_head(out, 9, list.len())?;
    put_each_element(out, list)
}

#[cycle(writing)]
fn put_each_element(out: &mut Vec<u8>, list: &AttrList) -> Result<(), NoMemory>
    ensures appended { OnOk result (out.new.items ≡ out.old.items ++ flat_map cell_bytes list.now) }
    ensures begun { OnErr result (IsPrefix out.old.items out.new.items) }
{
    for place in 0..list.len() {
        let Some(element) = list.get(place) else {
            break;
        };
        put_value(element, out)?;
    }
    Ok(())
}

#[cycle(writing)]
fn put_entries(out: &mut Vec<u8>, map: &Item) -> Result<(), NoMemory>
    ensures appended { OnOk result
        (out.new.items ≡ out.old.items
        ++ 10 ∷ (counted (length map.now) ++ flat_map entry_bytes map.now)) }
    ensures begun { OnErr result (IsPrefix out.old.items out.new.items) }
{
    put_head(out, 10, map.len())?;
    put_each_entry(out, map)
}

#[cycle(writing)]
fn put_each_entry(out: &mut Vec<u8>, map: &Item) -> Result<(), NoMemory>
    ensures appended { OnOk result (out.new.items ≡ out.old.items ++ flat_map entry_bytes map.now) }
    ensures begun { OnErr result (IsPrefix out.old.items out.new.items) }
{
    for place in 0..map.len() {
        let Some((name, value)) = map.at(place) else {
            break;
        };
        put_bytes(out, name.as_bytes())?;
        put_value(value, out)?;
    }
    Ok(())
}
