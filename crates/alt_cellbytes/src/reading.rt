//! Reading cell bytes.
//!
//! Lists and maps are read by calls within calls, so the stack that is used grows with the depth of the
//! bytes. `attr_within` refuses what is nested deeper than its caller allows, before it goes on.

ghost use Rattle.std.specs.Prelude.{◌≡◌, ◌≢◌, ◌≤◌, ◌<◌, ◌⊎◌, ◌∷◌, ℕ, Err, ◌++◌, [], ◌↔◌, length, IsTrue, IfOk, IfErr};
ghost use Rattle.std.specs.List.{AllByRecursion, flat_map};
ghost use Rattle.alt_fields.specs.Bytes.{IsShort};
ghost use Rattle.alt_fields.specs.Field.{field};
ghost use Rattle.alt_value.specs.CellBytes.{cell_bytes};
ghost use Rattle.alt_value.specs.Item.{IsItem};
ghost use Rattle.alt_value.specs.Size.{depth};
ghost use Rattle.alt_value.specs.Stands.{tree_of};
ghost use Rattle.alt_value.specs.Tree.{NULL_tree, Tree};
ghost use Rattle.alt_value.specs.Values.{IsWhole};
ghost use Rattle.alt_cellbytes.specs.Places.{IsBadValueAt, IsDeepAt, IsDeepAnswer, StopsDeep, IsReadAsValue, NoValue, NoValueWithin, IsStopByBytes, IsStopAt, ValueStops, TooDeep, StopsHere, NoFittingField, IsNextName, NoElementOf, NoEntry, NoEntryOf, AreMapEntries, entry_bytes};
ghost use Rattle.alt_cellbytes.specs.Values.{CellBytesArePrefixFree, HasBytes};

use crate::fault::Stop;
use crate::members::{take_binaries, take_numbers, take_texts};
use crate::pieces::{take_count, take_field, take_number, take_text, take_truth};
use alt_fields::{Bytes, BytesFault};
use alt_value::{Attr, AttrList, Item, Text, held};
use std::alloc::Global;

/// The value whose cell bytes the bytes are, however deep it is nested: for bytes from a store that may
/// be damaged `attr_within` is the call.
///
/// Else `Bad`, with the first place where no piece stands that could be the next one, or where something
/// stands behind a whole value.
pub fn attr_of(alloc: Global, bytes: &[u8]) -> Result<Attr, BytesFault>
    ensures value { IfOk result (λ a. IsWhole (tree_of a) × (bytes.now ≡ cell_bytes (tree_of a))) }
    // Whatever value's cell bytes they are, it is read, unless memory is wanting.
    ensures taken { (t : Tree) → IsWhole t → bytes.now ≡ cell_bytes t → IsReadAsValue t result }
    ensures place { (at : ℕ) → result ≡ Err (BytesFault.Bad at)
        → IsBadValueAt bytes.now at × NoValue bytes.now }
    // One spelling a value, and none a prefix of another.
    ensures apart { CellBytesArePrefixFree }
{
    attr_within(alloc, bytes, bytes.len())
}

/// The same, but a list or a map within as many of them as may be is Bad where it begins.
///
/// No call is made for what stands in it, so the stack that is used grows with `most`, and not with the
/// bytes. (That is seen in the body: no clause speaks of a stack.)
pub fn attr_within(alloc: Global, bytes: &[u8], most: usize) -> Result<Attr, BytesFault>
    ensures value { IfOk result (λ a. IsWhole (tree_of a) × (depth (tree_of a) ≤ most)
        × (bytes.now ≡ cell_bytes (tree_of a))) }
    ensures taken { (t : Tree) → IsWhole t → depth t ≤ most → bytes.now ≡ cell_bytes t
        → IsReadAsValue t result }
    ensures place { (at : ℕ) → result ≡ Err (BytesFault.Bad at)
        → IsBadValueAt bytes.now at ⊎ IsDeepAt most bytes.now at }
    ensures none { (at : ℕ) → result ≡ Err (BytesFault.Bad at) → NoValueWithin most bytes.now }
    // Where a list or a map is nested too deep, the answer is Bad at the first one, whatever stands behind its first byte.
    ensures deep { (at : ℕ) → IsDeepAt most bytes.now at → IsDeepAnswer most bytes.now result }
{
    match take_value(alloc, most, bytes) {
        Ok((a, rest)) => {
            held(&a);
            if rest.is_empty() {
                Ok(a)
            } else {
                Err(BytesFault::Bad {
                    at: bytes.len() - rest.len(),
                })
            }
        }
        Err(Stop::Left(left)) => Err(BytesFault::Bad {
            at: bytes.len() - left,
        }),
        Err(Stop::Deep(left)) => Err(BytesFault::Bad {
            at: bytes.len() - left,
        }),
        Err(Stop::NoMemory) => Err(BytesFault::NoMemory),
    }
}

/// The value at the front of the bytes, nested so deep at most, and what follows it.
#[cycle(reading)]
fn take_value(alloc: Global, most: usize, bytes: &[u8]) -> Result<(Attr, &[u8]), Stop>
    ensures value { IfOk result (λ p. HasBytes (tree_of p.0) × (depth (tree_of p.0) ≤ most)
        × (bytes.now ≡ cell_bytes (tree_of p.0) ++ p.1.now)) }
    ensures stop { IfErr result (IsStopAt (ValueStops bytes.now) (TooDeep most bytes.now)) }
    ensures deep { (left : ℕ) → TooDeep most bytes.now left → StopsDeep left result }
{
    match bytes {
        [kind, rest @ ..] => match *kind {
            9 => {
                if most == 0 {
                    return Err(Stop::Deep(bytes.len()));
                }
                take_list(alloc, most, rest)
            }
            10 => {
                if most == 0 {
                    return Err(Stop::Deep(bytes.len()));
                }
                take_map(alloc, most, rest)
            }
            kind => take_flat(alloc, kind, rest),
        },
        [] => Err(Stop::Left(0)),
    }
}

/// The list behind its first byte.
#[cycle(reading)]
fn take_list(alloc: Global, most: usize, bytes: &[u8]) -> Result<(Attr, &[u8]), Stop>
    requires { 0 < most }
    ensures value { IfOk result (λ p. HasBytes (tree_of p.0) × (depth (tree_of p.0) ≤ most)
        × (9 ∷ bytes.now ≡ cell_bytes (tree_of p.0) ++ p.1.now)) }
    ensures stop { IfErr result (IsStopAt (ValueStops (9 ∷ bytes.now)) (TooDeep most (9 ∷ bytes.now))) }
    ensures deep { (left : ℕ) → TooDeep most (9 ∷ bytes.now) left → StopsDeep left result }
{
    let (count, rest) = take_count(bytes)?;
    match take_elements(alloc, most - 1, count, rest) {
        Ok((list, rest)) => Ok((Attr::L(list), rest)),
        Err(stop) => Err(stop),
    }
}

/// So many elements, and what follows them.
#[cycle(reading)]
fn take_elements(
    alloc: Global,
    most: usize,
    count: u64,
    bytes: &[u8],
) -> Result<(AttrList, &[u8]), Stop>
    ensures elements { IfOk result (λ p. (length p.0 ≡ count) × AllByRecursion HasBytes p.0
        × AllByRecursion (λ t. depth t ≤ most) p.0
        × (bytes.now ≡ flat_map cell_bytes p.0 ++ p.1.now)) }
    ensures stop { IfErr result (IsStopAt (NoElementOf ValueStops count bytes.now)
        (NoElementOf (TooDeep most) count bytes.now)) }
    ensures deep { (left : ℕ) → NoElementOf (TooDeep most) count bytes.now left
        → StopsDeep left result }
{
    let mut list = AttrList::new(alloc);
    let mut rest = bytes;
    for _done in 0..count {
        match take_value(alloc, most, rest) {
            Ok((element, behind)) => {
                list.push(element)?;
                rest = behind;
            }
            Err(stop) => return Err(stop),
        }
    }
    Ok((list, rest))
}

/// The map behind its first byte.
#[cycle(reading)]
fn take_map(alloc: Global, most: usize, bytes: &[u8]) -> Result<(Attr, &[u8]), Stop>
    requires { 0 < most }
    ensures value { IfOk result (λ p. HasBytes (tree_of p.0) × (depth (tree_of p.0) ≤ most)
        × (10 ∷ bytes.now ≡ cell_bytes (tree_of p.0) ++ p.1.now)) }
    ensures stop { IfErr result
        (IsStopAt (ValueStops (10 ∷ bytes.now)) (TooDeep most (10 ∷ bytes.now))) }
    ensures deep { (left : ℕ) → TooDeep most (10 ∷ bytes.now) left → StopsDeep left result }
{
    let (count, rest) = take_count(bytes)?;
    match take_entries(alloc, most - 1, count, rest) {
        Ok((map, rest)) => Ok((Attr::M(map), rest)),
        Err(stop) => Err(stop),
    }
}

/// So many entries, and what follows them.
#[cycle(reading)]
fn take_entries(alloc: Global, most: usize, count: u64, bytes: &[u8]) -> Result<(Item, &[u8]), Stop>
    ensures entries { IfOk result (λ p. (length p.0 ≡ count) × AreMapEntries p.0
        × AllByRecursion (λ e. depth e.1 ≤ most) p.0
        × (bytes.now ≡ flat_map entry_bytes p.0 ++ p.1.now)) }
    ensures stop { IfErr result (IsStopAt (NoEntry count bytes.now)
        (NoEntryOf (TooDeep most) count bytes.now)) }
    ensures deep { (left : ℕ) → NoEntryOf (TooDeep most) count bytes.now left
        → StopsDeep left result }
{
    let mut map = Item::new(alloc);
    let mut rest = bytes;
    for _done in 0..count {
        let (name, behind) = next_name(&map, rest)?;
        match take_value(alloc, most, behind) {
            Ok((value, after)) => {
                map.put(name, value)?;
                rest = after;
            }
            Err(stop) => return Err(stop),
        }
    }
    Ok((map, rest))
}

/// A name that stands above those so far.
fn next_name<'a>(map: &Item, bytes: &'a [u8]) -> Result<(&'a str, &'a [u8]), Stop>
    ensures name { IfOk result (λ p. IsShort p.0.now × IsNextName map.now p.0.now
        × (bytes.now ≡ field p.0.now ++ p.1.now)) }
    ensures stop { IfErr result (IsStopByBytes (NoFittingField (IsNextName map.now) bytes.now)) }
{
    let (name, rest) = take_text(bytes)?;
    if is_next_name(map, name) {
        Ok((name, rest))
    } else {
        Err(Stop::Left(bytes.len()))
    }
}

fn is_next_name(map: &Item, name: &str) -> bool
    ensures { IsTrue result ↔ IsItem (map.now ++ (name.now, NULL_tree) ∷ []) }
{
    let count = map.len();
    if count == 0 {
        return !name.is_empty();
    }
    match map.at(count - 1) {
        Some((last, _)) => last < name,
        None => true,
    }
}

/// A value of a kind without elements, behind its first byte.
fn take_flat(alloc: Global, kind: u8, bytes: &[u8]) -> Result<(Attr, &[u8]), Stop>
    requires { (kind ≢ 9) × (kind ≢ 10) }
    ensures value { IfOk result (λ p. HasBytes (tree_of p.0) × (depth (tree_of p.0) ≡ 0)
        × (kind ∷ bytes.now ≡ cell_bytes (tree_of p.0) ++ p.1.now)) }
    ensures stop { IfErr result (IsStopByBytes (StopsHere (kind ∷ bytes.now))) }
{
    match kind {
        1 => {
            let (text, rest) = take_text(bytes)?;
            Ok((Attr::S(Text::new(alloc, text)?), rest))
        }
        2 => match take_number(bytes) {
            Ok((number, rest)) => Ok((Attr::N(number), rest)),
            Err(stop) => Err(stop),
        },
        3 => {
            let (binary, rest) = take_field(bytes)?;
            Ok((Attr::B(Bytes::new(alloc, binary)?), rest))
        }
        4 => {
            let (truth, rest) = take_truth(bytes)?;
            Ok((Attr::Bool(truth), rest))
        }
        5 => Ok((Attr::Null, bytes)),
        6 | 7 | 8 => take_set(alloc, kind, bytes),
        _ => Err(Stop::Left(bytes.len() + 1)),
    }
}

/// A set, behind its first byte.
fn take_set(alloc: Global, kind: u8, bytes: &[u8]) -> Result<(Attr, &[u8]), Stop>
    requires { (6 ≤ kind) × (kind ≤ 8) }
    ensures value { IfOk result (λ p. HasBytes (tree_of p.0) × (depth (tree_of p.0) ≡ 0)
        × (kind ∷ bytes.now ≡ cell_bytes (tree_of p.0) ++ p.1.now)) }
    ensures stop { IfErr result (IsStopByBytes (StopsHere (kind ∷ bytes.now))) }
{
    let (count, rest) = take_count(bytes)?;
    if count == 0 {
        return Err(Stop::Left(bytes.len()));
    }
    match kind {
        6 => match take_texts(alloc, count, rest) {
            Ok((set, rest)) => Ok((Attr::Ss(set), rest)),
            Err(stop) => Err(stop),
        },
        7 => match take_numbers(alloc, count, rest) {
            Ok((set, rest)) => Ok((Attr::Ns(set), rest)),
            Err(stop) => Err(stop),
        },
        _ => match take_binaries(alloc, count, rest) {
            Ok((set, rest)) => Ok((Attr::Bs(set), rest)),
            Err(stop) => Err(stop),
        },
    }
}
