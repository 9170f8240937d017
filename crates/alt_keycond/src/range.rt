//! What a key condition asks, as a range of keys in bytes (docs/formats/key-bytes.md).

ghost use Rattle.std.specs.Prelude.{◌≡◌, ◌↔◌, ◌++◌, List, ℕ, Some, None, IfOk};
ghost use Rattle.alt_base.specs.Prefix.{IsPrefix};
ghost use Rattle.alt_value.specs.Stands.{tree_of};
ghost use Rattle.alt_keyorder.specs.KeyBytes.{IsKey, key_bytes};
ghost use Rattle.alt_keyorder.specs.Place.{place_bytes, place_in_table};
ghost use Rattle.alt_keyorder.specs.Range.{IsByteString, IsInRange};
ghost use Rattle.alt_keycond.specs.KeysAsked.{AsksKeys, HasFront, HoldsAsked, IsRangeOf, IsRangeUnder, front_bytes};
ghost use Rattle.alt_keycond.specs.declared.ask.RangeAsk.TheVariants as asks;

use crate::ask::{KeyAsk, RangeAsk};
use alt_base::NoMemory;
use alt_fields::Bytes;
use alt_keyorder::{KeyRange, after_all, key_part, token};
use alt_value::Attr;
use std::alloc::Global;

/// The range of the keys that an ask wants, in a table or an index. Where the bounds of the ask are in falling order it holds none.
pub fn key_range(alloc: Global, ask: &KeyAsk) -> Result<KeyRange, NoMemory>
    requires hash { IsKey (tree_of ask.now.hash) }
    requires range { AsksKeys ask.now.range }
    ensures holds { IfOk result (λ r. HoldsAsked ask.now r.from r.to) }
{
    let hash = hash_bytes(alloc, &ask.hash)?;
    range_under(alloc, hash.as_slice(), &ask.range)
}

/// What the keys with a HASH value begin with.
fn hash_bytes(alloc: Global, hash: &Attr) -> Result<Vec<u8>, NoMemory>
    requires { IsKey (tree_of hash.now) }
    ensures { IfOk result (λ v. v.items ≡ place_bytes (place_in_table (tree_of hash.now) None)) }
{
    let mut bytes = Vec::new(alloc);
    bytes.extend_from_slice(&token(hash).to_be_bytes())?;
    key_part(hash, &mut bytes)?;
    Ok(bytes)
}

/// The keys that begin with a front and go on with what is asked.
fn range_under(alloc: Global, front: &[u8], range: &RangeAsk) -> Result<KeyRange, NoMemory>
    requires { AsksKeys range.now }
    ensures { IfOk result (λ r. IsRangeUnder front.now range.now r.from r.to) }
{
    match range {
        RangeAsk::All => all(alloc, front),
        RangeAsk::Eq(value) => equal(alloc, front, value),
        RangeAsk::Lt(value) => below(alloc, front, value),
        RangeAsk::Le(value) => up_to(alloc, front, value),
        RangeAsk::Gt(value) => above(alloc, front, value),
        RangeAsk::Ge(value) => from(alloc, front, value),
        RangeAsk::Between(low, high) => between(alloc, front, low, high),
        RangeAsk::Begins(value) => begins(alloc, front, value),
    }
}

/// A front with the part of a value behind it.
fn with_part(alloc: Global, front: &[u8], value: &Attr) -> Result<Vec<u8>, NoMemory>
    requires { IsKey (tree_of value.now) }
    ensures { IfOk result (λ v. v.items ≡ front.now ++ key_bytes (tree_of value.now)) }
{
    let mut bytes = Vec::from_slice(alloc, front)?;
    key_part(value, &mut bytes)?;
    Ok(bytes)
}

/// A front with what the part of a value has before its end.
fn with_front(alloc: Global, front: &[u8], value: &Attr) -> Result<Vec<u8>, NoMemory>
    requires { HasFront (tree_of value.now) }
    ensures { IfOk result (λ v. v.items ≡ front.now ++ front_bytes (tree_of value.now)) }
{
    let mut bytes = with_part(alloc, front, value)?;
    bytes.truncate(bytes.len().saturating_sub(2));
    Ok(bytes)
}

/// The end of the keys that begin with a prefix, None where they have no end.
fn end_of(alloc: Global, prefix: &[u8]) -> Result<Option<Bytes>, NoMemory>
    ensures ends { IfOk result (λ end. (key : List ℕ) → IsByteString key
        → IsPrefix prefix.now key ↔ IsInRange prefix.now end key) }
    ensures bytes { IsByteString prefix.now }
{
    after_all(alloc, prefix)
}

/// The keys that begin with a prefix.
fn under(alloc: Global, prefix: Vec<u8>) -> Result<KeyRange, NoMemory>
    ensures { IfOk result (λ r. IsRangeOf prefix.items r.from r.to) }
{
    let to = end_of(alloc, prefix.as_slice())?;
    Ok(KeyRange {
        from: Bytes::from_vec(prefix),
        to,
    })
}

fn all(alloc: Global, front: &[u8]) -> Result<KeyRange, NoMemory>
    ensures { IfOk result (λ r. IsRangeUnder front.now asks.All r.from r.to) }
{
    under(alloc, Vec::from_slice(alloc, front)?)
}

fn equal(alloc: Global, front: &[u8], value: &Attr) -> Result<KeyRange, NoMemory>
    requires { IsKey (tree_of value.now) }
    ensures { IfOk result (λ r. IsRangeUnder front.now (asks.Eq value.now) r.from r.to) }
{
    under(alloc, with_part(alloc, front, value)?)
}

fn begins(alloc: Global, front: &[u8], value: &Attr) -> Result<KeyRange, NoMemory>
    requires { HasFront (tree_of value.now) }
    ensures { IfOk result (λ r. IsRangeUnder front.now (asks.Begins value.now) r.from r.to) }
{
    under(alloc, with_front(alloc, front, value)?)
}

fn below(alloc: Global, front: &[u8], value: &Attr) -> Result<KeyRange, NoMemory>
    requires { IsKey (tree_of value.now) }
    ensures { IfOk result (λ r. IsRangeUnder front.now (asks.Lt value.now) r.from r.to) }
{
    let to = with_part(alloc, front, value)?;
    Ok(KeyRange {
        from: Bytes::from_vec(Vec::from_slice(alloc, front)?),
        to: Some(Bytes::from_vec(to)),
    })
}

fn up_to(alloc: Global, front: &[u8], value: &Attr) -> Result<KeyRange, NoMemory>
    requires { IsKey (tree_of value.now) }
    ensures { IfOk result (λ r. IsRangeUnder front.now (asks.Le value.now) r.from r.to) }
{
    let part = with_part(alloc, front, value)?;
    let to = end_of(alloc, part.as_slice())?;
    Ok(KeyRange {
        from: Bytes::from_vec(Vec::from_slice(alloc, front)?),
        to,
    })
}

fn from(alloc: Global, front: &[u8], value: &Attr) -> Result<KeyRange, NoMemory>
    requires { IsKey (tree_of value.now) }
    ensures { IfOk result (λ r. IsRangeUnder front.now (asks.Ge value.now) r.from r.to) }
{
    let from = with_part(alloc, front, value)?;
    let to = end_of(alloc, front)?;
    Ok(KeyRange {
        from: Bytes::from_vec(from),
        to,
    })
}

/// Where the keys that begin with the part have no end, none stands behind them.
fn above(alloc: Global, front: &[u8], value: &Attr) -> Result<KeyRange, NoMemory>
    requires { IsKey (tree_of value.now) }
    ensures { IfOk result (λ r. IsRangeUnder front.now (asks.Gt value.now) r.from r.to) }
{
    let part = with_part(alloc, front, value)?;
    let to = end_of(alloc, front)?;
    match end_of(alloc, part.as_slice())? {
        Some(from) => Ok(KeyRange { from, to }),
        None => Ok(KeyRange {
            from: Bytes::from_vec(Vec::new(alloc)),
            to: Some(Bytes::from_vec(Vec::new(alloc))),
        }),
    }
}

fn between(alloc: Global, front: &[u8], low: &Attr, high: &Attr) -> Result<KeyRange, NoMemory>
    requires low { IsKey (tree_of low.now) }
    requires high { IsKey (tree_of high.now) }
    ensures { IfOk result
        (λ r. IsRangeUnder front.now (asks.Between low.now high.now) r.from r.to) }
{
    let from = with_part(alloc, front, low)?;
    let last = with_part(alloc, front, high)?;
    let to = end_of(alloc, last.as_slice())?;
    Ok(KeyRange {
        from: Bytes::from_vec(from),
        to,
    })
}
