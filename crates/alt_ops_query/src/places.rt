//! Where a walk starts: the place of a start key, and the part of a range beyond it.

ghost use Rattle.std.specs.Prelude.{◌≡◌, true, Some, None, IfOk, option_map};
ghost use Rattle.std.specs.Option.{option_map_or};
ghost use Rattle.alt_machine.specs.Lists as machine;
ghost use Rattle.alt_ops_query.specs.private.Ranges.{IsBeyond, IsLesser};
ghost use Rattle.alt_request.specs.Steps.{Comes};
ghost use Rattle.alt_expr.specs.Holds.{equal as same};
ghost use Rattle.alt_value.specs.Item.{at_name};
ghost use Rattle.alt_value.specs.Stands.{tree_of};

use crate::sources::hash_of;
use alt_base::NoMemory;
use alt_fields::Bytes;
use alt_keyorder::KeyRange;
use alt_request::Stop;
use alt_schema::{IndexSchema, KeyAttr, TableSchema};
use alt_shape::Refusal;
use alt_value::{Attr, Item, equal};
use alt_views::start_place;
use std::alloc::Global;

/// The place of the key to start after, if one is given. It has the key attributes of the table, and of the index that is read, if one is,
/// and no others, each of its kind, and the HASH value that is asked for, where one is.
pub(crate) fn walk_start(
    alloc: Global,
    schema: &TableSchema,
    index: Option<&IndexSchema>,
    hash: Option<&Attr>,
    start: &Option<Item>,
) -> Result<Option<Bytes>, Stop>
    ensures start { Comes (λ place. place) (machine.walk_start schema.now
        (option_map (λ i. i.now) index.entry) (option_map (λ a. a.now) hash.entry) start.now)
        result }
{
    let Some(key) = start else {
        return Ok(None);
    };
    let Some(place) = start_place(alloc, schema, index, key)? else {
        return Err(Stop::Refused(Refusal::BAD_START_KEY));
    };
    if !has_hash(hash_of(schema, index), hash, key) {
        return Err(Stop::Refused(Refusal::BAD_START_KEY));
    }
    Ok(Some(place))
}

/// Whether a start key has the HASH value that is asked for, where one is.
fn has_hash(attribute: &KeyAttr, hash: Option<&Attr>, key: &Item) -> bool
    ensures { result ≡ option_map_or
        (λ v. same (at_name attribute.now.name key.now) (Some (tree_of v)))
        (option_map (λ a. a.now) hash.entry) true }
{
    let Some(hash) = hash else {
        return true;
    };
    match key.get(attribute.name.as_str()) {
        Some(value) => equal(value, hash),
        None => false,
    }
}

/// The part of a range strictly beyond a place, in the direction of a walk; all of it where there is none.
#[tactic(auto, using(crate::proofs::Beyond::beyond_none, crate::proofs::Beyond::beyond_end))]
pub(crate) fn beyond(
    alloc: Global,
    range: KeyRange,
    place: Option<Bytes>,
    forward: bool,
) -> Result<KeyRange, NoMemory>
    ensures beyond { IfOk result (λ r. IsBeyond forward place range.from range.to r.from r.to) }
{
    let Some(place) = place else {
        return Ok(range);
    };
    if forward {
        return from_behind(alloc, range, place.as_slice());
    }
    let KeyRange { from, to } = range;
    Ok(KeyRange {
        from,
        to: Some(earlier(to, place)),
    })
}

/// The part of a range above a place.
#[tactic(auto, using(crate::proofs::Beyond::beyond_above, crate::proofs::Beyond::beyond_after))]
fn from_behind(alloc: Global, range: KeyRange, place: &[u8]) -> Result<KeyRange, NoMemory>
    ensures { IfOk result (λ r. IsBeyond true (Some place.now) range.from range.to r.from r.to) }
{
    let KeyRange { from, to } = range;
    if from.as_slice().cmp(place).is_gt() {
        return Ok(KeyRange { from, to });
    }
    let mut above = Vec::from_slice(alloc, place)?;
    above.push(0)?;
    Ok(KeyRange {
        from: Bytes::from_vec(above),
        to,
    })
}

/// The lesser of an end, if there is one, and a place.
#[tactic(auto, using(crate::proofs::Beyond::lesser_end, crate::proofs::Beyond::lesser_place, crate::proofs::Beyond::lesser_alone))]
fn earlier(end: Option<Bytes>, place: Bytes) -> Bytes
    ensures { IsLesser end place result }
{
    match end {
        Some(end) if end.as_slice().cmp(place.as_slice()).is_lt() => end,
        _ => place,
    }
}
