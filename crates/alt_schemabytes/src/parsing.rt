//! Reads a description from its bytes, as docs/formats/descriptions.md lays them out.

ghost use Rattle.std.specs.Prelude.{◌≡◌, ℕ, [], Err, IfOk, IfErr};
ghost use Rattle.alt_schema.specs.Bare.{bare};
ghost use Rattle.alt_schema.specs.Described.{IsDescription};
ghost use Rattle.alt_schemabytes.specs.Format.{view_byte, description_bytes};
ghost use Rattle.alt_schemabytes.specs.Held.{IsHeld, IsReadAs, OneSpelling};
ghost use Rattle.alt_schemabytes.specs.Parts.{got, StopsAs, StopsAt, read_byte, read_more, read_counted, read_projection, read_index, views, read_stream, read_description_head, read_keyed, joined_description, read_description};
ghost use Rattle.alt_schemabytes.specs.Places.{IsBadDescriptionAt};

use crate::parts::{
    Stop, take_definitions, take_key, take_names, take_range, take_text, take_u32, take_u64,
};
use alt_fields::BytesFault;
use alt_schema::{
    Built, Definitions, IndexList, IndexSchema, KeyAttr, KeyAttrList, Projection, TableSchema, View,
};
use alt_value::Text;
use std::alloc::Global;

/// The description whose bytes these are. Else `Bad`, with the first place where they can't go on as
/// those of a description, or where something stands behind it; for the name of a definition that
/// stands twice, or of a key that has no definition, it is the place of its field. What stands beside the
/// bytes isn't told: each index is whole, and there is no time to live.
pub fn schema_of_bytes(alloc: Global, bytes: &[u8]) -> Result<TableSchema, BytesFault>
    ensures description { IfOk result (λ s. IsDescription s × (bytes.now ≡ description_bytes s)) }
    ensures bare { IfOk result (λ s. bare s ≡ s) }
    ensures place { (at : ℕ) → result ≡ Err (BytesFault.Bad at) → IsBadDescriptionAt bytes.now at }
    // So the bytes of a description are never bad.
    ensures again { (s : TableSchema) → IsDescription s → IsHeld s
        → bytes.now ≡ description_bytes s → IsReadAs s result }
    ensures one_spelling { OneSpelling }
{
    read_whole(alloc, bytes)
}

fn read_whole(alloc: Global, bytes: &[u8]) -> Result<TableSchema, BytesFault>
    ensures whole { IfOk result (λ s. read_description bytes.now ≡ got s []) }
    ensures place { (at : ℕ) → result ≡ Err (BytesFault.Bad at) → StopsAt bytes.now at }
{
    match take_description(alloc, bytes) {
        Ok((schema, [])) => Ok(schema),
        Ok((_, rest)) => Err(BytesFault::Bad {
            at: bytes.len().saturating_sub(rest.len()),
        }),
        Err(Stop::Left(left)) => Err(BytesFault::Bad {
            at: bytes.len().saturating_sub(left),
        }),
        Err(Stop::NoMemory) => Err(BytesFault::NoMemory),
    }
}

#[tactic(auto, unfolding(crate::specs::Parts::read_description))]
fn take_description(alloc: Global, bytes: &[u8]) -> Result<(TableSchema, &[u8]), Stop>
    ensures part { IfOk result (λ p. read_description bytes.now ≡ got p.0 p.1.now) }
    ensures stop { IfErr result (StopsAs (read_description bytes.now)) }
{
    let (head, rest) = take_head(alloc, bytes)?;
    let (definitions, rest) = take_definitions(alloc, rest)?;
    let (keyed, rest) = take_keyed(alloc, &definitions, rest)?;
    Ok((joined(head, definitions.into_list(), keyed), rest))
}

/// What stands before the definitions.
#[derive(Drop)]
pub struct Head {
    pub name: Text,
    pub created: u64,
    pub number: u64,
    pub family: u32,
    pub view: Option<View>,
    pub stream_family: Option<u32>,
}

fn joined(head: Head, definitions: KeyAttrList, keyed: Keyed) -> TableSchema
    ensures { result ≡ joined_description head definitions keyed }
{
    TableSchema {
        name: head.name,
        definitions,
        hash: keyed.hash,
        range: keyed.range,
        locals: keyed.locals,
        globals: keyed.globals,
        view: head.view,
        stream_family: head.stream_family,
        created: head.created,
        number: head.number,
        family: head.family,
        ttl: None,
    }
}

/// What stands behind the definitions.
#[derive(Drop)]
pub struct Keyed {
    pub hash: KeyAttr,
    pub range: Option<KeyAttr>,
    pub locals: IndexList,
    pub globals: IndexList,
}

#[tactic(auto, unfolding(crate::specs::Parts::read_keyed))]
fn take_keyed<'b>(
    alloc: Global,
    definitions: &Definitions<'b>,
    bytes: &'b [u8],
) -> Result<(Keyed, &'b [u8]), Stop>
    ensures part { IfOk result (λ p. read_keyed definitions.now bytes.now ≡ got p.0 p.1.now) }
    ensures stop { IfErr result (StopsAs (read_keyed definitions.now bytes.now)) }
{
    let (hash, rest) = take_key(alloc, definitions, bytes)?;
    let (range, rest) = take_range(alloc, definitions, rest)?;
    let (locals, rest) = take_indexes(alloc, definitions, rest)?;
    let (globals, rest) = take_indexes(alloc, definitions, rest)?;
    let keyed = Keyed {
        hash,
        range,
        locals,
        globals,
    };
    Ok((keyed, rest))
}

#[tactic(auto, unfolding(crate::specs::Parts::read_description_head))]
fn take_head(alloc: Global, bytes: &[u8]) -> Result<(Head, &[u8]), Stop>
    ensures part { IfOk result (λ p. read_description_head bytes.now ≡ got p.0 p.1.now) }
    ensures stop { IfErr result (StopsAs (read_description_head bytes.now)) }
{
    let (name, rest) = take_text(bytes)?;
    let (created, rest) = take_u64(rest)?;
    let (number, rest) = take_u64(rest)?;
    let (family, rest) = take_u32(rest)?;
    let (view, rest) = take_view(rest)?;
    let (stream_family, rest) = take_stream(view, rest)?;
    let name = Text::new(alloc, name)?;
    let head = Head {
        name,
        created,
        number,
        family,
        view,
        stream_family,
    };
    Ok((head, rest))
}

#[tactic(auto, unfolding(crate::specs::Parts::read_byte))]
fn take_view(bytes: &[u8]) -> Result<(Option<View>, &[u8]), Stop>
    ensures part { IfOk result (λ p. read_byte view_byte views bytes.now ≡ got p.0 p.1.now) }
    ensures stop { IfErr result (StopsAs (read_byte view_byte views bytes.now)) }
{
    match bytes {
        [byte, rest @ ..] => match *byte {
            0 => Ok((None, rest)),
            1 => Ok((Some(View::KeysOnly), rest)),
            2 => Ok((Some(View::NewImage), rest)),
            3 => Ok((Some(View::OldImage), rest)),
            4 => Ok((Some(View::NewAndOldImages), rest)),
            _ => Err(Stop::Left(bytes.len())),
        },
        [] => Err(Stop::Left(0)),
    }
}

#[tactic(auto, unfolding(crate::specs::Parts::read_stream))]
fn take_stream(view: Option<View>, bytes: &[u8]) -> Result<(Option<u32>, &[u8]), Stop>
    ensures part { IfOk result (λ p. read_stream view bytes.now ≡ got p.0 p.1.now) }
    ensures stop { IfErr result (StopsAs (read_stream view bytes.now)) }
{
    match view {
        Some(_) => {
            let (family, rest) = take_u32(bytes)?;
            Ok((Some(family), rest))
        }
        None => Ok((None, bytes)),
    }
}

#[tactic(auto, unfolding(crate::specs::Parts::read_counted))]
fn take_indexes<'b>(
    alloc: Global,
    definitions: &Definitions<'b>,
    bytes: &'b [u8],
) -> Result<(IndexList, &'b [u8]), Stop>
    ensures part { IfOk result (λ p. read_counted (λ before. read_index definitions.now) bytes.now
        ≡ got p.0 p.1.now) }
    ensures stop { IfErr result (StopsAs
        (read_counted (λ before. read_index definitions.now) bytes.now)) }
{
    let (count, rest) = take_u64(bytes)?;
    take_each_index(alloc, definitions, count, rest)
}

#[tactic(auto, using(crate::proofs::Wholes::more_step, crate::proofs::Wholes::more_stop, crate::proofs::Wholes::more_end))]
fn take_each_index<'b>(
    alloc: Global,
    definitions: &Definitions<'b>,
    count: u64,
    bytes: &'b [u8],
) -> Result<(IndexList, &'b [u8]), Stop>
    ensures part { IfOk result (λ p. read_more (λ before. read_index definitions.now) count
        [] bytes.now ≡ got p.0 p.1.now) }
    ensures stop { IfErr result (StopsAs
        (read_more (λ before. read_index definitions.now) count [] bytes.now)) }
{
    let mut list = IndexList::new(alloc);
    let mut rest = bytes;
    for _done in 0..count {
        let (index, behind) = take_index(alloc, definitions, rest)?;
        list.push(index)?;
        rest = behind;
    }
    Ok((list, rest))
}

#[tactic(auto, unfolding(crate::specs::Parts::read_index))]
fn take_index<'b>(
    alloc: Global,
    definitions: &Definitions<'b>,
    bytes: &'b [u8],
) -> Result<(IndexSchema, &'b [u8]), Stop>
    ensures part { IfOk result (λ p. read_index definitions.now bytes.now ≡ got p.0 p.1.now) }
    ensures stop { IfErr result (StopsAs (read_index definitions.now bytes.now)) }
{
    let (name, rest) = take_text(bytes)?;
    let (family, rest) = take_u32(rest)?;
    let (hash, rest) = take_key(alloc, definitions, rest)?;
    let (range, rest) = take_range(alloc, definitions, rest)?;
    let (projection, rest) = take_projection(alloc, rest)?;
    let index = IndexSchema {
        name: Text::new(alloc, name)?,
        hash,
        range,
        projection,
        family,
        built: Built::Whole,
    };
    Ok((index, rest))
}

#[tactic(auto, unfolding(crate::specs::Parts::read_projection, crate::specs::Parts::read_included, crate::specs::Parts::read_byte))]
fn take_projection(alloc: Global, bytes: &[u8]) -> Result<(Projection, &[u8]), Stop>
    ensures part { IfOk result (λ p. read_projection bytes.now ≡ got p.0 p.1.now) }
    ensures stop { IfErr result (StopsAs (read_projection bytes.now)) }
{
    match bytes {
        [byte, rest @ ..] => match *byte {
            1 => Ok((Projection::All, rest)),
            2 => Ok((Projection::KeysOnly, rest)),
            3 => {
                let (names, rest) = take_names(alloc, rest)?;
                Ok((Projection::Include(names), rest))
            }
            _ => Err(Stop::Left(bytes.len())),
        },
        [] => Err(Stop::Left(0)),
    }
}
