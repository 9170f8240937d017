//! The description that the body of a CreateTable states.

ghost use Rattle.std.specs.Prelude.{◌≡◌, ◌+◌, ◌-◌, ◌^◌, ◌<◌, [], None, length, option_map, slice_get, IfOk, IfErr, OnOk};
ghost use Rattle.std.specs.List.{find};
ghost use Rattle.std.specs.Option.{option_map_or};
ghost use Rattle.std.specs.Str.{bytes_eq};
ghost use Rattle.serde_json.specs.View.{members_view};
ghost use Rattle.alt_schema.specs.Described.{kind_in, key_attr, hash_of_key_schema, range_of_key_schema, projection_for, index_for, indexes_from, described_by, description_of, SchemaFaultApplies, IsKnownFault, IsNew};
ghost use Rattle.alt_schema.specs.Rules.{create_table_refusal, refused_for};

use crate::reading::stated_of_json;
use crate::rules::refused_for;
use crate::stated::{Element, Stated, StatedIndex};
use alt_base::NoMemory;
use alt_description::{
    Built, IndexList, IndexSchema, KeyAttr, Projection, TableSchema, TextList, copied_texts,
};
use alt_shape::Refusal;
use alt_value::{KeyKind, Text};
use serde_json::{Map, Value};
use std::alloc::Global;

/// Why a body is not described: it is refused, or memory was wanting.
#[derive(Clone, Copy, Debug, PartialEq, Eq)]
pub enum SchemaFault {
    Refused(Refusal),
    NoMemory,
}

impl From<NoMemory> for SchemaFault {
    ghost use Rattle.alt_schema.specs.declared.described.SchemaFault.{SchemaFault};

    ghost from_gives = { λ e fault. fault ≡ SchemaFault.NoMemory };

    fn from(_: NoMemory) -> SchemaFault {
        SchemaFault::NoMemory
    }
}

/// The description that the body of a CreateTable states, made at `moment` by the write `number`.
/// The table takes `family`, and its local indexes, global indexes and stream take those after it.
/// A body is refused exactly where a table or index name is bad, then a key schema or the
/// definitions, then an index (docs/API.md, "CreateTable").
#[tactic(auto, unfolding(crate::specs::Described::description_of, crate::specs::Rules::create_table_refusal))]
pub fn schema_of_json(
    alloc: Global,
    body: &Map<String, Value>,
    moment: u64,
    number: u64,
    family: u32,
) -> Result<TableSchema, SchemaFault>
    requires room { family + 26 < 2 ^ 32 - 1 }
    ensures taken { OnOk result (create_table_refusal (members_view body.now.entries) ≡ None) }
    ensures described { IfOk result (λ s. s
        ≡ description_of (members_view body.now.entries) moment number family) }
    ensures valid { IfOk result IsNew }
    ensures cause { IfErr result (SchemaFaultApplies (members_view body.now.entries)) }
    ensures known { IfErr result IsKnownFault }
{
    let stated = stated_of_json(alloc, body)?;
    let refused = refused_for(alloc, &stated)?;
    match refused {
        Some(refusal) => Err(SchemaFault::Refused(refusal)),
        None => Ok(described(alloc, stated, moment, number, family)?),
    }
}

#[tactic(auto, using(crate::proofs::NewDescriptions::few_locals, crate::proofs::NewDescriptions::few_globals), unfolding(crate::specs::Described::described_by))]
fn described(
    alloc: Global,
    b: Stated,
    moment: u64,
    number: u64,
    family: u32,
) -> Result<TableSchema, NoMemory>
    requires taken { refused_for b ≡ None }
    requires room { family + 26 < 2 ^ 32 - 1 }
    ensures { IfOk result (λ s. s ≡ described_by b moment number family) }
{
    let definitions = b.definitions.as_slice();
    let first_local = family + 1;
    let first_global = first_local + b.locals.as_slice().len() as u32;
    let last = first_global + b.globals.as_slice().len() as u32;
    let hash = hash_of(alloc, definitions, b.keys.as_slice())?;
    let range = range_of(alloc, definitions, b.keys.as_slice())?;
    let locals = indexes_from(alloc, definitions, first_local, b.locals.as_slice())?;
    let globals = indexes_from(alloc, definitions, first_global, b.globals.as_slice())?;
    Ok(TableSchema {
        name: b.name,
        definitions: b.definitions,
        hash,
        range,
        locals,
        globals,
        view: b.view,
        stream_family: b.view.map(|_| last),
        created: moment,
        number,
        family,
        ttl: None,
    })
}

fn kind_in(definitions: &[KeyAttr], name: &str) -> KeyKind
    ensures { result ≡ kind_in definitions.now name.now }
{
    match definition_named(definitions, name) {
        Some(definition) => definition.kind,
        None => KeyKind::S,
    }
}

fn definition_named<'d>(definitions: &'d [KeyAttr], name: &str) -> Option<&'d KeyAttr>
    ensures { option_map (λ d. d.now) result
        ≡ find (λ d. bytes_eq d.name name.now) definitions.now }
{
    definitions
        .iter()
        .find(|definition| definition.name.as_str() == name)
}

fn key_attr(alloc: Global, definitions: &[KeyAttr], name: &str) -> Result<KeyAttr, NoMemory>
    ensures { IfOk result (λ k. k ≡ key_attr definitions.now name.now) }
{
    Ok(KeyAttr {
        name: Text::new(alloc, name)?,
        kind: kind_in(definitions, name),
    })
}

fn hash_of(alloc: Global, definitions: &[KeyAttr], keys: &[Element]) -> Result<KeyAttr, NoMemory>
    ensures { IfOk result (λ k. k ≡ hash_of_key_schema definitions.now keys.now) }
{
    key_attr(alloc, definitions, first_name(keys))
}

fn first_name(keys: &[Element]) -> &str
    ensures { result.now ≡ option_map_or (λ e. e.name) (slice_get keys.now 0) [] }
{
    match keys.first() {
        Some(hash) => hash.name.as_str(),
        None => "",
    }
}

fn range_of(
    alloc: Global,
    definitions: &[KeyAttr],
    keys: &[Element],
) -> Result<Option<KeyAttr>, NoMemory>
    ensures { IfOk result (λ k. k ≡ range_of_key_schema definitions.now keys.now) }
{
    match keys.get(1) {
        Some(range) => Ok(Some(key_attr(alloc, definitions, range.name.as_str())?)),
        None => Ok(None),
    }
}

/// The indexes of a list, which take the families from the given one on.
fn indexes_from(
    alloc: Global,
    definitions: &[KeyAttr],
    family: u32,
    indexes: &[StatedIndex],
) -> Result<IndexList, NoMemory>
    requires room { family + length indexes.now < 2 ^ 32 }
    ensures { IfOk result (λ is. is ≡ indexes_from definitions.now family indexes.now) }
{
    let mut list = IndexList::new(alloc);
    for (i, index) in indexes.iter().enumerate() {
        list.push(index_for(alloc, definitions, family + i as u32, index)?)?;
    }
    Ok(list)
}

pub(crate) fn index_for(
    alloc: Global,
    definitions: &[KeyAttr],
    family: u32,
    index: &StatedIndex,
) -> Result<IndexSchema, NoMemory>
    ensures { IfOk result (λ i. i ≡ index_for definitions.now family index.now) }
{
    let keys = index.keys.as_slice();
    Ok(IndexSchema {
        name: index.name.copy()?,
        hash: hash_of(alloc, definitions, keys)?,
        range: range_of(alloc, definitions, keys)?,
        projection: projection_for(alloc, index.projects.as_str(), &index.includes)?,
        family,
        built: Built::Whole,
    })
}

fn projection_for(
    alloc: Global,
    word: &str,
    names: &Option<TextList>,
) -> Result<Projection, NoMemory>
    ensures { IfOk result (λ p. p ≡ projection_for word.now names.now) }
{
    match names {
        Some(names) => Ok(Projection::Include(copied_texts(alloc, names.as_slice())?)),
        None if word == "ALL" => Ok(Projection::All),
        None => Ok(Projection::KeysOnly),
    }
}
