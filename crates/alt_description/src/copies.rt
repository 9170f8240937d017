//! Copies of descriptions and of what they hold.

ghost use Rattle.std.specs.List.{list_any};
ghost use Rattle.std.specs.Prelude.{◌≡◌, IfOk, map, IfSome, IfNone, false, ◌==◌};
ghost use Rattle.alt_description.specs.SoFar.{index_of_family, index_so_far, schema_of_family, schema_so_far};

use crate::{
    Built, IndexList, IndexSchema, KeyAttr, KeyAttrList, Projection, TableSchema, TextList,
};
use alt_base::NoMemory;
use alt_value::Text;
use std::alloc::Global;

/// The same description once more. Fails for want of memory alone.
pub fn copied_schema(alloc: Global, s: &TableSchema) -> Result<TableSchema, NoMemory>
    ensures same { IfOk result (λ e. e ≡ s.now) }
{
    Ok(TableSchema {
        name: s.name.copy()?,
        definitions: copied_keys(alloc, s.definitions.as_slice())?,
        hash: copied_key(&s.hash)?,
        range: copied_range(&s.range)?,
        locals: copied_indexes(alloc, s.locals.as_slice())?,
        globals: copied_indexes(alloc, s.globals.as_slice())?,
        view: s.view,
        stream_family: s.stream_family,
        created: s.created,
        number: s.number,
        family: s.family,
        ttl: copied_text(&s.ttl)?,
    })
}

/// The same with what is being built of it built so far. Fails for want of memory alone.
pub fn built_copy(alloc: Global, s: &TableSchema, built: &Built) -> Result<TableSchema, NoMemory>
    ensures built { IfOk result (λ e. e ≡ schema_so_far built.now s.now) }
{
    let mut later = copied_schema(alloc, s)?;
    later.globals = built_indexes(alloc, s.globals.as_slice(), built)?;
    Ok(later)
}

fn built_indexes(
    alloc: Global,
    indexes: &[IndexSchema],
    built: &Built,
) -> Result<IndexList, NoMemory>
    ensures { IfOk result (λ is. is ≡ map (index_so_far built.now) indexes.now) }
{
    let mut list = IndexList::new(alloc);
    for index in indexes {
        list.push(built_index(alloc, index, built)?)?;
    }
    Ok(list)
}

/// An index once more, built so far if it is being built.
fn built_index(alloc: Global, index: &IndexSchema, built: &Built) -> Result<IndexSchema, NoMemory>
    ensures { IfOk result (λ i. i ≡ index_so_far built.now index.now) }
{
    let mut copy = copied_index(alloc, index)?;
    if !index.built.is_whole() {
        copy.built = copied_built(built)?;
    }
    Ok(copy)
}

/// The description with its global index of a family built so far, none where no index has it. Fails for want of memory alone.
pub fn with_built(
    alloc: Global,
    s: &TableSchema,
    family: u32,
    built: Built,
) -> Result<Option<TableSchema>, NoMemory>
    ensures built { IfOk result (λ o. IfSome o (λ e. e ≡ schema_of_family family built s.now)) }
    ensures none { IfOk result (λ o. IfNone o
        (list_any (λ i. i.family == family) s.now.globals ≡ false)) }
{
    if !has_family(s.globals.as_slice(), family) {
        return Ok(None);
    }
    let mut later = copied_schema(alloc, s)?;
    later.globals = family_indexes(alloc, s.globals.as_slice(), family, &built)?;
    Ok(Some(later))
}

fn has_family(indexes: &[IndexSchema], family: u32) -> bool
    ensures { result ≡ list_any (λ i. i.family == family) indexes.now }
{
    indexes.iter().any(|index| index.family == family)
}

fn family_indexes(
    alloc: Global,
    indexes: &[IndexSchema],
    family: u32,
    built: &Built,
) -> Result<IndexList, NoMemory>
    ensures { IfOk result (λ is. is ≡ map (index_of_family family built.now) indexes.now) }
{
    let mut list = IndexList::new(alloc);
    for index in indexes {
        list.push(family_index(alloc, index, family, built)?)?;
    }
    Ok(list)
}

/// An index once more, built so far if it has that family.
fn family_index(
    alloc: Global,
    index: &IndexSchema,
    family: u32,
    built: &Built,
) -> Result<IndexSchema, NoMemory>
    ensures { IfOk result (λ i. i ≡ index_of_family family built.now index.now) }
{
    let mut copy = copied_index(alloc, index)?;
    if index.family == family {
        copy.built = copied_built(built)?;
    }
    Ok(copy)
}

/// The same key attributes once more. Fails for want of memory alone, as those of one of them, of an index and of texts.
pub fn copied_keys(alloc: Global, keys: &[KeyAttr]) -> Result<KeyAttrList, NoMemory>
    ensures { IfOk result (λ ks. ks ≡ keys.now) }
{
    let mut list = KeyAttrList::new(alloc);
    for key in keys {
        list.push(copied_key(key)?)?;
    }
    Ok(list)
}

/// The same key attribute once more.
pub fn copied_key(key: &KeyAttr) -> Result<KeyAttr, NoMemory>
    ensures { IfOk result (λ k. k ≡ key.now) }
{
    Ok(KeyAttr {
        name: key.name.copy()?,
        kind: key.kind,
    })
}

fn copied_range(range: &Option<KeyAttr>) -> Result<Option<KeyAttr>, NoMemory>
    ensures { IfOk result (λ r. r ≡ range.now) }
{
    match range {
        Some(range) => Ok(Some(copied_key(range)?)),
        None => Ok(None),
    }
}

fn copied_indexes(alloc: Global, indexes: &[IndexSchema]) -> Result<IndexList, NoMemory>
    ensures { IfOk result (λ is. is ≡ indexes.now) }
{
    let mut list = IndexList::new(alloc);
    for index in indexes {
        list.push(copied_index(alloc, index)?)?;
    }
    Ok(list)
}

/// The same index once more.
pub fn copied_index(alloc: Global, index: &IndexSchema) -> Result<IndexSchema, NoMemory>
    ensures { IfOk result (λ i. i ≡ index.now) }
{
    Ok(IndexSchema {
        name: index.name.copy()?,
        hash: copied_key(&index.hash)?,
        range: copied_range(&index.range)?,
        projection: copied_projection(alloc, &index.projection)?,
        family: index.family,
        built: copied_built(&index.built)?,
    })
}

fn copied_projection(alloc: Global, projection: &Projection) -> Result<Projection, NoMemory>
    ensures { IfOk result (λ p. p ≡ projection.now) }
{
    match projection {
        Projection::All => Ok(Projection::All),
        Projection::KeysOnly => Ok(Projection::KeysOnly),
        Projection::Include(names) => {
            Ok(Projection::Include(copied_texts(alloc, names.as_slice())?))
        }
    }
}

/// The same texts once more.
pub fn copied_texts(alloc: Global, names: &[Text]) -> Result<TextList, NoMemory>
    ensures { IfOk result (λ ns. ns ≡ names.now) }
{
    let mut list = TextList::new(alloc);
    for name in names {
        list.push(name.copy()?)?;
    }
    Ok(list)
}

fn copied_built(built: &Built) -> Result<Built, NoMemory>
    ensures { IfOk result (λ b. b ≡ built.now) }
{
    match built {
        Built::Whole => Ok(Built::Whole),
        Built::UpTo(None) => Ok(Built::UpTo(None)),
        Built::UpTo(Some(key)) => Ok(Built::UpTo(Some(key.copy()?))),
    }
}

fn copied_text(text: &Option<Text>) -> Result<Option<Text>, NoMemory>
    ensures { IfOk result (λ t. t ≡ text.now) }
{
    match text {
        Some(text) => Ok(Some(text.copy()?)),
        None => Ok(None),
    }
}
