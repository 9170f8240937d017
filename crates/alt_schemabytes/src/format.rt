//! The bytes of a description, as docs/formats/descriptions.md lays them out.

ghost use Rattle.std.specs.Prelude.{◌≡◌, ◌++◌, ◌∷◌, OnOk, OnErr};
ghost use Rattle.alt_base.specs.Prefix.{IsPrefix};
ghost use Rattle.alt_fields.specs.Field.{field};
ghost use Rattle.alt_schemabytes.specs.Format.{each, counted_list, view_byte, stream_bytes, kind_byte, definition_bytes, range_bytes, keys_bytes, projection_bytes, index_bytes, head_bytes, description_bytes};

use alt_base::NoMemory;
use alt_fields::{put_bytes, put_u32, put_u64};
use alt_schema::{IndexSchema, KeyAttr, Projection, TableSchema, View};
use alt_value::{KeyKind, Text};

/// Appends the bytes of a description. Where memory is wanting, a part of them may stand there.
pub fn schema_bytes(s: &TableSchema, out: &mut Vec<u8>) -> Result<(), NoMemory>
    ensures appended { OnOk result (out.new.items ≡ out.old.items ++ description_bytes s.now) }
    ensures begun { OnErr result (IsPrefix out.old.items out.new.items) }
{
    put_head(out, s)?;
    put_stream(out, s.view, s.stream_family)?;
    put_definitions(out, s.definitions.as_slice())?;
    put_keys(out, &s.hash, &s.range)?;
    put_indexes(out, s.locals.as_slice())?;
    put_indexes(out, s.globals.as_slice())
}

fn put_head(out: &mut Vec<u8>, s: &TableSchema) -> Result<(), NoMemory>
    ensures appended { OnOk result (out.new.items ≡ out.old.items ++ head_bytes s.now) }
    ensures begun { OnErr result (IsPrefix out.old.items out.new.items) }
{
    put_text(out, &s.name)?;
    put_u64(out, s.created)?;
    put_u64(out, s.number)?;
    put_u32(out, s.family)
}

fn put_text(out: &mut Vec<u8>, text: &Text) -> Result<(), NoMemory>
    ensures appended { OnOk result (out.new.items ≡ out.old.items ++ field text.now) }
    ensures begun { OnErr result (IsPrefix out.old.items out.new.items) }
{
    put_bytes(out, text.as_str().as_bytes())
}

fn put_stream(out: &mut Vec<u8>, view: Option<View>, family: Option<u32>) -> Result<(), NoMemory>
    ensures appended { OnOk result
        (out.new.items ≡ out.old.items ++ view_byte view ∷ stream_bytes family) }
    ensures begun { OnErr result (IsPrefix out.old.items out.new.items) }
{
    out.push(view_byte(view))?;
    match family {
        Some(family) => put_u32(out, family),
        None => Ok(()),
    }
}

fn view_byte(view: Option<View>) -> u8
    ensures { result ≡ view_byte view }
{
    match view {
        None => 0,
        Some(View::KeysOnly) => 1,
        Some(View::NewImage) => 2,
        Some(View::OldImage) => 3,
        Some(View::NewAndOldImages) => 4,
    }
}

fn put_definitions(out: &mut Vec<u8>, definitions: &[KeyAttr]) -> Result<(), NoMemory>
    ensures appended { OnOk result
        (out.new.items ≡ out.old.items ++ counted_list definition_bytes definitions.now) }
    ensures begun { OnErr result (IsPrefix out.old.items out.new.items) }
{
    put_u64(out, definitions.len() as u64)?;
    put_each_definition(out, definitions)
}

fn put_each_definition(out: &mut Vec<u8>, definitions: &[KeyAttr]) -> Result<(), NoMemory>
    ensures appended { OnOk result
        (out.new.items ≡ out.old.items ++ each definition_bytes definitions.now) }
    ensures begun { OnErr result (IsPrefix out.old.items out.new.items) }
{
    for definition in definitions {
        put_definition(out, definition)?;
    }
    Ok(())
}

fn put_definition(out: &mut Vec<u8>, definition: &KeyAttr) -> Result<(), NoMemory>
    ensures appended { OnOk result
        (out.new.items ≡ out.old.items ++ definition_bytes definition.now) }
    ensures begun { OnErr result (IsPrefix out.old.items out.new.items) }
{
    put_text(out, &definition.name)?;
    out.push(kind_byte(definition.kind))?;
    Ok(())
}

fn kind_byte(kind: KeyKind) -> u8
    ensures { result ≡ kind_byte kind }
{
    match kind {
        KeyKind::S => 1,
        KeyKind::N => 2,
        KeyKind::B => 3,
    }
}

fn put_keys(out: &mut Vec<u8>, hash: &KeyAttr, range: &Option<KeyAttr>) -> Result<(), NoMemory>
    ensures appended { OnOk result
        (out.new.items ≡ out.old.items ++ keys_bytes hash.now range.now) }
    ensures begun { OnErr result (IsPrefix out.old.items out.new.items) }
{
    put_text(out, &hash.name)?;
    put_range(out, range)
}

fn put_range(out: &mut Vec<u8>, range: &Option<KeyAttr>) -> Result<(), NoMemory>
    ensures appended { OnOk result (out.new.items ≡ out.old.items ++ range_bytes range.now) }
    ensures begun { OnErr result (IsPrefix out.old.items out.new.items) }
{
    match range {
        Some(range) => {
            out.push(1)?;
            put_text(out, &range.name)
        }
        None => {
            out.push(0)?;
            Ok(())
        }
    }
}

fn put_indexes(out: &mut Vec<u8>, indexes: &[IndexSchema]) -> Result<(), NoMemory>
    ensures appended { OnOk result
        (out.new.items ≡ out.old.items ++ counted_list index_bytes indexes.now) }
    ensures begun { OnErr result (IsPrefix out.old.items out.new.items) }
{
    put_u64(out, indexes.len() as u64)?;
    put_each_index(out, indexes)
}

fn put_each_index(out: &mut Vec<u8>, indexes: &[IndexSchema]) -> Result<(), NoMemory>
    ensures appended { OnOk result (out.new.items ≡ out.old.items ++ each index_bytes indexes.now) }
    ensures begun { OnErr result (IsPrefix out.old.items out.new.items) }
{
    for index in indexes {
        put_index(out, index)?;
    }
    Ok(())
}

fn put_index(out: &mut Vec<u8>, index: &IndexSchema) -> Result<(), NoMemory>
    ensures appended { OnOk result (out.new.items ≡ out.old.items ++ index_bytes index.now) }
    ensures begun { OnErr result (IsPrefix out.old.items out.new.items) }
{
    put_text(out, &index.name)?;
    put_u32(out, index.family)?;
    put_keys(out, &index.hash, &index.range)?;
    put_projection(out, &index.projection)
}

fn put_projection(out: &mut Vec<u8>, projection: &Projection) -> Result<(), NoMemory>
    ensures appended { OnOk result
        (out.new.items ≡ out.old.items ++ projection_bytes projection.now) }
    ensures begun { OnErr result (IsPrefix out.old.items out.new.items) }
{
    match projection {
        Projection::All => {
            out.push(1)?;
            Ok(())
        }
        Projection::KeysOnly => {
            out.push(2)?;
            Ok(())
        }
        Projection::Include(names) => {
            out.push(3)?;
            put_names(out, names.as_slice())
        }
    }
}

fn put_names(out: &mut Vec<u8>, names: &[Text]) -> Result<(), NoMemory>
    ensures appended { OnOk result (out.new.items ≡ out.old.items ++ counted_list field names.now) }
    ensures begun { OnErr result (IsPrefix out.old.items out.new.items) }
{
    put_u64(out, names.len() as u64)?;
    put_each_name(out, names)
}

fn put_each_name(out: &mut Vec<u8>, names: &[Text]) -> Result<(), NoMemory>
    ensures appended { OnOk result (out.new.items ≡ out.old.items ++ each field names.now) }
    ensures begun { OnErr result (IsPrefix out.old.items out.new.items) }
{
    for name in names {
        put_text(out, name)?;
    }
    Ok(())
}
