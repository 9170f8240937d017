//! What holds of each description that the program has, and what the reading of its bytes rests on.

ghost use Rattle.std.specs.Prelude.{◌<◌, ◌^◌, length};
ghost use Rattle.std.specs.List.{AllByRecursion};
ghost use Rattle.alt_schemabytes.specs.Held.{IsHeldText, Where, IsHeldBuilt, IsHeldProjection, IsHeldIndex, IsHeld};

use alt_schema::{Built, IndexSchema, KeyAttr, Projection, TableSchema};
use alt_value::Text;

/// What each description of the program is, valid or not: its texts are UTF-8, and its numbers, lengths
/// and counts fit. The call walks through it and does nothing else; a caller makes it where a proof
/// needs the fact.
pub fn held(s: &TableSchema)
    ensures held { IsHeld s.now }
{
    text_held(&s.name);
    let _created = s.created;
    let _number = s.number;
    let _family = s.family;
    family_held(s.stream_family);
    definitions_held(s.definitions.as_slice());
    text_held(&s.hash.name);
    range_held(&s.range);
    indexes_held(s.locals.as_slice());
    indexes_held(s.globals.as_slice());
    time_held(&s.ttl);
}

fn family_held(family: Option<u32>)
    ensures { Where (λ f. f < 2 ^ 32) family }
{
    if let Some(family) = family {
        let _family = family;
    }
}

fn text_held(text: &Text)
    ensures { IsHeldText text.now }
{
    let text = text.as_str();
    let _length = text.len();
}

fn time_held(name: &Option<Text>)
    ensures { Where IsHeldText name.now }
{
    if let Some(name) = name {
        text_held(name);
    }
}

fn definitions_held(definitions: &[KeyAttr])
    ensures count { length definitions.now < 2 ^ 64 }
    ensures each { AllByRecursion (λ d. IsHeldText d.name) definitions.now }
{
    let _count = definitions.len();
    for definition in definitions {
        text_held(&definition.name);
    }
}

fn range_held(range: &Option<KeyAttr>)
    ensures { Where (λ k. IsHeldText k.name) range.now }
{
    if let Some(key) = range {
        text_held(&key.name);
    }
}

fn indexes_held(indexes: &[IndexSchema])
    ensures count { length indexes.now < 2 ^ 64 }
    ensures each { AllByRecursion IsHeldIndex indexes.now }
{
    let _count = indexes.len();
    for index in indexes {
        index_held(index);
    }
}

fn index_held(index: &IndexSchema)
    ensures { IsHeldIndex index.now }
{
    text_held(&index.name);
    let _family = index.family;
    text_held(&index.hash.name);
    range_held(&index.range);
    projection_held(&index.projection);
    built_held(&index.built);
}

fn built_held(built: &Built)
    ensures { IsHeldBuilt built.now }
{
    match built {
        Built::Whole => {}
        Built::UpTo(None) => {}
        Built::UpTo(Some(key)) => {
            let _count = key.len();
        }
    }
}

fn projection_held(projection: &Projection)
    ensures { IsHeldProjection projection.now }
{
    if let Projection::Include(names) = projection {
        names_held(names.as_slice());
    }
}

fn names_held(names: &[Text])
    ensures count { length names.now < 2 ^ 64 }
    ensures each { AllByRecursion IsHeldText names.now }
{
    let _count = names.len();
    for name in names {
        text_held(name);
    }
}
