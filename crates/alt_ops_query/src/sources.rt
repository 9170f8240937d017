//! What Query and Scan read: a table, or one of its indexes.

ghost use Rattle.std.specs.Prelude.{◌≡◌, ◌<◌, IfSome, option_map};
ghost use Rattle.alt_machine.specs.Sources as machine;
ghost use Rattle.alt_views.specs.Readable.{CanRead};

use alt_schema::{IndexSchema, KeyAttr, TableSchema};
use alt_views::{index_at, is_key};

/// The index of that number; where no number is told, the table itself is read.
pub(crate) fn index_of(schema: &TableSchema, number: Option<usize>) -> Option<&IndexSchema>
    requires there { IfSome number (λ n. CanRead schema.now n) }
    ensures index { option_map (λ i. i.now) result ≡ machine.index_at schema.now number }
{
    match number {
        Some(number) => Some(index_at(schema, number)),
        None => None,
    }
}

/// The HASH key by which the items lie there.
pub(crate) fn hash_of<'s>(schema: &'s TableSchema, index: Option<&'s IndexSchema>) -> &'s KeyAttr
    ensures hash { result.now ≡ machine.hash_of schema.now (option_map (λ i. i.now) index.entry) }
{
    match index {
        Some(index) => &index.hash,
        None => &schema.hash,
    }
}

/// And the RANGE key, if there is one.
pub(crate) fn range_of<'s>(
    schema: &'s TableSchema,
    index: Option<&'s IndexSchema>,
) -> Option<&'s KeyAttr>
    ensures range { option_map (λ r. r.now) result
        ≡ machine.range_of schema.now (option_map (λ i. i.now) index.entry) }
{
    match index {
        Some(index) => as_ref(&index.range),
        None => as_ref(&schema.range),
    }
}

fn as_ref(range: &Option<KeyAttr>) -> Option<&KeyAttr>
    ensures { option_map (λ r. r.now) result ≡ range.now }
{
    match range {
        Some(range) => Some(range),
        None => None,
    }
}
