//! Which index of its table a request reads.

ghost use Rattle.std.specs.Prelude.{◌≡◌, ◌<◌, IfOk, IfSome, length};
ghost use Rattle.serde_json.specs.View.{members_view};
ghost use Rattle.alt_machine.specs.Sources as machine;
ghost use Rattle.alt_request.specs.Steps.{Comes};
ghost use Rattle.alt_schema.specs.Indexes.{indexes};
ghost use Rattle.alt_views.specs.Readable.{CanRead};

use alt_said::{Stop, asks};
use alt_schema::{Projection, TableSchema};
use alt_shape::{Refusal, text_at, truth_at};
use alt_views::{index_at, index_named};
use serde_json::{Map, Value};

/// The number of the index at IndexName, none where there is no such member. It is one of the table's, and may be read as the body asks:
/// all attributes are asked only of one that keeps all, and a consistent read only of a local one.
pub(crate) fn index_asked(
    schema: &TableSchema,
    body: &Map<String, Value>,
) -> Result<Option<usize>, Stop>
    ensures asked { Comes (λ number. number)
        (machine.index_asked schema.now (members_view body.now.entries)) result }
    ensures read { IfOk result (λ index. IfSome index (λ number. CanRead schema.now number)) }
{
    let Some(name) = text_at(body, "IndexName") else {
        return Ok(None);
    };
    let Some(number) = index_named(schema, name) else {
        return Err(Stop::Refused(Refusal::NO_SUCH_INDEX));
    };
    if lacks_attributes(schema, number, body) || lacks_consistency(schema, number, body) {
        return Err(Stop::Refused(Refusal::NOT_TOGETHER));
    }
    Ok(Some(number))
}

/// Whether all attributes are asked of an index that doesn't keep them.
fn lacks_attributes(schema: &TableSchema, number: usize, body: &Map<String, Value>) -> bool
    requires there { number < length (indexes schema.now) }
    ensures { result
        ≡ machine.lacks_attributes schema.now number (members_view body.now.entries) }
{
    asks(body, "Select", "ALL_ATTRIBUTES") && !keeps_all(&index_at(schema, number).projection)
}

fn keeps_all(projection: &Projection) -> bool
    ensures { result ≡ machine.keeps_all projection.now }
{
    match projection {
        Projection::All => true,
        Projection::KeysOnly => false,
        Projection::Include(_) => false,
    }
}

/// Whether a consistent read is asked of a global index; the local ones come first.
fn lacks_consistency(schema: &TableSchema, number: usize, body: &Map<String, Value>) -> bool
    ensures { result
        ≡ machine.lacks_consistency schema.now number (members_view body.now.entries) }
{
    truth_at(body, "ConsistentRead").unwrap_or(false) && schema.locals.as_slice().len() <= number
}
