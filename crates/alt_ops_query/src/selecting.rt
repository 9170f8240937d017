//! Members of a request for a list that don't go together.

ghost use Rattle.std.specs.Prelude.{◌≡◌};
ghost use Rattle.serde_json.specs.View.{members_view};
ghost use Rattle.alt_machine.specs.Lists as machine;
ghost use Rattle.alt_machine.specs.Sources.{selects};

use alt_request::asks;
use alt_shape::given;
use serde_json::{Map, Value};

/// Whether Select doesn't go with the projection or the index.
pub(crate) fn is_mismatched(body: &Map<String, Value>) -> bool
    ensures { result ≡ machine.is_mismatched (members_view body.now.entries) }
{
    is_projection_odd(body) || is_select_odd(body)
}

/// There is a projection, as an expression or as a list of names.
fn gives_parts(body: &Map<String, Value>) -> bool
    ensures { result ≡ machine.gives_parts (members_view body.now.entries) }
{
    is_given(body, "ProjectionExpression") || is_given(body, "AttributesToGet")
}

/// There is one, and Select says something else.
fn is_projection_odd(body: &Map<String, Value>) -> bool
    ensures { result ≡ machine.is_projection_odd (members_view body.now.entries) }
{
    gives_parts(body) && is_given(body, "Select") && !selects(body, "SPECIFIC_ATTRIBUTES")
}

/// Select asks for what isn't there: a projection, or an index.
fn is_select_odd(body: &Map<String, Value>) -> bool
    ensures { result ≡ machine.is_select_odd (members_view body.now.entries) }
{
    (selects(body, "SPECIFIC_ATTRIBUTES") && !gives_parts(body))
        || (selects(body, "ALL_PROJECTED_ATTRIBUTES") && !is_given(body, "IndexName"))
}

fn is_given(body: &Map<String, Value>, name: &str) -> bool
    ensures { result ≡ machine.is_given name.now (members_view body.now.entries) }
{
    given(body, name).is_some()
}

/// Whether Select is that word.
pub(crate) fn selects(body: &Map<String, Value>, word: &str) -> bool
    ensures { result ≡ selects word.now (members_view body.now.entries) }
{
    asks(body, "Select", word)
}
