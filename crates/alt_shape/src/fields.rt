//! Reading the members of a body whose rules hold.

ghost use Rattle.std.specs.Prelude.{◌≡◌, option_map, option_and_then};
ghost use Rattle.serde_json.specs.Find.{as_bool, as_str, as_array, as_object};
ghost use Rattle.serde_json.specs.View.{items_view, members_view};
ghost use Rattle.alt_shape.specs.Shape.{given, natural_of};

use crate::checking::given;
use serde_json::{Map, Value};

/// The text at a name; none where the member is absent or of another kind.
pub fn text_at<'v>(body: &'v Map<String, Value>, name: &str) -> Option<&'v str>
    ensures { option_map (λ s. s.now) result
        ≡ option_and_then as_str (given name.now (members_view body.now.entries)) }
{
    given(body, name)?.as_str()
}

/// The whole number at a name, where it isn't negative; none where the member is absent or of
/// another kind.
pub fn whole_at(body: &Map<String, Value>, name: &str) -> Option<u64>
    ensures { result
        ≡ option_and_then natural_of (given name.now (members_view body.now.entries)) }
{
    given(body, name)?.as_u64()
}

/// The truth value at a name; none where the member is absent or of another kind.
pub fn truth_at(body: &Map<String, Value>, name: &str) -> Option<bool>
    ensures { result ≡ option_and_then as_bool (given name.now (members_view body.now.entries)) }
{
    given(body, name)?.as_bool()
}

/// The object at a name; none where the member is absent or of another kind.
pub fn object_at<'v>(body: &'v Map<String, Value>, name: &str) -> Option<&'v Map<String, Value>>
    ensures { option_map (λ m. members_view m.now.entries) result
        ≡ option_and_then as_object (given name.now (members_view body.now.entries)) }
{
    given(body, name)?.as_object()
}

/// The array at a name; none where the member is absent or of another kind.
pub fn array_at<'v>(body: &'v Map<String, Value>, name: &str) -> Option<&'v Vec<Value>>
    ensures { option_map (λ v. items_view v.now.items) result
        ≡ option_and_then as_array (given name.now (members_view body.now.entries)) }
{
    given(body, name)?.as_array()
}

/// Reads a member of a body that `check` let pass, by the name and the kind of its rule, as
/// `field!(body, "Limit": whole)`. A kind is `text` (of a word too), `whole`, `truth`, `object` or
/// `array`. Of a body that `check` let pass the answer is None exactly where the member is absent.
#[macro_export]
macro_rules! field {
    ($body:expr, $name:literal : text) => {
        $crate::text_at($body, $name)
    };
    ($body:expr, $name:literal : whole) => {
        $crate::whole_at($body, $name)
    };
    ($body:expr, $name:literal : truth) => {
        $crate::truth_at($body, $name)
    };
    ($body:expr, $name:literal : object) => {
        $crate::object_at($body, $name)
    };
    ($body:expr, $name:literal : array) => {
        $crate::array_at($body, $name)
    };
}
