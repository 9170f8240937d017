//! The kind of a value, by its name.

ghost use Rattle.std.specs.Prelude.{◌≡◌};
ghost use Rattle.alt_value.specs.Stands.{tree_of};
ghost use Rattle.alt_expr.specs.Holds as spec;
ghost use Rattle.alt_condeval.specs.Denoted.{stands_for};

use crate::denoted::Denoted;
use alt_value::Attr;

/// The value is there, and its kind is what the text names.
pub fn has_kind(a: &Denoted<'_>, name: &Denoted<'_>) -> bool
    ensures { result ≡ spec.has_kind (stands_for a.now) (stands_for name.now) }
{
    match a.get() {
        Some(value) => match name.get() {
            Some(Attr::S(text)) => kind_of(value) == text.as_str(),
            _ => false,
        },
        None => false,
    }
}

fn kind_of(value: &Attr) -> &'static str
    ensures { result.now ≡ spec.kind_of (tree_of value.now) }
{
    match value {
        Attr::S(_) => "S",
        Attr::N(_) => "N",
        Attr::B(_) => "B",
        Attr::Bool(_) => "BOOL",
        Attr::Null => "NULL",
        Attr::Ss(_) => "SS",
        Attr::Ns(_) => "NS",
        Attr::Bs(_) => "BS",
        Attr::L(_) => "L",
        Attr::M(_) => "M",
    }
}
