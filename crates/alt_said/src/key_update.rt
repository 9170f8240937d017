//! Whether an update changes a key attribute of its table, which none may.

ghost use Rattle.std.specs.Prelude.{◌≡◌};
ghost use Rattle.std.specs.List.{list_any};
ghost use Rattle.alt_expr.specs.UpdateLanguage.{target};
ghost use Rattle.alt_machine.specs.Expressions as machine;
ghost use Rattle.alt_schema.specs.Indexes.{is_key, has_key_name};

use alt_expr::{Action, PathPart, Update};
use alt_schema::{KeyAttr, TableSchema};

/// Whether an update changes a key attribute, or a part of one.
pub(crate) fn changes_key(schema: &TableSchema, update: &Option<Update>) -> bool
    ensures key { result ≡ machine.changes_key schema.now update.now }
{
    match update {
        Some(update) => some_changes_key(schema, update.as_slice()),
        None => false,
    }
}

fn some_changes_key(schema: &TableSchema, actions: &[Action]) -> bool
    ensures { result ≡ list_any (λ a. machine.begins_with_key schema.now (target a)) actions.now }
{
    actions.iter().any(|action| is_key_change(schema, action))
}

fn is_key_change(schema: &TableSchema, action: &Action) -> bool
    ensures { result ≡ machine.begins_with_key schema.now (target action.now) }
{
    match action {
        Action::Set(path, _) => begins_with_key(schema, path.as_slice()),
        Action::Remove(path) => begins_with_key(schema, path.as_slice()),
        Action::Add(name, _) => is_key(schema, name.get().as_str()),
        Action::Delete(name, _) => is_key(schema, name.get().as_str()),
    }
}

fn begins_with_key(schema: &TableSchema, path: &[PathPart]) -> bool
    ensures { result ≡ machine.begins_with_key schema.now path.now }
{
    match path {
        [PathPart::Name(name), ..] => is_key(schema, name.get().as_str()),
        _ => false,
    }
}

fn is_key(schema: &TableSchema, name: &str) -> bool
    ensures { result ≡ is_key schema.now.hash schema.now.range name.now }
{
    let is_range = match &schema.range {
        Some(range) => has_key_name(range, name),
        None => false,
    };
    has_key_name(&schema.hash, name) || is_range
}

fn has_key_name(key: &KeyAttr, name: &str) -> bool
    ensures { result ≡ has_key_name name.now key.now }
{
    key.name.as_str() == name
}
