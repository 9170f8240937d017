//! Whether a description may be that of a table of some name, whatever other tables there are.

ghost use Rattle.std.specs.Prelude.{◌≡◌, ◌↔◌, IsTrue};
ghost use Rattle.alt_machine.specs.Building.{IsBuilt};
ghost use Rattle.alt_machine.specs.State.{families_of};
ghost use Rattle.alt_schema.specs.Described.{IsDescription};
ghost use Rattle.alt_schemabytes.specs.Held.{IsHeld};
ghost use Rattle.alt_tablerows.specs.Good.{IsGood};
ghost use Rattle.alt_tablerows.specs.private.Tests.{are_apart, are_families, are_within, is_number_taken, passes_description_tests};

use crate::families::has_family;
use crate::made::is_as_made;
use alt_fields::Bytes;
use alt_schema::TableSchema;

/// Whether it may be that of a table of that name, whatever other tables there are.
pub fn is_good(
    number: u64,
    family: u32,
    name: &Bytes,
    schema: &TableSchema,
    families: &[u32],
) -> bool
    requires description { IsDescription schema.now }
    requires held { IsHeld schema.now }
    requires built { IsBuilt schema.now }
    requires families { families.now ≡ families_of schema.now }
    ensures good { IsTrue result ↔ IsGood number family name.now schema.now }
{
    passes(number, family, name, schema, families)
}

fn passes(number: u64, family: u32, name: &Bytes, schema: &TableSchema, families: &[u32]) -> bool
    requires families { families.now ≡ families_of schema.now }
    ensures { result ≡ passes_description_tests number family name.now schema.now }
{
    if schema.name.as_str().as_bytes() != name.as_slice() {
        return false;
    }
    if !is_as_made(schema) {
        return false;
    }
    is_number(number, schema.number) && are_families(family, families)
}

/// Whether a number was taken before the next one.
fn is_number(next: u64, number: u64) -> bool
    ensures { result ≡ is_number_taken next number }
{
    1 <= number && number < next
}

fn are_families(next: u32, families: &[u32]) -> bool
    ensures { result ≡ are_families next families.now }
{
    are_within(families, next) && are_apart(families)
}

/// Whether each family is from 1 on and below the next.
fn are_within(families: &[u32], next: u32) -> bool
    ensures { result ≡ are_within next families.now }
{
    families.iter().all(|family| 1 <= *family && *family < next)
}

/// Whether no family stands twice.
fn are_apart(families: &[u32]) -> bool
    ensures { result ≡ are_apart families.now }
{
    for (i, family) in families.iter().enumerate() {
        if has_family(&families[i + 1..], *family) {
            return false;
        }
    }
    true
}
