//! Where expired items stand: those among some items of a table, and whether each stands once.

ghost use Rattle.std.specs.Prelude.{◌≡◌, ◌≤◌, ◌++◌, length, take, OnOk};
ghost use Rattle.std.specs.List.{list_any};
ghost use Rattle.alt_machine.specs.declared.TheConstants.{MOST_EXPIRED};
ghost use Rattle.alt_ttl.specs.private.Searched.{has_twice, is_same_standing, standing_of, standings_of};

use crate::over::is_expired;
use alt_base::NoMemory;
use alt_machine::{MOST_EXPIRED, Standing};
use alt_schema::TableSchema;
use alt_value::{Item, Text};
use alt_views::place_of;
use std::alloc::Global;

/// Puts where those of the items of a table of that name stand that have expired behind the others, as long as there are fewer than an ExpireItems deletes.
pub(crate) fn put_expired(
    alloc: Global,
    schema: &TableSchema,
    name: &str,
    moment: u64,
    items: Vec<Item>,
    out: &mut Vec<Standing>,
) -> Result<(), NoMemory>
    requires few { length out.old.items ≤ MOST_EXPIRED }
    ensures put { OnOk result (out.new.items
        ≡ take MOST_EXPIRED (out.old.items ++ standings_of schema.now name.now moment items.items)) }
{
    for item in items {
        put_one(alloc, schema, name, moment, &item, out)?;
    }
    Ok(())
}

/// Puts that of one item, where it has expired.
fn put_one(
    alloc: Global,
    schema: &TableSchema,
    name: &str,
    moment: u64,
    item: &Item,
    out: &mut Vec<Standing>,
) -> Result<(), NoMemory>
    requires few { length out.old.items ≤ MOST_EXPIRED }
    ensures put { OnOk result (out.new.items
        ≡ take MOST_EXPIRED (out.old.items ++ standing_of schema.now name.now moment item.now)) }
{
    if out.len() >= MOST_EXPIRED {
        return Ok(());
    }
    if !is_expired(schema, moment, item) {
        return Ok(());
    }
    let Some(place) = place_of(alloc, schema, item)? else {
        return Ok(());
    };
    let table = Text::new(alloc, name)?;
    out.push(Standing { table, place })?;
    Ok(())
}

/// Whether one of these stands where another does.
#[tactic(auto, using(crate::proofs::Founds::has_twice_from))]
pub(crate) fn has_twice(standings: &[Standing]) -> bool
    ensures { result ≡ has_twice standings.now }
{
    for (i, standing) in standings.iter().enumerate() {
        if is_among(&standings[i + 1..], standing) {
            return true;
        }
    }
    false
}

fn is_among(standings: &[Standing], standing: &Standing) -> bool
    ensures { result ≡ list_any (is_same_standing standing.now) standings.now }
{
    standings.iter().any(|other| is_one(standing, other))
}

/// Whether two are one.
fn is_one(standing: &Standing, other: &Standing) -> bool
    ensures { result ≡ is_same_standing standing.now other.now }
{
    standing.table.as_str() == other.table.as_str()
        && standing.place.as_slice() == other.place.as_slice()
}
