//! Whether the time of an item is over.

ghost use Rattle.std.specs.Prelude.{◌≡◌, ◌-ℤ◌, ◌&&◌};
ghost use Rattle.std.specs.Ordering.{int_cmp, is_lt, is_le};
ghost use Rattle.alt_decimal.specs.Number.{units_in};
ghost use Rattle.alt_machine.specs.Expiry as machine;
ghost use Rattle.alt_value.specs.Stands.{tree_of};

use alt_decimal::Decimal;
use alt_machine::FIVE_YEARS;
use alt_schema::TableSchema;
use alt_value::{Attr, Item};

/// Whether an item has expired: its table has an attribute for that, and the item's time is over.
pub(crate) fn is_expired(schema: &TableSchema, moment: u64, item: &Item) -> bool
    ensures { result ≡ machine.is_expired schema.now moment item.now }
{
    let Some(name) = &schema.ttl else {
        return false;
    };
    match item.get(name.as_str()) {
        Some(value) => is_over(moment, value),
        None => false,
    }
}

/// Whether a value is a time that is over, and was no longer ago than five years.
fn is_over(moment: u64, value: &Attr) -> bool
    ensures { result ≡ machine.is_over moment (tree_of value.now) }
{
    match value {
        Attr::N(time) => is_past(moment, time),
        _ => false,
    }
}

/// Whether a number is such a time.
fn is_past(moment: u64, time: &Decimal) -> bool
    ensures { result ≡ (is_lt (int_cmp time.now (units_in moment))
        && is_le (int_cmp (units_in moment -ℤ units_in FIVE_YEARS) time.now)) }
{
    time.order(&Decimal::from_count(moment)).is_lt() && earliest(moment).order(time).is_le()
}

/// The moment five years before another one, which may lie before 1970.
fn earliest(moment: u64) -> Decimal
    ensures { result ≡ units_in moment -ℤ units_in FIVE_YEARS }
{
    if moment >= FIVE_YEARS {
        return Decimal::from_count(moment - FIVE_YEARS);
    }
    before_zero(FIVE_YEARS - moment)
}

/// So many seconds before 1970.
fn before_zero(count: u64) -> Decimal
    ensures { result ≡ units_in 0 -ℤ units_in count }
{
    let later = Decimal::from_count(count);
    later.held();
    match Decimal::from_count(0).subtract(&later) {
        Ok(time) => time,
        Err(_) => unreachable!(),
    }
}
