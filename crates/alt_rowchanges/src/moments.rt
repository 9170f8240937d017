//! From which moment on the time of an item is over.

ghost use Rattle.std.specs.Prelude.{◌≡◌, ◌<◌, ◌-◌, true, false};
ghost use Rattle.std.specs.Ordering.{int_cmp, is_lt};
ghost use Rattle.alt_decimal.specs.Number.{units_in};
ghost use Rattle.alt_machine.specs.Expiry as machine;
ghost use Rattle.alt_rowchanges.specs.Moments.{IsFirstOver, IsMetFrom};
ghost use Rattle.alt_value.specs.Stands.{tree_of};

use alt_decimal::Decimal;
use alt_schema::TableSchema;
use alt_value::{Attr, Item};

/// The moments of the next decades are below this one, in seconds: 2^32.
const USUAL: u64 = 4_294_967_296;

/// The first moment at which an item of a table has expired, `None` where there is none that 64 bits tell.
pub fn expires_from(schema: &TableSchema, item: &Item) -> Option<u64>
    ensures { IsMetFrom (λ moment. machine.is_expired schema.now moment item.now) result }
{
    let Some(name) = &schema.ttl else {
        return None;
    };
    match item.get(name.as_str()) {
        Some(value) => is_over_from(value),
        None => None,
    }
}

/// The same of a value that tells the time.
fn is_over_from(value: &Attr) -> Option<u64>
    ensures { IsMetFrom (λ moment. machine.is_over moment (tree_of value.now)) result }
{
    match value {
        Attr::N(time) => passed_from(time),
        _ => None,
    }
}

/// The first moment behind a number.
fn passed_from(time: &Decimal) -> Option<u64>
    ensures { IsFirstOver time.now result }
{
    if is_passed(time, 0) {
        return Some(0);
    }
    if is_passed(time, USUAL) {
        return Some(passed_between(time, 0, USUAL));
    }
    if is_passed(time, u64::MAX) {
        return Some(passed_between(time, USUAL, u64::MAX));
    }
    None
}

/// The first of the moments behind one that is not behind the number, up to one that is.
fn passed_between(time: &Decimal, from: u64, to: u64) -> u64
    requires from { is_lt (int_cmp time.now (units_in from)) ≡ false }
    requires to { is_lt (int_cmp time.now (units_in to)) ≡ true }
    requires rise { from < to }
    ensures over { is_lt (int_cmp time.now (units_in result)) ≡ true }
    ensures least { is_lt (int_cmp time.now (units_in (result - 1))) ≡ false }
    ensures some { 0 < result }
{
    let mut low = from;
    let mut high = to;
    while high - low > 1 {
        let middle = low + (high - low) / 2;
        if is_passed(time, middle) {
            high = middle;
        } else {
            low = middle;
        }
    }
    high
}

/// Whether a moment is behind a number.
fn is_passed(time: &Decimal, moment: u64) -> bool
    ensures { result ≡ is_lt (int_cmp time.now (units_in moment)) }
{
    time.order(&Decimal::from_count(moment)).is_lt()
}
