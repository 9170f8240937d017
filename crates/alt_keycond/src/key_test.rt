//! Tests of one key attribute.

ghost use Rattle.std.specs.Prelude.{◌≡◌, option_map, IfOk};
ghost use Rattle.alt_expr.specs.KeyForm as form;
ghost use Rattle.alt_keycond.specs.Asked.{key_of, test_of};

use crate::ask::{RangeAsk, copied};
use alt_base::NoMemory;
use alt_expr::{Comparison, Cond, Operand, PathPart};
use alt_schema::KeyAttr;
use alt_value::{Attr, KeyKind};

/// The value that the HASH attribute is to equal.
pub(crate) fn hash_value<'a>(cond: &'a Cond, key: &KeyAttr) -> Option<&'a Attr>
    ensures { option_map (λ v. v.now) result ≡ form.hash_value (key_of key.now) cond.now }
{
    let Cond::Compare(by, x, y) = cond else {
        return None;
    };
    match key_test(*by, x, y, key) {
        Some((Comparison::Equal, value)) => Some(value),
        _ => None,
    }
}

/// What is asked of the RANGE attribute.
pub(crate) fn range_value(cond: &Cond, key: &KeyAttr) -> Result<Option<RangeAsk>, NoMemory>
    ensures { IfOk result (λ o. option_map test_of o ≡ form.range_test (key_of key.now) cond.now) }
{
    match cond {
        Cond::Compare(by, x, y) => range_test(key_test(*by, x, y, key)),
        Cond::Between(x, low, high) => {
            if !is_key(x, key) {
                return Ok(None);
            }
            between(value_for(low, key), value_for(high, key))
        }
        Cond::BeginsWith(x, y) => {
            if !is_key(x, key) {
                return Ok(None);
            }
            front_of(key.kind, value_for(y, key))
        }
        _ => Ok(None),
    }
}

/// How the key is compared with a value; turned round where the value stands at the left.
fn key_test<'a>(
    by: Comparison,
    x: &'a Operand,
    y: &'a Operand,
    key: &KeyAttr,
) -> Option<(Comparison, &'a Attr)>
    ensures { option_map (λ t. (t.0, t.1.now)) result
        ≡ form.key_test (key_of key.now) by x.now y.now }
{
    if is_key(x, key) {
        let value = value_for(y, key)?;
        return Some((by, value));
    }
    if is_key(y, key) {
        let value = value_for(x, key)?;
        return Some((mirrored(by), value));
    }
    None
}

fn mirrored(by: Comparison) -> Comparison
    ensures { result ≡ form.mirrored by }
{
    match by {
        Comparison::Less => Comparison::Greater,
        Comparison::LessEqual => Comparison::GreaterEqual,
        Comparison::Greater => Comparison::Less,
        Comparison::GreaterEqual => Comparison::LessEqual,
        Comparison::Equal => Comparison::Equal,
        Comparison::NotEqual => Comparison::NotEqual,
    }
}

fn range_test(test: Option<(Comparison, &Attr)>) -> Result<Option<RangeAsk>, NoMemory>
    ensures { IfOk result (λ o. option_map test_of o
        ≡ form.range_comparison (option_map (λ t. (t.0, t.1.now)) test.entry)) }
{
    let Some((by, value)) = test else {
        return Ok(None);
    };
    match by {
        Comparison::Equal => Ok(Some(RangeAsk::Eq(copied(value)?))),
        Comparison::Less => Ok(Some(RangeAsk::Lt(copied(value)?))),
        Comparison::LessEqual => Ok(Some(RangeAsk::Le(copied(value)?))),
        Comparison::Greater => Ok(Some(RangeAsk::Gt(copied(value)?))),
        Comparison::GreaterEqual => Ok(Some(RangeAsk::Ge(copied(value)?))),
        Comparison::NotEqual => Ok(None),
    }
}

fn between(low: Option<&Attr>, high: Option<&Attr>) -> Result<Option<RangeAsk>, NoMemory>
    ensures { IfOk result (λ o. option_map test_of o
        ≡ form.range_between (option_map (λ v. v.now) low.entry)
        (option_map (λ v. v.now) high.entry)) }
{
    let Some(low) = low else {
        return Ok(None);
    };
    let Some(high) = high else {
        return Ok(None);
    };
    let least = copied(low)?;
    let most = copied(high)?;
    Ok(Some(RangeAsk::Between(least, most)))
}

/// A text or a binary may begin with a front; a number has none.
fn front_of(kind: KeyKind, front: Option<&Attr>) -> Result<Option<RangeAsk>, NoMemory>
    ensures { IfOk result (λ o. option_map test_of o
        ≡ form.range_front kind (option_map (λ v. v.now) front.entry)) }
{
    match (kind, front) {
        (KeyKind::S, Some(front)) => Ok(Some(RangeAsk::Begins(copied(front)?))),
        (KeyKind::B, Some(front)) => Ok(Some(RangeAsk::Begins(copied(front)?))),
        _ => Ok(None),
    }
}

/// Whether the operand is the key attribute itself.
fn is_key(operand: &Operand, key: &KeyAttr) -> bool
    ensures { result ≡ form.is_key_operand (key_of key.now) operand.now }
{
    match operand {
        Operand::At(path) => match path.as_slice() {
            [PathPart::Name(name)] => name.get().as_str() == key.name.as_str(),
            _ => false,
        },
        _ => false,
    }
}

/// A given value of the key's kind.
fn value_for<'a>(operand: &'a Operand, key: &KeyAttr) -> Option<&'a Attr>
    ensures { option_map (λ v. v.now) result ≡ form.value_for (key_of key.now) operand.now }
{
    match operand {
        Operand::Value(value) => {
            let value = value.get();
            if has_kind(value, key.kind) {
                return Some(value);
            }
            None
        }
        _ => None,
    }
}

fn has_kind(value: &Attr, kind: KeyKind) -> bool
    ensures { result ≡ form.has_kind kind value.now }
{
    match (kind, value) {
        (KeyKind::S, Attr::S(_)) => true,
        (KeyKind::N, Attr::N(_)) => true,
        (KeyKind::B, Attr::B(_)) => true,
        _ => false,
    }
}
