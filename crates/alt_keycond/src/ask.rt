//! What a key condition asks.

ghost use Rattle.std.specs.Prelude.{◌≡◌, ◌≢◌, Some, None, option_map, IfOk, IfErr};
ghost use Rattle.alt_value.specs.Stands.{tree_of};
ghost use Rattle.alt_keyorder.specs.KeyBytes.{IsKey};
ghost use Rattle.alt_keycond.specs.KeysAsked.{AsksKeys};
ghost use Rattle.alt_expr.specs.KeyForm as form;
ghost use Rattle.alt_expr.specs.Holds.{holds};
ghost use Rattle.alt_expr.specs.Located.{View};
ghost use Rattle.alt_keycond.specs.Asked.{key_of, answer_asks};

use crate::key_test::{hash_value, range_value};
use alt_base::NoMemory;
use alt_expr::Cond;
use alt_schema::KeyAttr;
use alt_value::{Attr, copy};

/// The value of the HASH attribute, and what is asked of the RANGE attribute.
#[derive(Drop)]
pub struct KeyAsk {
    pub hash: Attr,
    pub range: RangeAsk,
}

/// What is asked of a RANGE attribute: nothing, a comparison with a value, two bounds, or that it begins with a value.
#[derive(Drop)]
pub enum RangeAsk {
    All,
    Eq(Attr),
    Lt(Attr),
    Le(Attr),
    Gt(Attr),
    Ge(Attr),
    Between(Attr, Attr),
    Begins(Attr),
}

/// Why there is no ask: the tree isn't of the form of a key condition, or want of memory.
#[derive(Clone, Copy, Debug, PartialEq, Eq)]
pub enum KeyCondFault {
    NotKey,
    NoMemory,
}

impl From<NoMemory> for KeyCondFault {
    ghost use Rattle.alt_keycond.specs.declared.ask.KeyCondFault.{KeyCondFault};

    ghost from_gives = { λ _ e. e ≡ KeyCondFault.NoMemory };

    fn from(_: NoMemory) -> Self {
        KeyCondFault::NoMemory
    }
}

/// What a condition asks of the keys of a table or an index, else `NotKey` where its tree isn't of the form of a key condition
/// (Developer Guide, "Key condition expressions for the Query operation").
pub fn key_ask(cond: &Cond, hash: &KeyAttr, range: Option<&KeyAttr>) -> Result<KeyAsk, KeyCondFault>
    ensures ask { IfOk result
        (λ a. form.ask_of (key_of hash.now) (option_map (λ r. key_of r.now) range.entry) cond.now
        ≡ Some (answer_asks a)) }
    // The condition holds exactly of the items that meet the ask.
    ensures holds { IfOk result (λ a. (item : View) →
        holds item cond.now ≡ form.meets (key_of hash.now)
        (option_map (λ r. key_of r.now) range.entry) (answer_asks a) item) }
    // So it is an ask that `key_range` takes.
    ensures keys { IfOk result (λ a. IsKey (tree_of a.hash) × AsksKeys a.range) }
    ensures cause { IfErr result (λ f. f ≢ KeyCondFault.NoMemory → (f ≡ KeyCondFault.NotKey)
        × (form.ask_of (key_of hash.now) (option_map (λ r. key_of r.now) range.entry) cond.now
        ≡ None)) }
{
    asked(cond, hash, range)
}

/// The same, by the form alone.
#[tactic(auto, using(crate::proofs::FormLaws::ask_of_all), unfolding(alt_expr::specs::KeyForm::ask_of))]
fn asked(cond: &Cond, hash: &KeyAttr, range: Option<&KeyAttr>) -> Result<KeyAsk, KeyCondFault>
    ensures ask { IfOk result
        (λ a. form.ask_of (key_of hash.now) (option_map (λ r. key_of r.now) range.entry) cond.now
        ≡ Some (answer_asks a)) }
    ensures cause { IfErr result (λ f. f ≢ KeyCondFault.NoMemory → (f ≡ KeyCondFault.NotKey)
        × (form.ask_of (key_of hash.now) (option_map (λ r. key_of r.now) range.entry) cond.now
        ≡ None)) }
{
    match cond {
        Cond::All(members) => joined(members.as_slice(), hash, range),
        other => alone(other, hash),
    }
}

/// The HASH attribute alone.
fn alone(cond: &Cond, hash: &KeyAttr) -> Result<KeyAsk, KeyCondFault>
    ensures ask { IfOk result
        (λ a. form.ask_of_parts (form.hash_value (key_of hash.now) cond.now) (Some form.anything)
        ≡ Some (answer_asks a)) }
    ensures cause { IfErr result (λ f. f ≢ KeyCondFault.NoMemory → (f ≡ KeyCondFault.NotKey)
        × (form.ask_of_parts (form.hash_value (key_of hash.now) cond.now) (Some form.anything) ≡ None)) }
{
    let Some(value) = hash_value(cond, hash) else {
        return Err(KeyCondFault::NotKey);
    };
    let hash = copied(value)?;
    Ok(KeyAsk {
        hash,
        range: RangeAsk::All,
    })
}

/// Two conditions, of which one is on the HASH attribute and the other on the RANGE attribute.
fn joined(members: &[Cond], hash: &KeyAttr, range: Option<&KeyAttr>) -> Result<KeyAsk, KeyCondFault>
    ensures ask { IfOk result
        (λ a. form.joined_ask (key_of hash.now)
        (option_map (λ r. key_of r.now) range.entry) members.now ≡ Some (answer_asks a)) }
    ensures cause { IfErr result (λ f. f ≢ KeyCondFault.NoMemory → (f ≡ KeyCondFault.NotKey)
        × (form.joined_ask (key_of hash.now) (option_map (λ r. key_of r.now) range.entry)
        members.now ≡ None)) }
{
    let [first, second] = members else {
        return Err(KeyCondFault::NotKey);
    };
    let Some(range) = range else {
        return Err(KeyCondFault::NotKey);
    };
    if let Some(ask) = both(first, second, hash, range)? {
        return Ok(ask);
    }
    match both(second, first, hash, range)? {
        Some(ask) => Ok(ask),
        None => Err(KeyCondFault::NotKey),
    }
}

/// The first on the HASH attribute and the second on the RANGE attribute.
fn both(
    first: &Cond,
    second: &Cond,
    hash: &KeyAttr,
    range: &KeyAttr,
) -> Result<Option<KeyAsk>, NoMemory>
    ensures { IfOk result (λ o. option_map answer_asks o
        ≡ form.ask_of_parts (form.hash_value (key_of hash.now) first.now)
        (form.range_test (key_of range.now) second.now)) }
{
    let Some(value) = hash_value(first, hash) else {
        return Ok(None);
    };
    let Some(range) = range_value(second, range)? else {
        return Ok(None);
    };
    let hash = copied(value)?;
    Ok(Some(KeyAsk { hash, range }))
}

/// A copy of a value.
pub(crate) fn copied(value: &Attr) -> Result<Attr, NoMemory>
    ensures { IfOk result (λ a. a ≡ value.now) }
{
    match copy(value) {
        Ok(copied) => Ok(copied),
        Err(wanting) => Err(wanting),
    }
}
