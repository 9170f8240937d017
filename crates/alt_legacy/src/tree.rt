//! The trees of entries.

ghost use Rattle.std.specs.Prelude.{◌≡◌, map, IfOk};
ghost use Rattle.alt_legacy.specs.Trees as spec;

use crate::entry::{Entry, Test};
use alt_base::NoMemory;
use alt_expr::{Boxed, Cond, CondList, Items, Operand, OperandList, Path, PathPart, Shared};
use alt_value::{Attr, Text};
use std::alloc::Global;

/// The condition that entries make together, OR or AND of theirs where there are two or more; None exactly where there is none.
pub(crate) fn condition_of(
    alloc: Global,
    entries: Vec<Entry>,
    any: bool,
) -> Result<Option<Cond>, NoMemory>
    ensures { IfOk result (λ o. o ≡ spec.joined_condition any (map spec.condition_of_entry entries.items)) }
{
    let conditions = trees(alloc, entries)?;
    Ok(joined(any, conditions))
}

fn joined(any: bool, conditions: CondList) -> Option<Cond>
    ensures { result ≡ spec.joined_condition any conditions }
{
    match conditions.len() {
        0 => None,
        1 => conditions.into_vec().pop(),
        _ => Some(several(any, conditions)),
    }
}

fn several(any: bool, conditions: CondList) -> Cond
    ensures { result ≡ spec.several any conditions }
{
    if any {
        Cond::Any(conditions)
    } else {
        Cond::All(conditions)
    }
}

fn trees(alloc: Global, entries: Vec<Entry>) -> Result<CondList, NoMemory>
    ensures { IfOk result (λ cs. cs ≡ map spec.condition_of_entry entries.items) }
{
    let mut found = Items::new(alloc);
    for entry in entries {
        let condition = tree_of(alloc, entry)?;
        found.push(condition)?;
    }
    Ok(found)
}

fn tree_of(alloc: Global, entry: Entry) -> Result<Cond, NoMemory>
    ensures { IfOk result (λ c. c ≡ spec.condition_of_entry entry) }
{
    let Entry { name, test } = entry;
    let name = Shared::new(alloc, name)?;
    match test {
        Test::Compares(by, value) => {
            Ok(Cond::Compare(by, at(alloc, &name)?, given(alloc, value)?))
        }
        Test::Between(low, high) => {
            let low = given(alloc, low)?;
            let high = given(alloc, high)?;
            Ok(Cond::Between(at(alloc, &name)?, low, high))
        }
        Test::Among(values) => Ok(Cond::Among(at(alloc, &name)?, operands(alloc, values)?)),
        Test::There => Ok(Cond::Exists(path(alloc, &name)?)),
        Test::Missing => Ok(Cond::NotExists(path(alloc, &name)?)),
        Test::Has(value) => has(alloc, &name, value),
        Test::HasNot(value) => has_not(alloc, &name, value),
        Test::Begins(value) => Ok(Cond::BeginsWith(at(alloc, &name)?, given(alloc, value)?)),
    }
}

fn has(alloc: Global, name: &Shared<Text>, value: Attr) -> Result<Cond, NoMemory>
    ensures { IfOk result (λ c. c ≡ spec.contains_value name.now value) }
{
    Ok(Cond::Contains(at(alloc, name)?, given(alloc, value)?))
}

/// It is there, and doesn't contain the value.
fn has_not(alloc: Global, name: &Shared<Text>, value: Attr) -> Result<Cond, NoMemory>
    ensures { IfOk result (λ c. c ≡ spec.has_not name.now value) }
{
    let mut members = Items::new(alloc);
    members.push(Cond::Exists(path(alloc, name)?))?;
    let has = has(alloc, name, value)?;
    members.push(Cond::Not(Boxed::new(alloc, has)?))?;
    Ok(Cond::All(members))
}

fn operands(alloc: Global, values: Items<Attr>) -> Result<OperandList, NoMemory>
    ensures { IfOk result (λ os. os ≡ map spec.given_operand values) }
{
    let mut found = Items::new(alloc);
    for value in values.into_vec() {
        let operand = given(alloc, value)?;
        found.push(operand)?;
    }
    Ok(found)
}

fn at(alloc: Global, name: &Shared<Text>) -> Result<Operand, NoMemory>
    ensures { IfOk result (λ o. o ≡ spec.attribute_operand name.now) }
{
    Ok(Operand::At(path(alloc, name)?))
}

fn given(alloc: Global, value: Attr) -> Result<Operand, NoMemory>
    ensures { IfOk result (λ o. o ≡ spec.given_operand value) }
{
    Ok(Operand::Value(Shared::new(alloc, value)?))
}

/// The path of one part that leads to an attribute.
pub(crate) fn path(alloc: Global, name: &Shared<Text>) -> Result<Path, NoMemory>
    ensures { IfOk result (λ p. p ≡ spec.attribute_path name.now) }
{
    let mut path = Items::new(alloc);
    path.push(PathPart::Name(name.share()?))?;
    Ok(path)
}
