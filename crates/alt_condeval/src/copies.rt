//! Copies of paths and operands. Names and values aren't copied, but get an owner more.

ghost use Rattle.std.specs.Prelude.{◌≡◌, IfOk};

use alt_base::NoMemory;
use alt_expr::{Items, Operand, OperandList, Path, PathPart};
use std::alloc::Global;

/// The same operand.
pub(crate) fn copied_operand(alloc: Global, operand: &Operand) -> Result<Operand, NoMemory>
    ensures { IfOk result (λ o. o ≡ operand.now) }
{
    match operand {
        Operand::At(path) => match copied_path(alloc, path.as_slice()) {
            Ok(path) => Ok(Operand::At(path)),
            Err(e) => Err(e),
        },
        Operand::Value(value) => match value.share() {
            Ok(value) => Ok(Operand::Value(value)),
            Err(e) => Err(e),
        },
        Operand::Size(path) => match copied_path(alloc, path.as_slice()) {
            Ok(path) => Ok(Operand::Size(path)),
            Err(e) => Err(e),
        },
    }
}

/// The same operands.
pub(crate) fn copied_operands(alloc: Global, operands: &[Operand]) -> Result<OperandList, NoMemory>
    ensures { IfOk result (λ os. os ≡ operands.now) }
{
    let mut list = Items::new(alloc);
    for operand in operands {
        list.push(copied_operand(alloc, operand)?)?;
    }
    Ok(list)
}

/// The same steps.
pub(crate) fn copied_path(alloc: Global, path: &[PathPart]) -> Result<Path, NoMemory>
    ensures { IfOk result (λ p. p ≡ path.now) }
{
    let mut copy = Items::new(alloc);
    for part in path {
        copy.push(copied_part(part)?)?;
    }
    Ok(copy)
}

fn copied_part(part: &PathPart) -> Result<PathPart, NoMemory>
    ensures { IfOk result (λ p. p ≡ part.now) }
{
    match part {
        PathPart::Name(name) => match name.share() {
            Ok(name) => Ok(PathPart::Name(name)),
            Err(e) => Err(e),
        },
        PathPart::Index(i) => Ok(PathPart::Index(*i)),
    }
}
