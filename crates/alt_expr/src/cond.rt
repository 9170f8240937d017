//! Trees of conditions.

use crate::{Boxed, Items, Path, Shared};
use alt_value::Attr;

/// How two operands are compared.
#[derive(Clone, Copy, Debug, PartialEq, Eq)]
pub enum Comparison {
    Equal,
    NotEqual,
    Less,
    LessEqual,
    Greater,
    GreaterEqual,
}

/// A part of the item, a given value, or the size of a part.
#[derive(Drop)]
pub enum Operand {
    At(Path),
    Value(Shared<Attr>),
    Size(Path),
}

/// Operands in text order.
pub type OperandList = Items<Operand>;

/// A condition. `Any` is OR and `All` is AND, each with two or more members in text order; `Among` is IN. Parentheses leave no node.
#[derive(Drop)]
pub enum Cond {
    Any(CondList),
    All(CondList),
    Not(Boxed<Cond>),
    Compare(Comparison, Operand, Operand),
    Between(Operand, Operand, Operand),
    Among(Operand, OperandList),
    Exists(Path),
    NotExists(Path),
    HasKind(Path, Operand),
    BeginsWith(Operand, Operand),
    Contains(Operand, Operand),
}

/// Conditions in text order.
pub type CondList = Items<Cond>;
