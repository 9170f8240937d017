//! What is wrong with an expression.

ghost use Rattle.std.specs.Prelude.{◌≡◌};

use alt_base::NoMemory;
use std::alloc::{AllocError, AllocFailed};

/// The faults of an expression's text, in the order in which they are told, and want of memory.
#[derive(Clone, Copy, Debug, PartialEq, Eq)]
pub enum ExprFault {
    /// It has over 4,096 bytes.
    TooLong,
    /// It nests too deep.
    TooDeep,
    /// It isn't of the grammar.
    Syntax,
    /// A `#` or `:` word of it isn't given.
    Undefined,
    /// A path has over 32 parts, or the list of an IN over 100 operands.
    TooMany,
    /// A clause of an update stands twice.
    RepeatedClause,
    /// Of the target paths of an update, or of the paths of a projection, one is a prefix of another or equals it.
    Overlap,
    NoMemory,
}

impl From<NoMemory> for ExprFault {
    ghost use Rattle.alt_expr.specs.declared.fault.ExprFault.{ExprFault};

    ghost from_gives = { λ _ e. e ≡ ExprFault.NoMemory };

    fn from(_: NoMemory) -> Self {
        ExprFault::NoMemory
    }
}

impl From<AllocError> for ExprFault {
    ghost use Rattle.alt_expr.specs.declared.fault.ExprFault.{ExprFault};

    ghost from_gives = { λ _ e. e ≡ ExprFault.NoMemory };

    fn from(_: AllocError) -> Self {
        ExprFault::NoMemory
    }
}

impl<T: Drop> From<AllocFailed<T>> for ExprFault {
    ghost use Rattle.alt_expr.specs.declared.fault.ExprFault.{ExprFault};

    ghost from_gives = { λ _ e. e ≡ ExprFault.NoMemory };

    fn from(_: AllocFailed<T>) -> Self {
        ExprFault::NoMemory
    }
}
