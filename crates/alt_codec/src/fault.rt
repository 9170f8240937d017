//! Why a JSON tree is no value.

use alt_base::NoMemory;
use alt_decimal::NumberFault;

/// The one fault of a JSON tree that stands for no value: the first on a walk that tests a value before its elements, a list by
/// rising index and a map by name in byte order; or want of memory.
#[derive(Clone, Copy, Debug, PartialEq, Eq)]
pub enum ValueFault {
    NotOneMember,
    UnknownKind,
    WrongJson,
    BadNumber(NumberFault),
    BadBase64,
    EmptySet,
    RepeatInSet,
    NullNotTrue,
    TooDeep,
    EmptyName,
    NoMemory,
}

impl From<NoMemory> for ValueFault {
    ghost use Rattle.std.specs.Prelude.{◌≡◌};
    ghost use Rattle.alt_codec.specs.declared.fault.ValueFault.TheVariants as fault;

    ghost from_gives = { λ _ f. f ≡ fault.NoMemory };

    fn from(_: NoMemory) -> Self {
        ValueFault::NoMemory
    }
}
