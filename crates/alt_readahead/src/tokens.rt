//! Steps over the tokens of a body, each of which passes what it asks for, or says that something else stands there.

ghost use Rattle.std.specs.Prelude.{◌≡◌, ◌∷◌, IfOk, OnOk};
ghost use Rattle.json.specs.Token as token;

use alt_base::NoMemory;
use json::{Invalid, Reader, Token};
use std::alloc::{AllocError, AllocFailed};

/// Why something isn't read straight from the tokens: it is spelled in some other way or is no value, or memory ran out.
#[derive(Clone, Copy)]
pub(crate) enum Unread {
    Otherwise,
    NoMemory,
}

impl From<NoMemory> for Unread {
    fn from(_: NoMemory) -> Self {
        Unread::NoMemory
    }
}

impl From<AllocError> for Unread {
    fn from(_: AllocError) -> Self {
        Unread::NoMemory
    }
}

impl<T: Drop> From<AllocFailed<T>> for Unread {
    fn from(_: AllocFailed<T>) -> Self {
        Unread::NoMemory
    }
}

impl From<alt_named::Unread> for Unread {
    fn from(unread: alt_named::Unread) -> Self {
        match unread {
            alt_named::Unread::Refused => Unread::Otherwise,
            alt_named::Unread::NoMemory => Unread::NoMemory,
        }
    }
}

impl From<Invalid> for Unread {
    fn from(_: Invalid) -> Self {
        Unread::Otherwise
    }
}

/// Passes the brace that opens an object.
pub(crate) fn open_object(reader: &mut Reader<'_>) -> Result<(), Unread>
    ensures passed { OnOk result (reader.old ≡ token.begin_object ∷ reader.new) }
{
    match reader.next() {
        Some(Token::BeginObject) => Ok(()),
        _ => Err(Unread::Otherwise),
    }
}

/// Passes the brace that closes an object.
pub(crate) fn close_object(reader: &mut Reader<'_>) -> Result<(), Unread>
    ensures passed { OnOk result (reader.old ≡ token.end_object ∷ reader.new) }
{
    match reader.next() {
        Some(Token::EndObject) => Ok(()),
        _ => Err(Unread::Otherwise),
    }
}

/// Passes the bracket that opens an array.
pub(crate) fn open_array(reader: &mut Reader<'_>) -> Result<(), Unread>
    ensures passed { OnOk result (reader.old ≡ token.begin_array ∷ reader.new) }
{
    match reader.next() {
        Some(Token::BeginArray) => Ok(()),
        _ => Err(Unread::Otherwise),
    }
}

/// The name of the next member.
pub(crate) fn name<'t>(reader: &mut Reader<'t>) -> Result<&'t str, Unread>
    ensures passed { IfOk result (λ name. reader.old ≡ token.key name.now ∷ reader.new) }
{
    match reader.next() {
        Some(Token::Key(name)) => Ok(name),
        _ => Err(Unread::Otherwise),
    }
}

/// The next text.
pub(crate) fn text<'t>(reader: &mut Reader<'t>) -> Result<&'t str, Unread>
    ensures passed { IfOk result (λ text. reader.old ≡ token.string text.now ∷ reader.new) }
{
    match reader.next() {
        Some(Token::String(text)) => Ok(text),
        _ => Err(Unread::Otherwise),
    }
}

/// The next truth value.
pub(crate) fn truth(reader: &mut Reader<'_>) -> Result<bool, Unread>
    ensures passed { IfOk result (λ truth. reader.old ≡ token.boolean truth ∷ reader.new) }
{
    match reader.next() {
        Some(Token::Bool(truth)) => Ok(truth),
        _ => Err(Unread::Otherwise),
    }
}
