//! Texts, numbers and binaries of JSON.

ghost use Rattle.std.specs.Prelude.{◌≡◌, ◌≢◌, Ok, Err, IfOk, IfErr};
ghost use Rattle.serde_json.specs.View.{view};
ghost use Rattle.alt_value.specs.Stands.{tree_of};
ghost use Rattle.alt_codec.specs.Scalars.{text_in, number_in, binary_in, truth_in, null_in};

use crate::ValueFault;
use alt_decimal::Decimal;
use alt_fields::Bytes;
use alt_value::Attr;
use base64::DecodeAllocError;
use base64::engine::general_purpose::STANDARD;
use serde_json::Value;
use std::alloc::Global;

/// A JSON text.
pub fn text_of(v: &Value) -> Result<&str, ValueFault>
    ensures value { IfOk result (λ s. text_in (view v.now) ≡ Ok s.now) }
    ensures fault { IfErr result (λ f. text_in (view v.now) ≡ Err f) }
{
    match v.as_str() {
        Some(text) => Ok(text),
        None => Err(ValueFault::WrongJson),
    }
}

/// The number of a JSON text.
pub fn number_of(v: &Value) -> Result<Decimal, ValueFault>
    ensures value { IfOk result (λ z. number_in (view v.now) ≡ Ok z) }
    ensures fault { IfErr result (λ f. number_in (view v.now) ≡ Err f) }
{
    let text = text_of(v)?;
    match Decimal::parse(text.as_bytes()) {
        Ok(number) => Ok(number),
        Err(fault) => Err(ValueFault::BadNumber(fault)),
    }
}

/// The bytes of a JSON text in base64.
pub fn binary_of(alloc: Global, v: &Value) -> Result<Bytes, ValueFault>
    ensures value { IfOk result (λ b. binary_in (view v.now) ≡ Ok b) }
    ensures fault { IfErr result (λ f. f ≢ ValueFault.NoMemory → binary_in (view v.now) ≡ Err f) }
{
    let text = text_of(v)?;
    match STANDARD.decode(alloc, text.as_bytes()) {
        Ok(bytes) => Ok(Bytes::from_vec(bytes)),
        Err(DecodeAllocError::DecodeError(_)) => Err(ValueFault::BadBase64),
        Err(DecodeAllocError::OutOfMemory) => Err(ValueFault::NoMemory),
    }
}

/// A truth value.
pub fn truth_of(v: &Value) -> Result<Attr, ValueFault>
    ensures value { IfOk result (λ a. truth_in (view v.now) ≡ Ok (tree_of a)) }
    ensures fault { IfErr result (λ f. truth_in (view v.now) ≡ Err f) }
{
    match v.as_bool() {
        Some(truth) => Ok(Attr::Bool(truth)),
        None => Err(ValueFault::WrongJson),
    }
}

/// The value of kind NULL, which is written as true.
pub fn null_of(v: &Value) -> Result<Attr, ValueFault>
    ensures value { IfOk result (λ a. null_in (view v.now) ≡ Ok (tree_of a)) }
    ensures fault { IfErr result (λ f. null_in (view v.now) ≡ Err f) }
{
    match v.as_bool() {
        Some(true) => Ok(Attr::Null),
        Some(false) => Err(ValueFault::NullNotTrue),
        None => Err(ValueFault::WrongJson),
    }
}
