//! Values of the kinds without nested values.

ghost use Rattle.std.specs.Prelude.{◌≡◌, ◌≢◌, Ok, Err, IfOk, IfErr};
ghost use Rattle.std.specs.Ordering.{int_cmp};
ghost use Rattle.serde_json.specs.View.{view};
ghost use Rattle.alt_value.specs.Members.{text_order};
ghost use Rattle.alt_value.specs.Stands.{tree_of};
ghost use Rattle.alt_value.specs.Tree.{S_tree, N_tree, B_tree, SS_tree, NS_tree, BS_tree};
ghost use Rattle.alt_codec.specs.Reading.{flat_in};
ghost use Rattle.alt_codec.specs.Scalars.{text_in, number_in, binary_in};
ghost use Rattle.alt_codec.specs.Sets.{members_in};
ghost use Rattle.alt_codec.specs.Steps.{map_ok};

use crate::ValueFault;
use crate::scalars::{binary_of, null_of, number_of, text_of, truth_of};
use crate::sets::{bytes_set_of, number_set_of, text_set_of};
use alt_value::{Attr, Text};
use serde_json::Value;
use std::alloc::Global;

/// The value of a kind's name and its payload, where the kind is none of lists and maps.
pub(crate) fn flat_of(alloc: Global, name: &str, v: &Value) -> Result<Attr, ValueFault>
    ensures value { IfOk result (λ a. flat_in name.now (view v.now) ≡ Ok (tree_of a)) }
    ensures fault { IfErr result (λ f. f ≢ ValueFault.NoMemory
        → flat_in name.now (view v.now) ≡ Err f) }
{
    match name {
        "S" => text_value(alloc, v),
        "N" => number_value(v),
        "B" => binary_value(alloc, v),
        "BOOL" => truth_of(v),
        "NULL" => null_of(v),
        "SS" => texts_value(alloc, v),
        "NS" => numbers_value(alloc, v),
        "BS" => binaries_value(alloc, v),
        _ => Err(ValueFault::UnknownKind),
    }
}

fn text_value(alloc: Global, v: &Value) -> Result<Attr, ValueFault>
    ensures value { IfOk result (λ a. map_ok S_tree (text_in (view v.now)) ≡ Ok (tree_of a)) }
    ensures fault { IfErr result (λ f. f ≢ ValueFault.NoMemory
        → map_ok S_tree (text_in (view v.now)) ≡ Err f) }
{
    match text_of(v) {
        Ok(text) => match Text::new(alloc, text) {
            Ok(text) => Ok(Attr::S(text)),
            Err(_) => Err(ValueFault::NoMemory),
        },
        Err(fault) => Err(fault),
    }
}

fn number_value(v: &Value) -> Result<Attr, ValueFault>
    ensures value { IfOk result (λ a. map_ok N_tree (number_in (view v.now)) ≡ Ok (tree_of a)) }
    ensures fault { IfErr result (λ f. map_ok N_tree (number_in (view v.now)) ≡ Err f) }
{
    match number_of(v) {
        Ok(number) => Ok(Attr::N(number)),
        Err(fault) => Err(fault),
    }
}

fn binary_value(alloc: Global, v: &Value) -> Result<Attr, ValueFault>
    ensures value { IfOk result (λ a. map_ok B_tree (binary_in (view v.now)) ≡ Ok (tree_of a)) }
    ensures fault { IfErr result (λ f. f ≢ ValueFault.NoMemory
        → map_ok B_tree (binary_in (view v.now)) ≡ Err f) }
{
    match binary_of(alloc, v) {
        Ok(bytes) => Ok(Attr::B(bytes)),
        Err(fault) => Err(fault),
    }
}

fn texts_value(alloc: Global, v: &Value) -> Result<Attr, ValueFault>
    ensures value { IfOk result
        (λ a. map_ok SS_tree (members_in text_order text_in (view v.now)) ≡ Ok (tree_of a)) }
    ensures fault { IfErr result (λ f. f ≢ ValueFault.NoMemory
        → map_ok SS_tree (members_in text_order text_in (view v.now)) ≡ Err f) }
{
    match text_set_of(alloc, v) {
        Ok(set) => Ok(Attr::Ss(set)),
        Err(fault) => Err(fault),
    }
}

fn numbers_value(alloc: Global, v: &Value) -> Result<Attr, ValueFault>
    ensures value { IfOk result
        (λ a. map_ok NS_tree (members_in int_cmp number_in (view v.now)) ≡ Ok (tree_of a)) }
    ensures fault { IfErr result (λ f. f ≢ ValueFault.NoMemory
        → map_ok NS_tree (members_in int_cmp number_in (view v.now)) ≡ Err f) }
{
    match number_set_of(alloc, v) {
        Ok(set) => Ok(Attr::Ns(set)),
        Err(fault) => Err(fault),
    }
}

fn binaries_value(alloc: Global, v: &Value) -> Result<Attr, ValueFault>
    ensures value { IfOk result
        (λ a. map_ok BS_tree (members_in text_order binary_in (view v.now)) ≡ Ok (tree_of a)) }
    ensures fault { IfErr result (λ f. f ≢ ValueFault.NoMemory
        → map_ok BS_tree (members_in text_order binary_in (view v.now)) ≡ Err f) }
{
    match bytes_set_of(alloc, v) {
        Ok(set) => Ok(Attr::Bs(set)),
        Err(fault) => Err(fault),
    }
}
