//! The parts of a description's bytes, each read at the front of bytes, with what is behind it.

ghost use Rattle.std.specs.Prelude.{◌≡◌, [], false, IfOk, IfErr, not};
ghost use Rattle.alt_schemabytes.specs.Format.{kind_byte, truth_byte};
ghost use Rattle.alt_schema.specs.Rules.{is_defined};
ghost use Rattle.alt_schemabytes.specs.Parts.{got, StopsAs, read_u64, read_u32, read_field, read_name, any_name, read_byte, read_more, read_counted, kinds, read_definition, read_key, truths, read_range};

use alt_base::NoMemory;
use alt_schema::{Definitions, KeyAttr, TextList};
use alt_value::{KeyKind, Text};
use std::alloc::Global;

/// Why reading stopped: with so many bytes left from the place on, or memory was wanting.
#[derive(Clone, Copy, Debug, PartialEq, Eq)]
pub enum Stop {
    Left(usize),
    NoMemory,
}

impl From<NoMemory> for Stop {
    ghost use Rattle.alt_schemabytes.specs.declared.parts.Stop.{Stop};

    ghost from_gives = { λ e stop. stop ≡ Stop.NoMemory };

    fn from(_: NoMemory) -> Stop {
        Stop::NoMemory
    }
}

// ---- single parts

/// A number of 8 bytes, high byte first.
pub fn take_u64(bytes: &[u8]) -> Result<(u64, &[u8]), Stop>
    ensures part { IfOk result (λ p. read_u64 bytes.now ≡ got p.0 p.1.now) }
    ensures stop { IfErr result (StopsAs (read_u64 bytes.now)) }
{
    match alt_fields::take_u64(bytes, 0) {
        Ok((number, end)) => {
            let (_, rest) = bytes.split_at(end);
            Ok((number, rest))
        }
        Err(_) => Err(Stop::Left(0)),
    }
}

/// A number of 4 bytes, high byte first.
pub fn take_u32(bytes: &[u8]) -> Result<(u32, &[u8]), Stop>
    ensures part { IfOk result (λ p. read_u32 bytes.now ≡ got p.0 p.1.now) }
    ensures stop { IfErr result (StopsAs (read_u32 bytes.now)) }
{
    match alt_fields::take_u32(bytes, 0) {
        Ok((number, end)) => {
            let (_, rest) = bytes.split_at(end);
            Ok((number, rest))
        }
        Err(_) => Err(Stop::Left(0)),
    }
}

fn take_field(bytes: &[u8]) -> Result<(&[u8], &[u8]), Stop>
    ensures part { IfOk result (λ p. read_field bytes.now ≡ got p.0.now p.1.now) }
    ensures stop { IfErr result (StopsAs (read_field bytes.now)) }
{
    match alt_fields::take_bytes(bytes, 0) {
        Ok((content, end)) => {
            let (_, rest) = bytes.split_at(end);
            Ok((content, rest))
        }
        Err(_) => Err(Stop::Left(0)),
    }
}

/// A text of any form.
#[tactic(auto, unfolding(crate::specs::Parts::read_name))]
pub fn take_text(bytes: &[u8]) -> Result<(&str, &[u8]), Stop>
    ensures part { IfOk result (λ p. read_name any_name bytes.now ≡ got p.0.now p.1.now) }
    ensures stop { IfErr result (StopsAs (read_name any_name bytes.now)) }
{
    let (content, rest) = take_field(bytes)?;
    match std::str::from_utf8(content) {
        Ok(text) => Ok((text, rest)),
        Err(_) => Err(Stop::Left(bytes.len())),
    }
}

/// A text that no definition has as its name.
#[tactic(auto, unfolding(crate::specs::Parts::read_name))]
fn take_new_name<'b>(
    definitions: &Definitions<'b>,
    bytes: &'b [u8],
) -> Result<(&'b str, &'b [u8]), Stop>
    ensures part { IfOk result (λ p. read_name
        (λ name. not (is_defined definitions.now name)) bytes.now ≡ got p.0.now p.1.now) }
    ensures new { IfOk result (λ p. is_defined definitions.now p.0.now ≡ false) }
    ensures stop { IfErr result (StopsAs
        (read_name (λ name. not (is_defined definitions.now name)) bytes.now)) }
{
    let (text, rest) = take_text(bytes)?;
    if definitions.define(text) {
        Err(Stop::Left(bytes.len()))
    } else {
        Ok((text, rest))
    }
}

/// A text that a definition has as its name.
#[tactic(auto, unfolding(crate::specs::Parts::read_name))]
fn take_defined_name<'b>(
    definitions: &Definitions<'b>,
    bytes: &'b [u8],
) -> Result<(&'b str, &'b [u8]), Stop>
    ensures part { IfOk result (λ p. read_name (is_defined definitions.now) bytes.now
        ≡ got p.0.now p.1.now) }
    ensures stop { IfErr result (StopsAs (read_name (is_defined definitions.now) bytes.now)) }
{
    let (text, rest) = take_text(bytes)?;
    if definitions.define(text) {
        Ok((text, rest))
    } else {
        Err(Stop::Left(bytes.len()))
    }
}

// ---- definitions and keys

#[tactic(auto, unfolding(crate::specs::Parts::read_byte))]
fn take_kind(bytes: &[u8]) -> Result<(KeyKind, &[u8]), Stop>
    ensures part { IfOk result (λ p. read_byte kind_byte kinds bytes.now ≡ got p.0 p.1.now) }
    ensures stop { IfErr result (StopsAs (read_byte kind_byte kinds bytes.now)) }
{
    match bytes {
        [byte, rest @ ..] => match *byte {
            1 => Ok((KeyKind::S, rest)),
            2 => Ok((KeyKind::N, rest)),
            3 => Ok((KeyKind::B, rest)),
            _ => Err(Stop::Left(bytes.len())),
        },
        [] => Err(Stop::Left(0)),
    }
}

/// A name that no definition before has, and its kind.
#[tactic(auto, unfolding(crate::specs::Parts::read_definition))]
fn take_definition<'b>(
    before: &Definitions<'b>,
    bytes: &'b [u8],
) -> Result<(&'b str, KeyKind, &'b [u8]), Stop>
    ensures part { IfOk result (λ p. read_definition before.now bytes.now
        ≡ got (record { name = p.0.now; kind = p.1 }) p.2.now) }
    ensures new { IfOk result (λ p. is_defined before.now p.0.now ≡ false) }
    ensures stop { IfErr result (StopsAs (read_definition before.now bytes.now)) }
{
    let (name, rest) = take_new_name(before, bytes)?;
    let (kind, rest) = take_kind(rest)?;
    Ok((name, kind, rest))
}

/// A count and so many definitions.
#[tactic(auto, unfolding(crate::specs::Parts::read_counted))]
pub fn take_definitions(alloc: Global, bytes: &[u8]) -> Result<(Definitions<'_>, &[u8]), Stop>
    ensures part { IfOk result (λ p. read_counted read_definition bytes.now ≡ got p.0 p.1.now) }
    ensures stop { IfErr result (StopsAs (read_counted read_definition bytes.now)) }
{
    let (count, rest) = take_u64(bytes)?;
    take_each_definition(alloc, count, rest)
}

#[tactic(auto, using(crate::proofs::Wholes::more_step, crate::proofs::Wholes::more_stop, crate::proofs::Wholes::more_end))]
fn take_each_definition(
    alloc: Global,
    count: u64,
    bytes: &[u8],
) -> Result<(Definitions<'_>, &[u8]), Stop>
    ensures part { IfOk result (λ p. read_more read_definition count [] bytes.now
        ≡ got p.0 p.1.now) }
    ensures stop { IfErr result (StopsAs (read_more read_definition count [] bytes.now)) }
{
    let mut definitions = Definitions::new(alloc);
    let mut rest = bytes;
    for _done in 0..count {
        let (name, kind, behind) = take_definition(&definitions, rest)?;
        definitions = definitions.with(alloc, name, kind)?;
        rest = behind;
    }
    Ok((definitions, rest))
}

/// A key: a name that is defined, with its kind.
#[tactic(auto, unfolding(crate::specs::Parts::read_key))]
pub fn take_key<'b>(
    alloc: Global,
    definitions: &Definitions<'b>,
    bytes: &'b [u8],
) -> Result<(KeyAttr, &'b [u8]), Stop>
    ensures part { IfOk result (λ p. read_key definitions.now bytes.now ≡ got p.0 p.1.now) }
    ensures stop { IfErr result (StopsAs (read_key definitions.now bytes.now)) }
{
    let (name, rest) = take_defined_name(definitions, bytes)?;
    Ok((definitions.key_attr(alloc, name)?, rest))
}

#[tactic(auto, unfolding(crate::specs::Parts::read_byte))]
fn take_truth(bytes: &[u8]) -> Result<(bool, &[u8]), Stop>
    ensures part { IfOk result (λ p. read_byte truth_byte truths bytes.now ≡ got p.0 p.1.now) }
    ensures stop { IfErr result (StopsAs (read_byte truth_byte truths bytes.now)) }
{
    match bytes {
        [byte, rest @ ..] => match *byte {
            0 => Ok((false, rest)),
            1 => Ok((true, rest)),
            _ => Err(Stop::Left(bytes.len())),
        },
        [] => Err(Stop::Left(0)),
    }
}

/// The RANGE key, where there is one.
#[tactic(auto, unfolding(crate::specs::Parts::read_range))]
pub fn take_range<'b>(
    alloc: Global,
    definitions: &Definitions<'b>,
    bytes: &'b [u8],
) -> Result<(Option<KeyAttr>, &'b [u8]), Stop>
    ensures part { IfOk result (λ p. read_range definitions.now bytes.now ≡ got p.0 p.1.now) }
    ensures stop { IfErr result (StopsAs (read_range definitions.now bytes.now)) }
{
    let (there, rest) = take_truth(bytes)?;
    if !there {
        return Ok((None, rest));
    }
    let (key, rest) = take_key(alloc, definitions, rest)?;
    Ok((Some(key), rest))
}

// ---- names that an index keeps

/// A count and so many names.
#[tactic(auto, unfolding(crate::specs::Parts::read_counted))]
pub fn take_names(alloc: Global, bytes: &[u8]) -> Result<(TextList, &[u8]), Stop>
    ensures part { IfOk result (λ p. read_counted (λ before. read_name any_name) bytes.now
        ≡ got p.0 p.1.now) }
    ensures stop { IfErr result (StopsAs (read_counted (λ before. read_name any_name) bytes.now)) }
{
    let (count, rest) = take_u64(bytes)?;
    take_each_name(alloc, count, rest)
}

#[tactic(auto, using(crate::proofs::Wholes::more_step, crate::proofs::Wholes::more_stop, crate::proofs::Wholes::more_end))]
fn take_each_name(alloc: Global, count: u64, bytes: &[u8]) -> Result<(TextList, &[u8]), Stop>
    ensures part { IfOk result (λ p. read_more (λ before. read_name any_name) count [] bytes.now
        ≡ got p.0 p.1.now) }
    ensures stop { IfErr result (StopsAs
        (read_more (λ before. read_name any_name) count [] bytes.now)) }
{
    let mut list = TextList::new(alloc);
    let mut rest = bytes;
    for _done in 0..count {
        let (name, behind) = take_text(rest)?;
        list.push(Text::new(alloc, name)?)?;
        rest = behind;
    }
    Ok((list, rest))
}
