//! The file that a choice picks of what a stop may leave.

ghost use Rattle.std.specs.Prelude.{◌≡◌, ◌<◌, ◌++◌, [], Some, None, IfOk, IfSome, map, drop, is_none};
ghost use Rattle.std.specs.List.{All, list_any};
ghost use Rattle.alt_disk.specs.Files.{option_items};
ghost use Rattle.alt_disk.specs.Trace.{track_of, option_shape, generation_of, option_generation};
ghost use Rattle.alt_disk.specs.Stopped.{next, generations, removed_ones, may_miss, chosen, behind_chosen, past_end, behind_length, filled, behind_filled, open_bytes, left_file, behind_left, picked, behind_picked};

use crate::trace::{Outline, Trace};
use std::alloc::{AllocError, Global};

/// One file that a stop may leave, and the length that a read gave of it.
#[derive(Drop)]
pub struct Copy {
    pub outline: Outline,
    pub size: u64,
}

/// The bytes of choice that are left.
#[derive(Drop)]
pub struct Choice<'a> {
    pub rest: &'a [u8],
}

impl Choice<'_> {
    /// The next byte, 0 where the choice has run out.
    pub(crate) fn next(&mut self) -> u8
        ensures value { result ≡ next self.old.rest.now }
        ensures rest { self.new.rest.now ≡ drop 1 self.old.rest.now }
    {
        match self.rest.split_first() {
            Some((first, rest)) => {
                self.rest = rest;
                *first
            }
            None => 0,
        }
    }
}

/// The file that the choice picks.
pub(crate) fn pick(
    alloc: Global,
    trace: Trace,
    choice: &mut Choice,
) -> Result<Option<Vec<u8>>, AllocError>
    ensures file { IfOk result (λ file.
        option_items file ≡ picked (track_of trace) choice.old.rest.now) }
    ensures rest { IfOk result (λ _.
        choice.new.rest.now ≡ behind_picked (track_of trace) choice.old.rest.now) }
    ensures below { IfOk result (λ file. IfSome file (λ bytes. All (λ b. b < 256) bytes.items)) }
{
    let miss = may_be_missing(&trace);
    let copies = copies(alloc, trace)?;
    match choose(copies, miss, choice) {
        Some(copy) => Ok(Some(fill(alloc, &copy, choice)?)),
        None => Ok(None),
    }
}

// Whether a stop may leave no file.
fn may_be_missing(trace: &Trace) -> bool
    ensures { result ≡ may_miss (track_of trace.now).fates }
{
    match &trace.last {
        Some(_) => has_none(trace.others.as_slice()),
        None => true,
    }
}

// Whether one of these is none.
fn has_none(others: &[Option<Outline>]) -> bool
    ensures { result ≡ list_any (λ other. is_none other) others.now }
{
    others.iter().any(|other| other.is_none())
}

// The files that a stop may leave, the one last made first.
fn copies(alloc: Global, trace: Trace) -> Result<Vec<Copy>, AllocError>
    ensures { IfOk result (λ copies. map generation_of copies.items
        ≡ generations (track_of trace)) }
{
    let Trace {
        bytes,
        last,
        others,
        lengths,
    } = trace;
    let size = match bytes {
        Some(bytes) => bytes.len() as u64,
        None => 0,
    };
    let mut found = Vec::new(alloc);
    if let Some(outline) = last {
        found.push(Copy { outline, size })?;
    }
    add_removed(&mut found, others, lengths.as_slice())?;
    Ok(found)
}

// Adds those that were removed.
fn add_removed(
    found: &mut Vec<Copy>,
    others: Vec<Option<Outline>>,
    lengths: &[u64],
) -> Result<(), AllocError>
    ensures { IfOk result (λ _. map generation_of found.new.items
        ≡ map generation_of found.old.items ++ removed_ones
        (map option_shape others.items) lengths.now) }
{
    let mut rest = lengths;
    for other in others {
        if let Some(outline) = other {
            let size = rest.first().copied().unwrap_or(0);
            rest = rest.get(1..).unwrap_or(&[]);
            found.push(Copy { outline, size })?;
        }
    }
    Ok(())
}

// Which of them is left, by a byte where there may be one or none.
fn choose(copies: Vec<Copy>, miss: bool, choice: &mut Choice) -> Option<Copy>
    ensures copy { option_generation result ≡ chosen miss
        (map generation_of copies.items) choice.old.rest.now }
    ensures rest { choice.new.rest.now ≡ behind_chosen miss
        (map generation_of copies.items) choice.old.rest.now }
{
    let mut copies = copies.into_iter();
    let Some(last) = copies.next() else {
        return None;
    };
    if !miss {
        return Some(last);
    }
    match choice.next() {
        0 => None,
        2 => Some(copies.next().unwrap_or(last)),
        _ => Some(last),
    }
}

// The bytes of the file that is left.
fn fill(alloc: Global, copy: &Copy, choice: &mut Choice) -> Result<Vec<u8>, AllocError>
    ensures bytes { IfOk result (λ bytes.
        Some bytes.items ≡ left_file (Some (generation_of copy.now)) choice.old.rest.now) }
    ensures rest { IfOk result (λ _.
        choice.new.rest.now ≡ behind_left (Some (generation_of copy.now)) choice.old.rest.now) }
    ensures below { IfOk result (λ bytes. All (λ b. b < 256) bytes.items) }
{
    let past = length_past(copy, choice);
    let mut bytes = Vec::new(alloc);
    fill_known(&mut bytes, copy.outline.known.as_slice(), choice)?;
    fill_open(&mut bytes, past, choice)?;
    Ok(bytes)
}

// How many bytes it has past its synced end.
fn length_past(copy: &Copy, choice: &mut Choice) -> u64
    ensures past { result ≡ past_end (generation_of copy.now) choice.old.rest.now }
    ensures rest { choice.new.rest.now ≡ behind_length
        (generation_of copy.now) choice.old.rest.now }
{
    if !copy.outline.loose {
        return 0;
    }
    match choice.next() {
        1 => copy.size.saturating_sub(copy.outline.known.len() as u64),
        byte => byte as u64,
    }
}

// Adds bytes that are known or open.
fn fill_known(
    bytes: &mut Vec<u8>,
    known: &[Option<u8>],
    choice: &mut Choice,
) -> Result<(), AllocError>
    ensures bytes { IfOk result (λ _. bytes.new.items
        ≡ bytes.old.items ++ filled known.now choice.old.rest.now) }
    ensures rest { IfOk result (λ _. choice.new.rest.now
        ≡ behind_filled known.now choice.old.rest.now) }
{
    for byte in known {
        match byte {
            Some(byte) => bytes.push(*byte)?,
            None => bytes.push(choice.next())?,
        }
    }
    Ok(())
}

// Adds so many open bytes.
fn fill_open(bytes: &mut Vec<u8>, count: u64, choice: &mut Choice) -> Result<(), AllocError>
    ensures bytes { IfOk result (λ _.
        bytes.new.items ≡ bytes.old.items ++ filled (open_bytes count) choice.old.rest.now) }
    ensures rest { IfOk result (λ _.
        choice.new.rest.now ≡ behind_filled (open_bytes count) choice.old.rest.now) }
    ensures below { IfOk result (λ _. All (λ b. b < 256) bytes.new.items) }
{
    for _ in 0..count {
        bytes.push(choice.next())?;
    }
    Ok(())
}
