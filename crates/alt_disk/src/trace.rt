//! A file with all that a stop may leave of it, rebuilt from the list of calls.

ghost use Rattle.std.specs.Prelude.{◌≡◌, Some, true, IfOk, length, map};
ghost use Rattle.alt_disk.specs.declared.made.Deed.TheVariants.{Sync, Remove, RemoveFailed};
ghost use Rattle.alt_disk.specs.Disk.{bytes_or_none, overwritten};
ghost use Rattle.alt_disk.specs.Fates.{opened, wrote};
ghost use Rattle.alt_disk.specs.Files.{option_items};
ghost use Rattle.alt_disk.specs.Memory.{track_after, at_moment};
ghost use Rattle.alt_disk.specs.Trace.{track_of};

use crate::files::overwrite;
use crate::made::{Deed, Made};
use std::alloc::{AllocError, Global};

/// What a stop may leave: the bytes up to the synced end, each known or open, and whether anything may follow.
#[derive(Drop)]
pub struct Outline {
    pub known: Vec<Option<u8>>,
    pub loose: bool,
}

/// A file: its bytes, what a stop may leave of it (the file last made, or one of the others, none standing for missing), and the
/// lengths of those removed since the last sync, the latest first.
#[derive(Drop)]
pub struct Trace {
    pub bytes: Option<Vec<u8>>,
    pub last: Option<Outline>,
    pub others: Vec<Option<Outline>>,
    pub lengths: Vec<u64>,
}

/// A file at a moment, by the calls that show by then.
pub(crate) fn retrace(
    alloc: Global,
    calls: &[Made],
    f: u32,
    moment: u64,
) -> Result<Trace, AllocError>
    ensures { IfOk result (λ t. track_of t ≡ at_moment moment f calls.now) }
{
    let mut found = Trace {
        bytes: None,
        last: None,
        others: Vec::new(alloc),
        lengths: Vec::new(alloc),
    };
    for made in calls {
        if made.file == f && made.time <= moment {
            found = after_deed(alloc, &made.deed, found)?;
        }
    }
    Ok(found)
}

// One call more.
fn after_deed(alloc: Global, deed: &Deed, trace: Trace) -> Result<Trace, AllocError>
    ensures { IfOk result (λ t. track_of t ≡ track_after deed.now (track_of trace)) }
{
    match deed {
        Deed::Write { at, bytes } => { after_write(alloc, trace, *at, bytes.as_slice()) }
        Deed::WriteFailed { at, count } => after_open(alloc, trace, *at, *count),
        Deed::Sync => after_sync(alloc, trace),
        Deed::Remove => after_remove(trace),
        Deed::RemoveFailed => after_failed_remove(trace),
    }
}

// A write.
fn after_write(alloc: Global, trace: Trace, at: u64, bytes: &[u8]) -> Result<Trace, AllocError>
    ensures { IfOk result (λ t. let s = track_of trace in track_of t
        ≡ record {
          bytes = Some (overwritten (bytes_or_none s.bytes) at bytes.now);
          fates =
              wrote at (length bytes.now) s.fates;
          lengths = s.lengths;
        }) }
{
    let mut there = bytes_or_empty(alloc, trace.bytes);
    overwrite(&mut there, at, bytes)?;
    let found = Trace {
        bytes: Some(there),
        last: trace.last,
        others: trace.others,
        lengths: trace.lengths,
    };
    after_open(alloc, found, at, bytes.len() as u64)
}

// The bytes of a file, none where it is missing.
fn bytes_or_empty(alloc: Global, bytes: Option<Vec<u8>>) -> Vec<u8>
    ensures { result.items ≡ bytes_or_none (option_items bytes) }
{
    match bytes {
        Some(there) => there,
        None => Vec::new(alloc),
    }
}

// What a write does to what a stop may leave.
fn after_open(alloc: Global, trace: Trace, at: u64, count: u64) -> Result<Trace, AllocError>
    ensures { IfOk result (λ t. let s = track_of trace in track_of t
        ≡ record s { fates = wrote at count s.fates }) }
{
    let Trace {
        bytes,
        last,
        mut others,
        lengths,
    } = trace;
    let last = match last {
        Some(outline) => open_range(outline, at, count),
        None => {
            others.insert(0, None)?;
            Outline {
                known: Vec::new(alloc),
                loose: true,
            }
        }
    };
    Ok(Trace {
        bytes,
        last: Some(last),
        others,
        lengths,
    })
}

// Opens a range of bytes, and the end.
fn open_range(outline: Outline, at: u64, count: u64) -> Outline
    ensures known { result.known.items ≡ opened at count outline.known.items }
    ensures loose { result.loose ≡ true }
{
    let mut known = outline.known;
    let from = at.min(known.len() as u64) as usize;
    let to = from + count.min((known.len() - from) as u64) as usize;
    for i in from..to {
        known[i] = None;
    }
    Outline { known, loose: true }
}

// A sync. It does nothing to a missing file.
fn after_sync(alloc: Global, trace: Trace) -> Result<Trace, AllocError>
    ensures { IfOk result (λ t. track_of t ≡ track_after Sync (track_of trace)) }
{
    let Trace {
        bytes,
        last,
        others,
        lengths,
    } = trace;
    let Some(bytes) = bytes else {
        return Ok(Trace {
            bytes: None,
            last,
            others,
            lengths,
        });
    };
    let known = all_known(alloc, bytes.as_slice())?;
    Ok(Trace {
        bytes: Some(bytes),
        last: Some(Outline {
            known,
            loose: false,
        }),
        others: Vec::new(alloc),
        lengths: Vec::new(alloc),
    })
}

// Bytes that are all known.
fn all_known(alloc: Global, bytes: &[u8]) -> Result<Vec<Option<u8>>, AllocError>
    ensures { IfOk result (λ known. known.items ≡ map (λ b. Some b) bytes.now) }
{
    bytes.iter().map(|b| Some(*b)).collect(alloc)
}

// A removal. It does nothing to a missing file.
fn after_remove(trace: Trace) -> Result<Trace, AllocError>
    ensures { IfOk result (λ t. track_of t ≡ track_after Remove (track_of trace)) }
{
    let Trace {
        bytes,
        last,
        mut others,
        mut lengths,
    } = trace;
    let Some(bytes) = bytes else {
        return Ok(Trace {
            bytes: None,
            last,
            others,
            lengths,
        });
    };
    others.insert(0, last)?;
    lengths.insert(0, bytes.len() as u64)?;
    Ok(Trace {
        bytes: None,
        last: None,
        others,
        lengths,
    })
}

// A removal that failed. It does nothing to a missing file.
fn after_failed_remove(trace: Trace) -> Result<Trace, AllocError>
    ensures { IfOk result (λ t. track_of t ≡ track_after RemoveFailed (track_of trace)) }
{
    let mut others = trace.others;
    if trace.bytes.is_some() {
        others.insert(0, None)?;
    }
    Ok(Trace {
        bytes: trace.bytes,
        last: trace.last,
        others,
        lengths: trace.lengths,
    })
}
