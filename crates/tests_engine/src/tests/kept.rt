//! A store whose segment is of the first form, as builds before the second one left it.

use crate::tests::flushed::{MORE, flush};
use crate::tests::several::{disk_of, put_all};
use crate::tests::written::{opened, shows};
use alt_disk::MemoryDisk;
use alt_engine::Engine;
use alt_gatelog::{Form, GateLog};
use alt_manifest::Manifest;
use std::alloc::Global;

// Its files after the writes of `written`, as the last build before the second form left them.
static KEPT: [(u32, &[u8]); 2] = [
    (
        1,
        b"ALTLOG01\x01\0\0\0\0\0\0\0\x20\0\0\0\x03\0\0\0\0\0\0\0\x01\0\0\0\0\0\0\0\x01\0\0\0\x02\0\0\0\0\0\0\0\0\0",
    ),
    (
        2,
        b"ALTLOG01\x01\0\0\0\0\0\0\0\x3b\0\0\0\0\0\0\0\x01\0\0\0\0\0\0\0\x01\0\0\0\x07\0\0\0\0\0\0\0\x01a\x01\0\0\0\0\0\0\0\x01\0\0\0\0\0\0\0\x01v\x01\0\0\0\0\0\0\0\x03one\x01\0\0\0\0\0\0\0\x3b\0\0\0\0\0\0\0\x02\0\0\0\0\0\0\0\x01\0\0\0\x07\0\0\0\0\0\0\0\x01b\x01\0\0\0\0\0\0\0\x01\0\0\0\0\0\0\0\x01v\x01\0\0\0\0\0\0\0\x03one\x01\0\0\0\0\0\0\0\x3d\0\0\0\0\0\0\0\x03\0\0\0\0\0\0\0\x01\0\0\0\x07\0\0\0\0\0\0\0\x02cc\x01\0\0\0\0\0\0\0\x01\0\0\0\0\0\0\0\x01v\x01\0\0\0\0\0\0\0\x04four\x01\0\0\0\0\0\0\0\x3b\0\0\0\0\0\0\0\x04\0\0\0\0\0\0\0\x01\0\0\0\x07\0\0\0\0\0\0\0\x01a\x01\0\0\0\0\0\0\0\x01\0\0\0\0\0\0\0\x01v\x01\0\0\0\0\0\0\0\x03two\x01\0\0\0\0\0\0\0\x26\0\0\0\0\0\0\0\x05\0\0\0\0\0\0\0\x01\0\0\0\x07\0\0\0\0\0\0\0\x01b\x01\0\0\0\0\0\0\0\0\x01\0\0\0\0\0\0\0\x3d\0\0\0\0\0\0\0\x06\0\0\0\0\0\0\0\x01\0\0\0\x07\0\0\0\0\0\0\0\x01c\x01\0\0\0\0\0\0\0\x01\0\0\0\0\0\0\0\x01v\x01\0\0\0\0\0\0\0\x05three\0",
    ),
];

// A disk with these files.
fn kept(alloc: Global) -> Option<MemoryDisk> {
    disk_of(alloc, &KEPT)
}

// Whether all rows are shown, in either direction, and the next number is this one.
fn shows_all(alloc: Global, engine: &mut Engine, disk: &mut MemoryDisk, next: u64) -> Option<bool> {
    Some(
        engine.next_number() == next
            && shows(alloc, engine, disk, true)?
            && shows(alloc, engine, disk, false)?,
    )
}

// Whether a stop now leaves a store that shows all rows.
fn lasts(alloc: Global, disk: &MemoryDisk, next: u64) -> Option<bool> {
    let (now, _) = disk.counts();
    let mut left = disk.stopped(now, &[]).ok()?;
    let mut engine = opened(alloc, &mut left)?;
    shows_all(alloc, &mut engine, &mut left, next)
}

// The forms of the segments that the last version names, as a stop now leaves them.
fn forms(alloc: Global, disk: &MemoryDisk) -> Option<Vec<Form>> {
    let (now, _) = disk.counts();
    let mut left = disk.stopped(now, &[]).ok()?;
    let manifest = Manifest::recover(alloc, &mut left, 1).ok()?;
    let mut forms = Vec::new(alloc);
    for f in manifest.current().segments.as_slice() {
        let log = GateLog::recover(alloc, &mut left, *f).ok()?;
        forms.push(log.form()).ok()?;
    }
    Some(forms)
}

// Whether it is opened as it is, and its first write makes a segment of the second form behind the others, and the next ones none.
fn is_written(alloc: Global) -> Option<bool> {
    let mut shown = kept(alloc)?;
    let mut reader = opened(alloc, &mut shown)?;
    let read = shows_all(alloc, &mut reader, &mut shown, 7)?;
    let mut disk = kept(alloc)?;
    let mut engine = opened(alloc, &mut disk)?;
    let before = forms(alloc, &disk)?;
    put_all(alloc, &mut engine, &mut disk, &MORE)?;
    let after = forms(alloc, &disk)?;
    let written = lasts(alloc, &disk, 11)?;
    put_all(alloc, &mut engine, &mut disk, &MORE)?;
    let later = forms(alloc, &disk)?;
    Some(
        read && before.as_slice() == [Form::One].as_slice()
            && after.as_slice() == [Form::One, Form::Two].as_slice()
            && written
            && later.as_slice() == [Form::One, Form::Two].as_slice()
            && lasts(alloc, &disk, 15)?,
    )
}

#[test]
fn the_first_write_makes_a_segment_of_the_second_form(rt: HostRuntime) {
    assert!(rt; is_written(rt.alloc()) == Some(true));
}

// Whether a batch and a flush leave no segment of the first form, also where it is opened again.
fn is_flushed(alloc: Global) -> Option<bool> {
    let mut disk = kept(alloc)?;
    let mut engine = opened(alloc, &mut disk)?;
    put_all(alloc, &mut engine, &mut disk, &MORE)?;
    flush(&mut engine, &mut disk)?;
    let flushed = forms(alloc, &disk)?;
    let (now, _) = disk.counts();
    let mut left = disk.stopped(now, &[]).ok()?;
    let mut again = opened(alloc, &mut left)?;
    put_all(alloc, &mut again, &mut left, &MORE)?;
    Some(
        flushed.as_slice() == [Form::Two].as_slice()
            && forms(alloc, &left)?.as_slice() == [Form::Two].as_slice()
            && lasts(alloc, &disk, 11)?
            && lasts(alloc, &left, 15)?,
    )
}

#[test]
fn a_flush_leaves_no_segment_of_the_first_form(rt: HostRuntime) {
    assert!(rt; is_flushed(rt.alloc()) == Some(true));
}

// Whether a flush before the first write makes its segment of the second form, and the write none.
fn is_flushed_first(alloc: Global) -> Option<bool> {
    let mut disk = kept(alloc)?;
    let mut engine = opened(alloc, &mut disk)?;
    flush(&mut engine, &mut disk)?;
    let flushed = forms(alloc, &disk)?;
    put_all(alloc, &mut engine, &mut disk, &MORE)?;
    Some(
        flushed.as_slice() == [Form::Two].as_slice()
            && forms(alloc, &disk)?.as_slice() == [Form::Two].as_slice()
            && lasts(alloc, &disk, 11)?,
    )
}

#[test]
fn behind_a_flush_a_write_makes_no_segment(rt: HostRuntime) {
    assert!(rt; is_flushed_first(rt.alloc()) == Some(true));
}

// Whether a stop at each moment of the first write leaves the rows that were written or are written then: either way the same rows,
// with one of these next numbers.
fn stops(alloc: Global) -> Option<bool> {
    let mut disk = kept(alloc)?;
    let mut engine = opened(alloc, &mut disk)?;
    let (begun, _) = disk.counts();
    put_all(alloc, &mut engine, &mut disk, &MORE)?;
    let (ended, _) = disk.counts();
    for moment in begun..ended {
        let mut left = disk.stopped(moment, &[2, 0, 255, 7, 1, 1, 0, 3]).ok()?;
        let mut again = opened(alloc, &mut left)?;
        let next = again.next_number();
        if (next != 7 && next != 11) || !shows_all(alloc, &mut again, &mut left, next)? {
            return Some(false);
        }
    }
    Some(ended.saturating_sub(begun) == 10)
}

#[test]
fn a_stop_within_the_first_write_leaves_all_of_it_or_none(rt: HostRuntime) {
    assert!(rt; stops(rt.alloc()) == Some(true));
}
