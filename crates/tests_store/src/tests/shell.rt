//! The shell in memory: pieces, moments, and calls that fail.

use alt_disk::MemoryDisk;
use alt_shell::{MemoryShell, Shell};
use std::alloc::Global;

// Takes at most two bytes, and tells whether they are these.
fn takes(shell: &mut MemoryShell, want: &[u8]) -> bool {
    let mut buf = [0u8; 2];
    let Ok(count) = shell.take(&mut buf) else {
        return false;
    };
    &buf[..count.min(2)] == want
}

// A shell over an empty disk with three pieces of input, of which one is empty, none where there is no memory.
fn with_input(alloc: Global) -> Option<MemoryShell> {
    let mut shell = MemoryShell::new(alloc, MemoryDisk::new(alloc));
    let given = shell.input(b"abc").is_ok()
        && shell.input(b"").is_ok()
        && shell.input(b"d").is_ok();
    if given { Some(shell) } else { None }
}

// What takes of two bytes give one after another.
static TAKEN: [&[u8]; 5] = [b"ab", b"c", b"d", b"", b""];

#[test]
fn a_take_gives_bytes_of_one_piece_and_the_end_is_final(rt: HostRuntime) {
    let Some(mut shell) = with_input(rt.alloc()) else {
        assert!(rt; false);
        return;
    };
    for want in &TAKEN {
        assert!(rt; takes(&mut shell, *want));
    }
    assert!(rt; shell.disk().counts() == (5, 0));
    assert!(rt; shell.input(b"more").is_ok() && takes(&mut shell, b""));
}

// Whether a clock tells its moments in turn, and the last one again.
fn tells_in_turn(alloc: Global) -> bool {
    let mut shell = MemoryShell::new(alloc, MemoryDisk::new(alloc));
    let none = shell.now() == 0;
    let two = shell.clock(5).is_ok() && shell.clock(3).is_ok();
    let told = shell.now() == 5 && shell.now() == 3 && shell.now() == 3;
    let more = shell.clock(8).is_ok() && shell.now() == 8;
    none && two && told && more
}

#[test]
fn the_last_moment_is_told_again(rt: HostRuntime) {
    assert!(rt; tells_in_turn(rt.alloc()));
}

// Whether what was said and noted is told, and a say that fails says nothing.
fn says_and_notes(alloc: Global) -> bool {
    let mut disk = MemoryDisk::new(alloc);
    let listed = disk.fail(1).is_ok() && disk.fail(3).is_ok();
    let mut shell = MemoryShell::new(alloc, disk);
    let said = shell.say(b"one").is_ok() && shell.say(b"two").is_err() && shell.say(b"!").is_ok();
    let mut buf = [0u8; 2];
    let failed = shell.take(&mut buf).is_err();
    shell.note(b"three");
    let told = shell.said(None) == b"one!".as_slice() && shell.said(Some(0)).is_empty();
    listed && said && failed && told && shell.noted() == b"three".as_slice()
}

#[test]
fn what_was_said_and_noted_is_told(rt: HostRuntime) {
    assert!(rt; says_and_notes(rt.alloc()));
}
