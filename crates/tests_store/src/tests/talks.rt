//! The shell in memory on connections: their order and their cuts, calls that fail, and what was said on each.

use alt_disk::MemoryDisk;
use alt_shell::{MemoryShell, Shell};
use std::alloc::Global;

// Takes at most eight bytes, and tells whether they are these.
fn takes(shell: &mut MemoryShell, want: &[u8]) -> bool {
    let mut buf = [0u8; 8];
    let Ok(count) = shell.take(&mut buf) else {
        return false;
    };
    &buf[..count.min(8)] == want
}

// Adds a connection with two pieces, and tells whether there was memory.
fn connect(shell: &mut MemoryShell, first: &[u8], second: &[u8]) -> bool {
    let Ok(()) = shell.connection() else {
        return false;
    };
    let Ok(()) = shell.send(first) else {
        return false;
    };
    shell.send(second).is_ok()
}

// Ends the talk, if there is one, and tells whether a connection comes, and none without a fault.
fn next(shell: &mut MemoryShell) -> Option<bool> {
    shell.hang_up();
    shell.accept().ok()
}

// Two pieces that are sent, and what takes of eight bytes give one after another.
static CUTS: [(&[u8], &[u8], [&[u8]; 3]); 5] = [
    (b"a", b"b", [b"a", b"b", b""]),
    (b"a", b"bcdefgh", [b"a", b"bcdefgh", b""]),
    (b"abcdefg", b"h", [b"abcdefg", b"h", b""]),
    (b"abcdefg", b"", [b"abcdefg", b"", b""]),
    (b"", b"abcdefghij", [b"abcdefgh", b"ij", b""]),
];

// Whether each connection gives its own pieces, in the order in which they were added, and then none comes.
fn gives_all(alloc: Global) -> bool {
    let mut shell = MemoryShell::new(alloc, MemoryDisk::new(alloc));
    let mut holds = shell.input(b"input").is_ok();
    for (first, second, _) in &CUTS {
        holds = connect(&mut shell, *first, *second) && holds;
    }
    for (_, _, taken) in &CUTS {
        holds = next(&mut shell) == Some(true) && holds;
        for want in taken {
            holds = takes(&mut shell, *want) && holds;
        }
    }
    holds && next(&mut shell) == Some(false) && takes(&mut shell, b"input")
}

#[test]
fn connections_come_in_order_and_a_take_gives_bytes_of_one_piece(rt: HostRuntime) {
    assert!(rt; gives_all(rt.alloc()));
}

// The talk call that is to fail, and which of these calls then do: a take, a say and a take on the first talk, a say and a take on the
// second.
static FAILURES: [(u64, [bool; 5]); 6] = [
    (0, [true, false, false, false, false]),
    (1, [false, true, false, false, false]),
    (2, [false, false, true, false, false]),
    (3, [false, false, false, true, false]),
    (4, [false, false, false, false, true]),
    (5, [false, false, false, false, false]),
];

// Whether exactly these calls fail where this talk call is to, beside a moment of the disk's list that lies in a talk.
fn fails_at(alloc: Global, call: u64, want: &[bool; 5]) -> bool {
    let mut disk = MemoryDisk::new(alloc);
    let listed = disk.fail(2).is_ok();
    let mut shell = MemoryShell::new(alloc, disk);
    let added = connect(&mut shell, b"a", b"b") && connect(&mut shell, b"c", b"d");
    let asked = shell.fail_talk(call).is_ok() && next(&mut shell) == Some(true);
    let mut buf = [0u8; 8];
    let first = shell.take(&mut buf).is_err() == want[0]
        && shell.say(b"one").is_err() == want[1]
        && shell.take(&mut buf).is_err() == want[2];
    let again = next(&mut shell) == Some(true);
    let second = shell.say(b"two").is_err() == want[3] && shell.take(&mut buf).is_err() == want[4];
    listed && added && asked && first && again && second
}

#[test]
fn the_call_of_that_number_fails_and_no_other(rt: HostRuntime) {
    for (call, want) in &FAILURES {
        assert!(rt; fails_at(rt.alloc(), *call, want), "call {call}");
    }
}

// Whether what was said is told of each talk, and nothing of one that wasn't.
fn tells_each(alloc: Global) -> bool {
    let mut shell = MemoryShell::new(alloc, MemoryDisk::new(alloc));
    let added = connect(&mut shell, b"", b"") && connect(&mut shell, b"", b"");
    let before = shell.say(b"out").is_ok() && next(&mut shell) == Some(true);
    let first = shell.say(b"on").is_ok() && shell.say(b"e").is_ok();
    let at_hand = shell.said(Some(0)) == b"one".as_slice() && shell.said(Some(1)).is_empty();
    let second = next(&mut shell) == Some(true) && shell.say(b"two").is_ok();
    shell.hang_up();
    let behind = shell.say(b"put").is_ok() && shell.said(None) == b"output".as_slice();
    let told = shell.said(Some(0)) == b"one".as_slice() && shell.said(Some(1)) == b"two".as_slice();
    added
        && before
        && first
        && at_hand
        && second
        && behind
        && told
        && shell.said(Some(2)).is_empty()
}

#[test]
fn what_was_said_on_each_talk_is_told(rt: HostRuntime) {
    assert!(rt; tells_each(rt.alloc()));
}
