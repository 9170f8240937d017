//! A shell behind a cache: what it reads of its files it reads once, and all else is as without.

ghost use Rattle.std.specs.Prelude.{◌≡◌, false, IfSome};
ghost use Rattle.alt_shell.specs.Log.{talks};
ghost use Rattle.alt_shell.specs.Memory.{shell_state};

use alt_blocks::{BlockCache, Cached};
use alt_disk::{Disk, MemoryDisk};
use alt_shell::{MemoryShell, Shell};
use std::alloc::Global;

// Whether the front of file 1 reads as these bytes.
fn reads<D: Disk>(disk: &mut D, want: &[u8]) -> bool
    ensures { (D.state disk.new).beside ≡ (D.state disk.old).beside }
{
    let mut buf = [0u8; 8];
    match disk.read(1, 0, &mut buf) {
        Ok(count) => count <= 8 && &buf[..count] == want,
        Err(_) => false,
    }
}

// Takes at most eight bytes, and tells whether they are these.
fn takes<S: Shell>(shell: &mut S, want: &[u8]) -> bool {
    let mut buf = [0u8; 8];
    match shell.take(&mut buf) {
        Ok(count) => count <= 8 && &buf[..count] == want,
        Err(_) => false,
    }
}

// Whether one connection comes, and file 1 reads the same before, on and behind it.
fn talks_and_reads<S: Shell>(shell: &mut S) -> bool
    requires { talks (S.state shell.old).beside ≡ false }
{
    let before = reads(shell, b"a file");
    let came = shell.accept() == Ok(true);
    let taken = takes(shell, b"ask") && reads(shell, b"a file");
    let said = shell.say(b"told").is_ok() && reads(shell, b"a file");
    shell.note(b"noted");
    let now = shell.now() == 7;
    shell.hang_up();
    let none = shell.accept() == Ok(false);
    let input = takes(shell, b"in") && reads(shell, b"a file");
    before && came && taken && said && now && none && input
}

// A shell with a file, a connection, a moment and some input, none where there is no memory.
fn prepared(alloc: Global) -> Option<MemoryShell>
    ensures { IfSome result (λ s. talks (shell_state s).beside ≡ false) }
{
    let mut shell = MemoryShell::new(alloc, MemoryDisk::new(alloc));
    let written = shell.write_at(1, 0, b"a file").is_ok();
    let heard = shell.connection().is_ok() && shell.send(b"ask").is_ok();
    let given = shell.input(b"in").is_ok() && shell.clock(7).is_ok();
    if written && heard && given {
        Some(shell)
    } else {
        None
    }
}

// Whether all goes through the cache to the shell, and one read alone is the disk's.
fn goes_through(alloc: Global) -> bool {
    let (Some(mut shell), Ok(mut cache)) = (prepared(alloc), BlockCache::new(alloc, 3)) else {
        return false;
    };
    let mut cached = Cached::new(&mut shell, &mut cache);
    let right = talks_and_reads(&mut cached);
    let (_, read) = shell.disk().counts();
    let said = shell.said(Some(0)) == b"told".as_slice();
    right && read == 1 && said && shell.noted() == b"noted".as_slice()
}

#[test]
fn a_shell_behind_a_cache_is_the_shell(rt: HostRuntime) {
    assert!(rt; goes_through(rt.alloc()));
}
