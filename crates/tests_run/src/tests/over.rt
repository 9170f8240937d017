//! A run over a shell in memory, what a stop leaves of it, and what a store shows.

ghost use Rattle.std.specs.Prelude.{◌≡◌, false, IfSome};
ghost use Rattle.alt_shell.specs.Log.{talks};
ghost use Rattle.alt_shell.specs.Memory.{shell_state};

use alt_disk::MemoryDisk;
use alt_run::run;
use alt_shell::MemoryShell;
use std::alloc::Global;

/// Requests as lines, with a flush as soon as may be and a merge of two files.
pub(super) static REPLAY: [&str; 3] = ["replay", "65536", "2"];

/// Words as a command line gives them.
pub(super) fn words_of(alloc: Global, texts: &[&str]) -> Option<Vec<String>> {
    let mut words = Vec::new(alloc);
    for text in texts {
        words.push(String::from_str(alloc, *text).ok()?).ok()?;
    }
    Some(words)
}

/// A shell over a disk, to which standard input comes line by line.
pub(super) fn shell_over(alloc: Global, disk: MemoryDisk, lines: &[&str]) -> Option<MemoryShell>
    ensures { IfSome result (λ s. talks (shell_state s).beside ≡ false) }
{
    let mut shell = MemoryShell::new(alloc, disk);
    shell.clock(1_700_000_000).ok()?;
    for line in lines {
        let piece = format!(in alloc; "{line}\n").ok()?;
        shell.input(piece.as_bytes()).ok()?;
    }
    Some(shell)
}

/// The status of a run with these words.
pub(super) fn ended(alloc: Global, texts: &[&str], shell: &mut MemoryShell) -> Option<u8>
    requires { talks (shell_state shell.old).beside ≡ false }
    ensures { talks (shell_state shell.new).beside ≡ false }
{
    let words = words_of(alloc, texts)?;
    Some(run(alloc, &words, shell))
}

/// The disk that a stop at a moment leaves, by what the choice picks.
pub(super) fn left(shell: &MemoryShell, moment: u64, choice: &[u8]) -> Option<MemoryDisk> {
    let disk = shell.disk();
    let (now, _) = disk.counts();
    if moment > now {
        return None;
    }
    disk.stopped(moment, choice).ok()
}

/// The disk that a stop now leaves.
pub(super) fn left_now(shell: &MemoryShell, choice: &[u8]) -> Option<MemoryDisk> {
    let (now, _) = shell.disk().counts();
    left(shell, now, choice)
}

/// A disk with an empty store.
pub(super) fn fresh(alloc: Global) -> Option<MemoryDisk> {
    let mut shell = shell_over(alloc, MemoryDisk::new(alloc), &[])?;
    match ended(alloc, &["init"], &mut shell)? {
        0 => left_now(&shell, &[]),
        _ => None,
    }
}

/// The shell behind a run over these lines that ended with 0.
pub(super) fn replayed(alloc: Global, disk: MemoryDisk, lines: &[&str]) -> Option<MemoryShell>
    ensures { IfSome result (λ s. talks (shell_state s).beside ≡ false) }
{
    let mut shell = shell_over(alloc, disk, lines)?;
    match ended(alloc, &REPLAY, &mut shell)? {
        0 => Some(shell),
        _ => None,
    }
}

/// The disk behind a run over these lines.
pub(super) fn behind(alloc: Global, disk: MemoryDisk, lines: &[&str]) -> Option<MemoryDisk> {
    let shell = replayed(alloc, disk, lines)?;
    left_now(&shell, &[])
}

/// What a store shows: the replies to lines that read it.
pub(super) fn shown(alloc: Global, disk: MemoryDisk, lines: &[&str]) -> Option<Vec<u8>> {
    let shell = replayed(alloc, disk, lines)?;
    shell.said(None).to_vec(alloc).ok()
}
