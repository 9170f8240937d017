//! The standard streams, the connections and the clock.

ghost use Rattle.std.specs.Prelude.{◌≡◌, ◌≤◌, true, false, length, IfOk, is_none, is_ok};
ghost use Rattle.alt_base.specs.Counts.{Rose, next_moment};
ghost use Rattle.alt_host.specs.Host.{shell_by_counts};
ghost use Rattle.alt_shell.specs.Calls.{Accepts, ShellCall, StaysIn};
ghost use Rattle.alt_shell.specs.Log.{talks, takes_missed, says_missed};

use crate::shell::HostShell;
use crate::talk::{self, Peer};
use alt_disk::Failed;
use alt_shell::{CLOCK_END, Shell};
use std::fs::File;
use std::io::{self, Read, Write};
use std::net::Net;
use std::rt::Runtime;
use std::time::{SystemTime, UNIX_EPOCH};

/// The most bytes that a shell gives over its life.
const LIFE: u64 = 1 << 62;

impl<R: Runtime<File = File> + Net> HostShell<R> {
    /// Takes the moment of a call that fails in a talk.
    fn talk_fails(&mut self) -> Failed
        ensures moment { self.new.moment ≡ next_moment self.old.moment }
        ensures later { self.old.talk_faults ≤ self.new.talk_faults }
        ensures rose { Rose self.old.talk_faults self.new.talk_faults }
        ensures talking { self.new.talking ≡ self.old.talking }
        ensures faults { self.new.faults ≡ self.old.faults }
        ensures takes { self.new.takes_missed ≡ self.old.takes_missed }
        ensures says { self.new.says_missed ≡ self.old.says_missed }
    {
        self.moment = self.moment.saturating_add(1);
        self.talk_faults = self.talk_faults.saturating_add(1);
        Failed
    }

    /// Takes the moment of a take that fails, in a talk where there is one.
    fn take_fails(&mut self) -> Failed
        ensures call { ShellCall
            (shell_by_counts self.old.moment self.old.faults self.old.talking self.old.talk_faults
            self.old.takes_missed self.old.says_missed)
            (shell_by_counts self.new.moment self.new.faults self.new.talking self.new.talk_faults
            self.new.takes_missed self.new.says_missed) false }
        ensures talk { StaysIn
            (shell_by_counts self.old.moment self.old.faults self.old.talking self.old.talk_faults
            self.old.takes_missed self.old.says_missed)
            (shell_by_counts self.new.moment self.new.faults self.new.talking self.new.talk_faults
            self.new.takes_missed self.new.says_missed) false takes_missed says_missed }
    {
        if self.talking {
            self.takes_missed = 1;
            return self.talk_fails();
        }
        self.fails()
    }

    /// Takes the moment of a say that fails, likewise.
    fn say_fails(&mut self) -> Failed
        ensures call { ShellCall
            (shell_by_counts self.old.moment self.old.faults self.old.talking self.old.talk_faults
            self.old.takes_missed self.old.says_missed)
            (shell_by_counts self.new.moment self.new.faults self.new.talking self.new.talk_faults
            self.new.takes_missed self.new.says_missed) false }
        ensures talk { StaysIn
            (shell_by_counts self.old.moment self.old.faults self.old.talking self.old.talk_faults
            self.old.takes_missed self.old.says_missed)
            (shell_by_counts self.new.moment self.new.faults self.new.talking self.new.talk_faults
            self.new.takes_missed self.new.says_missed) false says_missed takes_missed }
    {
        if self.talking {
            self.says_missed = 1;
            return self.talk_fails();
        }
        self.fails()
    }
}

/// Takes from the peer, where there is one, and else from standard input.
fn take_from<R: Runtime<File = File> + Net>(
    rt: &R,
    peer: &mut Option<Peer<R::Stream>>,
    buf: &mut [u8],
) -> Result<usize, Failed>
    ensures { IfOk result (λ n. n ≤ length buf.new) }
{
    if let Some(peer) = peer {
        return peer.take(rt, buf);
    }
    match rt.reader().read(buf) {
        Ok(count) => Ok(count),
        Err(_) => Err(Failed),
    }
}

/// Says to the peer, where there is one, and else on standard output.
fn say_to<R: Runtime<File = File> + Net>(
    rt: &R,
    peer: &mut Option<Peer<R::Stream>>,
    bytes: &[u8],
) -> Result<(), Failed> {
    if let Some(peer) = peer {
        return peer.say(rt, bytes);
    }
    match io::writer(rt).write_all(bytes) {
        Ok(()) => Ok(()),
        Err(_) => Err(Failed),
    }
}

impl<R: Runtime<File = File> + Net> Shell for HostShell<R> {
    fn take(&mut self, buf: &mut [u8]) -> Result<usize, Failed> {
        let left = LIFE - self.given.min(LIFE);
        let most = buf.len().min(left as usize);
        if self.moment == u64::MAX || most == 0 {
            return Err(self.take_fails());
        }
        let Ok(count) = take_from(&self.rt, &mut self.peer, &mut buf[..most]) else {
            return Err(self.take_fails());
        };
        self.moment += 1;
        self.given = self.given.saturating_add(count as u64);
        Ok(count)
    }

    fn say(&mut self, bytes: &[u8]) -> Result<(), Failed> {
        if self.moment == u64::MAX {
            return Err(self.say_fails());
        }
        let Ok(()) = say_to(&self.rt, &mut self.peer, bytes) else {
            return Err(self.say_fails());
        };
        self.moment += 1;
        Ok(())
    }

    fn accept(&mut self) -> Result<bool, Failed>
        requires { talks
            (shell_by_counts self.old.moment self.old.faults self.old.talking self.old.talk_faults
            self.old.takes_missed self.old.says_missed).beside ≡ false }
        ensures accepted { Accepts
            (shell_by_counts self.old.moment self.old.faults self.old.talking self.old.talk_faults
            self.old.takes_missed self.old.says_missed)
            (shell_by_counts self.new.moment self.new.faults self.new.talking self.new.talk_faults
            self.new.takes_missed self.new.says_missed) result }
        ensures call { ShellCall
            (shell_by_counts self.old.moment self.old.faults self.old.talking self.old.talk_faults
            self.old.takes_missed self.old.says_missed)
            (shell_by_counts self.new.moment self.new.faults self.new.talking self.new.talk_faults
            self.new.takes_missed self.new.says_missed) (is_ok result) }

        // Without a listener, so where the port is 0, none comes.
        ensures alone { is_none self.old.listener ≡ true → IfOk result (λ came. came ≡ false) }
        ensures listener { self.new.listener ≡ self.old.listener }
    {
        if self.moment == u64::MAX {
            return Err(self.fails());
        }
        let Some(listener) = self.listener.as_ref() else {
            self.moment += 1;
            return Ok(false);
        };
        let Ok(peer) = talk::accept::<R>(listener) else {
            return Err(self.fails());
        };
        self.peer = Some(peer);
        self.talking = true;
        self.takes_missed = 0;
        self.says_missed = 0;
        self.moment += 1;
        Ok(true)
    }

    fn hang_up(&mut self) {
        if let Some(peer) = self.peer.take() {
            peer.end(&self.rt);
        }
        self.talking = false;
    }

    /// What isn't text is passed over, and so is a failure.
    fn note(&mut self, bytes: &[u8]) {
        if let Ok(text) = str::from_utf8(bytes) {
            let _ = self.rt.eprint(text);
        }
    }

    /// A clock that can't be read or is out of range tells 0.
    fn now(&mut self) -> u64 {
        let Ok(now) = SystemTime::now(&self.rt) else {
            return 0;
        };
        match now.duration_since(UNIX_EPOCH) {
            Ok(since) if since.as_secs() < CLOCK_END => since.as_secs(),
            _ => 0,
        }
    }
}
