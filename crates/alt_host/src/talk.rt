//! Connections: a listener on the loopback address, and the one connection that the shell talks on.
//!
//! No client stops the others for long. A talk on which no byte moves for 15 seconds fails, and so does one whose request isn't
//! whole 30 seconds after it was first waited for, behind the accept or the last reply, whatever was said to let it go on, or whose reply
//! isn't taken after 60. So one request and its reply take 90 seconds of the peer's at most, the farewell among them.

ghost use Rattle.std.specs.Prelude.{◌≤◌, ◌<◌, length, IfOk};

use alt_disk::Failed;
use std::io::{self, ErrorKind, Read, Write};
use std::net::{Ipv4Addr, Net, OpenListener, OpenStream, SocketAddr, TcpListener};
use std::time::{Clock, Duration, Instant};

/// How long a talk may be silent, in milliseconds.
const SILENCE: u64 = 15_000;

/// How long a request may take to come, from when it is first waited for, behind the accept or the last reply.
const REQUEST: u64 = 30_000;

/// How long after its begin a reply is still written to. With the last write's beat and the farewell these are 60 seconds.
const REPLY: u64 = 60_000 - BEAT - FAREWELL;

/// How long one write waits at most, in milliseconds: so silence is seen soon after it began, also where the first bytes went at once.
const BEAT: u64 = 1_000;

/// How many calls of the system a take or a say makes at most. Each waits for its time, unless a signal cuts it short.
const CALLS: u32 = 1_000;

/// How long a talk that was hung up is listened to, so that its last reply isn't lost.
const FAREWELL: u64 = 500;

/// How many connections in a row may die before they are accepted.
const TRIES: u32 = 10_000;

/// How an interim reply begins, which lets a client go on and isn't the answer to its request (RFC 9110, section 15.2).
const INTERIM: &[u8] = b"HTTP/1.1 1";

/// How many bytes a connection takes at once where none were said on it: the smallest queue of Linux has twice as many.
const SHORT: usize = 2_048;

/// How a reply begins that answers a request by its result.
const RESULT: &[u8] = b"HTTP/1.1 200";

/// What stands in a reply to a head that was refused, between its head and its text. Any other body names its exception first.
const REFUSED: &[u8] = b"\r\n\r\n{\"message\":";

/// How many bytes such a reply has at most.
const LONGEST_REFUSAL: usize = 256;

/// A connection, since when the request at hand is waited for, where it is, whether its reads wait for less than a silence may last, whether
/// anything was said on it, whether its writes wait for a beat at most, and whether the last reply refused a head, so that its peer may
/// still send what was to follow.
#[derive(Drop)]
pub(crate) struct Peer<S: Drop> {
    stream: S,
    since: Option<Instant>,
    hurried: bool,
    said: bool,
    beats: bool,
    refused: bool,
}

/// Listens on 127.0.0.1 at that port.
pub(crate) fn listen<R: Net>(net: &R, port: u16) -> io::Result<R::Listener> {
    TcpListener::bind(net, SocketAddr::from((Ipv4Addr::LOCALHOST, port)))
}

/// Waits for a connection. One that dies before it is accepted is passed over.
pub(crate) fn accept<R: Net>(listener: &R::Listener) -> Result<Peer<R::Stream>, Failed> {
    for _ in 0..TRIES {
        match listener.accept() {
            Ok((stream, _)) => {
                if let Ok(peer) = greet(stream) {
                    return Ok(peer);
                }
            }
            Err(e) if is_passing(e.kind()) => {}
            Err(_) => return Err(Failed),
        }
    }
    Err(Failed)
}

/// Whether a failure is that of one connection alone.
fn is_passing(kind: ErrorKind) -> bool {
    matches!(
        kind,
        ErrorKind::ConnectionAborted
            | ErrorKind::ConnectionReset
            | ErrorKind::Interrupted
            | ErrorKind::HostUnreachable
            | ErrorKind::NetworkUnreachable
            | ErrorKind::NetworkDown
            | ErrorKind::TimedOut
    )
}

fn greet<S: OpenStream + Drop>(stream: S) -> io::Result<Peer<S>> {
    stream.set_read_timeout(Some(Duration::from_millis(SILENCE)))?;
    Ok(Peer {
        stream,
        since: None,
        hurried: false,
        said: false,
        beats: false,
        refused: false,
    })
}

/// Whether a write may be tried again: it waited for its beat, or a signal came.
fn is_beat(kind: ErrorKind) -> bool {
    matches!(
        kind,
        ErrorKind::WouldBlock | ErrorKind::TimedOut | ErrorKind::Interrupted
    )
}

/// Whether a reply refuses a head, so that what was to follow it isn't taken.
fn is_refusal(reply: &[u8]) -> bool {
    reply.len() <= LONGEST_REFUSAL
        && !reply.starts_with(RESULT)
        && reply.windows(REFUSED.len()).any(|bytes| bytes == REFUSED)
}

/// What is left of a time that began then, if anything is.
fn left<C: Clock>(clock: &C, since: Instant, most: u64) -> Option<Duration> {
    let Ok(gone) = since.elapsed(clock) else {
        return None;
    };
    let all = Duration::from_millis(most);
    if gone < all { Some(all - gone) } else { None }
}

impl<S: OpenStream + Read + Write + Drop> Peer<S> {
    /// Takes what has come, or waits for it.
    pub(crate) fn take<C: Clock>(&mut self, clock: &C, buf: &mut [u8]) -> Result<usize, Failed>
        ensures { IfOk result (λ n. n ≤ length buf.new) }
    {
        for _ in 0..CALLS {
            let Ok(()) = self.hurry(clock) else {
                return Err(Failed);
            };
            match self.stream.read(buf) {
                Ok(count) => return Ok(count),
                Err(e) if e.kind() == ErrorKind::Interrupted => {}
                Err(_) => return Err(Failed),
            }
        }
        Err(Failed)
    }

    /// Lets the next read wait for no longer than the request has left, which is none where its time is over.
    fn hurry<C: Clock>(&mut self, clock: &C) -> Result<(), Failed> {
        let Some(since) = self.since else {
            return self.begin(clock);
        };
        let Some(time) = left(clock, since, REQUEST) else {
            return Err(Failed);
        };
        if time >= Duration::from_millis(SILENCE) {
            return Ok(());
        }
        self.hurried = true;
        match self.stream.set_read_timeout(Some(time)) {
            Ok(()) => Ok(()),
            Err(_) => Err(Failed),
        }
    }

    /// Says a reply. An interim one is a part of the time that its request has.
    pub(crate) fn say<C: Clock>(&mut self, clock: &C, bytes: &[u8]) -> Result<(), Failed> {
        let Ok(now) = Instant::now(clock) else {
            return Err(Failed);
        };
        if bytes.starts_with(INTERIM) {
            return self.send(clock, self.since.unwrap_or(now), now, REQUEST, bytes);
        }
        match self.send(clock, now, now, REPLY, bytes) {
            Ok(()) => {}
            Err(fault) => return Err(fault),
        }
        self.refused = is_refusal(bytes);
        self.since = None;
        Ok(())
    }

    /// Has writes wait for a beat at most, and go at once: but for a short reply that is the first, which needs neither.
    fn ready(&mut self, count: usize) -> io::Result<()> {
        let first = !self.said;
        self.said = true;
        if self.beats || first && count <= SHORT {
            return Ok(());
        }
        self.beats = true;
        self.stream.set_nodelay(true)?;
        self.stream
            .set_write_timeout(Some(Duration::from_millis(BEAT)))
    }

    /// Sends all of the bytes within a time that began then. That none of them moved is counted from now on.
    fn send<C: Clock>(
        &mut self,
        clock: &C,
        begun: Instant,
        now: Instant,
        most: u64,
        bytes: &[u8],
    ) -> Result<(), Failed> {
        if bytes.is_empty() {
            return Ok(());
        }
        if self.ready(bytes.len()).is_err() {
            return Err(Failed);
        }
        let mut moved = now;
        let mut done = 0;
        'calls: for _ in 0..CALLS {
            match self.stream.write(&bytes[done..]) {
                Ok(0) => return Err(Failed),
                Ok(count) => {
                    done += count;
                    if done == bytes.len() {
                        return Ok(());
                    }
                    let Ok(now) = Instant::now(clock) else {
                        return Err(Failed);
                    };
                    moved = now;
                }
                Err(e) if is_beat(e.kind()) => {}
                Err(_) => return Err(Failed),
            }
            if left(clock, begun, most).is_none() || left(clock, moved, SILENCE).is_none() {
                return Err(Failed);
            }
        }
        Err(Failed)
    }

    /// The next request may take its time from now on.
    fn begin<C: Clock>(&mut self, clock: &C) -> Result<(), Failed> {
        let Ok(now) = Instant::now(clock) else {
            return Err(Failed);
        };
        self.since = Some(now);
        if !self.hurried {
            return Ok(());
        }
        self.hurried = false;
        match self
            .stream
            .set_read_timeout(Some(Duration::from_millis(SILENCE)))
        {
            Ok(()) => Ok(()),
            Err(_) => Err(Failed),
        }
    }

    /// Ends the connection. Where the peer still sends, or may since its head was refused, it is let finish for a moment: a connection that
    /// is closed over bytes that came, or to which some come later, is reset, and the last reply would be lost.
    pub(crate) fn end<C: Clock>(mut self, clock: &C) {
        if self.refused || self.sends() {
            self.farewell(clock);
        }
    }

    /// Lets the peer finish. It is a function of its own since its buffer is cleared where it is called, and mostly it isn't.
    #[inline(never)]
    fn farewell<C: Clock>(&mut self, clock: &C) {
        let _ = self.stream.shutdown(std::net::Shutdown::Write);
        if self.stream.set_nonblocking(false).is_err() {
            return;
        }
        let Ok(begun) = Instant::now(clock) else {
            return;
        };
        let mut buf = [0u8; 4096];
        for _ in 0..16_384 {
            let Some(time) = left(clock, begun, FAREWELL) else {
                return;
            };
            if self.stream.set_read_timeout(Some(time)).is_err() {
                return;
            }
            match self.stream.read(&mut buf) {
                Ok(0) => return,
                Ok(_) => {}
                Err(_) => return,
            }
        }
    }

    /// Whether bytes came that weren't taken.
    fn sends(&mut self) -> bool {
        if self.stream.set_nonblocking(true).is_err() {
            return false;
        }
        let mut byte = [0u8; 1];
        match self.stream.read(&mut byte) {
            Ok(count) => count > 0,
            Err(_) => false,
        }
    }
}
