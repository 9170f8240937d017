//! A shell: a disk with standard streams, connections one after another, and a clock. What it tells of them is a log that lies beside the disk
//! (docs/formats/shell-log.md).

ghost use Rattle.std.specs.Prelude.{◌≡◌, ◌<◌, ◌≤◌, [], ◌∷◌, true, false, length, IfOk, is_ok};
ghost use Rattle.alt_shell.specs.Calls.{ShellCall, Aside, Takes, Says, Accepts, Adds, StaysIn};
ghost use Rattle.alt_shell.specs.Log.{Grows, StillGrows, TellsMoments, notes_of, moments_of, has_input_ended, WithinLife};
ghost use Rattle.alt_shell.specs.Log.{hung_up, talk_of, talks, talk_faults, takes_missed, says_missed};

use alt_disk::{Disk, Failed};

/// The moments that a clock tells, in whole seconds since 1970 began in UTC, are below this, the beginning of the year 10000.
pub const CLOCK_END: u64 = 253_402_300_800;

/// The streams, the connections and the clock of a run. None of these calls changes a file or what a stop leaves of it.
///
/// A shell talks from an `accept` that answers true to the next `hang_up`. While it talks, `take` and `say` act on the connection, and
/// else on standard input and output.
pub trait Shell: Disk {
    /// Takes bytes of the input into the front of the buffer, and answers how many. It answers 0 exactly at the end, which is
    /// final. A take past 2^62 bytes over the shell's life fails.
    fn take(&mut self, buf: &mut [u8]) -> Result<usize, Failed>
        requires { 0 < length buf.old }
        ensures count { IfOk result (λ n. n ≤ length buf.new) }
        ensures taken { Takes (Self.state self.old) (Self.state self.new) result buf.new }
        ensures over { talks (Self.state self.old).beside ≡ false
            → has_input_ended (Self.state self.old).beside ≡ true → IfOk result (λ n. n ≡ 0) }
        ensures talk { StaysIn (Self.state self.old) (Self.state self.new) (is_ok result)
            takes_missed says_missed }
        ensures life { WithinLife (Self.state self.old).beside
            → WithinLife (Self.state self.new).beside }
        ensures call { ShellCall (Self.state self.old) (Self.state self.new) (is_ok result) }
        ensures notes { notes_of (Self.state self.new).beside
            ≡ notes_of (Self.state self.old).beside }
        ensures moments { moments_of (Self.state self.new).beside
            ≡ moments_of (Self.state self.old).beside };

    /// Says all of these bytes. After a failure some bytes from their front were said.
    fn say(&mut self, bytes: &[u8]) -> Result<(), Failed>
        ensures said { Says (Self.state self.old) (Self.state self.new) result bytes.now }
        ensures talk { StaysIn (Self.state self.old) (Self.state self.new) (is_ok result)
            says_missed takes_missed }
        ensures life { WithinLife (Self.state self.old).beside
            → WithinLife (Self.state self.new).beside }
        ensures call { ShellCall (Self.state self.old) (Self.state self.new) (is_ok result) }
        ensures notes { notes_of (Self.state self.new).beside
            ≡ notes_of (Self.state self.old).beside }
        ensures moments { moments_of (Self.state self.new).beside
            ≡ moments_of (Self.state self.old).beside };

    /// Waits for the next connection, and answers whether one came: the shell talks then. False means that none will come.
    fn accept(&mut self) -> Result<bool, Failed>
        requires { talks (Self.state self.old).beside ≡ false }
        ensures accepted { Accepts (Self.state self.old) (Self.state self.new) result }
        ensures call { ShellCall (Self.state self.old) (Self.state self.new) (is_ok result) }
        ensures life { WithinLife (Self.state self.old).beside
            → WithinLife (Self.state self.new).beside }
        ensures notes { notes_of (Self.state self.new).beside
            ≡ notes_of (Self.state self.old).beside }
        ensures moments { moments_of (Self.state self.new).beside
            ≡ moments_of (Self.state self.old).beside };

    /// Ends the connection, if there is one. It never fails.
    fn hang_up(&mut self)
        ensures hung { talks (Self.state self.old).beside ≡ true
            → Adds (Self.state self.old) (Self.state self.new) hung_up }
        ensures idle { talks (Self.state self.old).beside ≡ false
            → (Self.state self.new).beside ≡ (Self.state self.old).beside }
        ensures quiet { talks (Self.state self.new).beside ≡ false }
        ensures faults { talk_faults (Self.state self.new).beside
            ≡ talk_faults (Self.state self.old).beside }
        ensures call { Aside (Self.state self.old) (Self.state self.new) }
        ensures life { WithinLife (Self.state self.old).beside
            → WithinLife (Self.state self.new).beside }
        ensures notes { notes_of (Self.state self.new).beside
            ≡ notes_of (Self.state self.old).beside }
        ensures moments { moments_of (Self.state self.new).beside
            ≡ moments_of (Self.state self.old).beside };

    /// Tells the operator. It never fails.
    fn note(&mut self, bytes: &[u8])
        ensures noted { StillGrows (notes_of (Self.state self.old).beside)
            (notes_of (Self.state self.new).beside) bytes.now }
        ensures log { Grows (Self.state self.old).beside (Self.state self.new).beside [] }
        ensures talk { talk_of (Self.state self.new).beside ≡ talk_of (Self.state self.old).beside }
        ensures call { Aside (Self.state self.old) (Self.state self.new) }
        ensures moments { moments_of (Self.state self.new).beside
            ≡ moments_of (Self.state self.old).beside };

    /// Tells the moment: the whole seconds since 1970 began in UTC. What it told is always told where it was.
    fn now(&mut self) -> u64
        ensures range { result < CLOCK_END }
        ensures told { TellsMoments (moments_of (Self.state self.old).beside)
            (moments_of (Self.state self.new).beside) (result ∷ []) }
        ensures log { Grows (Self.state self.old).beside (Self.state self.new).beside [] }
        ensures talk { talk_of (Self.state self.new).beside ≡ talk_of (Self.state self.old).beside }
        ensures call { Aside (Self.state self.old) (Self.state self.new) }
        ensures notes { notes_of (Self.state self.new).beside
            ≡ notes_of (Self.state self.old).beside };
}
