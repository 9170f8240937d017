//! Making a store.

ghost use Rattle.std.specs.Prelude.{◌≡◌, ◌≢◌, ℕ, None, false, IsTrue};
ghost use Rattle.alt_disk.specs.Runs.{Quiet};
ghost use Rattle.alt_shell.specs.Log.{talks};
ghost use Rattle.alt_run.specs.Endings.{HasMade};
ghost use Rattle.alt_talks.specs.Runs.{Passes};

use crate::ending::Ending;
use alt_shell::Shell;
use alt_tables::{MakeFault, make_store};
use std::alloc::Global;

/// Makes an empty store where no file is, and says so.
pub(crate) fn init<S: Shell>(alloc: Global, shell: &mut S) -> Ending
    requires quiet { talks (S.state shell.old).beside ≡ false }
    ensures done { HasMade result (S.state shell.old) (S.state shell.new) }
    ensures untouched { IsTrue (S.state shell.old).tells → (f : ℕ)
        → (S.state shell.old).file f ≢ None → Quiet (S.state shell.old) (S.state shell.new) }
    ensures passes { Passes (S.state shell.old) (S.state shell.new) }
{
    match make_store(alloc, shell) {
        Ok(()) => {}
        Err(MakeFault::NotEmpty { first }) => return Ending::NotEmpty { first },
        Err(MakeFault::Failed) => return Ending::Device,
        Err(MakeFault::NoMemory) => return Ending::Memory,
    }
    match shell.say(b"ok\n") {
        Ok(()) => Ending::Whole,
        Err(_) => Ending::Device,
    }
}
