//! A write that lasts.

ghost use Rattle.std.specs.Prelude.{◌≡◌, ◌≤◌, ◌+◌, ◌^◌, length, OnOk, OnErr};
ghost use Rattle.alt_base.specs.Counts.{Rose};
ghost use Rattle.alt_disk.specs.Disk.{IsTrusted, Goes, contents, overwritten};
ghost use Rattle.alt_disk.specs.Runs.{Run};
ghost use Rattle.alt_gatelog.specs.InHand.{AroundWrite, Lasts};

use alt_disk::{Disk, Failed};

/// Writes bytes at a place of a file, and syncs the file. At Ok they last.
pub(crate) fn write_and_sync<D: Disk>(
    disk: &mut D,
    f: u32,
    at: u64,
    bytes: &[u8],
) -> Result<(), Failed>
    requires { IsTrusted (D.state disk.old) → at ≤ length (contents (D.state disk.old) f) }
    ensures any_moment { IsTrusted (D.state disk.old)
        → Run (D.state disk.old) (D.state disk.new) f
        (AroundWrite (D.state disk.old) f at (length bytes.now)) }
    ensures ok { OnOk result (IsTrusted (D.state disk.old)
        → Lasts (D.state disk.new) f (overwritten (contents (D.state disk.old) f) at bytes.now)) }
    ensures fits { OnOk result (at + length bytes.now ≤ 2 ^ 62) }
    ensures calls { OnOk result ((D.state disk.new).moment ≡ (D.state disk.old).moment + 2) }
    ensures goes { Goes (D.state disk.old) (D.state disk.new) }
    ensures cause { OnErr result (Rose (D.state disk.old).faults (D.state disk.new).faults) }
    ensures well { OnOk result ((D.state disk.new).faults ≡ (D.state disk.old).faults) }
{
    disk.write_at(f, at, bytes)?;
    disk.sync(f)
}
