//! The least family that shows a row.

ghost use Rattle.std.specs.Prelude.{◌≡◌, IfOk, IfErr, IsErrOf, IsTrue};
ghost use Rattle.alt_base.specs.Counts.{Rose};
ghost use Rattle.alt_disk.specs.Disk.{Goes};
ghost use Rattle.alt_disk.specs.Runs.{Quiet};
ghost use Rattle.alt_layout.specs.Layout.{Layout, ShowsFirst};
ghost use Rattle.alt_hand.specs.InHand.{HandReadsLayout};
ghost use Rattle.alt_hand.specs.Opened.{EngineFaultIsUndamaged, EngineFaultIsUnspent, HandStaysOn};

use crate::hand::Hand;
use alt_disk::Disk;
use alt_drafts::EngineFault;
use alt_families::first_shown;
use alt_fields::Bytes;

impl Hand {
    /// The least family from that one on that shows a row, with the first key that it shows. None exactly where there is none.
    pub fn first_from<D: Disk>(
        &self,
        disk: &mut D,
        family: u32,
    ) -> Result<Option<(u32, Bytes)>, EngineFault>
        ensures first { IsTrue (D.state disk.old).tells → (l : Layout)
            → HandReadsLayout (D.state disk.old) self.now l → IfOk result (ShowsFirst l family) }
        ensures undamaged { IsTrue (D.state disk.old).tells → (l : Layout)
            → HandReadsLayout (D.state disk.old) self.now l → IfErr result EngineFaultIsUndamaged }
        ensures same { IsTrue (D.state disk.old).tells
            → HandStaysOn (D.state disk.old) (D.state disk.new) self.now self.now }
        ensures unspent { IfErr result EngineFaultIsUnspent }
        ensures quiet { IsTrue (D.state disk.old).tells
            → Quiet (D.state disk.old) (D.state disk.new) }
        ensures goes { Goes (D.state disk.old) (D.state disk.new) }
        ensures cause { IsErrOf result EngineFault.Failed
            → Rose (D.state disk.old).faults (D.state disk.new).faults }
        ensures well { (IsErrOf result EngineFault.Failed → ⊥)
            → (D.state disk.new).faults ≡ (D.state disk.old).faults }
    {
        match first_shown(self.alloc, disk, &self.families, family) {
            Ok(first) => Ok(first),
            Err(fault) => Err(EngineFault::from(fault)),
        }
    }
}
