//! Rows in hand: one row, and the rows of a range.

ghost use Rattle.std.specs.Prelude.{◌≡◌, ◌≤◌, ◌+◌, ◌++◌, length, take, IfOk, IfErr, OnOk, IsErrOf, IsTrue};
ghost use Rattle.alt_base.specs.Counts.{Rose};
ghost use Rattle.alt_base.specs.Prefix.{IsPrefix};
ghost use Rattle.alt_disk.specs.Disk.{Goes};
ghost use Rattle.alt_disk.specs.Runs.{Quiet};
ghost use Rattle.alt_layout.specs.Layout.{Layout, rows_between, shown};
ghost use Rattle.alt_families.specs.Families.{files_in};
ghost use Rattle.alt_families.specs.Reads.{most_reads};
ghost use Rattle.alt_hand.specs.InHand.{HandReadsLayout, family_of, file_rows};
ghost use Rattle.alt_hand.specs.Opened.{EngineFaultIsUndamaged, EngineFaultIsUnspent, HandStaysOn};

use crate::hand::Hand;
use alt_cells::ShownRow;
use alt_disk::Disk;
use alt_drafts::EngineFault;
use alt_families::{shown_row, shown_rows};
use alt_fields::Bytes;
use alt_keyorder::KeyRange;

impl Hand {
    /// What the row of a key shows, None exactly where the family shows no row there.
    pub fn row<D: Disk>(
        &self,
        disk: &mut D,
        family: u32,
        key: &[u8],
    ) -> Result<Option<ShownRow>, EngineFault>
        ensures row { IsTrue (D.state disk.old).tells → (l : Layout)
            → HandReadsLayout (D.state disk.old) self.now l
            → IfOk result (λ row. row ≡ shown l family key.now) }
        ensures undamaged { IsTrue (D.state disk.old).tells → (l : Layout)
            → HandReadsLayout (D.state disk.old) self.now l → IfErr result EngineFaultIsUndamaged }
        ensures same { IsTrue (D.state disk.old).tells
            → HandStaysOn (D.state disk.old) (D.state disk.new) self.now self.now }
        ensures unspent { IfErr result EngineFaultIsUnspent }
        ensures quiet { IsTrue (D.state disk.old).tells
            → Quiet (D.state disk.old) (D.state disk.new) }
        ensures goes { Goes (D.state disk.old) (D.state disk.new) }
        ensures cause { IsErrOf result EngineFault.Failed
            → Rose (D.state disk.old).faults (D.state disk.new).faults }
        ensures well { (IsErrOf result EngineFault.Failed → ⊥)
            → (D.state disk.new).faults ≡ (D.state disk.old).faults }

        // Each row file of the family is read once at most.
        ensures reads { (D.state disk.new).reads
            ≤ (D.state disk.old).reads + length (files_in (family_of self.now family)) }
    {
        match shown_row(self.alloc, disk, &self.families, family, key) {
            Ok(row) => Ok(row),
            Err(fault) => Err(EngineFault::from(fault)),
        }
    }

    /// Puts the first rows at the end of the list that the family shows in the range: `most` of them, or all where there are fewer.
    /// They rise where it goes forward, and else they fall from the range's end.
    pub fn rows<D: Disk>(
        &self,
        disk: &mut D,
        family: u32,
        range: &KeyRange,
        forward: bool,
        most: u32,
        out: &mut Vec<(Bytes, ShownRow)>,
    ) -> Result<(), EngineFault>
        ensures rows { IsTrue (D.state disk.old).tells → (l : Layout)
            → HandReadsLayout (D.state disk.old) self.now l
            → OnOk result (out.new.items ≡ out.old.items
            ++ take most (rows_between l family range.now.from range.now.to forward)) }
        ensures begun { IsPrefix out.old.items out.new.items }
        ensures undamaged { IsTrue (D.state disk.old).tells → (l : Layout)
            → HandReadsLayout (D.state disk.old) self.now l → IfErr result EngineFaultIsUndamaged }
        ensures same { IsTrue (D.state disk.old).tells
            → HandStaysOn (D.state disk.old) (D.state disk.new) self.now self.now }
        ensures unspent { IfErr result EngineFaultIsUnspent }
        ensures quiet { IsTrue (D.state disk.old).tells
            → Quiet (D.state disk.old) (D.state disk.new) }
        ensures goes { Goes (D.state disk.old) (D.state disk.new) }
        ensures cause { IsErrOf result EngineFault.Failed
            → Rose (D.state disk.old).faults (D.state disk.new).faults }
        ensures well { (IsErrOf result EngineFault.Failed → ⊥)
            → (D.state disk.new).faults ≡ (D.state disk.old).faults }

        // It reads each row file of the family twice at most, and once more for each version of a row in them that it passes.
        ensures reads { IsTrue (D.state disk.old).tells → (l : Layout)
            → (reads : HandReadsLayout (D.state disk.old) self.now l)
            → OnOk result ((D.state disk.new).reads ≤ (D.state disk.old).reads
            + most_reads forward range.now.from range.now.to most
            (rows_between l family range.now.from range.now.to forward)
            (file_rows self.now reads.held family)) }
    {
        let families = &self.families;
        match shown_rows(
            self.alloc, disk, families, family, range, forward, most, out,
        ) {
            Ok(()) => Ok(()),
            Err(fault) => Err(EngineFault::from(fault)),
        }
    }
}
