//! Rows in hand: one row, the rows of a range, and the first family that shows one.

ghost use Rattle.std.specs.Prelude.{◌≡◌, ◌≤◌, ◌+◌, ◌++◌, length, take, IfOk, IfErr, OnOk, IsErrOf, IsTrue};
ghost use Rattle.alt_base.specs.Counts.{Rose};
ghost use Rattle.alt_base.specs.Prefix.{IsPrefix};
ghost use Rattle.alt_disk.specs.Disk.{Goes};
ghost use Rattle.alt_disk.specs.Runs.{Quiet};
ghost use Rattle.alt_layout.specs.Layout.{Layout, ShowsFirst, rows_between, shown};
ghost use Rattle.alt_families.specs.Reads.{most_reads};
ghost use Rattle.alt_merging.specs.HandInHand.{file_rows};
ghost use Rattle.alt_merging.specs.HandMerging.{files_at};
ghost use Rattle.alt_merging.specs.HandOpened.{EngineFaultIsUndamaged, EngineFaultIsUnspent};
ghost use Rattle.alt_engine.specs.InHand.{ReadsLayout, bounds_of_engine, hand_of, limits_of_engine, next_write_of_engine};
ghost use Rattle.alt_engine.specs.Opened.{StaysOn};

use crate::engine::Engine;
use alt_cells::ShownRow;
use alt_disk::Disk;
use alt_fields::Bytes;
use alt_keyorder::KeyRange;
use alt_merging::EngineFault;

impl Engine {
    /// What the row of a key shows, None exactly where the family shows no row there.
    pub fn row<D: Disk>(
        &mut self,
        disk: &mut D,
        family: u32,
        key: &[u8],
    ) -> Result<Option<ShownRow>, EngineFault>
        ensures row { IsTrue (D.state disk.old).tells → (l : Layout)
            → ReadsLayout (D.state disk.old) self.old l
            → IfOk result (λ row. row ≡ shown l family key.now) }
        ensures undamaged { IsTrue (D.state disk.old).tells → (l : Layout)
            → ReadsLayout (D.state disk.old) self.old l → IfErr result EngineFaultIsUndamaged }
        ensures same { IsTrue (D.state disk.old).tells
            → StaysOn (D.state disk.old) (D.state disk.new) self.old self.new }
        ensures next { next_write_of_engine self.new ≡ next_write_of_engine self.old }
        ensures limits { limits_of_engine self.new ≡ limits_of_engine self.old }
        ensures bounds { bounds_of_engine self.new ≡ bounds_of_engine self.old }
        ensures unspent { IfErr result EngineFaultIsUnspent }
        ensures quiet { IsTrue (D.state disk.old).tells
            → Quiet (D.state disk.old) (D.state disk.new) }
        ensures goes { Goes (D.state disk.old) (D.state disk.new) }
        ensures cause { IsErrOf result EngineFault.Failed
            → Rose (D.state disk.old).faults (D.state disk.new).faults }
        ensures well { (IsErrOf result EngineFault.Failed → ⊥)
            → (D.state disk.new).faults ≡ (D.state disk.old).faults }

        // Each row file of the family is read once at most.
        ensures reads { (D.state disk.new).reads
            ≤ (D.state disk.old).reads + length (files_at (hand_of self.old) family) }
    {
        self.hand.row(disk, family, key)
    }

    /// Puts the first rows at the end of the list that the family shows in the range: `most` of them, or all where there are fewer.
    /// They rise where it goes forward, and else they fall from the range's end.
    pub fn rows<D: Disk>(
        &mut self,
        disk: &mut D,
        family: u32,
        range: &KeyRange,
        forward: bool,
        most: u32,
        out: &mut Vec<(Bytes, ShownRow)>,
    ) -> Result<(), EngineFault>
        ensures rows { IsTrue (D.state disk.old).tells → (l : Layout)
            → ReadsLayout (D.state disk.old) self.old l
            → OnOk result (out.new.items ≡ out.old.items
            ++ take most (rows_between l family range.now.from range.now.to forward)) }
        ensures begun { IsPrefix out.old.items out.new.items }
        ensures undamaged { IsTrue (D.state disk.old).tells → (l : Layout)
            → ReadsLayout (D.state disk.old) self.old l → IfErr result EngineFaultIsUndamaged }
        ensures same { IsTrue (D.state disk.old).tells
            → StaysOn (D.state disk.old) (D.state disk.new) self.old self.new }
        ensures next { next_write_of_engine self.new ≡ next_write_of_engine self.old }
        ensures limits { limits_of_engine self.new ≡ limits_of_engine self.old }
        ensures bounds { bounds_of_engine self.new ≡ bounds_of_engine self.old }
        ensures unspent { IfErr result EngineFaultIsUnspent }
        ensures quiet { IsTrue (D.state disk.old).tells
            → Quiet (D.state disk.old) (D.state disk.new) }
        ensures goes { Goes (D.state disk.old) (D.state disk.new) }
        ensures cause { IsErrOf result EngineFault.Failed
            → Rose (D.state disk.old).faults (D.state disk.new).faults }
        ensures well { (IsErrOf result EngineFault.Failed → ⊥)
            → (D.state disk.new).faults ≡ (D.state disk.old).faults }

        // It reads each row file of the family twice at most, and once more for each version of a row in them that it passes.
        ensures reads { IsTrue (D.state disk.old).tells → (l : Layout)
            → (reads : ReadsLayout (D.state disk.old) self.old l)
            → OnOk result ((D.state disk.new).reads ≤ (D.state disk.old).reads
            + most_reads forward range.now.from range.now.to most
            (rows_between l family range.now.from range.now.to forward)
            (file_rows (hand_of self.old) reads.held family)) }
    {
        self.hand.rows(disk, family, range, forward, most, out)
    }

    /// The least family from that one on that shows a row, with the first key that it shows. None exactly where there is none.
    pub fn first_from<D: Disk>(
        &mut self,
        disk: &mut D,
        family: u32,
    ) -> Result<Option<(u32, Bytes)>, EngineFault>
        ensures first { IsTrue (D.state disk.old).tells → (l : Layout)
            → ReadsLayout (D.state disk.old) self.old l → IfOk result (ShowsFirst l family) }
        ensures undamaged { IsTrue (D.state disk.old).tells → (l : Layout)
            → ReadsLayout (D.state disk.old) self.old l → IfErr result EngineFaultIsUndamaged }
        ensures same { IsTrue (D.state disk.old).tells
            → StaysOn (D.state disk.old) (D.state disk.new) self.old self.new }
        ensures next { next_write_of_engine self.new ≡ next_write_of_engine self.old }
        ensures limits { limits_of_engine self.new ≡ limits_of_engine self.old }
        ensures bounds { bounds_of_engine self.new ≡ bounds_of_engine self.old }
        ensures unspent { IfErr result EngineFaultIsUnspent }
        ensures quiet { IsTrue (D.state disk.old).tells
            → Quiet (D.state disk.old) (D.state disk.new) }
        ensures goes { Goes (D.state disk.old) (D.state disk.new) }
        ensures cause { IsErrOf result EngineFault.Failed
            → Rose (D.state disk.old).faults (D.state disk.new).faults }
        ensures well { (IsErrOf result EngineFault.Failed → ⊥)
            → (D.state disk.new).faults ≡ (D.state disk.old).faults }
    {
        self.hand.first_from(disk, family)
    }
}
