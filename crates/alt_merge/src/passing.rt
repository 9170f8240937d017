//! What a walk over a merge costs in reads, however many rows it passes.

ghost use Rattle.std.specs.Prelude.{◌≤◌, ◌+◌, ◌*◌, List, IsTrue, OnOk, map};
ghost use Rattle.std.specs.Option.{option_copied};
ghost use Rattle.alt_cells.specs.Walks.{RowMap, RowList, rows_from};
ghost use Rattle.alt_merge.specs.Costs.{HasLists, all_width, all_times};
ghost use Rattle.alt_merge.specs.Merges.{HoldsEach};
ghost use Rattle.alt_merge.specs.Whole.{sources_of, heads_of};

use crate::merge::Merge;
use alt_cells::{RowSource, SourceFault};
use alt_disk::Disk;

/// Seeks a place and passes over rows from there, up to as many. It costs two calls of each source at most, and one for each row of a
/// source that is passed: of row files two reads a file, and one for each version of a row.
pub fn pass_over<D: Disk, S: RowSource<D>>(
    merge: &mut Merge<S>,
    disk: &mut D,
    from: Option<&[u8]>,
    forward: bool,
    most: u32,
) -> Result<(), SourceFault>
    ensures spent { IsTrue (D.state disk.old).tells → (maps : List RowMap)
        → HoldsEach S.holds (D.state disk.old) (sources_of merge.old) maps
        → OnOk result ((rest : List RowList)
        × HasLists (S.left (D.state disk.new)) (sources_of merge.new) (heads_of merge.new) forward
        rest
        × ((D.state disk.new).reads + all_times S.width (sources_of merge.new) rest
        ≤ (D.state disk.old).reads + 2 * all_width S.width (sources_of merge.old)
        + all_times S.width (sources_of merge.old)
        (map (λ m. rows_from m (option_copied from.entry) forward) maps))) }
{
    merge.seek(disk, from, forward)?;
    for i in 0..most {
        if merge.next(disk)?.is_none() {
            return Ok(());
        }
    }
    Ok(())
}
