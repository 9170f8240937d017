//! A walk of either kind. It promises nothing of its rows: what tests show of a merge of such walks they show by looking.

ghost use Rattle.std.specs.Prelude.{true};

use alt_cells::{RowCells, RowSource, SourceFault};
use alt_disk::Disk;
use alt_fields::Bytes;
use alt_memtable::MemWalk;
use alt_rowfile::RowFileWalk;

#[derive(Drop)]
pub(crate) enum Source<'a> {
    File(RowFileWalk<'a>),
    Table(MemWalk<'a>),
}

impl<'a, D: Disk> RowSource<D> for Source<'a> {
    ghost reads = { λ source f. true };

    ghost width = { λ source. 1 };

    ghost seeks = { λ old new before from forward after. Unit {0} };

    ghost nexts = { λ old new before row after. Unit {0} };

    ghost holds = { λ s source rows. ⊥ };

    ghost left = { λ s source rows. ⊥ };

    ghost holds_on = { λ old new source rows same none. none };

    ghost left_on = { λ old new source rows same none. none };

    fn seek(
        &mut self,
        disk: &mut D,
        from: Option<&[u8]>,
        forward: bool,
    ) -> Result<(), SourceFault> {
        match self {
            Source::File(walk) => walk.seek(disk, from, forward),
            Source::Table(walk) => walk.seek(disk, from, forward),
        }
    }

    fn next(&mut self, disk: &mut D) -> Result<Option<(Bytes, RowCells)>, SourceFault> {
        match self {
            Source::File(walk) => walk.next(disk),
            Source::Table(walk) => walk.next(disk),
        }
    }
}
