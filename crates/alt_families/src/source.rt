//! The sources of a family's rows: its table in memory, and its files.

ghost use Rattle.std.specs.Prelude.{◌≡◌, ◌∷◌, List, IfOk, map};
ghost use Rattle.alt_disk.specs.Disk.{DiskState};
ghost use Rattle.alt_cells.specs.Walks.{RowMap};
ghost use Rattle.alt_merge.specs.Merges.{Each2};
ghost use Rattle.alt_families.specs.Opened.{IsOpen};
ghost use Rattle.alt_families.specs.Sources.{source_holds, source_width};

use crate::family::Family;
use alt_base::NoMemory;
use alt_cells::{RowCells, RowSource, SourceFault};
use alt_disk::Disk;
use alt_fields::Bytes;
use alt_memtable::MemWalk;
use alt_rowfile::RowFileWalk;
use std::alloc::Global;

/// A walk over the table of a family, or over one of its files.
#[derive(Drop)]
pub(crate) enum Source<'a> {
    Memory(MemWalk<'a>),
    File(RowFileWalk<'a>),
}

impl<'a, D: Disk> RowSource<D> for Source<'a> {
    ghost use Rattle.alt_families.specs.Sources.{source_reads, source_width, source_seeks, source_nexts, source_holds, source_left, source_holds_on, source_left_on};

    ghost reads = { source_reads };

    ghost width = { source_width };

    ghost seeks = { source_seeks };

    ghost nexts = { source_nexts };

    ghost holds = { source_holds };

    ghost left = { source_left };

    ghost holds_on = { source_holds_on };

    ghost left_on = { source_left_on };

    fn seek(
        &mut self,
        disk: &mut D,
        from: Option<&[u8]>,
        forward: bool,
    ) -> Result<(), SourceFault> {
        match self {
            Source::Memory(walk) => walk.seek(disk, from, forward),
            Source::File(walk) => walk.seek(disk, from, forward),
        }
    }

    fn next(&mut self, disk: &mut D) -> Result<Option<(Bytes, RowCells)>, SourceFault> {
        match self {
            Source::Memory(walk) => walk.next(disk),
            Source::File(walk) => walk.next(disk),
        }
    }
}

/// The sources of a family: its table, and each of its files.
pub(crate) fn sources_of<'a>(alloc: Global, family: &'a Family) -> Result<Vec<Source<'a>>, NoMemory>
    ensures widths { IfOk result (λ sources. map source_width sources.items
        ≡ 0 ∷ map (λ _. 1) family.now.files.items) }
    ensures holds { IfOk result (λ sources. (s : DiskState) (maps : List RowMap)
        → Each2 (IsOpen s) family.now.files.items maps
        → Each2 (source_holds s) sources.items (family.now.table.0 ∷ maps)) }
{
    let mut sources = Vec::new(alloc);
    sources.push(Source::Memory(family.table.walk()))?;
    for file in &family.files {
        sources.push(Source::File(file.walk()))?;
    }
    Ok(sources)
}
