//! A merge of row files under way.

ghost use Rattle.std.specs.Prelude.{◌≡◌, ◌<◌, ◌++◌, false, List, [], None, IsTrue, IsErrOf, IfOk, IfErr, take, drop};
ghost use Rattle.std.specs.FinMap.{entries};
ghost use Rattle.alt_base.specs.Counts.{Rose};
ghost use Rattle.alt_disk.specs.Disk.{IsTrusted, Goes};
ghost use Rattle.alt_disk.specs.Runs.{Run};
ghost use Rattle.alt_cells.specs.Compacted.{compacted};
ghost use Rattle.alt_cells.specs.Walks.{RowMap, RowList, HasCause, IsDamaged, answered_by};
ghost use Rattle.alt_compact.specs.Jobs.{StepSays, MovesOnlyTouched};
ghost use Rattle.alt_merge.specs.Merges.{Each2, all_rows};
ghost use Rattle.alt_rowfile.specs.InHand.{StandsForRows, file_of};
ghost use Rattle.alt_rowfile.specs.Sinks.{AnyFileContents};
ghost use Rattle.alt_filemerge.specs.FileMerges.{MergeStands, ReadEach, StaysApart, any_file, output_of, is_output, drops, IsWalkOf};

use alt_base::NoMemory;
use alt_cells::SourceFault;
use alt_compact::{Job, Stepped};
use alt_disk::{Disk, DiskFault};
use alt_merge::Merge;
use alt_rowfile::{RowFile, RowFileWalk, RowFileWriter};
use std::alloc::Global;

/// How far the merge has come, and the file that it writes. It borrows nothing: the files that it reads are lent to each step.
#[derive(Drop)]
pub struct FileMerge {
    pub(crate) alloc: Global,
    pub(crate) job: Job,
    pub(crate) writer: RowFileWriter,
}

impl FileMerge {
    /// Begins a merge into a missing file. It takes no row yet.
    pub fn start<D: Disk>(
        alloc: Global,
        disk: &mut D,
        f: u32,
        purge: bool,
    ) -> Result<FileMerge, DiskFault>
        requires { IsTrusted (D.state disk.old) → (D.state disk.old).file f ≡ None }
        ensures output { IfOk result (λ merge. output_of merge ≡ f) }
        ensures purge { IfOk result (λ merge. drops merge ≡ purge) }
        ensures begun { IfOk result (λ merge. IsTrusted (D.state disk.old)
            → (files : List RowFile) (lists : List RowMap)
            → ReadEach (D.state disk.new) files lists → any_file files f ≡ false
            → MergeStands (D.state disk.new) files merge [] (entries (all_rows lists))) }
        ensures any_moment { IsTrusted (D.state disk.old)
            → Run (D.state disk.old) (D.state disk.new) f AnyFileContents }
        ensures goes { Goes (D.state disk.old) (D.state disk.new) }
        ensures cause { IsErrOf result DiskFault.Failed
            → Rose (D.state disk.old).faults (D.state disk.new).faults }
        ensures well { (IsErrOf result DiskFault.Failed → ⊥)
            → (D.state disk.new).faults ≡ (D.state disk.old).faults }
    {
        match RowFileWriter::make(alloc, disk, f) {
            Ok(writer) => Ok(FileMerge {
                alloc,
                job: Job::new(alloc, purge),
                writer,
            }),
            Err(fault) => Err(fault),
        }
    }

    /// Brings it so many rows further, or to its end. After an error it is spent.
    pub fn step<D: Disk>(
        &mut self,
        disk: &mut D,
        files: &[RowFile],
        rows: u32,
    ) -> Result<Stepped, SourceFault>
        requires some { 0 < rows }
        requires stands { IsTrusted (D.state disk.old) → (taken : RowList) × (left : RowList)
            × MergeStands (D.state disk.old) files.now self.old taken left }
        ensures taken { IsTrusted (D.state disk.old) → (taken left : RowList)
            → MergeStands (D.state disk.old) files.now self.old taken left
            → IfOk result (λ stepped. MergeStands (D.state disk.new) files.now self.new
            (taken ++ take rows left) (drop rows left) × StepSays stepped (drop rows left)) }
        ensures purge { drops self.new ≡ drops self.old }
        ensures output { is_output self.new ≡ is_output self.old }
        ensures moves { MovesOnlyTouched (is_output self.old) (D.state disk.old) (D.state disk.new) }
        ensures cause { IfErr result (HasCause (any_file files.now) (D.state disk.old)
            (D.state disk.new)) }
        ensures sound { IsTrusted (D.state disk.old) → (taken left : RowList)
            → MergeStands (D.state disk.old) files.now self.old taken left
            → IfErr result (λ fault. IsDamaged fault → ⊥) }
        ensures well { IsTrue (answered_by result)
            → (D.state disk.new).faults ≡ (D.state disk.old).faults }
    {
        let walks = walks_of(self.alloc, files)?;
        let mut merge = Merge::new(self.alloc, walks);
        self.job.step(disk, &mut merge, &mut self.writer, rows)
    }

    /// Ends it, once a step answered Done: the new file has the compaction of all rows, and lasts.
    pub fn finish<D: Disk>(self, disk: &mut D) -> Result<RowFile, DiskFault>
        requires { IsTrusted (D.state disk.old) → (files : List RowFile) × (taken : RowList)
            × MergeStands (D.state disk.old) files self taken [] }
        ensures output { IfOk result (λ file. file_of file ≡ output_of self) }
        ensures finished { IfOk result (λ file. IsTrusted (D.state disk.old)
            → (files : List RowFile) (taken : RowList)
            → MergeStands (D.state disk.old) files self taken []
            → StandsForRows (D.state disk.new) file (compacted (drops self) taken)) }
        ensures any_moment { IsTrusted (D.state disk.old)
            → Run (D.state disk.old) (D.state disk.new) (output_of self) AnyFileContents }
        ensures goes { Goes (D.state disk.old) (D.state disk.new) }
        ensures cause { IsErrOf result DiskFault.Failed
            → Rose (D.state disk.old).faults (D.state disk.new).faults }
        ensures well { (IsErrOf result DiskFault.Failed → ⊥)
            → (D.state disk.new).faults ≡ (D.state disk.old).faults }
    {
        let FileMerge { writer, .. } = self;
        writer.finish(disk)
    }

    /// Between two steps it stands while the files that it reads and the one that it writes stay as they read.
    pub fn laws()
        ensures stays { StaysApart }
    {}
}

// A walk over each file.
fn walks_of<'a>(alloc: Global, files: &'a [RowFile]) -> Result<Vec<RowFileWalk<'a>>, NoMemory>
    ensures { IfOk result (λ walks. Each2 IsWalkOf files.now walks.items) }
{
    let mut walks = Vec::with_capacity(alloc, files.len())?;
    for file in files {
        walks.push(file.walk())?;
    }
    Ok(walks)
}
