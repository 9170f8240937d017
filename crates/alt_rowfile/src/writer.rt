//! Writing a row file, row by row. A block is written once it is full; the rest, the index and the digest at the end.

ghost use Rattle.std.specs.Prelude.{◌≡◌, ◌≤◌, ◌+◌, ◌++◌, ◌∷◌, [], true, false, OnOk, length};

use crate::rowfile::RowFile;
use crate::sink::Sink;
use alt_base::NoMemory;
use alt_cells::{RowCells, RowWriter, row_bytes};
use alt_disk::{Disk, DiskFault};
use alt_fields::{Bytes, put_bytes};
use alt_filter::Filter;
use alt_rowblocks::{Summary, tail_of};
use std::alloc::Global;

/// A row file that is being written: the file so far, the rows of the block that is open and their filter, the marks of all blocks, with the
/// count and the summary of their rows, and the filters of the blocks before.
#[derive(Drop)]
pub struct RowFileWriter {
    pub(crate) alloc: Global,
    pub(crate) sink: Sink,
    pub(crate) block: Vec<u8>,
    pub(crate) marks: Vec<(u64, Bytes)>,
    pub(crate) count: u64,
    pub(crate) summary: Summary,
    pub(crate) filters: Vec<Filter>,
    pub(crate) filter: Filter,
    ghost few: { count ≤ sink.at + length block.items },
}

impl RowFileWriter {
    ghost use Rattle.std.specs.Prelude.{List, ◌<◌, None, IfOk, IsErrOf, T};
    ghost use Rattle.std.specs.FinMap.Entries.{is_sorted};
    ghost use Rattle.alt_base.specs.Counts.{Rose};
    ghost use Rattle.alt_disk.specs.Disk.{DiskState, IsTrusted, Goes};
    ghost use Rattle.alt_disk.specs.Runs.{Run};
    ghost use Rattle.alt_cells.specs.Keys.{key_cmp};
    ghost use Rattle.alt_rowblocks.specs.Format.{Entry, rows_bytes, rows_of, IsBlock, AreBlocks};
    ghost use Rattle.alt_rowfile.specs.Sinks.{AnyFileContents};
    ghost use Rattle.alt_rowfile.specs.Writing.{piece, WritesTo, WritesRows, writer_file};
    ghost use Rattle.alt_rowfile.specs.InHand.{StandsForRows, file_of};

    /// Begins a row file in a missing file.
    pub fn make<D: Disk>(alloc: Global, disk: &mut D, f: u32) -> Result<RowFileWriter, DiskFault>
        requires { IsTrusted (D.state disk.old) → (D.state disk.old).file f ≡ None }
        ensures file { IfOk result (λ w. writer_file w ≡ f) }
        ensures made { IfOk result (λ w. IsTrusted (D.state disk.old)
            → WritesRows (D.state disk.new) w []) }
        ensures any_moment { IsTrusted (D.state disk.old)
            → Run (D.state disk.old) (D.state disk.new) f AnyFileContents }
        ensures goes { Goes (D.state disk.old) (D.state disk.new) }
        ensures cause { IsErrOf result DiskFault.Failed
            → Rose (D.state disk.old).faults (D.state disk.new).faults }
        ensures well { (IsErrOf result DiskFault.Failed → ⊥)
            → (D.state disk.new).faults ≡ (D.state disk.old).faults }
    {
        let mut sink = Sink::new(f);
        sink.put(disk, b"ALTROW01")?;
        Ok(RowFileWriter {
            alloc,
            sink,
            block: Vec::new(alloc),
            marks: Vec::new(alloc),
            count: 0,
            summary: Summary::new(),
            filters: Vec::new(alloc),
            filter: Filter::new(),
        })
    }

    // Adds a row to the open block.
    fn hold(&mut self, key: &[u8], row: &RowCells) -> Result<(), NoMemory>
        ensures sink { self.new.sink ≡ self.old.sink }
        ensures held { OnOk result
            ((s : DiskState) (closed : List (List Entry)) (waiting : List Entry)
            → WritesTo s self.old closed waiting
            → length (rows_bytes waiting) < 4096
            → T (is_sorted key_cmp (rows_of closed ++ (waiting ++ (key.now, row.now) ∷ [])))
            → WritesTo s self.new closed (waiting ++ (key.now, row.now) ∷ [])) }
    {
        let first = self.block.is_empty();
        mark_first(self.alloc, &mut self.marks, first, self.sink.at, key)?;
        let mut bytes = Vec::new(self.alloc);
        row_bytes(row, &mut bytes)?;
        put_bytes(&mut self.block, key)?;
        put_bytes(&mut self.block, &bytes)?;
        self.count += 1;
        let last = Bytes::new(self.alloc, key)?;
        self.summary.add(last, row);
        self.filter.add(key);
        Ok(())
    }

    // Writes the open block.
    fn shut<D: Disk>(&mut self, disk: &mut D) -> Result<(), DiskFault>
        requires { IsTrusted (D.state disk.old) → (closed : List (List Entry))
            × (waiting : List Entry) × WritesTo (D.state disk.old) self.old closed waiting }
        ensures file { writer_file self.new ≡ writer_file self.old }
        ensures shut { OnOk result (IsTrusted (D.state disk.old)
            → (closed : List (List Entry)) (waiting : List Entry)
            → WritesTo (D.state disk.old) self.old closed waiting
            → IsBlock waiting → WritesTo (D.state disk.new) self.new (closed ++ waiting ∷ []) []) }
        ensures any_moment { IsTrusted (D.state disk.old)
            → Run (D.state disk.old) (D.state disk.new) (writer_file self.old) AnyFileContents }
        ensures goes { Goes (D.state disk.old) (D.state disk.new) }
        ensures cause { IsErrOf result DiskFault.Failed
            → Rose (D.state disk.old).faults (D.state disk.new).faults }
        ensures well { (IsErrOf result DiskFault.Failed → ⊥)
            → (D.state disk.new).faults ≡ (D.state disk.old).faults }
    {
        let mut bytes = Vec::new(self.alloc);
        match put_bytes(&mut bytes, &self.block) {
            Ok(()) => {}
            Err(_) => return Err(DiskFault::NoMemory),
        }
        self.filters.push(self.filter)?;
        self.sink.put(disk, &bytes)?;
        self.block.clear();
        self.filter = Filter::new();
        Ok(())
    }

    /// Writes what waits, the index and the digest, and syncs the file. At Ok it stands in every image.
    pub fn finish<D: Disk>(self, disk: &mut D) -> Result<RowFile, DiskFault>
        requires { IsTrusted (D.state disk.old) → (rows : List Entry)
            × WritesRows (D.state disk.old) self rows }
        ensures file { IfOk result (λ file. file_of file ≡ writer_file self) }
        ensures finished { IfOk result (λ file. IsTrusted (D.state disk.old) → (rows : List Entry)
            → WritesRows (D.state disk.old) self rows
            → StandsForRows (D.state disk.new) file rows) }
        ensures any_moment { IsTrusted (D.state disk.old)
            → Run (D.state disk.old) (D.state disk.new) (writer_file self) AnyFileContents }
        ensures goes { Goes (D.state disk.old) (D.state disk.new) }
        ensures cause { IsErrOf result DiskFault.Failed
            → Rose (D.state disk.old).faults (D.state disk.new).faults }
        ensures well { (IsErrOf result DiskFault.Failed → ⊥)
            → (D.state disk.new).faults ≡ (D.state disk.old).faults }
    {
        let mut writer = self;
        match writer.shut_last(disk) {
            Ok(()) => writer.close(disk),
            Err(fault) => Err(fault),
        }
    }

    // Writes the open block if it has a row.
    fn shut_last<D: Disk>(&mut self, disk: &mut D) -> Result<(), DiskFault>
        requires { IsTrusted (D.state disk.old) → (closed : List (List Entry))
            × (waiting : List Entry) × WritesTo (D.state disk.old) self.old closed waiting }
        ensures file { writer_file self.new ≡ writer_file self.old }
        ensures shut { OnOk result (IsTrusted (D.state disk.old)
            → (closed : List (List Entry)) (waiting : List Entry)
            → WritesTo (D.state disk.old) self.old closed waiting
            → WritesTo (D.state disk.new) self.new (closed ++ piece waiting) []) }
        ensures any_moment { IsTrusted (D.state disk.old)
            → Run (D.state disk.old) (D.state disk.new) (writer_file self.old) AnyFileContents }
        ensures goes { Goes (D.state disk.old) (D.state disk.new) }
        ensures cause { IsErrOf result DiskFault.Failed
            → Rose (D.state disk.old).faults (D.state disk.new).faults }
        ensures well { (IsErrOf result DiskFault.Failed → ⊥)
            → (D.state disk.new).faults ≡ (D.state disk.old).faults }
    {
        if self.block.is_empty() {
            return Ok(());
        }
        self.shut(disk)
    }

    // Writes the index and the digest, and syncs the file.
    fn close<D: Disk>(self, disk: &mut D) -> Result<RowFile, DiskFault>
        requires { IsTrusted (D.state disk.old) → (closed : List (List Entry))
            × WritesTo (D.state disk.old) self closed [] }
        ensures file { IfOk result (λ file. file_of file ≡ writer_file self) }
        ensures closed { IfOk result (λ file. IsTrusted (D.state disk.old)
            → (closed : List (List Entry)) → WritesTo (D.state disk.old) self closed []
            → AreBlocks closed → StandsForRows (D.state disk.new) file (rows_of closed)) }
        ensures any_moment { IsTrusted (D.state disk.old)
            → Run (D.state disk.old) (D.state disk.new) (writer_file self) AnyFileContents }
        ensures goes { Goes (D.state disk.old) (D.state disk.new) }
        ensures cause { IsErrOf result DiskFault.Failed
            → Rose (D.state disk.old).faults (D.state disk.new).faults }
        ensures well { (IsErrOf result DiskFault.Failed → ⊥)
            → (D.state disk.new).faults ≡ (D.state disk.old).faults }
    {
        let file = self.sink.file;
        let end = self.sink.at;
        match tail_of(self.alloc, &self.marks, self.count, end) {
            Ok(tail) => {
                self.sink.close(disk, tail)?;
                Ok(RowFile {
                    alloc: self.alloc,
                    file,
                    marks: self.marks,
                    end,
                    summary: self.summary,
                    filters: self.filters,
                })
            }
            Err(_) => Err(DiskFault::NoMemory),
        }
    }
}

impl<D: Disk> RowWriter<D> for RowFileWriter {
    ghost use Rattle.alt_rowfile.specs.Writing.{writer_writes, WritesRows, writes_on};

    ghost writes = { writer_writes };

    ghost written = { WritesRows };

    ghost written_on = { writes_on };

    fn add(&mut self, disk: &mut D, key: &[u8], row: &RowCells) -> Result<(), DiskFault> {
        match self.hold(key, row) {
            Ok(()) => {}
            Err(_) => return Err(DiskFault::NoMemory),
        }
        if self.block.len() < 4096 {
            return Ok(());
        }
        self.shut(disk)
    }
}

// The mark of a block, where its first row is added.
fn mark_first(
    alloc: Global,
    marks: &mut Vec<(u64, Bytes)>,
    first: bool,
    at: u64,
    key: &[u8],
) -> Result<(), NoMemory>
    ensures first { OnOk result (first ≡ true
        → marks.new.items ≡ marks.old.items ++ (at, key.now) ∷ []) }
    ensures other { OnOk result (first ≡ false → marks.new.items ≡ marks.old.items) }
{
    if first {
        let key = Bytes::new(alloc, key)?;
        marks.push((at, key))?;
    }
    Ok(())
}
