//! How far a merge has come, and how it goes on.

ghost use Rattle.std.specs.Prelude.{◌≡◌, ◌<◌, ◌++◌, IsTrue, IfOk, IfErr, OnOk, take, drop, []};
ghost use Rattle.alt_disk.specs.Disk.{IsTrusted};
ghost use Rattle.std.specs.FinMap.{entries};
ghost use Rattle.alt_cells.specs.Walks.{RowMap, RowList, KeepsSource, Fails, HasCause, IsDamaged, answered_by};
ghost use Rattle.alt_compact.specs.Jobs.{purges, HasTaken, IsUnderWay, StepSays, MovesOnlyTouched, TakesRows, Took};

use crate::write::{next_key, write};
use alt_cells::{RowSource, RowWriter, SourceFault};
use alt_disk::Disk;
use alt_fields::Bytes;
use std::alloc::Global;

/// Whether rows are left.
#[derive(Clone, Copy, Debug, PartialEq, Eq)]
pub enum Stepped {
    More,
    Done,
}

/// A merge under way: whether it drops tombstones, and the key of the last row that it took, none before its first one.
#[derive(Drop)]
pub struct Job {
    pub(crate) alloc: Global,
    pub(crate) purge: bool,
    pub(crate) last: Option<Bytes>,
}

impl Job {
    /// Nothing was taken yet.
    pub fn new(alloc: Global, purge: bool) -> Job
        ensures begun { HasTaken result [] }
        ensures purge { purges result ≡ purge }
    {
        Job {
            alloc,
            purge,
            last: None,
        }
    }

    /// Takes so many rows of the source that are left, or all where these are fewer, and adds what is left of them to the writer.
    /// Done comes exactly where none is left after them. After an error it is spent.
    pub fn step<D: Disk, S: RowSource<D>, W: RowWriter<D>>(
        &mut self,
        disk: &mut D,
        source: &mut S,
        into: &mut W,
        rows: u32,
    ) -> Result<Stepped, SourceFault>
        requires some { 0 < rows }
        requires ready { IsTrusted (D.state disk.old) → (taken : RowList) × (left : RowList)
            × IsUnderWay S.holds S.reads W.written W.writes (D.state disk.old) self.old source.old
            into.old taken left }
        ensures taken { IsTrusted (D.state disk.old) → (taken left : RowList)
            → IsUnderWay S.holds S.reads W.written W.writes (D.state disk.old) self.old source.old
            into.old taken left
            → IfOk result (λ stepped. IsUnderWay S.holds S.reads W.written W.writes
            (D.state disk.new) self.new source.new into.new (taken ++ take rows left)
            (drop rows left) × StepSays stepped (drop rows left)) }
        ensures purge { purges self.new ≡ purges self.old }
        ensures files { W.writes into.new ≡ W.writes into.old }
        ensures moves { MovesOnlyTouched (W.writes into.old) (D.state disk.old) (D.state disk.new) }
        ensures cause { IfErr result (HasCause (S.reads source.old) (D.state disk.old)
            (D.state disk.new)) }
        ensures sound { IsTrusted (D.state disk.old) → (taken left : RowList)
            → IsUnderWay S.holds S.reads W.written W.writes (D.state disk.old) self.old source.old
            into.old taken left
            → IfErr result (λ fault. IsDamaged fault → ⊥) }
        ensures well { IsTrue (answered_by result)
            → (D.state disk.new).faults ≡ (D.state disk.old).faults }
    {
        self.start(disk, source)?;
        for i in 0..rows {
            if !self.take_one(disk, source, into)? {
                return Ok(Stepped::Done);
            }
        }
        rest(disk, source)
    }

    // Goes to the first row that is left.
    fn start<D: Disk, S: RowSource<D>>(
        &self,
        disk: &mut D,
        source: &mut S,
    ) -> Result<(), SourceFault>
        ensures sought { IsTrue (D.state disk.old).tells → (rows : RowMap) (taken left : RowList)
            → S.holds (D.state disk.old) source.old rows → entries rows ≡ taken ++ left
            → HasTaken self.now taken
            → OnOk result (S.left (D.state disk.new) source.new left) }
        ensures keeps { KeepsSource S.holds S.reads (D.state disk.old) (D.state disk.new) source.old
            source.new }
        ensures well { IsTrue (answered_by result)
            → (D.state disk.new).faults ≡ (D.state disk.old).faults }
        ensures fails { IfErr result
            (Fails S.holds S.reads (D.state disk.old) (D.state disk.new) source.old) }
    {
        match &self.last {
            Some(key) => {
                let from = next_key(self.alloc, key)?;
                source.seek(disk, Some(from.as_slice()), true)
            }
            None => source.seek(disk, None, true),
        }
    }

    // Takes the next row; false is the end.
    fn take_one<D: Disk, S: RowSource<D>, W: RowWriter<D>>(
        &mut self,
        disk: &mut D,
        source: &mut S,
        into: &mut W,
    ) -> Result<bool, SourceFault>
        requires { IsTrusted (D.state disk.old) → (taken : RowList) × (left : RowList)
            × TakesRows S.holds S.reads S.left W.written W.writes (D.state disk.old) self.old source.old
            into.old taken left }
        ensures took { IsTrusted (D.state disk.old) → (taken left : RowList)
            → TakesRows S.holds S.reads S.left W.written W.writes (D.state disk.old) self.old source.old
            into.old taken left
            → IfOk result (Took (TakesRows S.holds S.reads S.left W.written W.writes (D.state disk.new)
            self.new source.new into.new) taken left) }
        ensures purge { purges self.new ≡ purges self.old }
        ensures reads { S.reads source.new ≡ S.reads source.old }
        ensures files { W.writes into.new ≡ W.writes into.old }
        ensures moves { MovesOnlyTouched (W.writes into.old) (D.state disk.old) (D.state disk.new) }
        ensures cause { IfErr result (HasCause (S.reads source.old) (D.state disk.old)
            (D.state disk.new)) }
        ensures sound { IsTrue (D.state disk.old).tells → (rows : RowMap)
            → S.holds (D.state disk.old) source.old rows
            → IfErr result (λ fault. IsDamaged fault → ⊥) }
        ensures well { IsTrue (answered_by result)
            → (D.state disk.new).faults ≡ (D.state disk.old).faults }
    {
        match source.next(disk)? {
            Some((key, row)) => {
                write(disk, into, &key, row, self.purge)?;
                self.last = Some(key);
                Ok(true)
            }
            None => Ok(false),
        }
    }
}

// Whether a row is left.
fn rest<D: Disk, S: RowSource<D>>(disk: &mut D, source: &mut S) -> Result<Stepped, SourceFault>
    ensures says { IsTrue (D.state disk.old).tells → (left : RowList)
        → S.left (D.state disk.old) source.old left → IfOk result (λ stepped. StepSays stepped left) }
    ensures keeps { KeepsSource S.holds S.reads (D.state disk.old) (D.state disk.new) source.old
        source.new }
    ensures well { IsTrue (answered_by result)
        → (D.state disk.new).faults ≡ (D.state disk.old).faults }
    ensures fails { IfErr result
        (Fails S.holds S.reads (D.state disk.old) (D.state disk.new) source.old) }
{
    match source.next(disk)? {
        Some(_) => Ok(Stepped::More),
        None => Ok(Stepped::Done),
    }
}
