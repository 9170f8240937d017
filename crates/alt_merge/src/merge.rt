//! Several sources walked as one.

ghost use Rattle.std.specs.Prelude.{◌≡◌, ◌+◌, IfOk, OnOk};
ghost use Rattle.alt_merge.specs.Whole.{sources_of};

use crate::fill::{fill_all, seek_all};
use crate::gather::{due_heads, give, least};
use crate::head::Head;
use alt_cells::{RowCells, RowSource, SourceFault};
use alt_disk::Disk;
use alt_fields::Bytes;
use std::alloc::Global;

/// Sources of which each gives rows in order. Rows of one key are joined, and nothing is read before it
/// is asked for.
#[derive(Drop)]
pub struct Merge<S> {
    alloc: Global,
    sources: Vec<S>,
    heads: Vec<Head>,
    forward: bool,
}

impl<S> Merge<S> {
    pub fn new(alloc: Global, sources: Vec<S>) -> Merge<S>
        ensures { sources_of result ≡ sources.items }
    {
        Merge {
            alloc,
            sources,
            heads: Vec::new(alloc),
            forward: true,
        }
    }
}

impl<D: Disk, S: RowSource<D>> RowSource<D> for Merge<S> {
    ghost use Rattle.alt_merge.specs.Whole.{heads_of, is_forward, merge_reads, merge_width, merge_seeks, merge_nexts, merge_holds, merge_left};
    ghost use Rattle.std.specs.Prelude.{◌≤◌, List, IsTrue, IfErr, map};
    ghost use Rattle.std.specs.Option.{option_copied};
    ghost use Rattle.alt_merge.specs.Merges.{AllDue, HoldsEach};
    ghost use Rattle.alt_cells.specs.Walks.{RowMap, RowList, rows_from, Gives, KeepsSource, Fails, answered_by};
    ghost use Rattle.alt_merge.specs.Costs.{HasLists, CallSpends, all_due};
    ghost use Rattle.alt_merge.specs.MergeLaws.{merge_holds_on, merge_left_on};

    ghost reads = { merge_reads S.reads };

    ghost width = { merge_width S.width };

    ghost seeks = { merge_seeks S.seeks };

    ghost nexts = { merge_nexts S.nexts };

    ghost holds = { merge_holds S.holds };

    ghost left = { merge_left S.left };

    ghost holds_on = { merge_holds_on S.reads S.holds S.holds_on };

    ghost left_on = { merge_left_on S.reads S.left S.left_on };

    fn seek(&mut self, disk: &mut D, from: Option<&[u8]>, forward: bool) -> Result<(), SourceFault>
        ensures sought { IsTrue (D.state disk.old).tells
            → (rows : RowMap) → merge_holds S.holds (D.state disk.old) self.old rows
            → OnOk result (merge_left S.left (D.state disk.new) self.new
            (rows_from rows (option_copied from.entry) forward)) }
        ensures given { OnOk result (merge_seeks S.seeks (D.state disk.old) (D.state disk.new)
            self.old (option_copied from.entry) forward self.new) }
        ensures keeps { KeepsSource (merge_holds S.holds) (merge_reads S.reads) (D.state disk.old)
            (D.state disk.new) self.old self.new }
        ensures reads { (D.state disk.new).reads
            ≤ (D.state disk.old).reads + merge_width S.width self.old }
        ensures width { merge_width S.width self.new ≡ merge_width S.width self.old }
        ensures well { IsTrue (answered_by result)
            → (D.state disk.new).faults ≡ (D.state disk.old).faults }
        ensures fails { IfErr result (Fails (merge_holds S.holds) (merge_reads S.reads)
            (D.state disk.old) (D.state disk.new) self.old) }
        // Beyond the trait: what is left of each source, of which nothing is in hand yet.
        ensures begins { IsTrue (D.state disk.old).tells → (maps : List RowMap)
            → HoldsEach S.holds (D.state disk.old) (sources_of self.old) maps
            → OnOk result (HasLists (S.left (D.state disk.new)) (sources_of self.new)
            (heads_of self.new) forward
            (map (λ m. rows_from m (option_copied from.entry) forward) maps)) }
        ensures due { OnOk result (AllDue (heads_of self.new)) }
        ensures way { OnOk result (is_forward self.new ≡ forward) }
        ensures widths { map S.width (sources_of self.new)
            ≡ map S.width (sources_of self.old) }
    {
        self.heads = due_heads(self.alloc, self.sources.len())?;
        self.forward = forward;
        seek_all(&mut self.sources, disk, from, forward)
    }

    fn next(&mut self, disk: &mut D) -> Result<Option<(Bytes, RowCells)>, SourceFault>
        ensures gives { IsTrue (D.state disk.old).tells
            → (rows : RowList) → merge_left S.left (D.state disk.old) self.old rows
            → IfOk result (Gives (merge_left S.left (D.state disk.new) self.new) rows) }
        ensures given { IfOk result (λ row. merge_nexts S.nexts (D.state disk.old)
            (D.state disk.new) self.old row self.new) }
        ensures keeps { KeepsSource (merge_holds S.holds) (merge_reads S.reads) (D.state disk.old)
            (D.state disk.new) self.old self.new }
        ensures reads { (D.state disk.new).reads
            ≤ (D.state disk.old).reads + merge_width S.width self.old }
        ensures width { merge_width S.width self.new ≡ merge_width S.width self.old }
        ensures well { IsTrue (answered_by result)
            → (D.state disk.new).faults ≡ (D.state disk.old).faults }
        ensures fails { IfErr result (Fails (merge_holds S.holds) (merge_reads S.reads)
            (D.state disk.old) (D.state disk.new) self.old) }
        // Beyond the trait: it asks the sources alone of which nothing is in hand.
        ensures asks { (D.state disk.new).reads ≤ (D.state disk.old).reads
            + all_due S.width (heads_of self.old) (sources_of self.old) }
        // And each row that is passed pays for one read of its source.
        ensures spends { IsTrue (D.state disk.old).tells → (lists : List RowList)
            → HasLists (S.left (D.state disk.old)) (sources_of self.old) (heads_of self.old)
            (is_forward self.old) lists
            → IfOk result (CallSpends S.width (S.left (D.state disk.new)) (D.state disk.old).reads
            (D.state disk.new).reads (sources_of self.old) (sources_of self.new)
            (heads_of self.old) (heads_of self.new) (is_forward self.old) lists) }
        ensures way { is_forward self.new ≡ is_forward self.old }
        ensures widths { map S.width (sources_of self.new)
            ≡ map S.width (sources_of self.old) }
    {
        // It wasn't sought.
        if self.heads.len() != self.sources.len() {
            return Ok(None);
        }
        fill_all(&mut self.sources, &mut self.heads, disk)?;
        match least(&self.heads, self.forward) {
            Some(at) => Ok(give(&mut self.heads, at)?),
            None => Ok(None),
        }
    }
}
