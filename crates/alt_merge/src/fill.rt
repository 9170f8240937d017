//! Seeks and reads on, source by source.

ghost use Rattle.std.specs.Prelude.{◌≡◌, ◌≤◌, ◌<◌, ◌+◌, List, IsTrue, IfOk, IfErr, OnOk, length, map, Option};
ghost use Rattle.std.specs.Option.{option_copied};
ghost use Rattle.alt_cells.specs.Walks.{RowMap, RowList, rows_from, KeepsSource, Fails, answered_by};
ghost use Rattle.alt_merge.specs.Costs.{all_width, cost_if_due, all_due};
ghost use Rattle.alt_merge.specs.Merges.{Each2, InTurn, with_head, any_reads, IsFilled, IsFilledBy, AllFilled, AreFilledBy, HoldsEach, LeftWith};
ghost use Rattle.alt_merge.specs.declared.head.Head.TheVariants.{Due};

use crate::head::Head;
use alt_cells::{RowSource, SourceFault};
use alt_disk::Disk;

pub(crate) fn next_head<D: Disk, S: RowSource<D>>(
    source: &mut S,
    disk: &mut D,
) -> Result<Head, SourceFault>
    ensures filled { IfOk result IsFilled }
    ensures given { IfOk result (IsFilledBy S.nexts (D.state disk.old) (D.state disk.new)
        source.old Due source.new) }
    ensures left { IsTrue (D.state disk.old).tells → (rows : RowList)
        → S.left (D.state disk.old) source.old rows
        → IfOk result (λ head. (tail : RowList) × S.left (D.state disk.new) source.new tail
        × (with_head head tail ≡ rows)) }
    ensures keeps { KeepsSource S.holds S.reads (D.state disk.old)
        (D.state disk.new) source.old source.new }
    ensures reads { (D.state disk.new).reads ≤ (D.state disk.old).reads + S.width source.old }
    ensures width { S.width source.new ≡ S.width source.old }
    ensures well { IsTrue (answered_by result)
        → (D.state disk.new).faults ≡ (D.state disk.old).faults }
    ensures fails { IfErr result (Fails S.holds S.reads (D.state disk.old)
        (D.state disk.new) source.old) }
{
    match source.next(disk)? {
        Some((key, row)) => Ok(Head::Held(key, row)),
        None => Ok(Head::End),
    }
}

/// Asks for the row at the front of a source, where it is due.
fn fill<D: Disk, S: RowSource<D>>(
    source: &mut S,
    head: &mut Head,
    disk: &mut D,
) -> Result<(), SourceFault>
    ensures filled { OnOk result (IsFilled head.new) }
    ensures given { OnOk result (IsFilledBy S.nexts (D.state disk.old) (D.state disk.new)
        source.old head.old source.new head.new) }
    ensures left { IsTrue (D.state disk.old).tells → (tail : RowList)
        → S.left (D.state disk.old) source.old tail
        → OnOk result ((rest : RowList) × S.left (D.state disk.new) source.new rest
        × (with_head head.new rest ≡ with_head head.old tail)) }
    ensures keeps { KeepsSource S.holds S.reads (D.state disk.old)
        (D.state disk.new) source.old source.new }
    ensures reads { (D.state disk.new).reads
        ≤ (D.state disk.old).reads + cost_if_due head.old (S.width source.old) }
    ensures width { S.width source.new ≡ S.width source.old }
    ensures well { IsTrue (answered_by result)
        → (D.state disk.new).faults ≡ (D.state disk.old).faults }
    ensures fails { IfErr result (Fails S.holds S.reads (D.state disk.old)
        (D.state disk.new) source.old) }
{
    if let Head::Due = head {
        *head = next_head(source, disk)?;
    }
    Ok(())
}

pub(crate) fn fill_all<D: Disk, S: RowSource<D>>(
    sources: &mut [S],
    heads: &mut [Head],
    disk: &mut D,
) -> Result<(), SourceFault>
    requires { length heads.old ≡ length sources.old }
    ensures filled { OnOk result (AllFilled heads.new) }
    ensures given { OnOk result (AreFilledBy S.nexts (D.state disk.old) (D.state disk.new)
        sources.old heads.old sources.new heads.new) }
    ensures left { IsTrue (D.state disk.old).tells → (lists : List RowList)
        → LeftWith (S.left (D.state disk.old)) sources.old heads.old lists
        → OnOk result (LeftWith (S.left (D.state disk.new)) sources.new heads.new lists) }
    ensures keeps { KeepsSource (HoldsEach S.holds) (any_reads S.reads) (D.state disk.old)
        (D.state disk.new) sources.old sources.new }
    ensures reads { (D.state disk.new).reads
        ≤ (D.state disk.old).reads + all_due S.width heads.old sources.old }
    ensures width { all_width S.width sources.new ≡ all_width S.width sources.old }
    ensures widths { map S.width sources.new ≡ map S.width sources.old }
    ensures well { IsTrue (answered_by result)
        → (D.state disk.new).faults ≡ (D.state disk.old).faults }
    ensures fails { IfErr result (Fails (HoldsEach S.holds) (any_reads S.reads) (D.state disk.old)
        (D.state disk.new) sources.old) }
{
    for i in 0..sources.len() {
        fill(&mut sources[i], &mut heads[i], disk)?;
    }
    Ok(())
}

pub(crate) fn seek_all<D: Disk, S: RowSource<D>>(
    sources: &mut [S],
    disk: &mut D,
    from: Option<&[u8]>,
    forward: bool,
) -> Result<(), SourceFault>
    ensures sought { IsTrue (D.state disk.old).tells → (maps : List RowMap)
        → HoldsEach S.holds (D.state disk.old) sources.old maps
        → OnOk result (Each2 (S.left (D.state disk.new)) sources.new
        (map (λ m. rows_from m (option_copied from.entry) forward) maps)) }
    ensures given { OnOk result (InTurn
        (λ a b x y. S.seeks a b x (option_copied from.entry) forward y)
        (D.state disk.old) (D.state disk.new) sources.old sources.new) }
    ensures keeps { KeepsSource (HoldsEach S.holds) (any_reads S.reads) (D.state disk.old)
        (D.state disk.new) sources.old sources.new }
    ensures reads { (D.state disk.new).reads
        ≤ (D.state disk.old).reads + all_width S.width sources.old }
    ensures width { all_width S.width sources.new ≡ all_width S.width sources.old }
    ensures widths { map S.width sources.new ≡ map S.width sources.old }
    ensures well { IsTrue (answered_by result)
        → (D.state disk.new).faults ≡ (D.state disk.old).faults }
    ensures fails { IfErr result (Fails (HoldsEach S.holds) (any_reads S.reads) (D.state disk.old)
        (D.state disk.new) sources.old) }
{
    for i in 0..sources.len() {
        sources[i].seek(disk, from, forward)?;
    }
    Ok(())
}
