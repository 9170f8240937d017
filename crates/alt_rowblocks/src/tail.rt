//! What stands behind the blocks: the index, how many rows there are, and the place of the index.

ghost use Rattle.std.specs.Prelude.{◌≡◌, ◌++◌, OnOk, IfOk};
ghost use Rattle.std.specs.List.{flat_map};
ghost use Rattle.alt_rowblocks.specs.Format.{mark_bytes, tail_bytes};

use alt_base::NoMemory;
use alt_fields::{Bytes, put_bytes, put_u64};
use std::alloc::Global;

/// The bytes of the index of these blocks and of these rows, which stand at a place; memory may be refused for them.
#[tactic(auto, unfolding(crate::specs::Format::tail_bytes))]
pub fn tail_of(
    alloc: Global,
    marks: &[(u64, Bytes)],
    rows: u64,
    at: u64,
) -> Result<Vec<u8>, NoMemory>
    ensures { IfOk result (λ tail. tail.items ≡ tail_bytes marks.now rows at) }
{
    let mut tail = Vec::new(alloc);
    put_u64(&mut tail, marks.len() as u64)?;
    put_marks(&mut tail, marks)?;
    put_u64(&mut tail, rows)?;
    put_u64(&mut tail, at)?;
    Ok(tail)
}

fn put_marks(out: &mut Vec<u8>, marks: &[(u64, Bytes)]) -> Result<(), NoMemory>
    ensures { OnOk result (out.new.items ≡ out.old.items ++ flat_map mark_bytes marks.now) }
{
    for mark in marks {
        put_mark(out, mark.0, &mark.1)?;
    }
    Ok(())
}

fn put_mark(out: &mut Vec<u8>, at: u64, key: &Bytes) -> Result<(), NoMemory>
    ensures { OnOk result (out.new.items ≡ out.old.items ++ mark_bytes (at, key.now)) }
{
    put_u64(out, at)?;
    put_bytes(out, key.as_slice())
}
