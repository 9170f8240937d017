//! Writing fields behind what a buffer already holds.

ghost use Rattle.std.specs.Prelude.{◌≡◌, ◌++◌, OnOk, OnErr};
ghost use Rattle.std.specs.Int.{w32, w64, to_be_bytes};
ghost use Rattle.alt_base.specs.Prefix.{IsPrefix};
ghost use Rattle.alt_fields.specs.Field.{field};

use alt_base::NoMemory;

/// Appends a number as 4 bytes, high byte first.
pub fn put_u32(out: &mut Vec<u8>, v: u32) -> Result<(), NoMemory>
    ensures ok { OnOk result (out.new.items ≡ out.old.items ++ to_be_bytes w32 v) }
    ensures err { OnErr result (out.new.items ≡ out.old.items) }
{
    let four = v.to_be_bytes();
    out.extend_from_slice(&four)?;
    Ok(())
}

/// Appends a number as 8 bytes, high byte first.
pub fn put_u64(out: &mut Vec<u8>, v: u64) -> Result<(), NoMemory>
    ensures ok { OnOk result (out.new.items ≡ out.old.items ++ to_be_bytes w64 v) }
    ensures err { OnErr result (out.new.items ≡ out.old.items) }
{
    let eight = v.to_be_bytes();
    out.extend_from_slice(&eight)?;
    Ok(())
}

/// Appends a byte string as a field: its length as 8 bytes, and then the bytes. Where memory is
/// wanting, the length may stand there already.
pub fn put_bytes(out: &mut Vec<u8>, bytes: &[u8]) -> Result<(), NoMemory>
    ensures ok { OnOk result (out.new.items ≡ out.old.items ++ field bytes.now) }
    ensures err { OnErr result (IsPrefix out.old.items out.new.items) }
{
    put_u64(out, bytes.len() as u64)?;
    out.extend_from_slice(bytes)?;
    Ok(())
}
