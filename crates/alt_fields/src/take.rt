//! Reading fields at a place of a byte string, whatever follows them there.

ghost use Rattle.std.specs.Prelude.{◌≡◌, ◌+◌, ◌<◌, ◌≤◌, ◌^◌, ℕ, List, length, take, drop, Ok, IfOk, IfErr, IsOkAnd};
ghost use Rattle.std.specs.Int.{w32, w64, to_be_bytes};
ghost use Rattle.alt_fields.specs.Field.{field, StandsAt, told_length};

/// The bytes end before the field does. The place is where they end.
#[derive(Clone, Copy, Debug, PartialEq, Eq)]
pub struct Short {
    pub at: usize,
}

/// The N bytes at a place.
fn chunk_at<const N: usize>(bytes: &[u8], at: usize) -> Result<&[u8; N], Short>
    ensures ok { IfOk result (λ chunk. (chunk.now ≡ take N (drop at bytes.now))
        × (at + N ≤ length bytes.now)) }
    ensures short { IfErr result (λ s. (s.at ≡ length bytes.now) × (length bytes.now < at + N)) }
{
    let short = Short { at: bytes.len() };
    let rest = bytes.get(at..).ok_or(short)?;
    rest.first_chunk::<N>().ok_or(short)
}

/// The number whose 4 bytes, high byte first, stand at a place, and the place after them.
pub fn take_u32(bytes: &[u8], at: usize) -> Result<(u32, usize), Short>
    ensures ok { IfOk result (λ p. StandsAt bytes.now at (to_be_bytes w32 p.0) × (p.1 ≡ at + 4)) }
    ensures short { IfErr result (λ s. (s.at ≡ length bytes.now) × (length bytes.now < at + 4)) }
    // What was put is taken again, whatever follows.
    ensures again { (v : ℕ) → v < 2 ^ 32 → StandsAt bytes.now at (to_be_bytes w32 v)
        → result ≡ Ok (v, at + 4) }
{
    let chunk = chunk_at::<4>(bytes, at)?;
    Ok((u32::from_be_bytes(*chunk), at + 4))
}

/// The number whose 8 bytes, high byte first, stand at a place, and the place after them.
pub fn take_u64(bytes: &[u8], at: usize) -> Result<(u64, usize), Short>
    ensures ok { IfOk result (λ p. StandsAt bytes.now at (to_be_bytes w64 p.0) × (p.1 ≡ at + 8)) }
    ensures short { IfErr result (λ s. (s.at ≡ length bytes.now) × (length bytes.now < at + 8)) }
    // What was put is taken again, whatever follows.
    ensures again { (v : ℕ) → v < 2 ^ 64 → StandsAt bytes.now at (to_be_bytes w64 v)
        → result ≡ Ok (v, at + 8) }
{
    let chunk = chunk_at::<8>(bytes, at)?;
    Ok((u64::from_be_bytes(*chunk), at + 8))
}

/// The bytes of the field that stands at a place, and the place after it. A length that goes past the
/// end, up to the largest number, ends early too.
pub fn take_bytes<'a>(bytes: &'a [u8], at: usize) -> Result<(&'a [u8], usize), Short>
    ensures ok { IfOk result (λ p. StandsAt bytes.now at (field p.0.now)
        × (p.1 ≡ at + 8 + length p.0.now)) }
    ensures short { IfErr result
        (λ s. (s.at ≡ length bytes.now) × (length bytes.now < at + 8 + told_length bytes.now at)) }
    // What was put is taken again, whatever follows.
    ensures again { (content : List ℕ) → length content < 2 ^ 64
        → StandsAt bytes.now at (field content)
        → IsOkAnd result (λ p. p.0.now ≡ content) }
{
    let (count, start) = take_u64(bytes, at)?;
    let (content, end) = content_at(bytes, start, count)?;
    Ok((content, end))
}

/// The bytes from a place on, as many as asked, and the place after them.
fn content_at<'a>(bytes: &'a [u8], start: usize, count: u64) -> Result<(&'a [u8], usize), Short>
    requires { start ≤ length bytes.now }
    ensures ok { IfOk result (λ p. (p.0.now ≡ take count (drop start bytes.now))
        × (p.1 ≡ start + count)
        × (start + count ≤ length bytes.now)) }
    ensures short { IfErr result (λ s. (s.at ≡ length bytes.now)
        × (length bytes.now < start + count)) }
{
    let (_, rest) = bytes.split_at(start);
    match usize::try_from(count) {
        Ok(count) if count <= rest.len() => Ok((&rest[..count], start + count)),
        _ => Err(Short { at: bytes.len() }),
    }
}
