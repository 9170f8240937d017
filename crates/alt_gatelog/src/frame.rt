//! An entry as it stands in the file: its gate, its length in eight bytes, and its bytes.

ghost use Rattle.std.specs.Prelude.{◌≡◌, ◌<◌, ◌+◌, ◌-◌, ℕ, List, IfOk, IfSome, IfNone, length, take, drop};
ghost use Rattle.std.specs.Int.{w64, to_be_bytes};
ghost use Rattle.alt_gatelog.specs.InHand.{IsFramed};
ghost use Rattle.alt_gatelog.specs.Log.{IsCutEntry};
ghost use Rattle.alt_gatelog.specs.Parse.{GateIs, HasRoom};

use std::alloc::{AllocError, Global};

/// What stands at a gate's place.
#[derive(Drop)]
pub(crate) enum Gate {
    /// A closed gate, which ends the log.
    Closed,
    /// An open gate, and an entry of this many bytes.
    Open(u64),
}

/// What an append writes behind the closed gate: the entry with its length, and the next closed gate.
pub fn frame_of(alloc: Global, bytes: &[u8]) -> Result<Vec<u8>, AllocError>
    ensures { IfOk result (λ block. IsFramed block.items bytes.now) }
{
    let mut block = Vec::with_capacity(alloc, bytes.len() + 9)?;
    block.extend_from_slice(&(bytes.len() as u64).to_be_bytes())?;
    block.extend_from_slice(bytes)?;
    block.push(0)?;
    Ok(block)
}

/// What stands at a gate's place, by its first nine bytes and how many bytes there are to the file's end. None where the file ends
/// too early.
pub(crate) fn gate_of(head: &[u8], left: u64) -> Option<Gate>
    ensures some { IfSome result (λ gate. (bytes : List ℕ) (at : ℕ)
        → head.now ≡ take 9 (drop at bytes) → left ≡ length bytes - at → GateIs bytes at gate) }
    ensures none { IfNone result ((bytes : List ℕ) (at : ℕ) → head.now ≡ take 9 (drop at bytes)
        → left ≡ length bytes - at → IsCutEntry (drop at bytes)) }
    ensures room { IfSome result (λ gate. HasRoom left gate) }
{
    if head.is_empty() || left == 0 {
        return None;
    }
    if head[0] != 1 {
        return Some(Gate::Closed);
    }
    if head.len() < 9 || left < 9 {
        return None;
    }
    let length = number_of(&head[1..9]);
    if length > left - 9 {
        return None;
    }
    Some(Gate::Open(length))
}

// The number that eight bytes stand for.
fn number_of(bytes: &[u8]) -> u64
    requires { length bytes.now ≡ 8 }
    ensures { to_be_bytes w64 result ≡ bytes.now }
{
    u64::from_be_bytes([
        bytes[0], bytes[1], bytes[2], bytes[3], bytes[4], bytes[5], bytes[6], bytes[7],
    ])
}
