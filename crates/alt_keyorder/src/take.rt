//! Reading key parts.

ghost use Rattle.std.specs.Prelude.{◌≡◌, ◌+◌, ◌-◌, ◌++◌, ℕ, List, length, drop, IfOk, MatchOption};
ghost use Rattle.alt_value.specs.Stands.{tree_of};
ghost use Rattle.alt_value.specs.Tree.{Tree};
ghost use Rattle.alt_keyorder.specs.KeyBytes.{IsClosedAt, IsCutAtZero, IsKeyOf, IsPart, IsUnclosed, NoPart, key_bytes};

use crate::part::cut_at_zero;
use alt_base::NoMemory;
use alt_decimal::Decimal;
use alt_fields::Bytes;
use alt_value::{Attr, KeyKind, Text};
use std::alloc::Global;

/// The value whose key part, of that kind, stands at a place, and where the part ends, whatever follows. None exactly where
/// no key part of the kind stands there; one of kind S is UTF-8.
pub fn take_part(
    alloc: Global,
    kind: KeyKind,
    bytes: &[u8],
    at: usize,
) -> Result<Option<(Attr, usize)>, NoMemory>
    ensures part { IfOk result (λ r. MatchOption r (NoPart kind (drop at bytes.now))
        (λ p. IsPart kind (drop at bytes.now) (tree_of p.0) (p.1 - at))) }
    // Whatever value's part stands there, that value is taken.
    ensures taken { (t : Tree) (behind : List ℕ) → IsKeyOf kind t
        → drop at bytes.now ≡ key_bytes t ++ behind → IfOk result
        (λ r. MatchOption r ⊥ (λ p. (tree_of p.0 ≡ t) × (p.1 ≡ at + length (key_bytes t)))) }
{
    if at > bytes.len() {
        return Ok(None);
    }
    let (_, rest) = bytes.split_at(at);
    match part_at_front(alloc, kind, rest)? {
        Some((value, len)) => Ok(Some((value, at + len))),
        None => Ok(None),
    }
}

fn part_at_front(
    alloc: Global,
    kind: KeyKind,
    bytes: &[u8],
) -> Result<Option<(Attr, usize)>, NoMemory>
    ensures { IfOk result (λ r. MatchOption r (NoPart kind bytes.now)
        (λ p. IsPart kind bytes.now (tree_of p.0) p.1)) }
{
    match kind {
        KeyKind::S => text_at_front(alloc, bytes),
        KeyKind::N => Ok(number_at_front(bytes)),
        KeyKind::B => binary_at_front(alloc, bytes),
    }
}

fn text_at_front(alloc: Global, bytes: &[u8]) -> Result<Option<(Attr, usize)>, NoMemory>
    ensures { IfOk result (λ r. MatchOption r (NoPart KeyKind.S bytes.now)
        (λ p. IsPart KeyKind.S bytes.now (tree_of p.0) p.1)) }
{
    match read_closed(alloc, bytes)? {
        Some((content, len)) => match std::str::from_utf8(content.as_slice()) {
            Ok(text) => Ok(Some((Attr::S(Text::new(alloc, text)?), len))),
            Err(_) => Ok(None),
        },
        None => Ok(None),
    }
}

fn number_at_front(bytes: &[u8]) -> Option<(Attr, usize)>
    ensures { MatchOption result (NoPart KeyKind.N bytes.now)
        (λ p. IsPart KeyKind.N bytes.now (tree_of p.0) p.1) }
{
    match Decimal::unspell(bytes) {
        Some((number, len)) => Some((Attr::N(number), len)),
        None => None,
    }
}

fn binary_at_front(alloc: Global, bytes: &[u8]) -> Result<Option<(Attr, usize)>, NoMemory>
    ensures { IfOk result (λ r. MatchOption r (NoPart KeyKind.B bytes.now)
        (λ p. IsPart KeyKind.B bytes.now (tree_of p.0) p.1)) }
{
    match read_closed(alloc, bytes)? {
        Some((content, len)) => Ok(Some((Attr::B(Bytes::from_vec(content)), len))),
        None => Ok(None),
    }
}

/// The bytes whose closed form stands at the front, and its length.
fn read_closed(alloc: Global, bytes: &[u8]) -> Result<Option<(Vec<u8>, usize)>, NoMemory>
    ensures { IfOk result (λ r. MatchOption r (IsUnclosed bytes.now)
        (λ p. IsClosedAt bytes.now p.0.items p.1)) }
{
    let mut content = Vec::new(alloc);
    let mut rest = bytes;
    while let Some((front, goes_on, after)) = cut_at_mark(rest) {
        content.extend_from_slice(front)?;
        if !goes_on {
            return Ok(Some((content, bytes.len() - after.len())));
        }
        content.push(0)?;
        rest = after;
    }
    Ok(None)
}

/// What stands before the first 0, whether 255 or 0 is behind it, and what follows that.
fn cut_at_mark(bytes: &[u8]) -> Option<(&[u8], bool, &[u8])>
    ensures { MatchOption result (IsUnclosed bytes.now)
        (λ p. IsCutAtZero bytes.now p.0.now p.1 p.2.now) }
{
    match cut_at_zero(bytes) {
        Some((front, behind)) => match behind {
            [mark, after @ ..] => {
                if *mark == 255 {
                    Some((front, true, after))
                } else if *mark == 0 {
                    Some((front, false, after))
                } else {
                    None
                }
            }
            [] => None,
        },
        None => None,
    }
}
