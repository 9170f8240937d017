//! Writing key parts.

ghost use Rattle.std.specs.Prelude.{◌≡◌, ◌∷◌, ◌++◌, OnOk, OnErr, MatchOption};
ghost use Rattle.alt_base.specs.Prefix.{IsPrefix};
ghost use Rattle.alt_decimal.specs.Spelled.{spelled};
ghost use Rattle.alt_value.specs.Stands.{tree_of};
ghost use Rattle.alt_keyorder.specs.KeyBytes.{IsKey, IsClean, closed, key_bytes};

use alt_base::NoMemory;
use alt_decimal::Decimal;
use alt_value::Attr;
use memchr::memchr;

/// Appends the key part of a text, a number or a binary (docs/formats/key-bytes.md). Where memory is wanting, the front of
/// the part may stand there already.
pub fn key_part(a: &Attr, out: &mut Vec<u8>) -> Result<(), NoMemory>
    requires { IsKey (tree_of a.now) }
    ensures ok { OnOk result (out.new.items ≡ out.old.items ++ key_bytes (tree_of a.now)) }
    ensures err { OnErr result (IsPrefix out.old.items out.new.items) }
{
    match a {
        Attr::S(text) => put_closed(out, text.as_str().as_bytes()),
        Attr::N(number) => put_number(out, number),
        Attr::B(bytes) => put_closed(out, bytes.as_slice()),
        _ => Ok(()),
    }
}

fn put_number(out: &mut Vec<u8>, number: &Decimal) -> Result<(), NoMemory>
    ensures ok { OnOk result (out.new.items ≡ out.old.items ++ spelled number.now) }
    ensures err { OnErr result (IsPrefix out.old.items out.new.items) }
{
    let mut buf = [0; 22];
    let end = number.spell(&mut buf);
    out.extend_from_slice(&buf[..end])?;
    Ok(())
}

/// The bytes up to the next 0 are copied whole.
fn put_closed(out: &mut Vec<u8>, bytes: &[u8]) -> Result<(), NoMemory>
    ensures ok { OnOk result (out.new.items ≡ out.old.items ++ closed bytes.now) }
    ensures err { OnErr result (IsPrefix out.old.items out.new.items) }
{
    let mut rest = bytes;
    while let Some((front, behind)) = cut_at_zero(rest) {
        out.extend_from_slice(front)?;
        out.extend_from_slice(&[0, 255])?;
        rest = behind;
    }
    out.extend_from_slice(rest)?;
    out.extend_from_slice(&[0, 0])?;
    Ok(())
}

/// What stands before the first 0 and behind it, None exactly where there is no 0.
pub(crate) fn cut_at_zero(bytes: &[u8]) -> Option<(&[u8], &[u8])>
    ensures { MatchOption result (IsClean bytes.now)
        (λ p. (bytes.now ≡ p.0.now ++ 0 ∷ p.1.now) × IsClean p.0.now) }
{
    match memchr(0, bytes) {
        Some(i) => {
            let (front, rest) = bytes.split_at(i);
            let (_, behind) = rest.split_at(1);
            Some((front, behind))
        }
        None => None,
    }
}
