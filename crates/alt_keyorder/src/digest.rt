//! Tokens of partition keys.

ghost use Rattle.std.specs.Prelude.{◌≡◌, ◌∷◌};
ghost use Rattle.std.specs.Int.{w64, from_be_bytes};
ghost use Rattle.std.specs.Prelude.{take};
ghost use Rattle.sha2.specs.Sha256.{sha256};
ghost use Rattle.alt_fields.specs.Field.{field};
ghost use Rattle.alt_decimal.specs.Spelled.{spelled};
ghost use Rattle.alt_value.specs.Stands.{tree_of};
ghost use Rattle.alt_value.specs.CellBytes.{cell_bytes};
ghost use Rattle.alt_keyorder.specs.KeyBytes.{IsKey};
ghost use Rattle.alt_keyorder.specs.Token.{token_of};

use alt_decimal::Decimal;
use alt_value::Attr;
use sha2::{Digest, Sha256};

/// The token of a HASH value of kind S, N or B: the first 8 bytes, as a number, of the SHA-256 of its cell bytes
/// (docs/formats/cell-bytes.md). It takes no memory.
pub fn token(hash: &Attr) -> u64
    requires { IsKey (tree_of hash.now) }
    ensures token { result ≡ token_of (tree_of hash.now) }
{
    let digest = digest_of(hash);
    first_eight(&digest)
}

fn digest_of(hash: &Attr) -> [u8; 32]
    requires { IsKey (tree_of hash.now) }
    ensures { result ≡ sha256 (cell_bytes (tree_of hash.now)) }
{
    match hash {
        Attr::S(text) => digest_of_field(1, text.as_str().as_bytes()),
        Attr::N(number) => digest_of_number(number),
        Attr::B(bytes) => digest_of_field(3, bytes.as_slice()),
        _ => [0; 32],
    }
}

fn digest_of_field(tag: u8, bytes: &[u8]) -> [u8; 32]
    ensures { result ≡ sha256 (tag ∷ field bytes.now) }
{
    let count = (bytes.len() as u64).to_be_bytes();
    let mut hasher = Sha256::new();
    hasher.update(&[tag]);
    hasher.update(&count);
    hasher.update(bytes);
    hasher.finalize()
}

fn digest_of_number(number: &Decimal) -> [u8; 32]
    ensures { result ≡ sha256 (2 ∷ spelled number.now) }
{
    let mut buf = [0; 22];
    let end = number.spell(&mut buf);
    let mut hasher = Sha256::new();
    hasher.update(&[2u8]);
    hasher.update(&buf[..end]);
    hasher.finalize()
}

fn first_eight(digest: &[u8; 32]) -> u64
    ensures { result ≡ from_be_bytes w64 (take 8 digest.now) }
{
    match digest.first_chunk::<8>() {
        Some(eight) => u64::from_be_bytes(*eight),
        None => 0,
    }
}
