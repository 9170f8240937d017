//! Finding a key: the block that may have it.

ghost use Rattle.std.specs.Prelude.{◌≡◌, ◌<◌, ◌↔◌, IsTrue, length};
ghost use Rattle.std.specs.Ordering.{is_gt};
ghost use Rattle.alt_cells.specs.Keys.{key_cmp};
ghost use Rattle.alt_rowblocks.specs.Searching.{EndsAt, EndsBelow, key_at};

use alt_fields::Bytes;

/// How many blocks begin at or below a key.
pub fn blocks_up_to(marks: &[(u64, Bytes)], key: &[u8]) -> usize
    ensures { EndsAt marks.now key.now result }
{
    let mut low = 0;
    let mut high = marks.len();
    'halves: while low < high {
        let middle = low + (high - low) / 2;
        if is_past(marks, middle, key) {
            high = middle;
        } else {
            low = middle + 1;
        }
    }
    low
}

/// Whether there is a last key, and it is below this one.
pub fn ends_below(last: &Option<Bytes>, key: &[u8]) -> bool
    ensures { IsTrue result ↔ EndsBelow last.now key.now }
{
    match last {
        Some(last) => last.as_slice().cmp(key).is_lt(),
        None => false,
    }
}

// Whether a block begins above the key.
fn is_past(marks: &[(u64, Bytes)], i: usize, key: &[u8]) -> bool
    requires { i < length marks.now }
    ensures { result ≡ is_gt (key_cmp (key_at marks.now i) key.now) }
{
    marks[i].1.as_slice().cmp(key).is_gt()
}
