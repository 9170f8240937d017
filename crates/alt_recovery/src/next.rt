//! The number of the next file.

ghost use Rattle.std.specs.Prelude.{◌≡◌};
ghost use Rattle.alt_recovery.specs.Others.{next_past};

/// The greater of the number and one past the greatest of these files, but at most 2^32 - 1.
pub fn next_file(next: u32, files: &[u32]) -> u32
    ensures { result ≡ next_past next files.now }
{
    let mut least = next;
    for f in files {
        least = least.max(f.saturating_add(1));
    }
    least
}
