//! How a run ends: its status and its note.

ghost use Rattle.std.specs.Prelude.{◌≡◌, ◌⊎◌, [], string_bytes, IfOk, IfSome, IfNone};
ghost use Rattle.alt_shell.specs.Calls.{Aside};
ghost use Rattle.alt_shell.specs.Log.{Grows, StillGrows, notes_of, moments_of, talks};
ghost use Rattle.alt_run.specs.Endings.{status_of, note_of};
ghost use Rattle.alt_run.specs.private.EndingOf.{HasNumbers};
ghost use Rattle.alt_run.specs.declared.ending.Ending.TheVariants.{Memory};

use alt_base::NoMemory;
use alt_fields::Bytes;
use alt_shell::Shell;
use std::alloc::Global;

/// How a run ends.
#[derive(Debug, Drop)]
pub(crate) enum Ending {
    /// All was done.
    Whole,
    /// The words are none of those that it knows.
    Words,
    /// A file is there already, where a store was to be made, this one first.
    NotEmpty {
        first: u32,
    },
    /// The files are no store's, for the bytes of this file at this place.
    Damaged {
        file: u32,
        at: u64,
    },
    /// The files are no store's, for this one ends with a digest that isn't that of the bytes before it.
    DigestDiffers {
        file: u32,
        kept: [u8; 32],
        found: [u8; 32],
    },
    /// The rows are those of no state, and of this family and key is the first that is wrong.
    BadRow {
        family: u32,
        key: Bytes,
    },
    /// The device failed.
    Device,
    /// Memory was refused.
    Memory,
    /// A write would need this number, a new table this family, or work or a first write this file, and it is
    /// never given out.
    Spent {
        number: u64,
    },
}

/// The status of an ending.
pub(crate) fn status_of(ending: &Ending) -> u8
    ensures { result ≡ status_of ending.now }
{
    match ending {
        Ending::Whole => 0,
        Ending::Words => 1,
        Ending::NotEmpty { first: _ } => 2,
        Ending::Damaged { file: _, at: _ } => 3,
        Ending::DigestDiffers {
            file: _,
            kept: _,
            found: _,
        } => 3,
        Ending::BadRow { family: _, key: _ } => 3,
        Ending::Device => 4,
        Ending::Memory => 5,
        Ending::Spent { number: _ } => 6,
    }
}

/// The note of an ending that has always the same, `None` where numbers stand in it.
fn fixed_note(ending: &Ending) -> Option<&'static [u8]>
    ensures some { IfSome result (λ note. note.now ≡ note_of ending.now) }
    ensures none { IfNone result (HasNumbers ending.now) }
{
    match ending {
        Ending::Whole => Some(b""),
        Ending::Words => Some(b"alternator: words\n"),
        Ending::Device => Some(b"alternator: device\n"),
        Ending::Memory => Some(b"alternator: memory\n"),
        _ => None,
    }
}

/// The note of an ending with numbers, empty for any other.
fn note_of(alloc: Global, ending: &Ending) -> Result<String, NoMemory>
    ensures { HasNumbers ending.now → IfOk result (λ s. string_bytes s ≡ note_of ending.now) }
{
    let note = match ending {
        Ending::NotEmpty { first } => {
            format!(in alloc; "alternator: store not empty: file {first}\n")?
        }
        Ending::Damaged { file, at } => {
            format!(in alloc; "alternator: damaged: file {file} at {at}\n")?
        }
        Ending::DigestDiffers { file, kept, found } => {
            let had = hex::encode(alloc, kept.as_slice())?;
            let has = hex::encode(alloc, found.as_slice())?;
            format!(in alloc; "alternator: digest: file {file} kept {had} found {has}\n")?
        }
        Ending::BadRow { family, key } => {
            let text = hex::encode(alloc, key.as_slice())?;
            format!(in alloc; "alternator: row: family {family} key {text}\n")?
        }
        Ending::Spent { number } => { format!(in alloc; "alternator: numbers spent: {number}\n")? }
        _ => String::new(alloc),
    };
    Ok(note)
}

/// Notes an ending. Where there is no memory for its numbers, want of memory is noted, and the run ends so.
pub(crate) fn noted<S: Shell>(alloc: Global, ending: Ending, shell: &mut S) -> Ending
    ensures ending { (result ≡ ending) ⊎ ((result ≡ Memory) × HasNumbers ending) }
    ensures noted { StillGrows (notes_of (S.state shell.old).beside)
        (notes_of (S.state shell.new).beside) (note_of result) }
    ensures silent { Grows (S.state shell.old).beside (S.state shell.new).beside [] }
    ensures unasked { moments_of (S.state shell.new).beside
        ≡ moments_of (S.state shell.old).beside }
    ensures aside { Aside (S.state shell.old) (S.state shell.new) }
    ensures talking { talks (S.state shell.new).beside ≡ talks (S.state shell.old).beside }
{
    if let Some(note) = fixed_note(&ending) {
        shell.note(note);
        return ending;
    }
    let Ok(note) = note_of(alloc, &ending) else {
        shell.note(b"alternator: memory\n");
        return Ending::Memory;
    };
    shell.note(note.as_bytes());
    ending
}
