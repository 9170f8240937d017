//! A version of a store: which files hold its rows, and up to which write.

ghost use Rattle.std.specs.Prelude.{◌≡◌, ◌++◌, ◌∷◌, [], OnOk, OnErr};

use alt_base::NoMemory;
use std::alloc::Global;
use std::marker::Model;

/// A list of files, by their numbers. A contract sees the list of numbers.
#[derive(Debug, Drop)]
pub struct FileList {
    items: Vec<u32>,
}

impl Model for FileList {
    ghost use Rattle.std.specs.Prelude.{ℕ, List};
    ghost use Rattle.std.specs.Coded.{coded_ℕ, coded_list};

    ghost Value = { List ℕ };

    ghost coded = { coded_list coded_ℕ };

    ghost view = { λ a. a.items.items };
}

impl FileList {
    /// A list without files.
    pub fn new(alloc: Global) -> FileList
        ensures { result ≡ [] }
    {
        FileList {
            items: Vec::new(alloc),
        }
    }

    /// Puts one more file at the end. Where memory is wanting, the list is as it was.
    pub fn push(&mut self, file: u32) -> Result<(), NoMemory>
        ensures ok { OnOk result (self.new ≡ self.old ++ file ∷ []) }
        ensures err { OnErr result (self.new ≡ self.old) }
    {
        self.items.push(file)?;
        Ok(())
    }

    /// The numbers, in order.
    pub fn as_slice(&self) -> &[u32]
        ensures { result.now ≡ self.now }
    {
        self.items.as_slice()
    }
}

/// A family with its row files: `flushed` is the greatest number of a write that they hold, 0 where they hold none.
#[derive(Debug, Drop)]
pub struct FamilyVersion {
    pub family: u32,
    pub flushed: u64,
    pub files: FileList,
}

/// A list of families. A contract sees the list.
#[derive(Debug, Drop)]
pub struct FamilyList {
    items: Vec<FamilyVersion>,
}

impl Model for FamilyList {
    ghost use Rattle.std.specs.Prelude.{List};
    ghost use Rattle.alt_manifest.specs.declared.version.FamilyVersion.{FamilyVersion};

    ghost Value = { List FamilyVersion };

    ghost view = { λ a. a.items.items };
}

impl FamilyList {
    /// A list without families.
    pub fn new(alloc: Global) -> FamilyList
        ensures { result ≡ [] }
    {
        FamilyList {
            items: Vec::new(alloc),
        }
    }

    /// Puts one more family at the end. Where memory is wanting, the list is as it was.
    pub fn push(&mut self, family: FamilyVersion) -> Result<(), NoMemory>
        ensures ok { OnOk result (self.new ≡ self.old ++ family ∷ []) }
        ensures err { OnErr result (self.new ≡ self.old) }
    {
        self.items.push(family)?;
        Ok(())
    }

    /// The families, in order.
    pub fn as_slice(&self) -> &[FamilyVersion]
        ensures { result.now ≡ self.now }
    {
        self.items.as_slice()
    }
}

/// A version of a store: the number of the next file and of the next write, the segments of the log, and the families with row files.
#[derive(Debug, Drop)]
pub struct Version {
    pub next_file: u32,
    pub next_number: u64,
    pub segments: FileList,
    pub families: FamilyList,
}
