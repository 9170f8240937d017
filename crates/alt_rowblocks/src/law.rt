//! A row file is of one list of rows.

ghost use Rattle.std.specs.Prelude.{◌≡◌, ℕ, List};
ghost use Rattle.alt_rowblocks.specs.Format.{Entry, IsRowFile};

/// One file has one list of rows.
pub fn one_list_of_rows()
    ensures { (a b : List Entry) (bytes : List ℕ) → IsRowFile a bytes → IsRowFile b bytes → a ≡ b }
{}
