//! What is known, while a store is open, of the changes that were trimmed: of which tables, and the number of the last of each.

ghost use Rattle.std.specs.Prelude.{◌≡◌, OnOk, option_map};
ghost use Rattle.std.specs.List.{find};
ghost use Rattle.std.specs.Str.{bytes_eq};
ghost use Rattle.alt_opening.specs.Trimmed.{IsRenumbered, number_at, with_number, without_table_number};

use alt_base::NoMemory;
use alt_value::Text;
use std::alloc::Global;

/// A table of whose changes some were trimmed, and the number of the last of them.
#[derive(Drop)]
pub struct Trimmed {
    pub table: Text,
    pub number: u64,
}

/// The number of the last change of a table that was trimmed, 0 where none was.
pub fn trimmed_number(known: &[Trimmed], table: &str) -> u64
    ensures { result ≡ number_at table.now known.now }
{
    match known_of(known, table) {
        Some(entry) => entry.number,
        None => 0,
    }
}

fn known_of<'k>(known: &'k [Trimmed], table: &str) -> Option<&'k Trimmed>
    ensures { option_map (λ e. e.now) result
        ≡ find (λ e. bytes_eq e.table table.now) known.now }
{
    known.iter().find(|entry| entry.table.as_str() == table)
}

/// Puts the number of a table in front, where it isn't 0.
pub(crate) fn know(
    alloc: Global,
    known: &mut Vec<Trimmed>,
    table: &str,
    number: u64,
) -> Result<(), NoMemory>
    ensures { OnOk result (known.new.items ≡ with_number table.now number known.old.items) }
{
    if number == 0 {
        return Ok(());
    }
    let table = Text::new(alloc, table)?;
    known.insert(0, Trimmed { table, number })?;
    Ok(())
}

/// Takes a table out.
pub fn forget(known: &mut Vec<Trimmed>, table: &str)
    ensures { known.new.items ≡ without_table_number table.now known.old.items }
{
    known.retain(|entry| entry.table.as_str() != table);
}

/// Makes known of a table that this is the number.
pub fn renumber(
    alloc: Global,
    known: &mut Vec<Trimmed>,
    table: &str,
    number: u64,
) -> Result<(), NoMemory>
    ensures { OnOk result (IsRenumbered table.now number known.old.items known.new.items) }
{
    if trimmed_number(known.as_slice(), table) == number {
        return Ok(());
    }
    forget(known, table);
    know(alloc, known, table, number)
}
