//! What is known of the fronts of streams, so that a write reads nothing of a stream from which it takes nothing.

ghost use Rattle.std.specs.Prelude.{◌≡◌, Some, true, OnOk, option_map};
ghost use Rattle.alt_rowchanges.specs.Fronts.{KnowsFront, front_at, without_front};
ghost use Rattle.alt_rowchanges.specs.declared.fronts.Front as front;

use alt_base::NoMemory;
use alt_value::Text;
use std::alloc::Global;

/// The front of a table's stream: the moment of the oldest change that it keeps, where it keeps any, and a number below which no row is
/// left over.
#[derive(Drop)]
pub struct Front {
    pub table: Text,
    pub oldest: Option<u64>,
    pub from: u64,
}

/// What is known of a table.
pub fn front_of<'k>(known: &'k [Front], table: &str) -> Option<&'k Front>
    ensures { option_map (λ e. e.now) result ≡ front_at table.now known.now }
{
    known.iter().find(|front| front.table.as_str() == table)
}

/// Makes known of a table that this is its front.
pub fn know_front(
    alloc: Global,
    known: &mut Vec<Front>,
    table: &str,
    oldest: Option<u64>,
    from: u64,
) -> Result<(), NoMemory>
    ensures { OnOk result (KnowsFront table.now oldest from known.old.items known.new.items) }
{
    if is_known(known.as_slice(), table, oldest, from) {
        return Ok(());
    }
    forget_front(known, table);
    let table = Text::new(alloc, table)?;
    known.insert(
        0,
        Front {
            table,
            oldest,
            from,
        },
    )?;
    Ok(())
}

/// Whether this is known of a table already.
fn is_known(known: &[Front], table: &str, oldest: Option<u64>, from: u64) -> bool
    ensures { result ≡ true → (f : front.Front) → front_at table.now known.now ≡ Some f
        → (f.oldest ≡ oldest) × (f.from ≡ from) }
{
    match front_of(known, table) {
        Some(front) => front.oldest == oldest && front.from == from,
        None => false,
    }
}

/// Takes a table out.
pub fn forget_front(known: &mut Vec<Front>, table: &str)
    ensures { known.new.items ≡ without_front table.now known.old.items }
{
    known.retain(|front| front.table.as_str() != table);
}
