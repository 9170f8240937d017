//! The families of a table.

ghost use Rattle.std.specs.Prelude.{◌≡◌, ◌==◌, ◌++◌, IfOk, OnOk, map as each};
ghost use Rattle.std.specs.List.{list_any};
ghost use Rattle.alt_machine.specs.State.{families_of};

use alt_base::NoMemory;
use alt_schema::{IndexSchema, TableSchema};
use std::alloc::Global;

/// The families of a table.
pub fn families_of(alloc: Global, schema: &TableSchema) -> Result<Vec<u32>, NoMemory>
    ensures { IfOk result (λ families. families.items ≡ families_of schema.now) }
{
    let mut families = Vec::new(alloc);
    families.push(schema.family)?;
    push_families(&mut families, schema.locals.as_slice())?;
    push_families(&mut families, schema.globals.as_slice())?;
    if let Some(family) = schema.stream_family {
        families.push(family)?;
    }
    Ok(families)
}

fn push_families(families: &mut Vec<u32>, indexes: &[IndexSchema]) -> Result<(), NoMemory>
    ensures { OnOk result (families.new.items
        ≡ families.old.items ++ each (λ i. i.family) indexes.now) }
{
    for index in indexes {
        families.push(index.family)?;
    }
    Ok(())
}

/// Whether a family is one of these.
pub fn has_family(families: &[u32], family: u32) -> bool
    ensures { result ≡ list_any (λ f. f == family) families.now }
{
    families.iter().any(|f| *f == family)
}
