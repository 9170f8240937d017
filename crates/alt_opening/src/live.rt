//! The families that are live while a store is open: all others may be dropped by the engine.

ghost use Rattle.std.specs.Prelude.{◌≡◌, ◌++◌, ◌∷◌, [], IfOk, OnOk};
ghost use Rattle.alt_engine.specs.HandWorking.{AreLive};
ghost use Rattle.alt_machine.specs.State.{families_of};
ghost use Rattle.alt_opening.specs.Live.{with_all, with_first, with_one, without_all};
ghost use Rattle.alt_opening.specs.StateRows.{catalog_family};

use alt_base::NoMemory;
use alt_schema::TableSchema;
use alt_tablerows::{CATALOG, families_of, has_family};
use std::alloc::Global;
use std::marker::Model;

/// Numbers of families in their order, that of the catalog among them.
#[derive(Drop)]
pub struct Live {
    families: Vec<u32>,
}

impl Model for Live {
    ghost use Rattle.std.specs.Prelude.{ℕ, List};
    ghost use Rattle.std.specs.Coded.{coded_ℕ, coded_list};
    ghost use Rattle.alt_engine.specs.HandWorking.{AreLive};

    ghost Value = { List ℕ };

    ghost coded = { coded_list coded_ℕ };

    ghost view = { λ a. a.families.items };

    ghost invariant = { λ a. AreLive a.families.items };
}

impl Live {
    /// That of the catalog alone.
    pub fn new(alloc: Global) -> Result<Live, NoMemory>
        ensures { IfOk result (λ live. live ≡ catalog_family ∷ []) }
    {
        let mut families = Vec::new(alloc);
        families.push(CATALOG)?;
        Ok(Live { families })
    }

    /// With the families of a table.
    pub fn with_table(&self, alloc: Global, schema: &TableSchema) -> Result<Live, NoMemory>
        ensures { IfOk result (λ live. live ≡ with_all (families_of schema.now) self.now) }
    {
        let own = families_of(alloc, schema)?;
        let families = with_all(alloc, self.families.as_slice(), own.as_slice())?;
        Ok(Live { families })
    }

    /// Without the families of a table.
    pub fn without_table(&self, alloc: Global, schema: &TableSchema) -> Result<Live, NoMemory>
        ensures { IfOk result (λ live. live ≡ without_all (families_of schema.now) self.now) }
    {
        let own = families_of(alloc, schema)?;
        let families = without_all(alloc, self.families.as_slice(), own.as_slice())?;
        Ok(Live { families })
    }

    /// The families, in their order.
    pub fn as_slice(&self) -> &[u32]
        ensures same { result.now ≡ self.now }
        ensures live { AreLive result.now }
    {
        self.families.as_slice()
    }
}

/// With each of several.
fn with_all(alloc: Global, live: &[u32], families: &[u32]) -> Result<Vec<u32>, NoMemory>
    ensures { IfOk result (λ all. all.items ≡ with_all families.now live.now) }
{
    let mut all = Vec::from_slice(alloc, live)?;
    for i in 0..families.len() {
        all = with_one(alloc, all.as_slice(), families[i])?;
    }
    Ok(all)
}

/// With one more at its place.
fn with_one(alloc: Global, live: &[u32], family: u32) -> Result<Vec<u32>, NoMemory>
    ensures { IfOk result (λ all. all.items ≡ with_one family live.now) }
{
    let mut out = Vec::new(alloc);
    for i in 0..live.len() {
        if family <= live[i] {
            put_first(&mut out, family, &live[i..])?;
            return Ok(out);
        }
        out.push(live[i])?;
    }
    out.push(family)?;
    Ok(out)
}

/// Puts a family, unless it is the first of the others, and then those.
fn put_first(out: &mut Vec<u32>, family: u32, rest: &[u32]) -> Result<(), NoMemory>
    ensures { OnOk result (out.new.items ≡ out.old.items ++ with_first family rest.now) }
{
    if rest.is_empty() || rest[0] != family {
        out.push(family)?;
    }
    out.extend_from_slice(rest)?;
    Ok(())
}

/// Without any of several.
fn without_all(alloc: Global, live: &[u32], families: &[u32]) -> Result<Vec<u32>, NoMemory>
    ensures { IfOk result (λ rest. rest.items ≡ without_all families.now live.now) }
{
    let mut out = Vec::new(alloc);
    for i in 0..live.len() {
        if live[i] == CATALOG || !has_family(families, live[i]) {
            out.push(live[i])?;
        }
    }
    Ok(out)
}
