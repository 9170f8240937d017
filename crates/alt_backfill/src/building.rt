//! Build: the step in which the index of a table is built further, which a run makes by itself.

ghost use Rattle.std.specs.Prelude.{◌≡◌, ◌↔◌, [], None, IfOk, IfSome, IsErrOf, IsTrue, option_map};
ghost use Rattle.std.specs.FinMap as map;
ghost use Rattle.alt_backfill.specs.private.Asked.{IsBuilding, IsFirstBuilding};
ghost use Rattle.alt_base.specs.Counts.{Rose};
ghost use Rattle.alt_disk.specs.Disk.{Goes};
ghost use Rattle.alt_machine.specs.Building.{build};
ghost use Rattle.alt_machine.specs.Outcomes.{a_number};
ghost use Rattle.alt_machine.specs.State.{State};
ghost use Rattle.alt_request.specs.TablesFaults.{Writes};
ghost use Rattle.alt_request.specs.TablesImages.{Leaves};
ghost use Rattle.alt_request.specs.TablesStands.{AreReady, Stands, bounds_of, catalog_of};

use crate::asked::is_building;
use alt_disk::Disk;
use alt_machine::BUILT_AT_ONCE;
use alt_request::{TableFault, Tables};
use alt_schema::TableSchema;

/// Builds an index of the first table by name of which one is being built further: of the next 64 items, or of all that are left where
/// these are fewer. False exactly where none is being built.
pub fn build<D: Disk>(tables: &mut Tables, disk: &mut D) -> Result<bool, TableFault>
    requires ready { AreReady (D.state disk.old) tables.old }
    ensures builds { (s : State) → Stands (D.state disk.old) tables.old s
        → Writes (bounds_of tables.old).file (Stands (D.state disk.new) tables.new) a_number s
        (build s) result }
    ensures disk { (s : State) → Stands (D.state disk.old) tables.old s
        → Leaves (D.state disk.old) (D.state disk.new) s (build s) }
    ensures told { (s : State) → Stands (D.state disk.old) tables.old s
        → IfOk result (λ built. IsTrue built ↔ (build s ≡ [] → ⊥)) }
    ensures limits { bounds_of tables.new ≡ bounds_of tables.old }
    ensures goes { Goes (D.state disk.old) (D.state disk.new) }
    ensures cause { IsErrOf result TableFault.Failed
        → Rose (D.state disk.old).faults (D.state disk.new).faults }
{
    if !tables.may_build() {
        return Ok(false);
    }
    let Some(schema) = first_building(tables) else {
        // No table has the empty name, which the walk leaves out. On a disk that doesn't tell its contents one might.
        if tables.table("").is_some() {
            return Ok(false);
        }
        tables.note_none_builds();
        return Ok(false);
    };
    let name = schema.name.copy()?;
    tables.build_rows(disk, name.as_str(), BUILT_AT_ONCE)?;
    Ok(true)
}

/// The first table by name of which an index is being built, of those whose names aren't empty.
fn first_building(tables: &Tables) -> Option<&TableSchema>
    ensures first { map.get (catalog_of tables.now) [] ≡ None
        → IsFirstBuilding (catalog_of tables.now) (option_map (λ d. d.now) result) }
    ensures building { IfSome result (λ d. IsBuilding (catalog_of tables.now) d.now) }
{
    let mut last = "";
    while let Some(schema) = tables.table_after(last) {
        if is_building(schema) {
            return Some(schema);
        }
        last = schema.name.as_str();
    }
    None
}
