//! The descriptions of the tables by their names. There are 256 at most, so they stand in one sorted list.

ghost use Rattle.std.specs.Prelude.{◌≡◌, ◌<◌, ◌≤◌, ◌==◌, ◌||◌, ◌↔◌, ◌∷◌, [], ℕ, List, T, true, false, None, Some, OnOk, OnErr, IfOk, IfErr, IfSome, option_map, length, map as each, slice_get, slice_index_or, slice_set, vec_len};
ghost use Rattle.std.specs.FinMap as map;
ghost use Rattle.std.specs.FinMap.Entries.{is_sorted};
ghost use Rattle.std.specs.List.{HoldsAt, list_any, remove};
ghost use Rattle.std.specs.List.Sorted.{IsPartitionPoint};
ghost use Rattle.std.specs.declared.cmp.Ordering.TheVariants.{Less, Greater};
ghost use Rattle.alt_machine.specs.Ops.ListTables.{names_after};
ghost use Rattle.std.specs.Option.{option_map_or};
ghost use Rattle.alt_schema.specs.declared.schema.TableSchema.{TableSchema};
ghost use Rattle.alt_tablerows.specs.Families.{HasOwnFamilies};
ghost use Rattle.alt_opening.specs.Live.{AreLiveIn, with_tables};
ghost use Rattle.alt_opening.specs.private.Opening.{IsLeastAbove, IsNextTable, shares};
ghost use Rattle.alt_opening.specs.Order.{first_after};
ghost use Rattle.alt_opening.specs.StateRows.{catalog_family};
ghost use Rattle.alt_value.specs.Members.{text_order};

use crate::live::Live;
use alt_base::NoMemory;
use alt_schema::{IndexSchema, TableSchema};
use alt_tablerows::has_family;
use alt_value::Text;
use std::alloc::Global;
use std::cmp::Ordering;
use std::marker::Model;

/// Descriptions in the order of their tables' names, seen as a finite map.
#[derive(Drop)]
pub struct Catalog {
    entries: Vec<TableSchema>,
}

impl Model for Catalog {
    ghost use Rattle.std.specs.Prelude.{T, map, All};
    ghost use Rattle.std.specs.FinMap.{from_sorted};
    ghost use Rattle.std.specs.FinMap.Entries.{is_sorted};
    ghost use Rattle.alt_value.specs.Members.{text_order};
    ghost use Rattle.alt_machine.specs.State.{Texts};
    ghost use Rattle.alt_schema.specs.declared.schema.TableSchema.{TableSchema};
    ghost use Rattle.alt_opening.specs.Codes.{coded_catalog};
    ghost use Rattle.alt_tablerows.specs.Families.{HasOwnFamilies};

    ghost Value = { Texts TableSchema };

    ghost coded = { coded_catalog };

    ghost view = { λ a. from_sorted (map (λ d. (d.name, d)) a.entries.items) };

    ghost invariant = { λ a. T (is_sorted text_order (map (λ d. (d.name, d)) a.entries.items))
        × All HasOwnFamilies a.entries.items };
}

impl Catalog {
    pub fn new(alloc: Global) -> Catalog
        ensures empty { result ≡ map.empty }
    {
        Catalog {
            entries: Vec::new(alloc),
        }
    }

    pub fn len(&self) -> usize
        ensures count { result ≡ map.len self.now }
    {
        self.entries.len()
    }

    /// The description of the table of that name, None exactly where there is none. Its families differ.
    pub fn get(&self, name: &str) -> Option<&TableSchema>
        ensures table { option_map (λ d. d.now) result ≡ map.get self.now name.now }
        ensures families { IfSome result (λ d. HasOwnFamilies d.now) }
    {
        match seek(&self.entries, name) {
            Ok(i) => Some(&self.entries[i]),
            Err(_) => None,
        }
    }

    /// That of the first table whose name comes after that one, None exactly where none does. It stands under its own name.
    pub fn after(&self, name: &str) -> Option<&TableSchema>
        ensures table { option_map (λ d. d.now) result ≡ first_after name.now self.now }
        ensures name { option_map (λ d. d.now.name) result
            ≡ slice_get (names_after name.now self.now) 0 }
    {
        match seek(&self.entries, name) {
            Ok(i) => self.entries.get(i + 1),
            Err(i) => self.entries.get(i),
        }
    }

    /// Puts a description, whose families differ, where no table has its name.
    pub fn add(&mut self, schema: TableSchema) -> Result<(), NoMemory>
        requires absent { map.get self.old schema.name ≡ None }
        requires families { HasOwnFamilies schema }
        ensures ok { OnOk result (self.new ≡ map.insert self.old schema.name schema) }
        ensures err { OnErr result (self.new ≡ self.old) }
    {
        match seek(&self.entries, schema.name.as_str()) {
            Ok(_) => unreachable!(),
            Err(i) => {
                self.entries.insert(i, schema)?;
                Ok(())
            }
        }
    }

    /// Takes the description of that name out.
    pub fn remove(&mut self, name: &str)
        ensures rest { self.new ≡ map.remove self.old name.now }
    {
        match seek(&self.entries, name) {
            Ok(i) => take_out(&mut self.entries, i),
            Err(_) => {}
        }
    }
}

impl Catalog {
    /// Gives the table of that name, where there is one, that attribute for time to live, or none.
    pub fn set_ttl(&mut self, name: &str, ttl: Option<Text>)
        ensures timed { self.new ≡ option_map_or
            (λ d. map.insert self.old name.now (record d { ttl = ttl }))
            (map.get self.old name.now) self.old }
    {
        match seek(&self.entries, name) {
            Ok(i) => give_time(&mut self.entries, i, ttl),
            Err(_) => {}
        }
    }

    /// Puts a description, whose families differ, in the place of the one of its name.
    pub fn replace(&mut self, schema: TableSchema)
        requires there { map.contains_key self.old schema.name ≡ true }
        requires families { HasOwnFamilies schema }
        ensures replaced { self.new ≡ map.insert self.old schema.name schema }
    {
        match seek(&self.entries, schema.name.as_str()) {
            Ok(i) => put_at(&mut self.entries, i, schema),
            Err(_) => unreachable!(),
        }
    }

    /// The families of the catalog itself and of all tables.
    pub fn live(&self, alloc: Global) -> Result<Live, NoMemory>
        ensures live { IfOk result (λ live. AreLiveIn self.now live) }
    {
        live_among(alloc, self.entries.as_slice())
    }

    /// Whether a table has one of these families.
    pub(crate) fn clashes(&self, families: &[u32]) -> bool
        ensures { result ≡ false ↔ ((name : List ℕ) (d : TableSchema)
            → map.get self.now name ≡ Some d → shares families.now d ≡ false) }
    {
        any_clashes(self.entries.as_slice(), families)
    }

    /// The description of the least family above one, None where there is none.
    pub(crate) fn above(&self, family: u32) -> Option<&TableSchema>
        ensures above { IsNextTable self.now family (option_map (λ d. d.now) result) }
    {
        self.entries
            .get(least_above(self.entries.as_slice(), family))
    }
}

/// Takes the table at a place out.
fn take_out(entries: &mut Vec<TableSchema>, i: usize)
    requires { i < vec_len entries.old }
    ensures { entries.new.items ≡ remove entries.old.items i }
{
    entries.remove(i);
}

/// Gives the table at a place that attribute for time to live, or none.
fn give_time(entries: &mut Vec<TableSchema>, i: usize, ttl: Option<Text>)
    requires { i < vec_len entries.old }
    ensures { (d : TableSchema) → entries.new.items
        ≡ slice_set entries.old.items i
        (record (slice_index_or entries.old.items i d) { ttl = ttl }) }
{
    entries[i].ttl = ttl;
}

/// Puts a description at a place.
fn put_at(entries: &mut Vec<TableSchema>, i: usize, schema: TableSchema)
    requires { i < vec_len entries.old }
    ensures { entries.new.items ≡ slice_set entries.old.items i schema }
{
    entries[i] = schema;
}

/// Where the description of a name stands, or where it is to go.
fn seek(entries: &Vec<TableSchema>, name: &str) -> Result<usize, usize>
    requires { T (is_sorted text_order (each (λ d. (d.name, d)) entries.now.items)) }
    ensures within { IfOk result (λ i. i < length entries.now.items) }
    ensures named { IfOk result (HoldsAt (λ d. d.name ≡ name.now) entries.now.items) }
    ensures goes { IfErr result (λ i. i ≤ length entries.now.items) }
    ensures apart { IfErr result (IsPartitionPoint (λ d. text_order d.name name.now ≡ Less)
        (λ d. text_order d.name name.now ≡ Greater) entries.now.items) }
{
    let mut low = 0;
    let mut high = entries.len();
    while low < high {
        let middle = low + (high - low) / 2;
        match entries[middle].name.as_str().cmp(name) {
            Ordering::Less => low = middle + 1,
            Ordering::Equal => return Ok(middle),
            Ordering::Greater => high = middle,
        }
    }
    Err(low)
}

/// The families of the catalog itself and of these tables.
fn live_among(alloc: Global, entries: &[TableSchema]) -> Result<Live, NoMemory>
    ensures { IfOk result (λ live. live ≡ with_tables entries.now (catalog_family ∷ [])) }
{
    let mut live = Live::new(alloc)?;
    for i in 0..entries.len() {
        live = live.with_table(alloc, &entries[i])?;
    }
    Ok(live)
}

/// Whether one of these tables has one of these families.
fn any_clashes(entries: &[TableSchema], families: &[u32]) -> bool
    ensures { result ≡ list_any (λ d. shares families.now d) entries.now }
{
    entries.iter().any(|schema| shares(families, schema))
}

/// Whether a table has one of these families.
#[tactic(auto, using(crate::proofs::Sharing::shares_parts))]
fn shares(families: &[u32], schema: &TableSchema) -> bool
    ensures { result ≡ shares families.now schema.now }
{
    has_family(families, schema.family)
        || any_shared(families, schema.locals.as_slice())
        || any_shared(families, schema.globals.as_slice())
        || has_stream(families, schema.stream_family)
}

fn any_shared(families: &[u32], indexes: &[IndexSchema]) -> bool
    ensures { result ≡ list_any (λ i. list_any (λ g. g == i.family) families.now) indexes.now }
{
    indexes
        .iter()
        .any(|index| has_family(families, index.family))
}

fn has_stream(families: &[u32], stream: Option<u32>) -> bool
    ensures { result ≡ option_map_or (λ f. list_any (λ g. g == f) families.now) stream false }
{
    match stream {
        Some(family) => has_family(families, family),
        None => false,
    }
}

/// The place of the table with the least family above one, and the end where there is none.
fn least_above(entries: &[TableSchema], family: u32) -> usize
    ensures within { result ≤ length entries.now }
    ensures least { result < length entries.now → HoldsAt (IsLeastAbove entries.now family)
        entries.now result }
    ensures none { result ≡ length entries.now → (k : ℕ) (d : TableSchema)
        → k < length entries.now → (slice_index_or entries.now k d).family ≤ family }
{
    let mut best = entries.len();
    for (i, schema) in entries.iter().enumerate() {
        if family < schema.family
            && (best == entries.len() || schema.family < entries[best].family)
        {
            best = i;
        }
    }
    best
}
