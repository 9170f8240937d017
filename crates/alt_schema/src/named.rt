//! Definitions by name, in the order of their names, so that many of them cost no more than a sort.

ghost use Rattle.std.specs.Prelude.{◌≡◌, ◌++◌, ◌∷◌, [], None, Some, is_some, false, not, if◌then◌else◌, IfOk, IfSome, ℕ, List};
ghost use Rattle.std.specs.Str.{bytes_eq};
ghost use Rattle.alt_schema.specs.Described.{key_attr};
ghost use Rattle.alt_schema.specs.Named.{kind_at, AreOf};
ghost use Rattle.alt_schema.specs.Rules.{is_defined, all_differ};

use alt_base::NoMemory;
use alt_description::{KeyAttr, KeyAttrList};
use alt_value::{KeyKind, Text};
use std::alloc::Global;
use std::collections::BTreeMap;
use std::marker::Model;

/// Names with the kinds that they are defined with.
#[derive(Drop)]
pub struct Kinds<'n> {
    by_name: BTreeMap<&'n str, KeyKind>,
}

impl<'n> Kinds<'n> {
    /// No names.
    pub fn new(alloc: Global) -> Kinds<'n>
        ensures empty { (name : List ℕ) → kind_at result name ≡ None }
    {
        Kinds {
            by_name: BTreeMap::new(alloc),
        }
    }

    /// Gives a name its kind. True exactly where it had none.
    pub fn add(&mut self, name: &'n str, kind: KeyKind) -> Result<bool, NoMemory>
        ensures fresh { IfOk result (λ fresh. fresh ≡ not (is_some (kind_at self.old name.now))) }
        ensures added { IfOk result (λ fresh. (other : List ℕ) → kind_at self.new other
            ≡ (if bytes_eq name.now other then Some kind else kind_at self.old other)) }
    {
        let old = self.by_name.insert(name, kind)?;
        Ok(old.is_none())
    }

    /// The kind of a name; None exactly where it has none.
    pub fn kind_of(&self, name: &str) -> Option<KeyKind>
        ensures kind { result ≡ kind_at self.now name.now }
    {
        self.by_name.get(name).copied()
    }
}

/// The kinds of a list's definitions; None exactly where two of them have one name.
pub fn kinds_of<'n>(
    alloc: Global,
    definitions: &'n [KeyAttr],
) -> Result<Option<Kinds<'n>>, NoMemory>
    ensures differ { IfOk result (λ kinds. is_some kinds
        ≡ all_differ (λ d. d.name) definitions.now) }
    ensures kinds { IfOk result (λ kinds. IfSome kinds (λ k. AreOf k definitions.now)) }
{
    let mut kinds = Kinds::new(alloc);
    for definition in definitions {
        if !kinds.add(definition.name.as_str(), definition.kind)? {
            return Ok(None);
        }
    }
    Ok(Some(kinds))
}

/// Definitions in the order in which they were given, and by name.
#[derive(Drop)]
pub struct Definitions<'n> {
    list: KeyAttrList,
    kinds: Kinds<'n>,
}

impl<'n> Model for Definitions<'n> {
    ghost use Rattle.std.specs.Prelude.{List};
    ghost use Rattle.alt_description.specs.declared.schema.KeyAttr.{KeyAttr};
    ghost use Rattle.alt_schema.specs.Named.{AreOf};

    ghost Value = { List KeyAttr };

    ghost view = { λ d. d.list };

    ghost invariant = { λ d. AreOf d.kinds d.list };
}

impl<'n> Definitions<'n> {
    /// No definitions.
    pub fn new(alloc: Global) -> Definitions<'n>
        ensures empty { result ≡ [] }
    {
        Definitions {
            list: KeyAttrList::new(alloc),
            kinds: Kinds::new(alloc),
        }
    }

    /// These and one more, whose name none of them has.
    pub fn with(
        self,
        alloc: Global,
        name: &'n str,
        kind: KeyKind,
    ) -> Result<Definitions<'n>, NoMemory>
        requires new { is_defined self name.now ≡ false }
        ensures more { IfOk result (λ ds. ds ≡ self.entry ++ record { name = name.now; kind = kind }
            ∷ []) }
    {
        let Definitions { list, kinds } = self;
        let mut list = list;
        let mut kinds = kinds;
        let text = Text::new(alloc, name)?;
        list.push(KeyAttr { name: text, kind })?;
        kinds.add(name, kind)?;
        Ok(Definitions { list, kinds })
    }

    /// Whether one of them has that name.
    pub fn define(&self, name: &str) -> bool
        ensures defined { result ≡ is_defined self.now name.now }
    {
        self.kinds.kind_of(name).is_some()
    }

    /// The key attribute of that name, with the kind that the name is defined with.
    pub fn key_attr(&self, alloc: Global, name: &str) -> Result<KeyAttr, NoMemory>
        ensures key { IfOk result (λ k. k ≡ key_attr self.now name.now) }
    {
        let name_copy = Text::new(alloc, name)?;
        let kind = match self.kinds.kind_of(name) {
            Some(kind) => kind,
            None => KeyKind::S,
        };
        Ok(KeyAttr {
            name: name_copy,
            kind,
        })
    }

    /// The definitions in the order in which they were given.
    pub fn into_list(self) -> KeyAttrList
        ensures same { result ≡ self.entry }
    {
        let Definitions { list, kinds: _ } = self;
        list
    }
}
