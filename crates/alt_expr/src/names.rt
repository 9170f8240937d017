//! The names that a request gives for the `#` words of its expressions.

ghost use Rattle.std.specs.Prelude.{◌≡◌, ◌||◌, ◌<◌, [], false, true, length, map, is_some, IfOk, OnOk, IfSome};
ghost use Rattle.std.specs.Option.{option_map_or};
ghost use Rattle.serde_json.specs.View.{view, members_view};
ghost use Rattle.alt_value.specs.Stands.{tree_of};
ghost use Rattle.alt_value.specs.Item.{at_name, with_pair};
ghost use Rattle.alt_expr.specs.Tokens.{tok_of};
ghost use Rattle.alt_expr.specs.Given.{name_of, with_hashes, has_unused, are_names, is_given_name};
ghost use Rattle.alt_expr.specs.NamesIn.{gives_names, names_in, name_in, gives_empty};

use crate::shared::Shared;
use crate::token::Token;
use crate::word_values::WordValues;
use alt_base::NoMemory;
use alt_value::{Attr, Item, Text, TextSet};
use serde_json::{Map, Value};
use std::alloc::Global;

/// Given names by word, and the words of the texts that were parsed with them. A word that doesn't begin with `#` may be given;
/// no text has it. Each name is there once, however many trees have it.
#[derive(Drop)]
pub struct Names {
    given: WordValues<Text>,
    used: TextSet,
    /// The empty word is given, which no item holds and no text has.
    empty: bool,
    ghost names: { are_names given ≡ true },
}

impl Names {
    ghost use Rattle.alt_expr.specs.NamesGiven.{given_names, used_names, is_empty_given};

    /// The names of a member ExpressionAttributeNames, none of them used.
    pub fn of_json(alloc: Global, v: Option<&Map<String, Value>>) -> Result<Names, NoMemory>
        requires { IfSome v (λ m. gives_names (members_view m.now.entries) ≡ true) }
        ensures given { IfOk result
            (λ n. given_names n ≡ option_map_or
            (λ m. names_in [] (members_view m.now.entries)) v.entry []) }
        ensures empty { IfOk result
            (λ n. is_empty_given n ≡ option_map_or
            (λ m. gives_empty (members_view m.now.entries)) v.entry false) }
        ensures unused { IfOk result (λ n. used_names n ≡ []) }
    {
        let mut given = Item::new(alloc);
        let mut empty = false;
        if let Some(members) = v {
            empty = put_names(alloc, &mut given, members)?;
        }
        Ok(Names {
            given: WordValues::of_item(alloc, &given)?,
            used: TextSet::new(alloc),
            empty,
        })
    }

    /// Whether a given word stands in none of the texts that were parsed.
    pub fn unused(&self) -> bool
        ensures unused { result
            ≡ (is_empty_given self.now || has_unused (given_names self.now) (used_names self.now)) }
    {
        self.empty || self.given.has_unused(&self.used)
    }

    /// Whether a word is given.
    pub fn is_given(&self, word: &str) -> bool
        ensures given { result ≡ is_some (at_name word.now (given_names self.now)) }
        // Each name that is given is a text that isn't empty.
        ensures names { are_names (given_names self.now) ≡ true }
    {
        self.given.get(word).is_some()
    }

    /// The name that a word stands for, without a copy; the word itself where it isn't given.
    pub fn shared(&self, word: &str) -> Result<Shared<Text>, NoMemory>
        ensures name { IfOk result (λ n. n ≡ name_of (given_names self.now) word.now) }
    {
        match self.given.get(word) {
            Some(name) => name.share(),
            None => {
                let alloc = self.given.alloc();
                Shared::new(alloc, Text::new(alloc, word)?)
            }
        }
    }

    /// Notes the words of a text that was parsed. Where memory is wanting, some of them may be noted.
    pub fn use_words(&mut self, tokens: &[Token<'_>]) -> Result<(), NoMemory>
        ensures used { OnOk result (used_names self.new
            ≡ with_hashes (map tok_of tokens.now) (used_names self.old)) }
        ensures given { given_names self.new ≡ given_names self.old }
        ensures empty { is_empty_given self.new ≡ is_empty_given self.old }
    {
        for token in tokens {
            if let Token::HashWord(word) = token {
                self.used.add(word)?;
            }
        }
        Ok(())
    }
}

/// Puts the names of the words that aren't empty, and tells whether the empty word is given.
fn put_names(
    alloc: Global,
    given: &mut Item,
    members: &Map<String, Value>,
) -> Result<bool, NoMemory>
    requires members { gives_names (members_view members.now.entries) ≡ true }
    requires names { are_names given.old ≡ true }
    ensures given { OnOk result
        (given.new ≡ names_in given.old (members_view members.now.entries)) }
    ensures empty { IfOk result (λ e. e ≡ gives_empty (members_view members.now.entries)) }
    ensures names { OnOk result (are_names given.new ≡ true) }
{
    let mut empty = false;
    for (word, name) in members {
        if word.is_empty() {
            empty = true;
        } else {
            put_name(alloc, given, word.as_str(), name)?;
        }
    }
    Ok(empty)
}

fn put_name(alloc: Global, given: &mut Item, word: &str, name: &Value) -> Result<(), NoMemory>
    requires word { 0 < length word.now }
    requires name { is_given_name (name_in (view name.now)) ≡ true }
    requires names { are_names given.old ≡ true }
    ensures ok { OnOk result (given.new ≡ with_pair word.now (name_in (view name.now)) given.old) }
    ensures names { OnOk result (are_names given.new ≡ true) }
{
    let value = value_of(alloc, name)?;
    given.put(word, value)
}

/// The value by which a name is kept.
fn value_of(alloc: Global, name: &Value) -> Result<Attr, NoMemory>
    ensures { IfOk result (λ a. tree_of a ≡ name_in (view name.now)) }
{
    let Some(text) = name.as_str() else {
        return Ok(Attr::Null);
    };
    Ok(Attr::S(Text::new(alloc, text)?))
}
