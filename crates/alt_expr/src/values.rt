//! The values that a request gives for the `:` words of its expressions.

ghost use Rattle.std.specs.Prelude.{◌≡◌, [], map, option_map, IfOk, OnOk};
ghost use Rattle.alt_value.specs.Stands.{tree_of};
ghost use Rattle.alt_value.specs.Item.{at_name};
ghost use Rattle.alt_expr.specs.Tokens.{tok_of};
ghost use Rattle.alt_expr.specs.Given.{value_of, attr_of, with_colons, has_unused};

use crate::shared::Shared;
use crate::token::Token;
use crate::word_values::WordValues;
use alt_base::NoMemory;
use alt_value::{Attr, Item, TextSet};
use std::alloc::Global;

/// Given values by word, and the words of the texts that were parsed with them. A word that doesn't begin with `:` may be given;
/// no text has it. Each value is there once, however many trees have it.
#[derive(Drop)]
pub struct Values {
    given: WordValues<Attr>,
    used: TextSet,
}

impl Values {
    ghost use Rattle.alt_expr.specs.NamesGiven.{given_values, used_values};

    /// The values of an item, none of them used.
    pub fn of_item(alloc: Global, i: Item) -> Result<Values, NoMemory>
        ensures given { IfOk result (λ v. given_values v ≡ i) }
        ensures unused { IfOk result (λ v. used_values v ≡ []) }
    {
        Ok(Values {
            given: WordValues::of_item(alloc, &i)?,
            used: TextSet::new(alloc),
        })
    }

    /// Whether a given word stands in none of the texts that were parsed.
    pub fn unused(&self) -> bool
        ensures unused { result ≡ has_unused (given_values self.now) (used_values self.now) }
    {
        self.given.has_unused(&self.used)
    }

    /// The value that a word stands for.
    pub fn value(&self, word: &str) -> Option<&Attr>
        ensures value { option_map (λ a. tree_of a.now) result
            ≡ at_name word.now (given_values self.now) }
    {
        match self.given.get(word) {
            Some(value) => Some(value.get()),
            None => None,
        }
    }

    /// The value that a word stands for, without a copy; NULL where it isn't given.
    pub fn shared(&self, word: &str) -> Result<Shared<Attr>, NoMemory>
        ensures value { IfOk result (λ a. a ≡ value_of (given_values self.now) word.now) }
    {
        match self.given.get(word) {
            Some(value) => shared(value),
            None => Shared::new(self.given.alloc(), Attr::Null),
        }
    }

    /// Notes the words of a text that was parsed. Where memory is wanting, some of them may be noted.
    pub fn use_words(&mut self, tokens: &[Token<'_>]) -> Result<(), NoMemory>
        ensures used { OnOk result (used_values self.new
            ≡ with_colons (map tok_of tokens.now) (used_values self.old)) }
        ensures given { given_values self.new ≡ given_values self.old }
    {
        for token in tokens {
            if let Token::ColonWord(word) = token {
                self.used.add(word)?;
            }
        }
        Ok(())
    }
}

fn shared(value: &Shared<Attr>) -> Result<Shared<Attr>, NoMemory>
    ensures { IfOk result (λ a. a ≡ attr_of (tree_of value.now)) }
{
    value.share()
}
