//! The text of an update: its actions, or its first fault.

ghost use Rattle.std.specs.Prelude.{◌≡◌, true, map, IfOk, OnOk};
ghost use Rattle.alt_expr.specs.Tokens.{tok_of};
ghost use Rattle.alt_expr.specs.Faults.{Parsed, NotesHashes, NotesColons, KeepsNames};
ghost use Rattle.alt_expr.specs.Told.{IsOnly};
ghost use Rattle.alt_expr.specs.UpdateLanguage.{updates, begin_with_names};
ghost use Rattle.alt_expr.specs.Lookups.{given_by, given_by_lookups};
ghost use Rattle.alt_expr.specs.Given.{with_hashes, with_colons};
ghost use Rattle.alt_expr.specs.NamesGiven.{given_values, used_names, used_values};
ghost use Rattle.alt_expr.specs.Read.{ReadsWhole, ReadTokens};

use crate::crowded::is_crowded;
use crate::overlap::targets_overlap;
use crate::repeated::repeats_clause;
use crate::update::update;
use alt_base::NoMemory;
use alt_expr::{
    Cursor, ExprFault, Lookups, Names, Token, Update, Values, is_too_deep, is_undefined, tokens,
};
use std::alloc::Global;

/// How many bytes a text may have.
const MOST_BYTES: usize = 4096;

/// The actions of an update's text in text order, with the names and values that its words stand for; else its first fault. Its
/// words are then noted, and none are where it has a fault.
pub fn parse(
    alloc: Global,
    text: &str,
    names: &mut Names,
    values: &mut Values,
) -> Result<Update, ExprFault>
    ensures parsed { Parsed updates (given_by names.old values.old) text.now result }
    ensures only { IsOnly updates (given_by names.old values.old) text.now result }
    ensures begins { IfOk result (λ u. begin_with_names u ≡ true) }
    ensures names { NotesHashes text.now names.old names.new result }
    ensures values { NotesColons text.now values.old values.new result }
    ensures keeps_names { KeepsNames names.old names.new }
    ensures keeps_values { given_values values.new ≡ given_values values.old }
{
    if text.len() > MOST_BYTES {
        return Err(ExprFault::TooLong);
    }
    let Ok((found, whole)) = tokens(alloc, text) else {
        return Err(ExprFault::NoMemory);
    };
    match read(alloc, &found, whole, names, values) {
        Err(fault) => Err(fault),
        Ok(actions) => {
            if note(&found, names, values).is_err() {
                drop(actions);
                return Err(ExprFault::NoMemory);
            }
            Ok(actions)
        }
    }
}

/// Notes the words of a text that was parsed.
fn note(tokens: &[Token<'_>], names: &mut Names, values: &mut Values) -> Result<(), NoMemory>
    ensures names { OnOk result (used_names names.new
        ≡ with_hashes (map tok_of tokens.now) (used_names names.old)) }
    ensures values { OnOk result (used_values values.new
        ≡ with_colons (map tok_of tokens.now) (used_values values.old)) }
    ensures keeps_names { KeepsNames names.old names.new }
    ensures keeps_values { given_values values.new ≡ given_values values.old }
{
    names.use_words(tokens)?;
    values.use_words(tokens)
}

/// The actions that all tokens are, else their first fault.
fn read(
    alloc: Global,
    tokens: &[Token<'_>],
    whole: bool,
    names: &Names,
    values: &Values,
) -> Result<Update, ExprFault>
    ensures { ReadTokens updates (given_by names.now values.now)
        (map tok_of tokens.now) whole result }
{
    if is_too_deep(tokens) {
        return Err(ExprFault::TooDeep);
    }
    if !whole {
        return Err(ExprFault::Syntax);
    }
    let given = Lookups {
        alloc,
        names,
        values,
    };
    match read_whole(&given, tokens) {
        Err(fault) => Err(fault),
        Ok(actions) => {
            if is_undefined(tokens, names, values) {
                drop(actions);
                return Err(ExprFault::Undefined);
            }
            if is_crowded(actions.as_slice()) {
                drop(actions);
                return Err(ExprFault::TooMany);
            }
            if repeats_clause(tokens) {
                drop(actions);
                return Err(ExprFault::RepeatedClause);
            }
            let Ok(overlap) = targets_overlap(alloc, actions.as_slice()) else {
                drop(actions);
                return Err(ExprFault::NoMemory);
            };
            if overlap {
                drop(actions);
                return Err(ExprFault::Overlap);
            }
            Ok(actions)
        }
    }
}

/// The actions that the tokens are, whether their words are given or not.
fn read_whole(given: &Lookups<'_>, tokens: &[Token<'_>]) -> Result<Update, ExprFault>
    ensures { ReadsWhole updates (given_by_lookups given.now) (map tok_of tokens.now) result }
{
    let mut cursor = Cursor::new(tokens);
    update(given, &mut cursor)
}
