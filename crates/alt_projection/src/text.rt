//! The text of a projection: its paths, or its first fault.

ghost use Rattle.std.specs.Prelude.{◌≡◌, map};
ghost use Rattle.std.specs.List.{list_any};
ghost use Rattle.alt_expr.specs.Tokens.{tok_of};
ghost use Rattle.alt_expr.specs.Crowded.{is_long};
ghost use Rattle.alt_expr.specs.Given.{is_unknown};
ghost use Rattle.alt_expr.specs.Faults.{Parsed, NotesHashes, KeepsNames};
ghost use Rattle.alt_expr.specs.Told.{IsOnly};
ghost use Rattle.alt_expr.specs.Languages.{projections};
ghost use Rattle.alt_expr.specs.Lookups.{names_alone};
ghost use Rattle.alt_expr.specs.NamesGiven.{given_names};
ghost use Rattle.alt_expr.specs.Read.{ReadsWhole, ReadTokens};
ghost use Rattle.alt_expr.specs.Reader.{left, ReadsExpression, comma_separated, path};

use alt_expr::{
    Cursor, ExprFault, Items, Mark, Names, Path, Paths, Token, is_too_deep, read_path,
    some_overlap, tokens,
};
use std::alloc::Global;

/// How many bytes a text may have.
const MOST_BYTES: usize = 4096;

/// How many parts a path may have.
const MOST_PARTS: usize = 32;

/// The paths that a text is, with the names that its words stand for; else its first fault. Its words are then noted, and none are
/// where it has a fault.
pub fn parse(alloc: Global, text: &str, names: &mut Names) -> Result<Paths, ExprFault>
    ensures parsed { Parsed projections (names_alone (given_names names.old)) text.now result }
    ensures only { IsOnly projections (names_alone (given_names names.old)) text.now result }
    ensures names { NotesHashes text.now names.old names.new result }
    ensures keeps_names { KeepsNames names.old names.new }
{
    if text.len() > MOST_BYTES {
        return Err(ExprFault::TooLong);
    }
    let Ok((found, whole)) = tokens(alloc, text) else {
        return Err(ExprFault::NoMemory);
    };
    match read(alloc, &found, whole, names) {
        Err(fault) => Err(fault),
        Ok(paths) => {
            if names.use_words(&found).is_err() {
                drop(paths);
                return Err(ExprFault::NoMemory);
            }
            Ok(paths)
        }
    }
}

/// The paths that all tokens are, else their first fault.
fn read(alloc: Global, tokens: &[Token<'_>], whole: bool, names: &Names) -> Result<Paths, ExprFault>
    ensures { ReadTokens projections (names_alone (given_names names.now))
        (map tok_of tokens.now) whole result }
{
    if is_too_deep(tokens) {
        return Err(ExprFault::TooDeep);
    }
    if !whole {
        return Err(ExprFault::Syntax);
    }
    match read_whole(alloc, tokens, names) {
        Err(fault) => Err(fault),
        Ok(paths) => {
            if has_unknown(tokens, names) {
                drop(paths);
                return Err(ExprFault::Undefined);
            }
            if has_long(paths.as_slice()) {
                drop(paths);
                return Err(ExprFault::TooMany);
            }
            match some_overlap(alloc, paths.as_slice()) {
                Ok(false) => Ok(paths),
                Ok(true) => {
                    drop(paths);
                    Err(ExprFault::Overlap)
                }
                Err(_) => {
                    drop(paths);
                    Err(ExprFault::NoMemory)
                }
            }
        }
    }
}

/// The paths that the tokens are, whether their words are given or not.
fn read_whole(alloc: Global, tokens: &[Token<'_>], names: &Names) -> Result<Paths, ExprFault>
    ensures { ReadsWhole projections (names_alone (given_names names.now))
        (map tok_of tokens.now) result }
{
    let mut cursor = Cursor::new(tokens);
    match read_paths(alloc, names, &mut cursor) {
        Err(fault) => Err(fault),
        Ok(paths) => {
            if cursor.len() != 0 {
                drop(paths);
                return Err(ExprFault::Syntax);
            }
            Ok(paths)
        }
    }
}

/// One or more paths with commas between.
fn read_paths(alloc: Global, names: &Names, tokens: &mut Cursor<'_>) -> Result<Paths, ExprFault>
    ensures { ReadsExpression (comma_separated (path (given_names names.now)) (left tokens.old)) result
        (left tokens.new) }
{
    let turns = tokens.len();
    let mut found = Items::new(alloc);
    found.push(read_path(alloc, names, tokens)?)?;
    for _turn in 0..turns {
        if !tokens.eat(Mark::Comma) {
            return Ok(found);
        }
        found.push(read_path(alloc, names, tokens)?)?;
    }
    Err(ExprFault::Syntax)
}

/// Whether a `#` word isn't given. No value is, and a projection has no `:` word.
fn has_unknown(tokens: &[Token<'_>], names: &Names) -> bool
    ensures { result ≡ list_any (is_unknown (names_alone (given_names names.now)))
        (map tok_of tokens.now) }
{
    for token in tokens {
        if is_unknown(*token, names) {
            return true;
        }
    }
    false
}

fn is_unknown(token: Token<'_>, names: &Names) -> bool
    ensures { result ≡ is_unknown (names_alone (given_names names.now)) (tok_of token.entry) }
{
    match token {
        Token::HashWord(word) => !names.is_given(word),
        Token::ColonWord(_) => true,
        _ => false,
    }
}

fn has_long(paths: &[Path]) -> bool
    ensures { result ≡ list_any is_long paths.now }
{
    for path in paths {
        if path.len() > MOST_PARTS {
            return true;
        }
    }
    false
}
