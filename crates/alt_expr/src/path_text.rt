//! Paths, read from tokens.

ghost use Rattle.alt_expr.specs.NamesGiven.{given_names};
ghost use Rattle.alt_expr.specs.Reader as spec;
ghost use Rattle.alt_expr.specs.Reader.{left, ReadsExpression};

use crate::cursor::Cursor;
use crate::fault::ExprFault;
use crate::items::Items;
use crate::names::Names;
use crate::path::{Path, PathPart};
use crate::token::Mark;
use std::alloc::Global;

/// A path, with the names that its words stand for.
#[tactic(auto, unfolding(crate::specs::Reader::path))]
pub fn read_path(alloc: Global, names: &Names, tokens: &mut Cursor<'_>) -> Result<Path, ExprFault>
    ensures { ReadsExpression (spec.path (given_names names.now) (left tokens.old)) result (left tokens.new) }
{
    let turns = tokens.len();
    let mut found = Items::new(alloc);
    found.push(PathPart::Name(tokens.name(alloc, names)?))?;
    for _turn in 0..turns {
        match part(alloc, names, tokens)? {
            Some(next) => found.push(next)?,
            None => return Ok(found),
        }
    }
    Err(ExprFault::Syntax)
}

/// A path and the bracket behind it.
#[tactic(auto, unfolding(crate::specs::Reader::in_brackets))]
pub fn read_path_in_brackets(
    alloc: Global,
    names: &Names,
    tokens: &mut Cursor<'_>,
) -> Result<Path, ExprFault>
    ensures { ReadsExpression (spec.in_brackets (spec.path (given_names names.now)) (left tokens.old)) result
        (left tokens.new) }
{
    let path = read_path(alloc, names, tokens)?;
    tokens.expect(Mark::RightRound)?;
    Ok(path)
}

/// A further part of a path, if one comes next.
#[tactic(auto, unfolding(crate::specs::Reader::part))]
fn part(
    alloc: Global,
    names: &Names,
    tokens: &mut Cursor<'_>,
) -> Result<Option<PathPart>, ExprFault>
    ensures { ReadsExpression (spec.part (given_names names.now) (left tokens.old)) result (left tokens.new) }
{
    if tokens.eat(Mark::Dot) {
        return Ok(Some(PathPart::Name(tokens.name(alloc, names)?)));
    }
    if tokens.eat(Mark::LeftSquare) {
        return Ok(Some(index(tokens)?));
    }
    Ok(None)
}

#[tactic(auto, unfolding(crate::specs::Reader::index_part))]
fn index(tokens: &mut Cursor<'_>) -> Result<PathPart, ExprFault>
    ensures { ReadsExpression (spec.index_part (left tokens.old)) result (left tokens.new) }
{
    let number = tokens.number()?;
    tokens.expect(Mark::RightSquare)?;
    Ok(PathPart::Index(number))
}
