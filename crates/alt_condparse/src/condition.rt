//! Conditions by precedence: NOT, then AND, then OR.

ghost use Rattle.alt_expr.specs.Reader.{left, ReadsExpression};
ghost use Rattle.alt_expr.specs.CondReader as spec;
ghost use Rattle.alt_expr.specs.Lookups.{given_by_lookups};

use crate::test::test;
use alt_expr::{Boxed, Cond, Cursor, ExprFault, Items, Keyword, Lookups, Mark};

/// A condition, in which NOT and brackets stand at most so deep in one another.
#[cycle(condition)]
pub(crate) fn any(
    given: &Lookups<'_>,
    tokens: &mut Cursor<'_>,
    depth: usize,
) -> Result<Cond, ExprFault>
    ensures { ReadsExpression (spec.any (spec.one (given_by_lookups given.now) depth) (left tokens.old)) result
        (left tokens.new) }
{
    let turns = tokens.len();
    let first = all(given, tokens, depth)?;
    if !tokens.eat_key(Keyword::Or) {
        return Ok(first);
    }
    let mut found = Items::new(given.alloc);
    found.push(first)?;
    for _turn in 0..turns {
        found.push(all(given, tokens, depth)?)?;
        if !tokens.eat_key(Keyword::Or) {
            return Ok(Cond::Any(found));
        }
    }
    Err(ExprFault::Syntax)
}

#[cycle(condition)]
fn all(given: &Lookups<'_>, tokens: &mut Cursor<'_>, depth: usize) -> Result<Cond, ExprFault>
    ensures { ReadsExpression (spec.all (spec.one (given_by_lookups given.now) depth) (left tokens.old)) result
        (left tokens.new) }
{
    let turns = tokens.len();
    let first = one(given, tokens, depth)?;
    if !tokens.eat_key(Keyword::And) {
        return Ok(first);
    }
    let mut found = Items::new(given.alloc);
    found.push(first)?;
    for _turn in 0..turns {
        found.push(one(given, tokens, depth)?)?;
        if !tokens.eat_key(Keyword::And) {
            return Ok(Cond::All(found));
        }
    }
    Err(ExprFault::Syntax)
}

#[cycle(condition)]
fn one(given: &Lookups<'_>, tokens: &mut Cursor<'_>, depth: usize) -> Result<Cond, ExprFault>
    ensures { ReadsExpression (spec.one (given_by_lookups given.now) depth (left tokens.old)) result
        (left tokens.new) }
{
    if depth == 0 {
        return Err(ExprFault::Syntax);
    }
    if !tokens.eat_key(Keyword::Not) {
        return prim(given, tokens, depth - 1);
    }
    let inner = one(given, tokens, depth - 1)?;
    Ok(Cond::Not(Boxed::new(given.alloc, inner)?))
}

#[cycle(condition)]
fn prim(given: &Lookups<'_>, tokens: &mut Cursor<'_>, depth: usize) -> Result<Cond, ExprFault>
    ensures { ReadsExpression
        (spec.prim (given_by_lookups given.now) (spec.one (given_by_lookups given.now) depth) (left tokens.old))
        result (left tokens.new) }
{
    if !tokens.eat(Mark::LeftRound) {
        return test(given, tokens);
    }
    let inner = any(given, tokens, depth)?;
    tokens.expect(Mark::RightRound)?;
    Ok(inner)
}
