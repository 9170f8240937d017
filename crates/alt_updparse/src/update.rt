//! Clauses, read from tokens.

ghost use Rattle.std.specs.Prelude.{◌≡◌};
ghost use Rattle.alt_expr.specs.Reader.{left, ReadsExpression};
ghost use Rattle.alt_expr.specs.Lookups.{given_by_lookups};
ghost use Rattle.alt_expr.specs.UpdateReader as spec;

use crate::action::action;
use alt_expr::{Cursor, ExprFault, Items, Keyword, Lookups, Mark, Token, Update};

/// All actions of one or more clauses, up to the last token.
pub(crate) fn update(given: &Lookups<'_>, tokens: &mut Cursor<'_>) -> Result<Update, ExprFault>
    ensures { ReadsExpression (spec.update (given_by_lookups given.now) (left tokens.old)) result (left tokens.new) }
{
    let turns = tokens.len();
    let mut found = clause(given, tokens, Items::new(given.alloc))?;
    for _turn in 0..turns {
        if is_done(tokens) {
            return Ok(found);
        }
        found = clause(given, tokens, found)?;
    }
    Err(ExprFault::Syntax)
}

#[tactic(auto, unfolding(alt_expr::specs::UpdateReader::is_done))]
fn is_done(tokens: &Cursor<'_>) -> bool
    ensures { result ≡ spec.is_done (left tokens.now) }
{
    tokens.len() == 0
}

/// The actions found, and behind them those of a clause.
#[tactic(auto, unfolding(alt_expr::specs::UpdateReader::clause))]
fn clause(given: &Lookups<'_>, tokens: &mut Cursor<'_>, found: Update) -> Result<Update, ExprFault>
    ensures { ReadsExpression (spec.clause (given_by_lookups given.now) found (left tokens.old)) result
        (left tokens.new) }
{
    match tokens.peek() {
        Some(Token::Keyword(keyword)) => {
            tokens.skip(1);
            actions(keyword, given, tokens, found)
        }
        _ => Err(ExprFault::Syntax),
    }
}

/// The actions found, and behind them one or more with commas between.
fn actions(
    clause: Keyword,
    given: &Lookups<'_>,
    tokens: &mut Cursor<'_>,
    found: Update,
) -> Result<Update, ExprFault>
    ensures { ReadsExpression
        (spec.listed_behind (spec.action (given_by_lookups given.now) clause) found (left tokens.old))
        result (left tokens.new) }
{
    let turns = tokens.len();
    let mut found = found;
    found.push(action(clause, given, tokens)?)?;
    for _turn in 0..turns {
        if !tokens.eat(Mark::Comma) {
            return Ok(found);
        }
        found.push(action(clause, given, tokens)?)?;
    }
    Err(ExprFault::Syntax)
}
