//! Single actions, read from tokens.

ghost use Rattle.alt_expr.specs.Reader.{left, ReadsExpression};
ghost use Rattle.alt_expr.specs.Lookups.{given_by_lookups};
ghost use Rattle.alt_expr.specs.UpdateReader as spec;

use crate::term::sum;
use alt_expr::{Action, Cursor, ExprFault, Keyword, Lookups, Mark, Shared, Token, read_path};
use alt_value::Attr;

/// An action of the clause that has the keyword.
#[tactic(auto, unfolding(alt_expr::specs::UpdateReader::action))]
pub(crate) fn action(
    clause: Keyword,
    given: &Lookups<'_>,
    tokens: &mut Cursor<'_>,
) -> Result<Action, ExprFault>
    ensures { ReadsExpression (spec.action (given_by_lookups given.now) clause (left tokens.old)) result
        (left tokens.new) }
{
    match clause {
        Keyword::Set => set(given, tokens),
        Keyword::Remove => remove(given, tokens),
        Keyword::Add => add(given, tokens),
        Keyword::Delete => delete(given, tokens),
        _ => Err(ExprFault::Syntax),
    }
}

#[tactic(auto, unfolding(alt_expr::specs::UpdateReader::set))]
fn set(given: &Lookups<'_>, tokens: &mut Cursor<'_>) -> Result<Action, ExprFault>
    ensures { ReadsExpression (spec.set (given_by_lookups given.now) (left tokens.old)) result (left tokens.new) }
{
    let path = read_path(given.alloc, given.names, tokens)?;
    tokens.expect(Mark::Equal)?;
    Ok(Action::Set(path, sum(given, tokens)?))
}

#[tactic(auto, unfolding(alt_expr::specs::UpdateReader::remove))]
fn remove(given: &Lookups<'_>, tokens: &mut Cursor<'_>) -> Result<Action, ExprFault>
    ensures { ReadsExpression (spec.remove (given_by_lookups given.now) (left tokens.old)) result (left tokens.new) }
{
    Ok(Action::Remove(read_path(given.alloc, given.names, tokens)?))
}

#[tactic(auto, unfolding(alt_expr::specs::UpdateReader::add))]
fn add(given: &Lookups<'_>, tokens: &mut Cursor<'_>) -> Result<Action, ExprFault>
    ensures { ReadsExpression (spec.add (given_by_lookups given.now) (left tokens.old)) result (left tokens.new) }
{
    let name = tokens.name(given.alloc, given.names)?;
    Ok(Action::Add(name, value(given, tokens)?))
}

#[tactic(auto, unfolding(alt_expr::specs::UpdateReader::delete))]
fn delete(given: &Lookups<'_>, tokens: &mut Cursor<'_>) -> Result<Action, ExprFault>
    ensures { ReadsExpression (spec.delete (given_by_lookups given.now) (left tokens.old)) result (left tokens.new) }
{
    let name = tokens.name(given.alloc, given.names)?;
    Ok(Action::Delete(name, value(given, tokens)?))
}

/// The value of a `:` word.
#[tactic(auto, unfolding(alt_expr::specs::UpdateReader::value))]
fn value(given: &Lookups<'_>, tokens: &mut Cursor<'_>) -> Result<Shared<Attr>, ExprFault>
    ensures { ReadsExpression (spec.value (given_by_lookups given.now) (left tokens.old)) result (left tokens.new) }
{
    match tokens.peek() {
        Some(Token::ColonWord(word)) => {
            tokens.skip(1);
            Ok(given.values.shared(word)?)
        }
        _ => Err(ExprFault::Syntax),
    }
}
