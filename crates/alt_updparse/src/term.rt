//! Terms and sums, read from tokens.

ghost use Rattle.alt_expr.specs.Reader.{left, ReadsExpression};
ghost use Rattle.alt_expr.specs.Lookups.{given_by_lookups};
ghost use Rattle.alt_expr.specs.UpdateReader as spec;

use alt_expr::{Boxed, Cursor, ExprFault, Lookups, Mark, Sum, Term, Token, read_path};

/// A term, or the sum or difference of two.
#[tactic(auto, unfolding(alt_expr::specs::UpdateReader::sum))]
pub(crate) fn sum(given: &Lookups<'_>, tokens: &mut Cursor<'_>) -> Result<Sum, ExprFault>
    ensures { ReadsExpression (spec.sum (given_by_lookups given.now) (left tokens.old)) result (left tokens.new) }
{
    let first = whole_term(given, tokens)?;
    if tokens.eat(Mark::Plus) {
        return Ok(Sum::Plus(first, whole_term(given, tokens)?));
    }
    if tokens.eat(Mark::Minus) {
        return Ok(Sum::Minus(first, whole_term(given, tokens)?));
    }
    Ok(Sum::One(first))
}

/// A term, whose functions stand no deeper in one another than there are tokens.
#[tactic(auto, unfolding(alt_expr::specs::UpdateReader::whole_term))]
fn whole_term(given: &Lookups<'_>, tokens: &mut Cursor<'_>) -> Result<Term, ExprFault>
    ensures { ReadsExpression (spec.whole_term (given_by_lookups given.now) (left tokens.old)) result
        (left tokens.new) }
{
    let most = tokens.len();
    term(given, tokens, most)
}

/// A term, in which functions stand at most so deep in one another.
#[cycle(term)]
fn term(given: &Lookups<'_>, tokens: &mut Cursor<'_>, depth: usize) -> Result<Term, ExprFault>
    ensures { ReadsExpression (spec.term (given_by_lookups given.now) depth (left tokens.old)) result
        (left tokens.new) }
{
    if depth == 0 {
        return Err(ExprFault::Syntax);
    }
    if tokens.calls("if_not_exists") {
        tokens.skip(2);
        return if_not_exists(given, tokens, depth - 1);
    }
    if tokens.calls("list_append") {
        tokens.skip(2);
        return list_append(given, tokens, depth - 1);
    }
    operand(given, tokens)
}

#[cycle(term)]
#[tactic(auto, unfolding(alt_expr::specs::UpdateReader::if_not_exists))]
fn if_not_exists(
    given: &Lookups<'_>,
    tokens: &mut Cursor<'_>,
    depth: usize,
) -> Result<Term, ExprFault>
    ensures { ReadsExpression
        (spec.if_not_exists (given_by_lookups given.now) (spec.term (given_by_lookups given.now) depth)
        (left tokens.old)) result (left tokens.new) }
{
    let path = read_path(given.alloc, given.names, tokens)?;
    tokens.expect(Mark::Comma)?;
    let other = term(given, tokens, depth)?;
    tokens.expect(Mark::RightRound)?;
    Ok(Term::IfNotExists(path, Boxed::new(given.alloc, other)?))
}

#[cycle(term)]
#[tactic(auto, unfolding(alt_expr::specs::UpdateReader::list_append))]
fn list_append(
    given: &Lookups<'_>,
    tokens: &mut Cursor<'_>,
    depth: usize,
) -> Result<Term, ExprFault>
    ensures { ReadsExpression (spec.list_append (spec.term (given_by_lookups given.now) depth) (left tokens.old))
        result (left tokens.new) }
{
    let front = term(given, tokens, depth)?;
    tokens.expect(Mark::Comma)?;
    let back = term(given, tokens, depth)?;
    tokens.expect(Mark::RightRound)?;
    Ok(Term::ListAppend(
        Boxed::new(given.alloc, front)?,
        Boxed::new(given.alloc, back)?,
    ))
}

/// A `:` word or a path.
#[tactic(auto, unfolding(alt_expr::specs::UpdateReader::operand))]
fn operand(given: &Lookups<'_>, tokens: &mut Cursor<'_>) -> Result<Term, ExprFault>
    ensures { ReadsExpression (spec.operand (given_by_lookups given.now) (left tokens.old)) result (left tokens.new) }
{
    match tokens.peek() {
        Some(Token::ColonWord(word)) => {
            tokens.skip(1);
            Ok(Term::Value(given.values.shared(word)?))
        }
        _ => located(given, tokens),
    }
}

/// A path, behind whose first word no bracket stands.
#[tactic(auto, unfolding(alt_expr::specs::UpdateReader::located))]
fn located(given: &Lookups<'_>, tokens: &mut Cursor<'_>) -> Result<Term, ExprFault>
    ensures { ReadsExpression (spec.located (given_by_lookups given.now) (left tokens.old)) result (left tokens.new) }
{
    if tokens.is_call() {
        return Err(ExprFault::Syntax);
    }
    Ok(Term::At(read_path(given.alloc, given.names, tokens)?))
}
