//! Comparisons and functions, read from tokens.

ghost use Rattle.std.specs.Prelude.{◌≡◌};
ghost use Rattle.alt_expr.specs.Reader.{left, ReadsExpression};
ghost use Rattle.alt_expr.specs.CondReader as spec;
ghost use Rattle.alt_expr.specs.Lookups.{given_by_lookups};
ghost use Rattle.alt_expr.specs.declared.cond.Cond.TheVariants as cond;

use crate::operand::{operand, operands};
use alt_expr::{
    Comparison, Cond, Cursor, ExprFault, Keyword, Lookups, Mark, Operand, Token, read_path,
    read_path_in_brackets,
};

/// A condition without NOT, AND, OR and brackets of its own.
#[tactic(auto, unfolding(alt_expr::specs::CondReader::whole_test))]
pub(crate) fn test(given: &Lookups<'_>, tokens: &mut Cursor<'_>) -> Result<Cond, ExprFault>
    ensures { ReadsExpression (spec.whole_test (given_by_lookups given.now) (left tokens.old)) result
        (left tokens.new) }
{
    if tokens.calls("attribute_exists") {
        tokens.skip(2);
        return Ok(Cond::Exists(read_path_in_brackets(given.alloc, given.names, tokens)?));
    }
    if tokens.calls("attribute_not_exists") {
        tokens.skip(2);
        return Ok(Cond::NotExists(read_path_in_brackets(given.alloc, given.names, tokens)?));
    }
    operand_test(given, tokens)
}

/// A test that has an operand.
#[tactic(auto, unfolding(alt_expr::specs::CondReader::operand_test))]
fn operand_test(given: &Lookups<'_>, tokens: &mut Cursor<'_>) -> Result<Cond, ExprFault>
    ensures { ReadsExpression (spec.operand_test (given_by_lookups given.now) (left tokens.old)) result
        (left tokens.new) }
{
    if tokens.calls("attribute_type") {
        tokens.skip(2);
        return kind(given, tokens);
    }
    if tokens.calls("begins_with") {
        tokens.skip(2);
        return begins(given, tokens);
    }
    if tokens.calls("contains") {
        tokens.skip(2);
        return contains(given, tokens);
    }
    let first = operand(given, tokens)?;
    tail(given, tokens, first)
}

#[tactic(auto, unfolding(alt_expr::specs::CondReader::kind))]
fn kind(given: &Lookups<'_>, tokens: &mut Cursor<'_>) -> Result<Cond, ExprFault>
    ensures { ReadsExpression (spec.kind (given_by_lookups given.now) (left tokens.old)) result (left tokens.new) }
{
    let path = read_path(given.alloc, given.names, tokens)?;
    tokens.expect(Mark::Comma)?;
    let kind = operand(given, tokens)?;
    tokens.expect(Mark::RightRound)?;
    Ok(Cond::HasKind(path, kind))
}

#[tactic(auto, unfolding(alt_expr::specs::CondReader::pair))]
fn begins(given: &Lookups<'_>, tokens: &mut Cursor<'_>) -> Result<Cond, ExprFault>
    ensures { ReadsExpression (spec.pair (given_by_lookups given.now) cond.BeginsWith (left tokens.old)) result
        (left tokens.new) }
{
    let whole = operand(given, tokens)?;
    tokens.expect(Mark::Comma)?;
    let front = operand(given, tokens)?;
    tokens.expect(Mark::RightRound)?;
    Ok(Cond::BeginsWith(whole, front))
}

#[tactic(auto, unfolding(alt_expr::specs::CondReader::pair))]
fn contains(given: &Lookups<'_>, tokens: &mut Cursor<'_>) -> Result<Cond, ExprFault>
    ensures { ReadsExpression (spec.pair (given_by_lookups given.now) cond.Contains (left tokens.old)) result
        (left tokens.new) }
{
    let whole = operand(given, tokens)?;
    tokens.expect(Mark::Comma)?;
    let part = operand(given, tokens)?;
    tokens.expect(Mark::RightRound)?;
    Ok(Cond::Contains(whole, part))
}

/// What stands behind the first operand.
#[tactic(auto, unfolding(alt_expr::specs::CondReader::tail))]
fn tail(given: &Lookups<'_>, tokens: &mut Cursor<'_>, first: Operand) -> Result<Cond, ExprFault>
    ensures { ReadsExpression (spec.tail (given_by_lookups given.now) first (left tokens.old)) result
        (left tokens.new) }
{
    if let Some(by) = comparison(tokens) {
        tokens.skip(1);
        return Ok(Cond::Compare(by, first, operand(given, tokens)?));
    }
    if tokens.eat_key(Keyword::Between) {
        return between(given, tokens, first);
    }
    if tokens.eat_key(Keyword::Among) {
        return among(given, tokens, first);
    }
    Err(ExprFault::Syntax)
}

#[tactic(auto, unfolding(alt_expr::specs::CondReader::between))]
fn between(given: &Lookups<'_>, tokens: &mut Cursor<'_>, first: Operand) -> Result<Cond, ExprFault>
    ensures { ReadsExpression (spec.between (given_by_lookups given.now) first (left tokens.old)) result
        (left tokens.new) }
{
    let low = operand(given, tokens)?;
    tokens.expect_key(Keyword::And)?;
    let high = operand(given, tokens)?;
    Ok(Cond::Between(first, low, high))
}

#[tactic(auto, unfolding(alt_expr::specs::CondReader::among, alt_expr::specs::Reader::in_brackets))]
fn among(given: &Lookups<'_>, tokens: &mut Cursor<'_>, first: Operand) -> Result<Cond, ExprFault>
    ensures { ReadsExpression (spec.among (given_by_lookups given.now) first (left tokens.old)) result
        (left tokens.new) }
{
    tokens.expect(Mark::LeftRound)?;
    let members = operands(given, tokens)?;
    tokens.expect(Mark::RightRound)?;
    Ok(Cond::Among(first, members))
}

#[tactic(auto, unfolding(alt_expr::specs::CondReader::sees_comparison))]
fn comparison(tokens: &Cursor<'_>) -> Option<Comparison>
    ensures { result ≡ spec.sees_comparison (left tokens.now) }
{
    match tokens.peek() {
        Some(Token::Mark(mark)) => comparison_of(mark),
        _ => None,
    }
}

fn comparison_of(mark: Mark) -> Option<Comparison>
    ensures { result ≡ spec.comparison_of mark }
{
    match mark {
        Mark::Equal => Some(Comparison::Equal),
        Mark::NotEqual => Some(Comparison::NotEqual),
        Mark::Less => Some(Comparison::Less),
        Mark::LessEqual => Some(Comparison::LessEqual),
        Mark::Greater => Some(Comparison::Greater),
        Mark::GreaterEqual => Some(Comparison::GreaterEqual),
        _ => None,
    }
}
