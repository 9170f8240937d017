//! Operands, read from tokens.

ghost use Rattle.alt_expr.specs.Reader.{left, ReadsExpression};
ghost use Rattle.alt_expr.specs.CondReader as spec;
ghost use Rattle.alt_expr.specs.Lookups.{given_by_lookups};

use alt_expr::{
    Cursor, ExprFault, Items, Lookups, Mark, Operand, OperandList, Token, read_path,
    read_path_in_brackets,
};

/// A path, a `:` word or a size.
#[tactic(auto, unfolding(alt_expr::specs::CondReader::operand))]
pub(crate) fn operand(given: &Lookups<'_>, tokens: &mut Cursor<'_>) -> Result<Operand, ExprFault>
    ensures { ReadsExpression (spec.operand (given_by_lookups given.now) (left tokens.old)) result (left tokens.new) }
{
    match tokens.peek() {
        Some(Token::ColonWord(word)) => {
            tokens.skip(1);
            Ok(Operand::Value(given.values.shared(word)?))
        }
        _ => named(given, tokens),
    }
}

#[tactic(auto, unfolding(alt_expr::specs::CondReader::named))]
fn named(given: &Lookups<'_>, tokens: &mut Cursor<'_>) -> Result<Operand, ExprFault>
    ensures { ReadsExpression (spec.named (given_by_lookups given.now) (left tokens.old)) result (left tokens.new) }
{
    if tokens.calls("size") {
        tokens.skip(2);
        return Ok(Operand::Size(read_path_in_brackets(given.alloc, given.names, tokens)?));
    }
    if tokens.is_call() {
        return Err(ExprFault::Syntax);
    }
    Ok(Operand::At(read_path(given.alloc, given.names, tokens)?))
}

/// One or more operands with commas between.
pub(crate) fn operands(
    given: &Lookups<'_>,
    tokens: &mut Cursor<'_>,
) -> Result<OperandList, ExprFault>
    ensures { ReadsExpression (spec.operands (given_by_lookups given.now) (left tokens.old)) result
        (left tokens.new) }
{
    let turns = tokens.len();
    let mut found = Items::new(given.alloc);
    found.push(operand(given, tokens)?)?;
    for _turn in 0..turns {
        if !tokens.eat(Mark::Comma) {
            return Ok(found);
        }
        found.push(operand(given, tokens)?)?;
    }
    Err(ExprFault::Syntax)
}
