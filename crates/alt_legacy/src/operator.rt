//! The thirteen operators and their words.

ghost use Rattle.std.specs.Prelude.{◌≡◌};
ghost use Rattle.alt_legacy.specs.Operators as spec;

use alt_expr::Comparison;

/// What an operator asks of an attribute (API Reference, "Condition", ComparisonOperator).
#[derive(Clone, Copy, Debug, PartialEq, Eq)]
pub enum Operator {
    Compares(Comparison),
    Between,
    In,
    NotNull,
    Null,
    Contains,
    NotContains,
    BeginsWith,
}

/// The operator of a word, None exactly where it is none of the thirteen.
pub(crate) fn operator_of(word: &str) -> Option<Operator>
    ensures { result ≡ spec.operator_of word.now }
{
    match word {
        "EQ" => Some(Operator::Compares(Comparison::Equal)),
        "NE" => Some(Operator::Compares(Comparison::NotEqual)),
        "LT" => Some(Operator::Compares(Comparison::Less)),
        "LE" => Some(Operator::Compares(Comparison::LessEqual)),
        "GT" => Some(Operator::Compares(Comparison::Greater)),
        "GE" => Some(Operator::Compares(Comparison::GreaterEqual)),
        "BETWEEN" => Some(Operator::Between),
        "IN" => Some(Operator::In),
        "NOT_NULL" => Some(Operator::NotNull),
        "NULL" => Some(Operator::Null),
        "CONTAINS" => Some(Operator::Contains),
        "NOT_CONTAINS" => Some(Operator::NotContains),
        "BEGINS_WITH" => Some(Operator::BeginsWith),
        _ => None,
    }
}
