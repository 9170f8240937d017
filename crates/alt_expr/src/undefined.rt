//! Words that aren't given.

ghost use Rattle.std.specs.Prelude.{◌≡◌, map};
ghost use Rattle.std.specs.List.{list_any};
ghost use Rattle.alt_expr.specs.Tokens.{tok_of};
ghost use Rattle.alt_expr.specs.Given.{is_unknown};
ghost use Rattle.alt_expr.specs.Lookups.{given_by};

use crate::names::Names;
use crate::token::Token;
use crate::values::Values;

/// Whether one of the `#` and `:` words isn't given.
pub fn is_undefined(tokens: &[Token<'_>], names: &Names, values: &Values) -> bool
    ensures { result ≡ list_any (is_unknown (given_by names.now values.now))
        (map tok_of tokens.now) }
{
    for token in tokens {
        if is_unknown(*token, names, values) {
            return true;
        }
    }
    false
}

fn is_unknown(token: Token<'_>, names: &Names, values: &Values) -> bool
    ensures { result ≡ is_unknown (given_by names.now values.now) (tok_of token.entry) }
{
    match token {
        Token::HashWord(word) => !names.is_given(word),
        Token::ColonWord(word) => values.value(word).is_none(),
        _ => false,
    }
}
