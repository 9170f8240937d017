//! Clauses that stand twice, by their keywords, which stand nowhere else.

ghost use Rattle.std.specs.Prelude.{◌≡◌, false, map};
ghost use Rattle.std.specs.List.{list_any};
ghost use Rattle.alt_expr.specs.Tokens.{tok_of, is_keyword as key_is};
ghost use Rattle.alt_expr.specs.UpdateLanguage.{clause_keys};
ghost use Rattle.alt_expr.specs.UpdateKeys as spec;

use alt_expr::{Keyword, Token, same_keyword};

/// Whether a clause's keyword stands twice.
pub(crate) fn repeats_clause(tokens: &[Token<'_>]) -> bool
    ensures { result ≡ list_any (spec.is_twice (map tok_of tokens.now)) clause_keys }
{
    is_twice(tokens, Keyword::Set)
        || is_twice(tokens, Keyword::Remove)
        || is_twice(tokens, Keyword::Add)
        || is_twice(tokens, Keyword::Delete)
}

#[tactic(auto, unfolding(alt_expr::specs::UpdateKeys::is_twice))]
fn is_twice(tokens: &[Token<'_>], keyword: Keyword) -> bool
    ensures { result ≡ spec.is_twice (map tok_of tokens.now) keyword }
{
    let mut found = false;
    for token in tokens {
        if is_key(*token, keyword) {
            if found {
                return true;
            }
            found = true;
        }
    }
    false
}

fn is_key(token: Token<'_>, wanted: Keyword) -> bool
    ensures { result ≡ key_is wanted (tok_of token.entry) }
{
    match token {
        Token::Keyword(keyword) => same_keyword(keyword, wanted),
        _ => false,
    }
}
