//! How deep a text nests, by its tokens alone.

ghost use Rattle.std.specs.Prelude.{◌≡◌, ◌↔◌, IsTrue, map};
ghost use Rattle.alt_expr.specs.Tokens.{tok_of, is_mark, is_keyword};
ghost use Rattle.alt_expr.specs.Nesting.{NestsTooDeep};
ghost use Rattle.alt_expr.specs.Walks.{is_deep};

use crate::token::{Keyword, Mark, Token, same_keyword, same_mark};

/// Whether a front of the tokens has over 64 more opening brackets than closing ones, or NOT stands over 64 times.
#[tactic(auto, using(crate::proofs::Deep::deep_is))]
pub fn is_too_deep(tokens: &[Token<'_>]) -> bool
    ensures { IsTrue result ↔ NestsTooDeep (map tok_of tokens.now) }
{
    walks_too_deep(tokens)
}

#[tactic(auto, unfolding(crate::specs::Walks::is_deep))]
fn walks_too_deep(tokens: &[Token<'_>]) -> bool
    ensures { result ≡ is_deep (map tok_of tokens.now) }
{
    let mut opened: usize = 0;
    let mut closed: usize = 0;
    let mut nots: usize = 0;
    for token in tokens {
        opened += usize::from(is_mark(*token, Mark::LeftRound));
        closed += usize::from(is_mark(*token, Mark::RightRound));
        nots += usize::from(is_key(*token, Keyword::Not));
        if closed + 64 < opened || 64 < nots {
            return true;
        }
    }
    false
}

fn is_mark(token: Token<'_>, wanted: Mark) -> bool
    ensures { result ≡ is_mark wanted (tok_of token.entry) }
{
    match token {
        Token::Mark(mark) => same_mark(mark, wanted),
        _ => false,
    }
}

fn is_key(token: Token<'_>, wanted: Keyword) -> bool
    ensures { result ≡ is_keyword wanted (tok_of token.entry) }
{
    match token {
        Token::Keyword(keyword) => same_keyword(keyword, wanted),
        _ => false,
    }
}
