//! All tokens of a text.

ghost use Rattle.std.specs.Prelude.{IfOk, map};
ghost use Rattle.alt_expr.specs.Tokens.{tok_of};
ghost use Rattle.alt_expr.specs.Lexed.{Lexes};

use crate::lexer::Lexer;
use crate::token::Token;
use alt_base::NoMemory;
use std::alloc::Global;

/// The tokens up to the end, or up to the first place where none stands, and whether it was the end.
pub fn tokens<'a>(alloc: Global, text: &'a str) -> Result<(Vec<Token<'a>>, bool), NoMemory>
    ensures { IfOk result (λ r. Lexes text.now (map tok_of r.0.items) r.1) }
{
    let mut lexer = Lexer::new(text);
    let mut found = Vec::new(alloc);
    'all: loop {
        match lexer.next() {
            Err(_) => return Ok((found, false)),
            Ok(None) => return Ok((found, true)),
            Ok(Some(next)) => found.push(next)?,
        }
    }
}
