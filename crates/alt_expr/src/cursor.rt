//! A cursor over tokens, by which the three parsers read.

ghost use Rattle.std.specs.Prelude.{◌≡◌, length, drop, option_map, slice_get};
ghost use Rattle.alt_expr.specs.Tokens.{tok_of};
ghost use Rattle.alt_expr.specs.Reader as spec;

use crate::fault::ExprFault;
use crate::names::Names;
use crate::shared::Shared;
use crate::token::{Keyword, Mark, Token, same_keyword, same_mark};
use alt_value::Text;
use std::alloc::Global;

/// The tokens that are still to be read.
#[derive(Drop)]
pub struct Cursor<'a> {
    rest: &'a [Token<'a>],
}

impl<'a> Cursor<'a> {
    ghost use Rattle.alt_expr.specs.Reader.{left, ReadsExpression};
    ghost use Rattle.alt_expr.specs.NamesGiven.{given_names};
    ghost use Rattle.std.specs.Prelude.{map};

    /// Before all tokens.
    pub fn new(rest: &'a [Token<'a>]) -> Cursor<'a>
        ensures { left result ≡ map tok_of rest.now }
    {
        Cursor { rest }
    }

    pub fn len(&self) -> usize
        ensures { result ≡ length (left self.now) }
    {
        self.rest.len()
    }

    /// The next token.
    pub fn peek(&self) -> Option<Token<'a>>
        ensures { option_map tok_of result ≡ slice_get (left self.now) 0 }
    {
        match self.rest {
            [] => None,
            [first, ..] => Some(*first),
        }
    }

    /// Past so many tokens.
    #[tactic(auto, using(crate::proofs::Turns::drop_map, crate::proofs::Turns::drop_past))]
    pub fn skip(&mut self, count: usize)
        ensures { left self.new ≡ drop count (left self.old) }
    {
        self.rest = behind(self.rest, count);
    }

    #[tactic(auto, unfolding(crate::specs::Reader::sees_mark))]
    pub fn sees_mark(&self, wanted: Mark) -> bool
        ensures { result ≡ spec.sees_mark wanted (left self.now) }
    {
        match self.rest {
            [Token::Mark(mark), ..] => same_mark(*mark, wanted),
            _ => false,
        }
    }

    #[tactic(auto, unfolding(crate::specs::Reader::sees_key))]
    pub fn sees_key(&self, wanted: Keyword) -> bool
        ensures { result ≡ spec.sees_key wanted (left self.now) }
    {
        match self.rest {
            [Token::Keyword(keyword), ..] => same_keyword(*keyword, wanted),
            _ => false,
        }
    }

    /// Whether a call of the function comes next: its name, and a bracket behind it.
    #[tactic(auto, unfolding(crate::specs::Reader::calls, crate::specs::Reader::sees_mark))]
    pub fn calls(&self, name: &str) -> bool
        ensures { result ≡ spec.calls name.now (left self.now) }
    {
        match self.rest {
            [Token::Word(word), Token::Mark(mark), ..] => {
                *word == name && same_mark(*mark, Mark::LeftRound)
            }
            _ => false,
        }
    }

    /// Whether a word with a bracket behind it comes next.
    #[tactic(auto, unfolding(crate::specs::Reader::is_call, crate::specs::Reader::sees_mark))]
    pub fn is_call(&self) -> bool
        ensures { result ≡ spec.is_call (left self.now) }
    {
        match self.rest {
            [Token::Word(_), Token::Mark(mark), ..] => same_mark(*mark, Mark::LeftRound),
            _ => false,
        }
    }

    /// Past the mark, if it comes next.
    #[tactic(auto, unfolding(crate::specs::Reader::after_mark))]
    pub fn eat(&mut self, wanted: Mark) -> bool
        ensures found { result ≡ spec.sees_mark wanted (left self.old) }
        ensures after { left self.new ≡ spec.after_mark wanted (left self.old) }
    {
        let found = self.sees_mark(wanted);
        if found {
            self.skip(1);
        }
        found
    }

    /// Past the keyword, if it comes next.
    #[tactic(auto, unfolding(crate::specs::Reader::after_key))]
    pub fn eat_key(&mut self, wanted: Keyword) -> bool
        ensures found { result ≡ spec.sees_key wanted (left self.old) }
        ensures after { left self.new ≡ spec.after_key wanted (left self.old) }
    {
        let found = self.sees_key(wanted);
        if found {
            self.skip(1);
        }
        found
    }

    /// The name that the next token is or stands for. A given one isn't copied.
    #[tactic(auto, unfolding(crate::specs::Reader::name))]
    pub fn name(&mut self, alloc: Global, names: &Names) -> Result<Shared<Text>, ExprFault>
        ensures { ReadsExpression (spec.name (given_names names.now) (left self.old)) result (left self.new) }
    {
        match self.peek() {
            Some(Token::Word(word)) => {
                self.skip(1);
                Ok(Shared::new(alloc, Text::new(alloc, word)?)?)
            }
            Some(Token::HashWord(word)) => {
                self.skip(1);
                Ok(names.shared(word)?)
            }
            _ => Err(ExprFault::Syntax),
        }
    }

    #[tactic(auto, unfolding(crate::specs::Reader::number))]
    pub fn number(&mut self) -> Result<u32, ExprFault>
        ensures { ReadsExpression (spec.number (left self.old)) result (left self.new) }
    {
        match self.peek() {
            Some(Token::Index(number)) => {
                self.skip(1);
                Ok(number)
            }
            _ => Err(ExprFault::Syntax),
        }
    }

    /// Past the mark, which has to come next.
    #[tactic(auto, unfolding(crate::specs::Reader::expect, crate::specs::Reader::after_mark))]
    pub fn expect(&mut self, wanted: Mark) -> Result<(), ExprFault>
        ensures { ReadsExpression (spec.expect wanted (left self.old)) result (left self.new) }
    {
        if self.eat(wanted) {
            Ok(())
        } else {
            Err(ExprFault::Syntax)
        }
    }

    /// Past the keyword, which has to come next.
    #[tactic(auto, unfolding(crate::specs::Reader::expect_key, crate::specs::Reader::after_key))]
    pub fn expect_key(&mut self, wanted: Keyword) -> Result<(), ExprFault>
        ensures { ReadsExpression (spec.expect_key wanted (left self.old)) result (left self.new) }
    {
        if self.eat_key(wanted) {
            Ok(())
        } else {
            Err(ExprFault::Syntax)
        }
    }
}

fn behind<'a>(tokens: &'a [Token<'a>], count: usize) -> &'a [Token<'a>]
    ensures { result.now ≡ drop count tokens.now }
{
    if count <= tokens.len() {
        &tokens[count..]
    } else {
        &tokens[tokens.len()..]
    }
}
