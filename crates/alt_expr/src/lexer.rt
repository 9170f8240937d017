//! The lexer: at each place behind separators it reads the longest token.

ghost use Rattle.std.specs.Prelude.{◌≡◌, ◌≤◌, ◌-◌, suc, true, min, length, drop};
ghost use Rattle.std.specs.List.{prefix_len, list_all};
ghost use Rattle.std.specs.Char.{is_ascii_digit};
ghost use Rattle.std.specs.Str.{str_eq_ignore_ascii_case};
ghost use Rattle.alt_expr.specs.Spelling.{is_inner, is_blank, mark_of_byte, two_byte_mark, keyword_of, word_tok, number_of_digits, skip};
ghost use Rattle.alt_expr.specs.Look.{kind_tok, found, found_signed, found_mark, LooksFit};
ghost use Rattle.alt_expr.specs.Tokens.{tok_of};
ghost use Rattle.alt_expr.specs.Lexed.{Lexed};

use crate::token::{Keyword, Mark, Token};

/// No token stands at this place of the text.
#[derive(Clone, Copy, Debug, PartialEq, Eq)]
pub struct At {
    pub at: usize,
}

/// Reads a text token by token. It takes no memory.
#[derive(Drop)]
pub struct Lexer<'a> {
    whole: &'a str,
    rest: &'a str,
    ghost within: { length rest.now ≤ length whole.now },
    ghost suffix: { rest.now ≡ drop (length whole.now - length rest.now) whole.now },
}

impl<'a> Lexer<'a> {
    ghost use Rattle.alt_expr.specs.Reading.{lexer_text, left_of};

    /// A lexer at the front of the text.
    pub fn new(text: &'a str) -> Lexer<'a>
        ensures whole { lexer_text result ≡ text.now }
        ensures front { left_of result ≡ text.now }
    {
        Lexer {
            whole: text,
            rest: text,
        }
    }

    /// The next token, and the lexer then stands behind it. None exactly where only separators are left, and `At` exactly where
    /// no token stands behind the separators; the lexer then stays.
    pub fn next(&mut self) -> Result<Option<Token<'a>>, At>
        ensures found { Lexed (lexer_text self.old) (left_of self.old) result (left_of self.new) }
        ensures whole { lexer_text self.new ≡ lexer_text self.old }
    {
        let text = skip(self.rest);
        if text.is_empty() {
            return Ok(None);
        }
        let Some((kind, len)) = look(text.as_bytes()) else {
            return Err(At {
                at: self.whole.len() - text.len(),
            });
        };
        let (spelling, rest) = text.split_at(len);
        self.rest = rest;
        Ok(Some(token_of(kind, spelling)))
    }
}

/// What a token is, before its text is cut off.
#[derive(Clone, Copy, Debug)]
enum Kind {
    Word,
    Hash,
    Colon,
    Index,
    Mark(Mark),
}

/// The text behind separators.
fn skip(text: &str) -> &str
    ensures { result.now ≡ skip text.now }
{
    &text[blank_len(text.as_bytes())..]
}

/// What token stands at the front, and how many bytes it takes.
fn look(bytes: &[u8]) -> Option<(Kind, usize)>
    ensures { result ≡ found bytes.now }
{
    let [b, rest @ ..] = bytes else {
        return None;
    };
    if b.is_ascii_alphabetic() {
        Some((Kind::Word, inner_len(rest) + 1))
    } else if *b == b'#' {
        signed(Kind::Hash, rest)
    } else if *b == b':' {
        signed(Kind::Colon, rest)
    } else if b.is_ascii_digit() {
        Some((Kind::Index, most_digits(rest) + 1))
    } else {
        look_mark(*b, rest)
    }
}

/// A word behind a sign.
fn signed(kind: Kind, rest: &[u8]) -> Option<(Kind, usize)>
    ensures { result ≡ found_signed kind (suc (prefix_len is_inner rest.now)) }
{
    let len = inner_len(rest);
    if len == 0 {
        return None;
    }
    Some((kind, len + 1))
}

/// A mark, of two bytes where it can be.
fn look_mark(b: u8, rest: &[u8]) -> Option<(Kind, usize)>
    ensures { result ≡ found_mark b rest.now }
{
    if let [c, ..] = rest {
        if let Some(mark) = pair_of(b, *c) {
            return Some((Kind::Mark(mark), 2));
        }
    }
    match mark_of_byte(b) {
        Some(mark) => Some((Kind::Mark(mark), 1)),
        None => None,
    }
}

fn mark_of_byte(b: u8) -> Option<Mark>
    ensures { result ≡ mark_of_byte b }
{
    match b {
        b'.' => Some(Mark::Dot),
        b'[' => Some(Mark::LeftSquare),
        b']' => Some(Mark::RightSquare),
        b'(' => Some(Mark::LeftRound),
        b')' => Some(Mark::RightRound),
        b',' => Some(Mark::Comma),
        b'=' => Some(Mark::Equal),
        b'<' => Some(Mark::Less),
        b'>' => Some(Mark::Greater),
        b'+' => Some(Mark::Plus),
        b'-' => Some(Mark::Minus),
        _ => None,
    }
}

fn pair_of(b: u8, c: u8) -> Option<Mark>
    ensures { result ≡ two_byte_mark b c }
{
    if b == b'<' && c == b'>' {
        Some(Mark::NotEqual)
    } else if b == b'<' && c == b'=' {
        Some(Mark::LessEqual)
    } else if b == b'>' && c == b'=' {
        Some(Mark::GreaterEqual)
    } else {
        None
    }
}

fn is_inner(b: u8) -> bool
    ensures { result ≡ is_inner b }
{
    b.is_ascii_alphanumeric() || b == b'_'
}

fn is_blank(b: u8) -> bool
    ensures { result ≡ is_blank b }
{
    b == b' ' || b == b'\t' || b == b'\n' || b == b'\r'
}

fn inner_len(bytes: &[u8]) -> usize
    ensures value { result ≡ prefix_len is_inner bytes.now }
    ensures within { result ≤ length bytes.now }
{
    for (at, b) in bytes.iter().enumerate() {
        if !is_inner(*b) {
            return at;
        }
    }
    bytes.len()
}

/// The digits behind the first of an index: at most eight are looked at.
fn most_digits(rest: &[u8]) -> usize
    ensures { result ≡ min (prefix_len is_ascii_digit rest.now) 8 }
{
    digits_len(&rest[..rest.len().min(8)])
}

fn digits_len(bytes: &[u8]) -> usize
    ensures value { result ≡ prefix_len is_ascii_digit bytes.now }
    ensures within { result ≤ length bytes.now }
{
    for (at, b) in bytes.iter().enumerate() {
        if !b.is_ascii_digit() {
            return at;
        }
    }
    bytes.len()
}

fn blank_len(bytes: &[u8]) -> usize
    ensures value { result ≡ prefix_len is_blank bytes.now }
    ensures within { result ≤ length bytes.now }
{
    for (at, b) in bytes.iter().enumerate() {
        if !is_blank(*b) {
            return at;
        }
    }
    bytes.len()
}

/// The token of that kind with that spelling.
fn token_of(kind: Kind, spelling: &str) -> Token<'_>
    requires { LooksFit kind spelling.now }
    ensures { tok_of result ≡ kind_tok kind spelling.now }
{
    match kind {
        Kind::Word => word(spelling),
        Kind::Hash => Token::HashWord(spelling),
        Kind::Colon => Token::ColonWord(spelling),
        Kind::Index => Token::Index(number(spelling.as_bytes())),
        Kind::Mark(mark) => Token::Mark(mark),
    }
}

/// The keyword that a word is, or the word.
fn word(spelling: &str) -> Token<'_>
    ensures { tok_of result ≡ word_tok spelling.now }
{
    match keyword_of(spelling) {
        Some(keyword) => Token::Keyword(keyword),
        None => Token::Word(spelling),
    }
}

fn keyword_of(word: &str) -> Option<Keyword>
    ensures { result ≡ keyword_of word.now }
{
    if is_word(word, "AND") {
        Some(Keyword::And)
    } else if is_word(word, "OR") {
        Some(Keyword::Or)
    } else if is_word(word, "NOT") {
        Some(Keyword::Not)
    } else if is_word(word, "IN") {
        Some(Keyword::Among)
    } else if is_word(word, "BETWEEN") {
        Some(Keyword::Between)
    } else if is_word(word, "SET") {
        Some(Keyword::Set)
    } else if is_word(word, "REMOVE") {
        Some(Keyword::Remove)
    } else if is_word(word, "ADD") {
        Some(Keyword::Add)
    } else if is_word(word, "DELETE") {
        Some(Keyword::Delete)
    } else {
        None
    }
}

fn is_word(word: &str, keyword: &str) -> bool
    ensures { result ≡ str_eq_ignore_ascii_case word.now keyword.now }
{
    word.eq_ignore_ascii_case(keyword)
}

/// The number that at most nine digits write.
fn number(digits: &[u8]) -> u32
    requires digits { list_all is_ascii_digit digits.now ≡ true }
    requires few { length digits.now ≤ 9 }
    ensures { result ≡ number_of_digits digits.now }
{
    let mut value: u32 = 0;
    for digit in digits {
        value = value * 10 + u32::from(*digit - b'0');
    }
    value
}
