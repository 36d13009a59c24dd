// The token that comes next: a number, a word of small letters, `:-`, any other byte that is no space, or the end. Nothing is copied: a word is the bytes
// from its start to the index after it.
ghost use Rattle.std.specs.Prelude.{◌≡◌, ◌<◌, length};
ghost use Rattle.read_notation.specs.Lexemes.{mark_at, started_at, lex_at};

use crate::scan::{digit, digits_end, letter, letters_end, token_start, value};

// What a token is.
#[derive(Clone, Copy)]
pub enum Token {
    Number(usize),
    Word,
    Neck,
    Mark(u8),
    End,
}

// A token, where it begins, and the index after it.
#[derive(Clone, Copy)]
pub struct Lexeme {
    pub token: Token,
    pub start: usize,
    pub after: usize,
}

// A byte that is no digit and no letter: by itself, or with the next one. 58 is the colon, 45 the minus.
#[tactic(auto, unfolding(crate::specs::Lexemes::mark_at))]
fn mark_at(text: &[u8], start: usize) -> Lexeme
    requires { start < length text.now }
    ensures { result ≡ mark_at text.now start }
{
    let b = text[start];
    let token = Token::Mark(b);
    let after = start + 1;
    if b != 58 {
        return Lexeme {
            token,
            start,
            after,
        };
    }
    if text.len() <= after {
        return Lexeme {
            token,
            start,
            after,
        };
    }
    if text[after] != 45 {
        return Lexeme {
            token,
            start,
            after,
        };
    }
    let neck = Token::Neck;
    let past = after + 1;
    Lexeme {
        token: neck,
        start,
        after: past,
    }
}

// The token that begins at an index of the text, or the end.
#[tactic(auto, unfolding(crate::specs::Lexemes::started_at))]
fn started_at(text: &[u8], start: usize) -> Lexeme
    ensures { result ≡ started_at text.now start }
{
    if text.len() <= start {
        let end = Token::End;
        return Lexeme {
            token: end,
            start,
            after: start,
        };
    }
    let b = text[start];
    if digit(b) {
        let number = Token::Number(value(text, start));
        let past = digits_end(text, start);
        return Lexeme {
            token: number,
            start,
            after: past,
        };
    }
    if letter(b) {
        let word = Token::Word;
        let past = letters_end(text, start);
        return Lexeme {
            token: word,
            start,
            after: past,
        };
    }
    mark_at(text, start)
}

// The token that comes next from an index on.
pub fn lex(text: &[u8], from: usize) -> Lexeme
    ensures { result ≡ lex_at text.now from }
{
    let start = token_start(text, from);
    started_at(text, start)
}
