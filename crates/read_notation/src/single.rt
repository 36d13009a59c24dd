// Single tokens, as the parts of a table ask for them: a number, a mark. What is not asked for is refused where it begins.
ghost use Rattle.std.specs.Prelude.{◌≡◌};
ghost use Rattle.notation.specs.Parser.{a_number, a_mark};
ghost use Rattle.read_notation.specs.Running.{moved, run_at, numbered_at, marked_at};

use crate::lexing::{Lexeme, Token, lex};

// How far the text is read: the index after the last token, and where the last two begin.
#[derive(Clone, Copy)]
pub struct Cursor {
    pub after: usize,
    pub start: usize,
    pub before: usize,
}

// The cursor after one more token.
fn past(c: Cursor, x: Lexeme) -> Cursor
    ensures { result ≡ moved c x }
{
    Cursor {
        after: x.after,
        start: x.start,
        before: c.start,
    }
}

// A number, and the cursor after it; or where what is none begins.
pub fn a_number(text: &[u8], c: Cursor) -> Result<(usize, Cursor), usize>
    ensures { numbered_at result ≡ run_at text.now a_number c }
{
    let x = lex(text, c.after);
    let token = x.token;
    match token {
        Token::Number(n) => Ok((n, past(c, x))),
        Token::Word => Err(x.start),
        Token::Neck => Err(x.start),
        Token::Mark(_) => Err(x.start),
        Token::End => Err(x.start),
    }
}

// The cursor after the mark; or where what is another token begins.
pub fn a_mark(text: &[u8], c: Cursor, b: u8) -> Result<Cursor, usize>
    ensures { marked_at result ≡ run_at text.now (a_mark b) c }
{
    let x = lex(text, c.after);
    let token = x.token;
    match token {
        Token::Number(_) => Err(x.start),
        Token::Word => Err(x.start),
        Token::Neck => Err(x.start),
        Token::Mark(m) => {
            if m == b {
                return Ok(past(c, x));
            }
            Err(x.start)
        }
        Token::End => Err(x.start),
    }
}
