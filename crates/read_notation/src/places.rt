// Line and column of a byte of the text, from 1.
ghost use Rattle.std.specs.Prelude.{◌≡◌, ◌<◌, ◌≤◌, length};
ghost use Rattle.notation.specs.Tokens as T;
ghost use Rattle.read_notation.specs.Placing.{line_after, column_after};

#[derive(Clone, Copy)]
pub struct Place {
    pub line: usize,
    pub column: usize,
}

fn line_after(line: usize, b: u8) -> usize
    requires { line < 18446744073709551615 }
    ensures { result ≡ line_after line b }
{
    if b == 10 {
        return line + 1;
    }
    line
}

fn column_after(column: usize, b: u8) -> usize
    requires { column < 18446744073709551615 }
    ensures { result ≡ column_after column b }
{
    if b == 10 {
        return 1;
    }
    column + 1
}

pub fn place_of(text: &[u8], at: usize) -> Place
    requires { at ≤ length text.now }
    ensures { (result.line ≡ (T.place_of text.now at).line) × (result.column ≡ (T.place_of text.now at).column) }
{
    let mut line: usize = 1;
    let mut column: usize = 1;
    for i in 0..at {
        let b = text[i];
        line = line_after(line, b);
        column = column_after(column, b);
    }
    Place { line, column }
}
