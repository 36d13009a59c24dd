// What kind of line a line is: the closing 0, a comment, or another; and whether a line is the header.
ghost use Rattle.std.specs.Prelude.{◌≡◌};
ghost use Rattle.meaning.specs.Foundedness.{same_list};
ghost use Rattle.text.specs.Text.{runs};
ghost use Rattle.aspif_scan.specs.Scan.{kind_of};

use text::scan::{run_end, run_start};

// The closing 0, a comment, or a rule statement or what is outside the subset.
#[derive(Clone, Copy)]
pub enum Kind {
    Closing,
    Comment,
    Other,
}

// Whether two texts are the same.
pub fn same(text: &[u8], other: &[u8]) -> bool
    ensures { result ≡ same_list text.now other.now }
{
    text == other
}

// A line's kind, by its first field.
pub fn kind_of(line: &[u8]) -> Kind
    ensures { result ≡ kind_of (runs line.now) }
{
    let at = run_start(line, 0);
    let end = run_end(line, at);
    if same(&line[at..end], b"10") {
        return Kind::Comment;
    }
    if !same(&line[at..end], b"0") {
        return Kind::Other;
    }
    let next = run_start(line, end);
    if next < line.len() {
        return Kind::Other;
    }
    Kind::Closing
}
