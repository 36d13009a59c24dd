// Where tokens begin and end, and what digits come to. Blanks stand between tokens, and comments, from `%` to the end of the line. A value above 4,194,305
// is taken for that: it is good nowhere.
ghost use Rattle.std.specs.Prelude.{◌≡◌, false, ◌+◌, ◌*◌, ◌-◌, ◌≤◌, min, drop};
ghost use Rattle.notation.specs.Tokens as T;
ghost use Rattle.read_notation.specs.Scanning.{between, comment_after, gap, among, span, value_from};

// One above the highest number that 01 allows anywhere, a threshold.
const CAP: usize = 4194305;

pub fn digit(b: u8) -> bool
    ensures { result ≡ T.digit b }
{
    if b < 48 {
        return false;
    }
    b <= 57
}

pub fn letter(b: u8) -> bool
    ensures { result ≡ T.letter b }
{
    if b < 97 {
        return false;
    }
    b <= 122
}

fn blank(b: u8) -> bool
    ensures { result ≡ T.blank b }
{
    matches!(b, b' ' | b'\t' | b'\n' | b'\r')
}

// Whether a byte stands between tokens, in a comment or not; 37 is the percent sign.
fn passes(comment: bool, b: u8) -> bool
    ensures { result ≡ between comment b }
{
    if comment {
        return true;
    }
    if b == 37 {
        return true;
    }
    blank(b)
}

// Whether a comment goes on after a byte that does.
fn comment_after(comment: bool, b: u8) -> bool
    ensures { result ≡ comment_after comment b }
{
    if comment {
        return b != 10;
    }
    b == 37
}

// The index at which the next token begins, from `from` on; or the end.
pub fn token_start(text: &[u8], from: usize) -> usize
    ensures { result ≡ from + gap false (drop from text.now) }
{
    let mut comment = false;
    for i in from..text.len() {
        let b = text[i];
        if !passes(comment, b) {
            return i;
        }
        comment = comment_after(comment, b);
    }
    from.max(text.len())
}

// The index past the bytes from `low` to `high` that stand from `from` on.
fn span_end(text: &[u8], from: usize, low: u8, high: u8) -> usize
    ensures { result ≡ from + span (among low high) (drop from text.now) }
{
    for i in from..text.len() {
        let b = text[i];
        if b < low {
            return i;
        }
        if high < b {
            return i;
        }
    }
    from.max(text.len())
}

// The index past the digits that stand from `from` on.
pub fn digits_end(text: &[u8], from: usize) -> usize
    ensures { result ≡ from + span T.digit (drop from text.now) }
{
    span_end(text, from, b'0', b'9')
}

// The index past the letters that stand from `from` on.
pub fn letters_end(text: &[u8], from: usize) -> usize
    ensures { result ≡ from + span T.letter (drop from text.now) }
{
    span_end(text, from, b'a', b'z')
}

// One digit more.
fn add_digit(value: usize, b: u8) -> usize
    requires { value ≤ 4194305 }
    ensures { result ≡ min (value * 10 + (b - 48)) 4194305 }
{
    let next = value * 10 + usize::from(b.saturating_sub(48));
    next.min(CAP)
}

// The value of the digits that stand from `from` on, held at the cap.
pub fn value(text: &[u8], from: usize) -> usize
    ensures { result ≡ min (value_from 0 (drop from text.now)) 4194305 }
{
    let mut sum: usize = 0;
    for i in from..text.len() {
        let b = text[i];
        if !digit(b) {
            return sum;
        }
        sum = add_digit(sum, b);
    }
    sum
}
