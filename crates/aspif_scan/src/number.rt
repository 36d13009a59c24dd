// The number that a field writes: "one or more digits after at most one minus", as in the text program. Its size is held at 2 to the 64 less 1:
// no atom, weight or bound in range and no count of fields of a line is that large.
ghost use Rattle.std.specs.Prelude.{◌≡◌};
ghost use Rattle.text.specs.Text as T;
ghost use Rattle.aspif_scan.specs.Number.{nought, number_in};

use text::number::digits_of;

// A number: whether it is below 0, and its size.
#[derive(Clone, Copy)]
pub struct Number {
    pub minus: bool,
    pub size: u64,
}

// What a field counts as that is no number.
pub fn nought() -> Number
    ensures { result ≡ nought }
{
    Number {
        minus: false,
        size: 0,
    }
}

// The number of a field, where it is one; `-0` is 0.
pub fn number_of(run: &[u8]) -> Option<Number>
    ensures { result ≡ number_in (T.number run.now) }
{
    if let Some(digits) = run.strip_prefix(b"-") {
        let size = digits_of(digits)?;
        return Some(Number {
            minus: 0 < size,
            size,
        });
    }
    let size = digits_of(run)?;
    Some(Number { minus: false, size })
}
