// A text and a position in it: where its next line begins. The functions over it are few and thin: each takes it apart and calls a function on the slice
// and the number. `survey_from`, whose own parameters are those, serves every other caller.
ghost use Rattle.std.specs.Prelude.{◌≡◌, ◌≤◌, drop, length};
ghost use Rattle.aspif.specs.Lines.{lines_of};
ghost use Rattle.aspif_read.specs.Survey.{no_rules, survey_from};

use crate::survey::{Totals, survey_lines};
use results::Refusal;

#[derive(Clone, Copy)]
pub struct Reader<'a> {
    pub text: &'a [u8],
    pub at: usize,
}

fn new<'a>(text: &'a [u8], at: usize) -> Reader<'a>
    ensures { (result.text ≡ text.entry) × (result.at ≡ at) }
{
    Reader { text, at }
}

// The first pass over the lines that are left, of which the first is line 2.
fn survey<'a>(r: Reader<'a>) -> Result<Totals, Refusal>
    requires { (r.at ≤ length r.text.now) × (2 ≤ r.at) }
    ensures { result ≡ survey_from 2 no_rules (lines_of (drop r.entry.at r.entry.text.now)) }
{
    survey_lines(r.text, r.at)
}

// The same, of a text and a position.
pub fn survey_from(text: &[u8], from: usize) -> Result<Totals, Refusal>
    requires { (from ≤ length text.now) × (2 ≤ from) }
    ensures { result ≡ survey_from 2 no_rules (lines_of (drop from text.now)) }
{
    survey(new(text, from))
}
