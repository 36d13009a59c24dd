// Reading aspif (02, Wish 2): a text of the subset becomes our words. A first pass judges every line and counts; only an accepted text is written,
// the aggregates by a second pass and the rules by a third. Meaning: `specs/Reads.antt`; a text's own meaning: `aspif`'s `Lines`.
#![tactic(auto)]

ghost use Rattle.std.specs.Prelude.{◌≡◌, ◌≤◌, drop, length};
ghost use Rattle.aspif.specs.Lines.{lines_of};
ghost use Rattle.aspif_read.specs.Survey.{Fitting};
ghost use Rattle.aspif_read.specs.Writing.{Put, table_from, weighed_in};
ghost use Rattle.aspif_read.specs.Reads.{Reads};

use crate::lines::{line_after, line_end};
use crate::putting::{put, put_section};
use crate::reader::survey_from;
use crate::survey::Totals;
use aspif_scan::kind::same;
use results::Refusal;

mod judge;
mod lines;
mod putting;
mod reader;
mod survey;
mod taking;

// The words of a text whose lines from `from` on have these totals, at the front; how many they are.
fn write(text: &[u8], from: usize, totals: Totals, words: &mut [i32]) -> usize
    requires { (from ≤ length text.now) × Fitting totals × (weighed_in (lines_of (drop from text.now)) ≤ 64) }
    ensures { Put words.old 0 (table_from totals (lines_of (drop from text.now))) result words.new }
{
    let after_atoms = put(totals.top, 0, words);
    let after_count = put(totals.aggregates, after_atoms, words);
    let after_aggregates = put_section(text, from, false, after_count, words);
    let after_rules = put(totals.rules, after_aggregates, words);
    put_section(text, from, true, after_rules, words)
}

// The words of an aspif text, at the front of a buffer of at least 16,384, and how many they are; or a refusal, 25, 14 or 15, which writes nothing.
pub fn read(text: &[u8], words: &mut [i32]) -> Result<usize, Refusal>
    ensures { Reads text.now words.old result words.new }
{
    if words.len() < 16384 {
        return Err(Refusal::ShortWords);
    }
    let end = line_end(text, 0);
    if !same(&text[0..end], b"asp 1 0 0") {
        return Err(Refusal::OutsideSubset(1));
    }
    let from = line_after(text, end);
    let totals = survey_from(text, from)?;
    Ok(write(text, from, totals, words))
}
