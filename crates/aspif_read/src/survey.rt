// The first pass: every line is judged, and what the table takes is counted; nothing is written.
ghost use Rattle.std.specs.Prelude.{◌≡◌, ◌≤◌, drop, length};
ghost use Rattle.aspif.specs.Lines.{lines_of};
ghost use Rattle.aspif_read.specs.Survey.{Fitting, no_rules, with_rule, in_range, after_line, refusal_of, closed_of, survey_from};

use crate::judge::{Fault, Judged, judge};
use crate::lines::{line_after, line_end};
use aspif_scan::kind::{Kind, kind_of};
use results::Refusal;

// The table so far: its words, aggregates and rules, and the highest atom named.
#[derive(Clone, Copy)]
pub struct Totals {
    pub words: usize,
    pub aggregates: usize,
    pub rules: usize,
    pub top: usize,
}

// No rules yet: three counts.
fn no_rules() -> Totals
    ensures { result ≡ no_rules }
{
    Totals {
        words: 3,
        aggregates: 0,
        rules: 0,
        top: 0,
    }
}

// The table with one rule more.
fn with_rule(t: Totals, rule: Judged) -> Totals
    requires { Fitting t × (rule.words ≤ 300) × (rule.aggregates ≤ 1) }
    ensures { result ≡ with_rule t rule.words rule.aggregates rule.top }
{
    Totals {
        words: t.words + rule.words,
        aggregates: t.aggregates + rule.aggregates,
        rules: t.rules + 1,
        top: t.top.max(rule.top),
    }
}

// Whether a table is in 01's ranges.
fn in_range(t: Totals) -> bool
    ensures { result ≡ in_range t }
{
    (t.aggregates <= 64) & ((t.rules <= 1024) & (t.words <= 16384))
}

// After one line: the table so far, or none after the closing 0.
fn after_line(t: Totals, line: &[u8]) -> Result<Option<Totals>, Fault>
    requires { Fitting t }
    ensures { result ≡ after_line t line.now }
{
    match kind_of(line) {
        Kind::Closing => Ok(None),
        Kind::Comment => Ok(Some(t)),
        Kind::Other => {
            let rule = judge(line)?;
            let next = with_rule(t, rule);
            if in_range(next) {
                return Ok(Some(next));
            }
            Err(Fault::Beyond)
        }
    }
}

// The refusal of line k.
fn refusal(fault: Fault, k: usize) -> Refusal
    ensures { result ≡ refusal_of fault k }
{
    match fault {
        Fault::Beyond => Refusal::BeyondRange(k),
        Fault::Outside => Refusal::OutsideSubset(k),
    }
}

// After the closing 0, which ends at `end`: nothing may follow it. `k` is the next line.
fn closed(text: &[u8], end: usize, k: usize, t: Totals) -> Result<Totals, Refusal>
    requires { end ≤ length text.now }
    ensures { result ≡ closed_of k t (lines_of (drop end text.now)) }
{
    if end < text.len() {
        return Err(Refusal::OutsideSubset(k));
    }
    Ok(t)
}

// The table of the lines from `from` on, of which the first is line 2; or the refusal of a line.
pub fn survey_lines(text: &[u8], from: usize) -> Result<Totals, Refusal>
    requires { (from ≤ length text.now) × (2 ≤ from) }
    ensures { result ≡ survey_from 2 no_rules (lines_of (drop from text.now)) }
{
    let mut t = no_rules();
    let mut k: usize = 2;
    let mut at = from;
    while at < text.len() {
        let end = line_end(text, at);
        let step = after_line(t, &text[at..end]);
        let next = line_after(text, end);
        match step {
            Ok(Some(totals)) => t = totals,
            Ok(None) => return closed(text, next, k + 1, t),
            Err(fault) => return Err(refusal(fault, k)),
        }
        at = next;
        k += 1;
    }
    Err(Refusal::OutsideSubset(k))
}
