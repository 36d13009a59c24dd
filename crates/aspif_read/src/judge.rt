// A line that is neither the closing 0 nor a comment: outside the subset, beyond 01's ranges, or a rule with the words that it takes.
ghost use Rattle.std.specs.Prelude.{◌≡◌, ◌≤◌};
ghost use Rattle.aspif_scan.specs.Machine.{start_of, read_by};
ghost use Rattle.aspif_read.specs.Survey.{is_whole, weighs, own_words, judged_of, judged_line};

use crate::taking::take;
use aspif_scan::machine::{Stage, State};
use aspif_scan::marks::{count, light};

// A rule by itself: how many words it and its aggregate take, how many aggregates it has, and the highest atom it names.
#[derive(Clone, Copy)]
pub struct Judged {
    pub words: usize,
    pub aggregates: usize,
    pub top: usize,
}

// Why a line is refused: it is beyond 01's ranges, or outside the subset.
#[derive(Clone, Copy)]
pub enum Fault {
    Beyond,
    Outside,
}

// Whether a statement is whole.
fn whole(stage: Stage) -> bool
    ensures { result ≡ is_whole stage }
{
    matches!(stage, Stage::NormalEnd | Stage::WeightEnd)
}

// How many aggregates a statement has.
pub fn aggregates(stage: Stage) -> usize
    ensures value { result ≡ weighs stage }
    ensures upper_bound { result ≤ 1 }
{
    usize::from(matches!(stage, Stage::WeightEnd))
}

// The words that a rule takes for its own aggregate: none, or its literal, four words and two for each element.
#[tactic(auto, unfolding(crate::specs::Survey::own_words))]
fn own_words(own: usize, elements: usize) -> usize
    requires { elements ≤ 256 }
    ensures value { result ≡ own_words own elements }
    ensures upper_bound { result ≤ 600 }
{
    if own == 0 { 0 } else { 5 + 2 * elements }
}

// The judgement, by the machine's last state and the marks.
#[tactic(auto, unfolding(crate::specs::Survey::judged_of))]
pub fn judged_by(s: State, marks: &[u32; 1280]) -> Result<Judged, Fault>
    ensures { result ≡ judged_of s marks.now }
{
    let stage = s.stage;
    if !whole(stage) {
        return Err(Fault::Outside);
    }
    let head = count(marks, 0);
    let positive = count(marks, 1);
    let negated = count(marks, 2);
    let elements = count(marks, 3);
    let few = (head <= 16) & ((positive <= 64) & ((negated <= 64) & (elements <= 64)));
    if !(s.within & (few & light(marks))) {
        return Err(Fault::Beyond);
    }
    let own = aggregates(stage);
    let more = own_words(own, elements);
    let words = 4 + head + positive + negated + more;
    Ok(Judged {
        words,
        aggregates: own,
        top: s.top as usize,
    })
}

// The judgement of a line.
pub fn judge(line: &[u8]) -> Result<Judged, Fault>
    ensures { result ≡ judged_line line.now }
{
    let mut none = [0i32; 1];
    take(line, true, false, 0, 0, &mut none).judged
}
