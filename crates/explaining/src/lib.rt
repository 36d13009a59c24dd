// The foundedness test by rounds (02, request 1): why each true atom of an answer is in the plan, its round and its rule, on the table's words under values that
// define every atom. Both are kept in the atom's record. It is made once, after the answer: the search asks only yes or no, and has that from
// `foundation::founded_by`, which keeps no rounds and adds at once what it can. Both find what a rule could add by `foundation::could_add`, and they agree: a model
// is founded exactly if each true atom has a round (`founded_by_rounds` in crate `rounds`).
// The values do not change, so what each rule could add is found once: one word for each rule, 0 where it adds nothing, else a candidate of crate `foundation`.
// Then each round walks the rules in their order. An atom that has a round is not marked again, so its rule is the lowest of that round; and a round looks only at
// marks of earlier rounds, so what it adds itself is not seen by it. The marks are an array of rounds and rules, which the walks are lent, and go into the records
// when the last round is done. Meaning: crate `rounds`; how the rules are walked: `specs/Walk.antt`; how the records are read: `specs/Kept.antt`. Memory: a word of
// 32 bits for each rule (1,024 at most), lent by the caller; two of 16 bits for each atom (256 at most).
#![tactic(auto)]

ghost use Rattle.std.specs.Prelude.{◌≡◌, false, ◌≤◌, length, take};
ghost use Rattle.meaning.specs.Lists.{all};
ghost use Rattle.interpretation.specs.State.{true_atoms, AllDefined};
ghost use Rattle.interpretation.specs.View.{valued};
ghost use Rattle.layout.specs.Accepted.{program_in, rule_in, RuleIn};
ghost use Rattle.layout.specs.Layout.{Members, atoms, pos_at};
ghost use Rattle.foundation.specs.Walk.{could_of, Stands};
ghost use Rattle.rounds.specs.Rounds.{no_whys, why_of, whys_in, Recorded};
ghost use Rattle.rounds.specs.Marks.{earlier, marks_after};
ghost use Rattle.explaining.specs.Walk.{code_by, codes_from, due, walk_codes, FitCode, FitCodes};
ghost use Rattle.explaining.specs.Kept.{kept_in, Kept};

use foundation::Candidates;
use interpretation::{Interpretation, Record};
use layout::Accepted;
use rounds::Why;

// The marks: the rounds and the rules so far, atom p's at index p - 1; 0 where it has none yet.

// Atom p is marked, with a round before `round`.
pub fn is_earlier(p: usize, marks: &[Why; 256], round: u16) -> bool
    requires { (1 ≤ p) × (p ≤ 256) }
    ensures { result ≡ earlier (whys_in marks.now) round p }
{
    let mark = marks[p - 1].round;
    0 < mark && mark < round
}

// All atoms of a list are.
pub fn all_earlier(l: &[i32], marks: &[Why; 256], round: u16) -> bool
    requires { Members 256 l.now }
    ensures { result ≡ all (earlier (whys_in marks.now) round) (atoms l.now) }
{
    l.iter().all(|w| is_earlier(words::size(*w), marks, round))
}

// The word of the rule at `at`: the candidate that it is, or 0 where it adds nothing.
// Stays: the words stand in the array of candidates that the C interface lends, and a rule that adds nothing has its place there too.
pub fn code(t: &Accepted, at: usize, values: &[u8; 256]) -> u32
    requires { RuleIn t.now at }
    ensures { result ≡ code_by (could_of (valued values.now) (rule_in t.now at)) (pos_at t.now.words.now at) }
{
    let Some(p) = foundation::could_add(t, at, values) else {
        return 0;
    };
    let place = layout::past(t.words, at) * 256;
    (place + (p - 1)) as u32
}

// The words of all rules, rule i's at index i - 1.
pub fn collect(t: &Accepted, values: &[u8; 256], list: &mut [u32])
    requires { (length list.old ≡ 1024) }
    ensures { Stands (codes_from (valued values.now) t.now.words.now t.now.places.first t.now.places.rules) list.new t.now.places.rules }
{
    let mut at = t.places.first;
    for k in 0..t.places.rules {
        list[k] = code(t, at, values);
        at = layout::past_rule(t.words, at);
    }
}

// The rule with this word adds its atom in this round: the atom has no round yet, and its positive atoms have earlier ones.
pub fn is_due(t: &[i32], c: u32, marks: &[Why; 256], round: u16) -> bool
    requires { FitCode t.now c }
    ensures { result ≡ due t.now round c (whys_in marks.now) }
{
    if c == 0 {
        return false;
    }
    let i = (c % 256) as usize;
    if marks[i].round != 0 {
        return false;
    }
    let place = (c / 256) as usize;
    let positive = layout::part(t, place);
    all_earlier(positive, marks, round)
}

// One round: a walk over the rules in their order. The result is whether it has added an atom.
pub fn walk(t: &[i32], list: &[u32], number: usize, round: u16, marks: &mut [Why; 256]) -> bool
    requires { FitCodes t.now (take number list.now) × (number ≤ 1024) × (number ≤ length list.now) }
    ensures { (whys_in marks.new ≡ walk_codes t.now round 1 (take number list.now) (whys_in marks.old))
        × (result ≡ false → whys_in marks.new ≡ whys_in marks.old) }
{
    let mut any = false;
    for k in 0..number {
        let c = list[k];
        if is_due(t, c, marks, round) {
            let i = (c % 256) as usize;
            let rule = k as u16 + 1;
            marks[i] = Why { round, rule };
            any = true;
        }
    }
    any
}

// The rounds 1 to N, up to the first that adds nothing. What the list held before does not matter.
pub fn mark(t: &Accepted, values: &[u8; 256], list: &mut Candidates) -> [Why; 256]
    requires { AllDefined t.now.places.atoms (valued values.now) }
    ensures { whys_in result ≡ marks_after (program_in t.now) (true_atoms t.now.places.atoms (valued values.now)) t.now.places.atoms }
{
    collect(t, values, list);
    let mut marks = [Why { round: 0, rule: 0 }; 256];
    for k in 0..t.places.atoms {
        let round = k as u16 + 1;
        if !walk(t.words, list, t.places.rules, round, &mut marks) {
            return marks;
        }
    }
    marks
}

// No atom has a round or a rule.
pub fn nothing() -> [Why; 256]
    ensures { Recorded result no_whys }
{
    let none = Why { round: 0, rule: 0 };
    [none; 256]
}

// The rounds and the rules that the records hold, atom p's at index p - 1.
pub fn whys_of(it: Interpretation) -> [Why; 256]
    ensures { Recorded result (kept_in it.records) }
{
    let mut whys = nothing();
    for i in 0..256 {
        let round = it.records[i].round;
        let rule = it.records[i].rule;
        whys[i] = Why { round, rule };
    }
    whys
}

// An answer with the round and the rule of each atom in its record: those of the definition for the true atoms, and 0 and 0 for all others. Nothing else of the
// interpretation changes. What the list held before does not matter.
pub fn explain(t: &Accepted, mut it: Interpretation, list: &mut Candidates) -> Interpretation
    requires { AllDefined t.now.places.atoms (valued it.values) }
    ensures { Kept it result (why_of (program_in t.now) t.now.places.atoms (true_atoms t.now.places.atoms (valued it.values))) }
{
    let marks = mark(t, &it.values, list);
    for i in 0..256 {
        let level = it.records[i].level;
        let Why { round, rule } = marks[i];
        it.records[i] = Record { level, round, rule };
    }
    it
}
