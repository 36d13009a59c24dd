// The foundedness test and the test for a model, on the table's words under values that define every atom (01, "Reasons and jumps": "starting from
// none, repeatedly add p if some rule has body true, p its only true head atom and all positive body atoms added. All true atoms added: answer").
// Added atoms are marked in an array, atom p at index p - 1. The values do not change during the test, so the rules that can add an atom at all, the
// candidates, are found once. A candidate is one word: the index at which the list of its positive atoms begins, times 256, plus the index of its
// atom's mark. Meaning: crate `meaning`; how the candidates are walked: `specs/Walk.antt`. Memory: a word of 32 bits for each rule (1,024 at most), a byte
// for each atom (256 at most).
#![tactic(auto)]

ghost use Rattle.std.specs.Prelude.{◌≡◌, Bool, not, ◌||◌, ◌≤◌, length, take};
ghost use Rattle.meaning.specs.Lists.{all};
ghost use Rattle.meaning.specs.Answers.{model};
ghost use Rattle.meaning.specs.Foundedness.{atoms_to, founded};
ghost use Rattle.interpretation.specs.State.{truth_of, true_atoms, AllDefined};
ghost use Rattle.interpretation.specs.View.{valued};
ghost use Rattle.layout.specs.Accepted.{program_in, rule_in, RuleIn};
ghost use Rattle.layout.specs.Layout.{Members, Listed, atoms};
ghost use Rattle.foundation.specs.Walk.{marked, fits, sole_of, rest_true, could_of, place_of, positives, candidates_from, Stands, Fit, walk_marks, walk_left, covers, MarksAdded};

use interpretation::Value;
use layout::{Accepted, Table};
use rules::Step;

// Where the candidates stand: a word for each rule. A caller lends it to the test, which writes before it reads.
// Stays: a candidate is a place and an atom in one word, as the C interface has it: `candidates` is an array of `uint32_t` in its header.
pub type Candidates = [u32; Table::RULES];

pub fn is_true(values: &[u8; 256], p: usize) -> bool
    requires { (1 ≤ p) × (p ≤ 256) }
    ensures { result ≡ truth_of (valued values.now p) }
{
    interpretation::value_of(values, p) == Value::True
}

pub fn is_marked(marks: &[bool; 256], p: usize) -> bool
    requires { (1 ≤ p) × (p ≤ 256) }
    ensures { result ≡ marked marks.now p }
{
    marks[p - 1]
}

// All atoms of a list are marked.
pub fn all_marked(l: &[i32], marks: &[bool; 256]) -> bool
    requires { Members 256 l.now }
    ensures { result ≡ all (marked marks.now) (atoms l.now) }
{
    l.iter().all(|w| is_marked(marks, words::size(*w)))
}

// Atom h is false, or it is p.
pub fn is_fit(h: usize, p: usize, values: &[u8; 256]) -> bool
    requires { (1 ≤ h) × (h ≤ 256) }
    ensures { result ≡ fits (valued values.now) p h }
{
    h == p || !is_true(values, h)
}

// No atom of a list but p is true.
pub fn none_but(l: &[i32], p: usize, values: &[u8; 256]) -> bool
    requires { Members 256 l.now }
    ensures { result ≡ all (fits (valued values.now) p) (atoms l.now) }
{
    l.iter().all(|w| is_fit(words::size(*w), p, values))
}

// The only true atom of a list, if there is one: negated, it is the first false literal.
pub fn sole(l: &[i32], values: &[u8; 256]) -> Option<usize>
    requires { Members 256 l.now }
    ensures { result ≡ sole_of (valued values.now) (atoms l.now) }
{
    let k = literals::false_atom(l, false, values)?;
    let p = words::atom(l, k);
    none_but(l, p, values).then_some(p)
}

// The negated atoms and the aggregate literals of the rule at `at` are true.
pub fn rest_true(t: &Accepted, at: usize, values: &[u8; 256]) -> bool
    requires { RuleIn t.now at }
    ensures { result ≡ rest_true (valued values.now) (rule_in t.now at) }
{
    let i = layout::past(t.words, at);
    let j = layout::past(t.words, i);
    rules::with_rest(Step::Conflict, t, j, values) == Step::Conflict
}

// The atom that the rule at `at` adds once its positive atoms are marked, if it adds one.
pub fn could_add(t: &Accepted, at: usize, values: &[u8; 256]) -> Option<usize>
    requires { RuleIn t.now at }
    ensures { result ≡ could_of (valued values.now) (rule_in t.now at) }
{
    let head = layout::part(t.words, at);
    let p = sole(head, values)?;
    rest_true(t, at, values).then_some(p)
}

// The candidates of a table, in rule order, written from index 0 on. The result is their number.
pub fn collect(t: &Accepted, values: &[u8; 256], list: &mut [u32]) -> usize
    requires { (length list.old ≡ 1024) }
    ensures { Stands (candidates_from (valued values.now) t.now.words.now t.now.places.first t.now.places.rules) list.new result }
{
    let mut number: usize = 0;
    let mut at = t.places.first;
    for _ in 0..t.places.rules {
        if let Some(p) = could_add(t, at, values) {
            let place = layout::past(t.words, at) * 256;
            let word = place + (p - 1);
            list[number] = word as u32;
            number += 1;
        }
        at = layout::past_rule(t.words, at);
    }
    number
}

// All positive atoms of a candidate are marked.
pub fn is_ready(t: &[i32], c: u32, marks: &[bool; 256]) -> bool
    requires { Listed 256 t.now (place_of c) }
    ensures { result ≡ all (marked marks.now) (positives t.now c) }
{
    let place = (c / 256) as usize;
    let positive = layout::part(t, place);
    all_marked(positive, marks)
}

// One walk over the first `number` candidates: each atom that one adds is marked at once. Those whose atom is not marked when the walk has passed
// them are left, and written from index 0 on; the others have nothing more to add. The result is the number of those left.
pub fn walk(t: &[i32], number: usize, list: &mut [u32], marks: &mut [bool; 256]) -> usize
    requires { Fit t.now (take number list.old) × (number ≤ 1024) × (length list.old ≡ 1024) }
    ensures { (marked marks.new ≡ walk_marks t.now (take number list.old) (marked marks.old))
        × Stands (walk_left t.now (take number list.old) (marked marks.old)) list.new result }
{
    let mut left: usize = 0;
    for k in 0..number {
        let c = list[k];
        let i = (c % 256) as usize;
        if !marks[i] {
            if is_ready(t, c, marks) {
                marks[i] = true;
            } else {
                list[left] = c;
                left += 1;
            }
        }
    }
    left
}

// The atoms that get added: walks repeat until one leaves all candidates.
pub fn added(t: &Accepted, values: &[u8; 256], list: &mut Candidates) -> [bool; 256]
    requires { AllDefined t.now.places.atoms (valued values.now) }
    ensures { MarksAdded result (program_in t.now) (true_atoms t.now.places.atoms (valued values.now)) }
{
    let mut number = collect(t, values, list);
    let mut marks = [false; 256];
    loop {
        let left = walk(t.words, number, list, &mut marks);
        if left == number {
            return marks;
        }
        number = left;
    }
}

// Atom p is false, or it is marked.
pub fn is_covered(p: usize, values: &[u8; 256], marks: &[bool; 256]) -> bool
    requires { (1 ≤ p) × (p ≤ 256) }
    ensures { result ≡ covers (valued values.now) (marked marks.now) p }
{
    !is_true(values, p) || is_marked(marks, p)
}

// All true atoms of 1 to n are marked.
pub fn all_covered(n: usize, values: &[u8; 256], marks: &[bool; 256]) -> bool
    requires { n ≤ 256 }
    ensures { result ≡ all (covers (valued values.now) (marked marks.now)) (atoms_to n) }
{
    (1..n + 1).all(|p| is_covered(p, values, marks))
}

// The foundedness test. What the list held before does not matter.
pub fn founded_by(t: &Accepted, values: &[u8; 256], list: &mut Candidates) -> bool
    requires { AllDefined t.now.places.atoms (valued values.now) }
    ensures { result ≡ founded (program_in t.now) t.now.places.atoms (true_atoms t.now.places.atoms (valued values.now)) }
{
    let marks = added(t, values, list);
    let n = t.places.atoms;
    all_covered(n, values, &marks)
}

// The foundedness test with a list of its own.
pub fn founded(t: &Accepted, values: &[u8; 256]) -> bool
    requires { AllDefined t.now.places.atoms (valued values.now) }
    ensures { result ≡ founded (program_in t.now) t.now.places.atoms (true_atoms t.now.places.atoms (valued values.now)) }
{
    let mut list = [0u32; Table::RULES];
    founded_by(t, values, &mut list)
}

// Whether each rule holds: with all atoms defined, one that does not hold is in conflict.
pub fn is_model(t: &Accepted, values: &[u8; 256]) -> bool
    requires { AllDefined t.now.places.atoms (valued values.now) }
    ensures { result ≡ model (program_in t.now) (true_atoms t.now.places.atoms (valued values.now)) }
{
    let mut at = t.places.first;
    for _ in 0..t.places.rules {
        if rules::demand(t, at, values) == Step::Conflict {
            return false;
        }
        at = layout::past_rule(t.words, at);
    }
    true
}
