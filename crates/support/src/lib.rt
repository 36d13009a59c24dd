// Steps d and e at one atom (01, "Propagation" and "Reasons and jumps"), read from the table's words under the values of a partial interpretation:
// whether rules support the atom, what follows, and why. Meaning: `specs/Asking.antt`; laws for callers' proofs: `proofs/Atom.antt`,
// `proofs/Forcing.antt`. Nothing here writes.
#![tactic(auto)]

mod atoms;

ghost use Rattle.std.specs.Prelude.{◌≡◌, ◌≤◌, ◌<◌, length, true};
ghost use Rattle.levels.specs.View.{row, rows};
ghost use Rattle.interpretation.specs.View.{valued};
ghost use Rattle.meaning.specs.Lists.{has};
ghost use Rattle.layout.specs.Accepted.{program_in, rule_in, RuleIn};
ghost use Rattle.layout.specs.Layout.{Members};
ghost use Rattle.heads.specs.Heads.{Listed};
ghost use Rattle.valuing.specs.Reasons.{reason_of};
ghost use Rattle.literals.specs.Scan.{literal_lits, first_false};
ghost use Rattle.support.specs.Asking.{witness_of, supports_of, refuted_by, body_witness, witness_at, Candidates, skipped, some_rule, forced_of, sole_by, true_by, ask_of, blamed_by, blame_of};

use heads::Lists;
use interpretation::Value;
use layout::Accepted;

// What steps d and e ask at an atom: nothing; it is true and no rule supports it; it is undefined and no rule supports it, so it becomes false; or it is
// true and the rule at that index of the table alone supports it, and has undefined atoms.
// Stays: four outcomes of one question, three of which hold nothing.
#[derive(Clone, Copy, Debug, PartialEq, Eq)]
pub enum Ask {
    Nothing,
    Conflict,
    Unset,
    Sole(usize),
}

// Why a rule fails to support an atom: an atom of its head or body, or an aggregate literal by its index in the list.
#[derive(Clone, Copy, Debug, PartialEq, Eq)]
pub enum Witness {
    Atom(usize),
    Literal(usize),
}

// The atom that step e sets next at the rule at `at`, and its value: "that rule's other undefined head atoms become false, then its positive body atoms still undefined
// true, then its negated atoms still undefined false".
pub fn forced(t: &Accepted, at: usize, values: &[u8; 256]) -> Option<(usize, bool)>
    requires { RuleIn t.now at }
    ensures { result ≡ forced_of (valued values.now) (rule_in t.now at) }
{
    let head = layout::plain_part(t.words, at);
    if let Some(q) = atoms::first_with(head, Value::Undefined, values) {
        return Some((q, false));
    }
    let second = layout::plain_past(t.words, at);
    let plain = layout::plain_part(t.words, second);
    if let Some(q) = atoms::first_with(plain, Value::Undefined, values) {
        return Some((q, true));
    }
    let third = layout::plain_past(t.words, second);
    let negated = layout::plain_part(t.words, third);
    if let Some(q) = atoms::first_with(negated, Value::Undefined, values) {
        return Some((q, false));
    }
    None
}

// The first false aggregate literal of a list, as a witness, if there is one.
pub fn false_literal(t: &Accepted, l: &[i32], values: &[u8; 256]) -> Option<Witness>
    requires { Members t.now.places.aggregates l.now }
    ensures { result ≡ refuted_by (first_false (valued values.now) (literal_lits t.now.words.now l.now)) }
{
    let k = literals::false_literal(t, l, values)?;
    Some(Witness::Literal(k))
}

// The first false body literal of the rule at `at`, if there is one, in table order: positive, negated, aggregate literals.
pub fn body_witness(t: &Accepted, at: usize, values: &[u8; 256]) -> Option<Witness>
    requires { RuleIn t.now at }
    ensures { result ≡ body_witness (valued values.now) t.now.words.now at }
{
    let second = layout::plain_past(t.words, at);
    let plain = layout::plain_part(t.words, second);
    if let Some(q) = atoms::first_with(plain, Value::False, values) {
        return Some(Witness::Atom(q));
    }
    let third = layout::plain_past(t.words, second);
    let negated = layout::plain_part(t.words, third);
    if let Some(q) = atoms::first_with(negated, Value::True, values) {
        return Some(Witness::Atom(q));
    }
    let fourth = layout::plain_past(t.words, third);
    let aggregates = layout::part(t.words, fourth);
    false_literal(t, aggregates, values)
}

// The witness of the rule at `at`, if it fails to support p: "its first other true head atom, or else its first false body literal".
pub fn witness_of(t: &Accepted, at: usize, p: usize, values: &[u8; 256]) -> Option<Witness>
    requires { RuleIn t.now at }
    ensures { result ≡ witness_at (valued values.now) t.now.words.now p at }
{
    let head = layout::plain_part(t.words, at);
    if let Some(q) = atoms::other_true(head, p, values) {
        return Some(Witness::Atom(q));
    }
    body_witness(t, at, values)
}

// Whether the rule at `at`, which has p in its head, supports it.
pub fn supports(t: &Accepted, at: usize, p: usize, values: &[u8; 256]) -> bool
    requires { RuleIn t.now at × (has p (rule_in t.now at).head ≡ true) }
    ensures { result ≡ supports_of (valued values.now) p (rule_in t.now at) }
{
    witness_of(t, at, p, values).is_none()
}

// How many of the rules at `l` come before the first that supports p. They all have p in the head.
pub fn first_support(t: &Accepted, l: &[u16], p: usize, values: &[u8; 256]) -> usize
    requires { Candidates t.now.words.now t.now.places p l.now }
    ensures { result ≡ skipped (supports_of (valued values.now) p) t.now.words.now l.now }
{
    let first = l
        .iter()
        .position(|at| supports(t, usize::from(*at), p, values));
    first.unwrap_or(l.len())
}

// Whether one of them does.
pub fn supported(t: &Accepted, l: &[u16], p: usize, values: &[u8; 256]) -> bool
    requires { Candidates t.now.words.now t.now.places p l.now }
    ensures { result ≡ some_rule (supports_of (valued values.now) p) t.now.words.now l.now }
{
    first_support(t, l, p, values) < l.len()
}

// What step e asks where the rule at `at` supports p, and no other but perhaps one of those at `others`.
pub fn sole(t: &Accepted, at: usize, others: &[u16], p: usize, values: &[u8; 256]) -> Ask
    requires { RuleIn t.now at × Candidates t.now.words.now t.now.places p others.now }
    ensures { result ≡ sole_by at (some_rule (supports_of (valued values.now) p) t.now.words.now others.now) (forced_of (valued values.now) (rule_in t.now at)) }
{
    if forced(t, at, values).is_none() || supported(t, others, p, values) {
        return Ask::Nothing;
    }
    Ask::Sole(at)
}

// What steps d and e ask at p, which is true, the rules at `l` being those with p in the head.
pub fn asked_true(t: &Accepted, l: &[u16], p: usize, values: &[u8; 256]) -> Ask
    requires { Candidates t.now.words.now t.now.places p l.now }
    ensures { result ≡ true_by (supports_of (valued values.now) p) (forced_of (valued values.now)) t.now.words.now l.now }
{
    let k = first_support(t, l, p, values);
    if k < l.len() {
        let at = l[k] as usize;
        let next = k + 1;
        let others = &l[next..];
        return sole(t, at, others, p, values);
    }
    Ask::Conflict
}

// What steps d and e ask at atom p.
pub fn asked(t: &Accepted, lists: &Lists, p: usize, values: &[u8; 256]) -> Ask
    requires { Listed t.now.words.now t.now.places lists.now × (1 ≤ p) × (p ≤ t.now.places.atoms) }
    ensures { result ≡ ask_of t.now.words.now t.now.places (valued values.now) p }
{
    match interpretation::value_of(values, p) {
        Value::False => Ask::Nothing,
        Value::Undefined => {
            let all = &lists[..];
            let l = heads::list(all, p);
            if supported(t, l, p, values) {
                return Ask::Nothing;
            }
            Ask::Unset
        }
        Value::True => {
            let all = &lists[..];
            let l = heads::list(all, p);
            asked_true(t, l, p, values)
        }
    }
}

// The share of the rule at `at`, which has p in its head, in the blame of p, joined to a set: its witness's reason.
pub fn blamed(
    t: &Accepted,
    at: usize,
    p: usize,
    values: &[u8; 256],
    reasons: &[[u64; 4]; 256],
    more: [u64; 4],
) -> [u64; 4]
    requires { RuleIn t.now at × (has p (rule_in t.now at).head ≡ true) }
    ensures { row result ≡ blamed_by (witness_of (valued values.now) p) (reason_of (valued values.now) (rows reasons.now)) p (rule_in t.now at) (row more) }
{
    match witness_of(t, at, p, values) {
        None => more,
        Some(Witness::Atom(q)) => literals::atom_reason(q, values, reasons, more),
        Some(Witness::Literal(k)) => {
            let place = layout::literals_at(t.words, at);
            let l = layout::part(t.words, place);
            literals::literal_reason(t, l, k, values, reasons, more)
        }
    }
}

// "the union of the witnesses' reasons over all rules with p in the head"
// Stays: an index, so that an edit can begin at the second rule (must-fail/first_rule_left_out).
pub fn blame(
    t: &Accepted,
    lists: &Lists,
    p: usize,
    values: &[u8; 256],
    reasons: &[[u64; 4]; 256],
) -> [u64; 4]
    requires { Listed t.now.words.now t.now.places lists.now × (1 ≤ p) × (p ≤ t.now.places.atoms) }
    ensures { row result ≡ blame_of (valued values.now) (rows reasons.now) p (program_in t.now) }
{
    let all = &lists[..];
    let l = heads::list(all, p);
    let mut acc = levels::empty();
    for k in 0..l.len() {
        let at = usize::from(l[k]);
        let more = blamed(t, at, p, values, reasons, acc);
        acc = more;
    }
    acc
}
