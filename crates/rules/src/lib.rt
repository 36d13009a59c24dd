// Steps a to c at one rule, read from the table's words under the values of a partial interpretation (01, "Propagation" and "Reasons and jumps"):
// what the rule asks, and the reason for it. Meaning: `specs/Demand.antt`; laws for callers' proofs: `proofs/Rule.antt` and `proofs/Alone.antt`.
// Nothing here writes.
#![tactic(auto)]

ghost use Rattle.std.specs.Prelude.{◌≡◌, Bool, false, not, ◌++◌, ◌≤◌, length};
ghost use Rattle.levels.specs.View.{row, rows};
ghost use Rattle.interpretation.specs.View.{valued};
ghost use Rattle.layout.specs.Accepted.{rule_in, RuleIn};
ghost use Rattle.layout.specs.Layout.{Members, Plain, Listed, PlainAt, part_at, past_at};
ghost use Rattle.valuing.specs.Reasons.{reasons_of};
ghost use Rattle.steps.specs.Steps.{head_lits, body_lits};
ghost use Rattle.literals.specs.Scan.{atom_lits, literal_lits};
ghost use Rattle.rules.specs.Demand.{together, is_conflict, asks, demand_of};

use interpretation::Value;
use layout::Accepted;

// What a rule asks: nothing, it is in conflict, or an atom is to be set.
// Stays: three outcomes of one question, two of which hold nothing; an Option around the other two would hide the third.
#[derive(Clone, Copy, Debug, PartialEq, Eq)]
pub enum Step {
    Nothing,
    Conflict,
    Set(usize, bool),
}

// What two parts of a rule ask together: two literals cannot both be the one that must become false.
pub fn together(d: Step, e: Step) -> Step
    ensures { result ≡ together d e }
{
    match (d, e) {
        (Step::Conflict, other) | (other, Step::Conflict) => other,
        _ => Step::Nothing,
    }
}

// What a list of atoms asks, taken as literals, plain or negated: one that must become false gets the value that its sign denies.
pub fn atoms_ask(l: &[i32], sign: bool, values: &[u8; 256]) -> Step
    requires { Members 256 l.now × Plain l.now }
    ensures { result ≡ asks (valued values.now) (atom_lits sign l.now) }
{
    // The undefined atom passed so far, 0 if there is none.
    // Stays: as an Option, the loop on its own took more than twice as long on lists of six atoms and more.
    let mut only: usize = 0;
    for i in 0..l.len() {
        let b = literals::byte_at(l, i, values);
        if b == 0 {
            if only != 0 {
                return Step::Nothing;
            }
            only = words::number(l, i);
        } else {
            // The rule holds: it is passed over.
            if !literals::affirms(sign, b) {
                return Step::Nothing;
            }
        }
    }
    if only == 0 {
        return Step::Conflict;
    }
    Step::Set(only, !sign)
}

// Whether all atoms of a list are true, taken as literals, plain or negated.
pub fn all_true(l: &[i32], sign: bool, values: &[u8; 256]) -> bool
    requires { Members 256 l.now × Plain l.now }
    ensures { result ≡ is_conflict (asks (valued values.now) (atom_lits sign l.now)) }
{
    (0..l.len()).all(|i| literals::affirms(sign, literals::byte_at(l, i, values)))
}

// What a list of aggregate literals asks: none of them is ever set, so one that is not true means that nothing is asked.
pub fn literals_ask(t: &Accepted, l: &[i32], values: &[u8; 256]) -> Step
    requires { Members t.now.places.aggregates l.now }
    ensures { result ≡ asks (valued values.now) (literal_lits t.now.words.now l.now) }
{
    let holds = |k| literals::literal_value(t, l, k, values) == Value::True;
    if (0..l.len()).all(holds) {
        Step::Conflict
    } else {
        Step::Nothing
    }
}

// What part of a rule asks, with the list of atoms at `at` too.
pub fn with_list(so: Step, t: &[i32], at: usize, sign: bool, values: &[u8; 256]) -> Step
    requires { Listed 256 t.now at × PlainAt t.now at }
    ensures { result ≡ together so (asks (valued values.now) (atom_lits sign (part_at t.now at))) }
{
    let l = layout::plain_part(t, at);
    match so {
        Step::Nothing => Step::Nothing,
        Step::Conflict => atoms_ask(l, sign, values),
        // One literal is undefined already: all others must be true.
        Step::Set(_, _) => {
            if all_true(l, sign, values) {
                return so;
            }
            Step::Nothing
        }
    }
}

// What part of a rule asks, with its negated atoms, listed at `at`, and its aggregate literals too. Few rules come this far: apart from `demand`, it
// keeps that one small and fast.
pub fn with_rest(so: Step, t: &Accepted, at: usize, values: &[u8; 256]) -> Step
    requires { Listed 256 t.now.words.now at × Listed t.now.places.aggregates t.now.words.now (past_at t.now.words.now at) × PlainAt t.now.words.now at }
    ensures { result ≡ together (together so (asks (valued values.now) (atom_lits false (part_at t.now.words.now at)))) (asks (valued values.now) (literal_lits t.now.words.now (part_at t.now.words.now (past_at t.now.words.now at)))) }
{
    let n = with_list(so, t.words, at, false, values);
    if n == Step::Nothing {
        return Step::Nothing;
    }
    let k = layout::plain_past(t.words, at);
    let aggregates = layout::part(t.words, k);
    let d = literals_ask(t, aggregates, values);
    together(n, d)
}

// What the rule asks that begins at `at`: its head atoms negated, then its body. As soon as nothing can be asked, nothing more is read.
pub fn demand(t: &Accepted, at: usize, values: &[u8; 256]) -> Step
    requires { RuleIn t.now at }
    ensures { result ≡ demand_of (valued values.now) (rule_in t.now at) }
{
    let h = with_list(Step::Conflict, t.words, at, false, values);
    if h == Step::Nothing {
        return Step::Nothing;
    }
    let i = layout::plain_past(t.words, at);
    let p = with_list(h, t.words, i, true, values);
    if p == Step::Nothing {
        return Step::Nothing;
    }
    let j = layout::plain_past(t.words, i);
    with_rest(p, t, j, values)
}

// The reason of what steps a to c do at the rule that begins at `at`: the union over its literals. The one that is set is undefined and adds nothing.
pub fn reason(t: &Accepted, at: usize, values: &[u8; 256], reasons: &[[u64; 4]; 256]) -> [u64; 4]
    requires { RuleIn t.now at }
    ensures { row result ≡ reasons_of (valued values.now) (rows reasons.now) (head_lits (rule_in t.now at) ++ body_lits (rule_in t.now at)) }
{
    let head = layout::part(t.words, at);
    let i = layout::past(t.words, at);
    let positive = layout::part(t.words, i);
    let j = layout::past(t.words, i);
    let negated = layout::part(t.words, j);
    let k = layout::past(t.words, j);
    let aggregates = layout::part(t.words, k);
    let a = literals::literals_reason(t, aggregates, values, reasons, levels::empty());
    let b = literals::atoms_reason(negated, values, reasons, a);
    let c = literals::atoms_reason(positive, values, reasons, b);
    literals::atoms_reason(head, values, reasons, c)
}
