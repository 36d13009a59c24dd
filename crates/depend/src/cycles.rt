// The tests of a rule for a head cycle and for an aggregate cycle, and the lowest rule that passes each. What reaches what is asked of `reach`.
// First, whether there can be a cycle of the kind at all: if not, nothing needs to be names. Meaning: `specs/Cycles.antt`; that these tests leave
// out no cycle: `proofs/Skipped.antt`.
ghost use Rattle.std.specs.Prelude.{◌≡◌, ◌&&◌, map, ◌≤◌, length};
ghost use Rattle.meaning.specs.Lists.{any};
ghost use Rattle.layout.specs.Accepted.{program_in, rule_in, RuleIn};
ghost use Rattle.layout.specs.Layout.{past_at, pos_at, aggs_at, atoms, Members, pairs, literal_of, rule_at};
ghost use Rattle.reach.specs.Arcs.{Elements};
ghost use Rattle.depend.specs.Circles.{alike};
ghost use Rattle.depend.specs.Cycles.{full, wide, makes_arcs, adds_arcs, may_cross, may_return, may_close, crossing, crossed, returning, returned, closes, lowest};

use crate::circles;
use crate::circles::Names;
use layout::Accepted;
use reach::arcs;

// ---- whether there can be a cycle

// Whether two lists of a rule both have members.
pub fn linked(head: &[i32], l: &[i32]) -> bool
    ensures { result ≡ full head.now && full l.now }
{
    if head.len() == 0 {
        return false;
    }
    l.len() != 0
}

// Whether the rule that begins at `at` has two atoms in its head or more.
pub fn is_wide(t: &[i32], at: usize) -> bool
    requires { past_at t.now at ≤ length t.now }
    ensures { result ≡ wide (rule_at t.now at) }
{
    let head = layout::part(t, at);
    1 < head.len()
}

// Whether it has a head and positive atoms.
pub fn makes_arcs(t: &[i32], at: usize) -> bool
    requires { (past_at t.now at ≤ length t.now) × (past_at t.now (pos_at t.now at) ≤ length t.now) }
    ensures { result ≡ makes_arcs (rule_at t.now at) }
{
    let place = layout::past(t, at);
    let head = layout::part(t, at);
    let body = layout::part(t, place);
    linked(head, body)
}

// Whether it has a head and aggregate literals.
// Stays: it differs from `makes_arcs` in the list that it asks; the test of two lists is `linked` already.
pub fn adds_arcs(t: &[i32], at: usize) -> bool
    requires { (past_at t.now at ≤ length t.now) × (aggs_at t.now at ≤ length t.now) × (past_at t.now (aggs_at t.now at) ≤ length t.now) }
    ensures { result ≡ adds_arcs (rule_at t.now at) }
{
    let place = layout::literals_at(t, at);
    let head = layout::part(t, at);
    let l = layout::part(t, place);
    linked(head, l)
}

// Whether there can be a head cycle: a head of two atoms, and an arc.
pub fn may_cross(t: &Accepted) -> bool
    ensures { result ≡ may_cross (program_in t.now) }
{
    let mut two = false;
    let mut arcs = false;
    let mut at = t.places.first;
    for _ in 0..t.places.rules {
        two |= is_wide(t.words, at);
        arcs |= makes_arcs(t.words, at);
        at = layout::past_rule(t.words, at);
    }
    two && arcs
}

// Whether there can be an aggregate cycle: an arc that is added.
pub fn may_return(t: &Accepted) -> bool
    ensures { result ≡ may_return (program_in t.now) }
{
    let mut at = t.places.first;
    for _ in 0..t.places.rules {
        if adds_arcs(t.words, at) {
            return true;
        }
        at = layout::past_rule(t.words, at);
    }
    false
}

// Whether there can be a cycle of the kind: a head cycle, or where `added` an aggregate cycle.
pub fn may_close(t: &Accepted, added: bool) -> bool
    ensures { result ≡ may_close added (program_in t.now) }
{
    if added {
        return may_return(t);
    }
    may_cross(t)
}

// ---- which rule has one

// Whether two atoms are different and have the same name.
pub fn both_ways(names: &Names, p: usize, q: usize) -> bool
    requires { (1 ≤ p) × (p ≤ 256) × (1 ≤ q) × (q ≤ 256) }
    ensures { result ≡ crossing (alike names.now) p q }
{
    if p == q {
        return false;
    }
    circles::same(names, p, q)
}

// Whether p and some atom of a head do.
pub fn crosses(names: &Names, head: &[i32], p: usize) -> bool
    requires { Members 256 head.now × (1 ≤ p) × (p ≤ 256) }
    ensures { result ≡ any (λ q. crossing (alike names.now) p q) (atoms head.now) }
{
    head.iter().any(|q| both_ways(names, p, words::size(*q)))
}

// Whether two atoms of a head do.
pub fn crossed(names: &Names, head: &[i32]) -> bool
    requires { Members 256 head.now }
    ensures { result ≡ crossed (alike names.now) (atoms head.now) }
{
    head.iter().any(|p| crosses(names, head, words::size(*p)))
}

// Whether the atom of one of the pairs reaches p.
pub fn element_reaches(names: &Names, l: &[i32], p: usize) -> bool
    requires { Elements 256 l.now × (1 ≤ p) × (p ≤ 256) }
    ensures { result ≡ returning (alike names.now) p (pairs l.now) }
{
    for i in 0..l.len() / 2 {
        if circles::same(names, words::atom(l, 2 * i + 1), p) {
            return true;
        }
    }
    false
}

// Whether an element of one of the aggregate literals reaches p.
pub fn literal_reaches(t: &Accepted, names: &Names, l: &[i32], p: usize) -> bool
    requires { Members t.now.places.aggregates l.now × (1 ≤ p) × (p ≤ 256) }
    ensures { result ≡ any (λ u. returning (alike names.now) p u.aggregate.elements) (map (literal_of t.now.words.now) l.now) }
{
    l.iter().any(|j| {
        let pairs = arcs::elements_of(t, words::size(*j));
        element_reaches(names, pairs, p)
    })
}

// Whether one of them reaches an atom of a head.
pub fn head_reached(t: &Accepted, names: &Names, head: &[i32], l: &[i32]) -> bool
    requires { Members 256 head.now × Members t.now.places.aggregates l.now }
    ensures { result ≡ returned (alike names.now) (atoms head.now) (map (literal_of t.now.words.now) l.now) }
{
    head.iter()
        .any(|p| literal_reaches(t, names, l, words::size(*p)))
}

// Whether the rule that begins at `at` has two head atoms that reach each other, or where `added` adds an arc that lies on a cycle.
pub fn closes(t: &Accepted, added: bool, names: &Names, at: usize) -> bool
    requires { RuleIn t.now at }
    ensures { result ≡ closes added (alike names.now) (rule_in t.now at) }
{
    let head = layout::part(t.words, at);
    if !added {
        return crossed(names, head);
    }
    let place = layout::literals_at(t.words, at);
    let l = layout::part(t.words, place);
    head_reached(t, names, head, l)
}

// The lowest such rule.
pub fn first(t: &Accepted, added: bool, names: &Names) -> Option<usize>
    ensures { result ≡ lowest (closes added (alike names.now)) 1 (program_in t.now) }
{
    let mut at = t.places.first;
    for k in 0..t.places.rules {
        if closes(t, added, names, at) {
            return Some(k + 1);
        }
        at = layout::past_rule(t.words, at);
    }
    None
}
