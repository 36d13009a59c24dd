// What the writer of aspif is made of: tests of an element's value, the sign of an aggregate literal's new atom, and the place of a literal.
// `specs/` has the definitions that the writer's functions follow, `proofs/` their laws. Meaning: crate `aspif`, `specs/Writing.antt`.
#![tactic(auto)]

ghost use Rattle.std.specs.Prelude.{◌≡◌, not, ◌≤◌, ◌<◌, nat_abs, pos, length, get_or};
ghost use Rattle.std.specs.Bool.{beq};
ghost use Rattle.std.specs.Int.Signed.{non_neg};
ghost use Rattle.meaning.specs.declared.Comparison.TheVariants.{Greater};
ghost use Rattle.aspif.specs.Writing as W;
ghost use Rattle.aspif_parts.specs.Uses.{place_of};
ghost use Rattle.aspif_parts.specs.Parts.{bound_by, passes_by, bad_for_least, bad_for_most, test_of};

use layout::Table;
use meaning::{Comparison, Function};

// A test of an element's value: less than the bound, or at least the bound.
#[derive(Clone, Copy)]
pub struct Test {
    pub comparison: Comparison,
    pub bound: usize,
}

// Whether the word at index i is below 0: of an aggregate literal, whether it is a negation.
pub fn negated(l: &[i32], i: usize) -> bool
    requires { i < length l.now }
    ensures { result ≡ not (non_neg (get_or l.now i (pos 0))) }
{
    l[i] < 0
}

// The lower bound at which a comparison with the threshold at index i turns, 0 for one of 0 or less: v < t fails if v reaches t, v > t holds if v
// reaches t + 1.
pub fn bound(k: Comparison, t: &[i32], i: usize) -> usize
    requires { (i < length t.now) × (nat_abs (get_or t.now i (pos 0)) ≤ 4194304) }
    ensures { result ≡ bound_by k (get_or t.now i (pos 0)) }
{
    if negated(t, i) {
        return 0;
    }
    let n = words::atom(t, i);
    match k {
        Comparison::Less => n,
        Comparison::Greater => n + 1,
    }
}

pub fn passes(test: Test, value: usize) -> bool
    ensures { result ≡ passes_by test.comparison test.bound value }
{
    let k = test.comparison;
    let b = test.bound;
    match k {
        Comparison::Less => value < b,
        Comparison::Greater => b <= value,
    }
}

// The elements that must not be true beside a good one: none for the least below, the bad ones for the least above.
pub fn bad_for_least(k: Comparison, b: usize) -> Test
    ensures { result ≡ bad_for_least k b }
{
    match k {
        Comparison::Less => Test {
            comparison: Comparison::Less,
            bound: 0,
        },
        Comparison::Greater => Test {
            comparison: Comparison::Less,
            bound: b,
        },
    }
}

// The same for the most.
pub fn bad_for_most(k: Comparison, b: usize) -> Test
    ensures { result ≡ bad_for_most k b }
{
    match k {
        Comparison::Less => Test {
            comparison: Comparison::Greater,
            bound: b,
        },
        Comparison::Greater => Test {
            comparison: Comparison::Less,
            bound: 0,
        },
    }
}

pub fn at_least(b: usize) -> Test
    ensures { result ≡ test_of Greater b }
{
    Test {
        comparison: Comparison::Greater,
        bound: b,
    }
}

// Whether a literal over this aggregate is turned: "a less-than literal over them is the negation of a reached bound".
pub fn turned(f: Function, k: Comparison) -> bool
    ensures { result ≡ W.turned f k }
{
    match f {
        Function::Count | Function::Sum => matches!(k, Comparison::Less),
        Function::Min | Function::Max => false,
    }
}

// Whether a literal is its new atom, or the negation of that.
pub fn straight(negated: bool, turn: bool) -> bool
    ensures { result ≡ beq (not negated) (not turn) }
{
    negated == turn
}

// The place of the literal at index i of a list.
pub fn place(l: &[i32], i: usize) -> usize
    requires { (i < length l.now) × (1 ≤ nat_abs (get_or l.now i (pos 0))) × (nat_abs (get_or l.now i (pos 0)) ≤ 64) }
    ensures { result ≡ place_of (get_or l.now i (pos 0)) }
{
    let n = words::atom(l, i);
    let first = 2 * (n - 1);
    if negated(l, i) {
        return first + 1;
    }
    first
}

// Where aggregate j + 1 begins.
pub fn start(tb: Table, j: usize) -> usize
    requires { j < 64 }
    ensures { result ≡ get_or tb.starts j 0 }
{
    tb.starts[j] as usize
}
