// A rule statement number by number: what is expected next, and what each number does to that. "1 for a rule, 0 for a disjunctive head, the head
// after its count; then 0 and the literals after their count, or 1, the bound and the pairs after their count". Meaning: `specs/Machine.antt`.
ghost use Rattle.std.specs.Prelude.{◌≡◌, not};
ghost use Rattle.text.specs.Text.{pick};
ghost use Rattle.aspif_scan.specs.Machine.{plainly, higher_of, start_of, exactly_of, counted_of, body_of, listed_of, bound_of, weight_of, outside_of, step_at, step_of};

use crate::number::{Number, nought};

// What is expected next; or that the statement is whole; or that the line is outside the subset.
#[derive(Clone, Copy)]
pub enum Stage {
    Rule,
    Disjunction,
    HeadCount,
    Head,
    Body,
    LiteralCount,
    Literal,
    Bound,
    PairCount,
    Pair,
    Weight,
    NormalEnd,
    WeightEnd,
    Outside,
}

// How far a statement has been read: what is expected, how many members of the list at hand are left, the last atom, the bound, the highest atom
// of at most 256, and whether all numbers are in 01's ranges.
// Stays: the flag goes on with the values: a statement beyond 01's ranges is read to its end, since text outside the subset comes before it.
#[derive(Clone, Copy)]
pub struct State {
    pub stage: Stage,
    pub left: u64,
    pub atom: u64,
    pub bound: u64,
    pub top: u64,
    pub within: bool,
}

fn choose(test: bool, yes: Stage, no: Stage) -> Stage
    ensures { result ≡ pick test yes no }
{
    if test { yes } else { no }
}

// A number of 0 or more.
fn plain(n: Number) -> bool
    ensures { result ≡ plainly n }
{
    !n.minus
}

// The higher of two atoms, the second only if it is at most 256.
#[tactic(auto, using(crate::proofs::Laws::higher_max), unfolding(crate::specs::Machine::higher_of))]
fn higher(top: u64, p: u64) -> u64
    ensures { result ≡ higher_of top p }
{
    if 256 < p {
        return top;
    }
    top.max(p)
}

// Before the first number.
pub fn start() -> State
    ensures { result ≡ start_of }
{
    State {
        stage: Stage::Rule,
        left: 0,
        atom: 0,
        bound: 0,
        top: 0,
        within: true,
    }
}

// The number `k`, and then `next`.
fn exactly(s: State, n: Number, k: u64, next: Stage) -> State
    ensures { result ≡ exactly_of s n k next }
{
    let stage = choose(plain(n) & (n.size == k), next, Stage::Outside);
    State { stage, ..s }
}

// A count, and then so many members, and then `after`.
fn counted(s: State, n: Number, member: Stage, after: Stage) -> State
    ensures { result ≡ counted_of s n member after }
{
    let next = choose(n.size == 0, after, member);
    let stage = choose(plain(n), next, Stage::Outside);
    State {
        stage,
        left: n.size,
        ..s
    }
}

// The kind of the body.
fn body(s: State, n: Number) -> State
    ensures { result ≡ body_of s n }
{
    let weighed = choose(n.size == 1, Stage::Bound, Stage::Outside);
    let next = choose(n.size == 0, Stage::LiteralCount, weighed);
    let stage = choose(plain(n), next, Stage::Outside);
    State { stage, ..s }
}

// A member of a list of atoms or literals: no 0. `form` says whether its sign is right.
fn listed(s: State, n: Number, form: bool, member: Stage, after: Stage) -> State
    ensures { result ≡ listed_of s n form member after }
{
    let next = choose(s.left == 1, after, member);
    let stage = choose(form & (0 < n.size), next, Stage::Outside);
    let left = s.left.saturating_sub(1);
    let top = higher(s.top, n.size);
    State {
        stage,
        left,
        atom: n.size,
        top,
        within: s.within & (n.size <= 256),
        ..s
    }
}

// The bound: b - 1 is in -1 to 4,194,304. A larger one is held at the least that is beyond.
fn bound(s: State, n: Number) -> State
    ensures { result ≡ bound_of s n }
{
    State {
        stage: Stage::PairCount,
        bound: n.size.min(4194306),
        within: s.within & (!n.minus & (n.size <= 4194305)),
        ..s
    }
}

// The weight of the last atom.
fn weight(s: State, n: Number) -> State
    ensures { result ≡ weight_of s n }
{
    let stage = choose(s.left == 0, Stage::WeightEnd, Stage::Pair);
    State {
        stage,
        within: s.within & (!n.minus & (n.size <= 65535)),
        ..s
    }
}

// A number too many, or no number.
fn outside(s: State) -> State
    ensures { result ≡ outside_of s }
{
    State {
        stage: Stage::Outside,
        ..s
    }
}

// One number more.
fn number_step(s: State, n: Number) -> State
    ensures { result ≡ step_at s.stage s n }
{
    match s.stage {
        Stage::Rule => exactly(s, n, 1, Stage::Disjunction),
        Stage::Disjunction => exactly(s, n, 0, Stage::HeadCount),
        Stage::HeadCount => counted(s, n, Stage::Head, Stage::Body),
        Stage::Head => listed(s, n, plain(n), Stage::Head, Stage::Body),
        Stage::Body => body(s, n),
        Stage::LiteralCount => counted(s, n, Stage::Literal, Stage::NormalEnd),
        Stage::Literal => listed(s, n, true, Stage::Literal, Stage::NormalEnd),
        Stage::Bound => bound(s, n),
        Stage::PairCount => counted(s, n, Stage::Pair, Stage::WeightEnd),
        Stage::Pair => listed(s, n, plain(n), Stage::Weight, Stage::Weight),
        Stage::Weight => weight(s, n),
        Stage::NormalEnd => outside(s),
        Stage::WeightEnd => outside(s),
        Stage::Outside => outside(s),
    }
}

// One number more, or a field that is none: it counts as 0, and the line is outside the subset.
#[tactic(auto, unfolding(crate::specs::Machine::step_of))]
pub fn step(s: State, field: Option<Number>) -> State
    ensures { result ≡ step_of s field }
{
    let Some(n) = field else {
        return outside(number_step(s, nought()));
    };
    number_step(s, n)
}
