// The value of an aggregate, from its pairs of value and atom in one walk. Meaning: crate `valuing`'s `aggregate_value`; how the walk finds it:
// `specs/Elements.antt`.
ghost use Rattle.std.specs.Prelude.{◌≡◌, true, false, ◌≤◌, ◌<◌, nat_abs, pos, length, get_or};
ghost use Rattle.interpretation.specs.View.{cell_by, valued, cell_value};
ghost use Rattle.layout.specs.Layout.{AggregateLies, aggregate_at, pairs};
ghost use Rattle.valuing.specs.Values.{between, decide, aggregate_value};
ghost use Rattle.literals.specs.Elements.{limit_of, passes_by, weight_of, part_of, added_by, totals_of, totals_value, marks_of, marks_value, Paired};

use interpretation::Value;
use meaning::{Comparison, Function};

// Count or sum over an aggregate's true elements, and over those that could be true.
#[derive(Clone, Copy)]
pub struct Totals {
    pub low: usize,
    pub high: usize,
}

// The threshold at index i plus 1; 0 for -1.
pub fn limit(t: &[i32], i: usize) -> usize
    requires { (i < length t.now) × (nat_abs (get_or t.now i (pos 0)) ≤ 4194304) }
    ensures { result ≡ limit_of (get_or t.now i (pos 0)) }
{
    if t[i] < 0 { 0 } else { words::size(t[i]) + 1 }
}

// One value against a threshold that is k - 1.
pub fn passes(c: Comparison, k: usize, v: usize) -> bool
    ensures { result ≡ passes_by c k v }
{
    match c {
        Comparison::Less => 1 < k.saturating_sub(v),
        Comparison::Greater => k <= v,
    }
}

pub fn between(low: bool, high: bool) -> Value
    ensures { result ≡ between low high }
{
    match (low, high) {
        (true, true) => Value::True,
        (false, false) => Value::False,
        _ => Value::Undefined,
    }
}

pub fn decide(holds: bool, fails: bool) -> Value
    ensures { result ≡ decide holds fails }
{
    if holds {
        Value::True
    } else if fails {
        Value::False
    } else {
        Value::Undefined
    }
}

// What an element adds to a count or to a sum.
pub fn weight(count: bool, v: usize) -> usize
    ensures { result ≡ weight_of count v }
{
    if count { 1 } else { v }
}

// x or nothing.
// Stays: the library's `on.then_some(x).unwrap_or(0)` is no plainer.
pub fn part(on: bool, x: usize) -> usize
    ensures { result ≡ part_of on x }
{
    if on { x } else { 0 }
}

// An element of weight x more, by the byte of its atom's value. Both sums are made without a branch: which atoms are true changes all the time.
pub fn added(b: u8, x: usize, t: Totals) -> Totals
    requires { (x ≤ 65535) × (t.low ≤ 4294967295) × (t.high ≤ 4294967295) }
    ensures { result ≡ added_by (cell_value (cell_by b 0)) x t }
{
    let low = t.low + part(b == 1, x);
    let high = t.high + part(b < 2, x);
    Totals { low, high }
}

// Count or sum over the pairs of value and atom.
pub fn totals_of(w: &[i32], count: bool, values: &[u8; 256]) -> Totals
    requires { Paired w.now }
    ensures { result ≡ totals_of count (valued values.now) (pairs w.now) }
{
    let mut t = Totals { low: 0, high: 0 };
    for [value, atom] in w.as_chunks::<2>().0 {
        let x = weight(count, words::plain(*value));
        t = added(crate::byte(*atom, values), x, t);
    }
    t
}

// The value of a comparison with a count or a sum.
pub fn totals_value(w: &[i32], count: bool, c: Comparison, k: usize, values: &[u8; 256]) -> Value
    requires { Paired w.now }
    ensures { result ≡ totals_value c k (totals_of count (valued values.now) (pairs w.now)) }
{
    let t = totals_of(w, count, values);
    between(passes(c, k, t.low), passes(c, k, t.high))
}

// The value of "some value passes", from the last pair to the first: true as soon as a true element's value passes. The value is looked at
// before the atom, because it is the same at each call.
pub fn some_value(w: &[i32], c: Comparison, k: usize, values: &[u8; 256]) -> Value
    requires { Paired w.now }
    ensures { result ≡ marks_value false (marks_of c k (valued values.now) (pairs w.now)) }
{
    let pairs = w.as_chunks::<2>().0;
    let mut passable = false;
    for i in (0..pairs.len()).rev() {
        let [value, atom] = pairs[i];
        if passes(c, k, words::plain(value)) {
            let b = crate::byte(atom, values);
            if b == 1 {
                return Value::True;
            }
            passable |= b < 2;
        }
    }
    between(false, passable)
}

// The value of "each value passes, and there is one", from the last pair to the first: false as soon as a true element's value fails.
pub fn each_value(w: &[i32], c: Comparison, k: usize, values: &[u8; 256]) -> Value
    requires { Paired w.now }
    ensures { result ≡ marks_value true (marks_of c k (valued values.now) (pairs w.now)) }
{
    let pairs = w.as_chunks::<2>().0;
    let mut passed = false;
    let mut passable = false;
    let mut failable = false;
    for i in (0..pairs.len()).rev() {
        let [value, atom] = pairs[i];
        let b = crate::byte(atom, values);
        if passes(c, k, words::plain(value)) {
            passed |= b == 1;
            passable |= b < 2;
        } else {
            if b == 1 {
                return Value::False;
            }
            failable |= b < 2;
        }
    }
    let holds = passed & (passable & !failable);
    decide(holds, !passable)
}

// The value of the aggregate that begins at `at`.
pub fn aggregate_value(t: &[i32], at: usize, values: &[u8; 256]) -> Value
    requires { AggregateLies 256 t.now at }
    ensures { result ≡ aggregate_value (valued values.now) (aggregate_at t.now at) }
{
    let w = layout::pairs(t, at);
    let c = layout::comparison(t, at);
    let k = limit(t, at + 2);
    match (layout::function(t, at), c) {
        (Function::Count, _) => totals_value(w, true, c, k, values),
        (Function::Sum, _) => totals_value(w, false, c, k, values),
        (Function::Min, Comparison::Less) => some_value(w, c, k, values),
        (Function::Min, Comparison::Greater) => each_value(w, c, k, values),
        (Function::Max, Comparison::Less) => each_value(w, c, k, values),
        (Function::Max, Comparison::Greater) => some_value(w, c, k, values),
    }
}
