// The reason of an aggregate: the union over elements that settle it (02, "Aggregate reasons as in the paper"), taken over the values of the
// moment. Meaning: crate `valuing`'s `settling_of`; how a walk finds it: `specs/Settled.antt`.
ghost use Rattle.std.specs.Prelude.{◌≡◌, ◌≤◌};
ghost use Rattle.levels.specs.Levels.{union};
ghost use Rattle.levels.specs.View.{row, rows};
ghost use Rattle.interpretation.specs.View.{cell_by, valued};
ghost use Rattle.layout.specs.Layout.{AggregateLies, aggregate_at, pairs};
ghost use Rattle.meaning.specs.declared.Function.TheVariants.{Min};
ghost use Rattle.valuing.specs.Values.{asks_each};
ghost use Rattle.valuing.specs.Settling.{settling_of};
ghost use Rattle.valuing.specs.Reasons.{reasons_at};
ghost use Rattle.literals.specs.Elements.{Paired};
ghost use Rattle.literals.specs.Settled.{join_if, of_sign, alike_by, whole_of, bound_by, told_by, run_of, adds_of, passing_of, alone_by, alone_at, single_of};

use crate::aggregates;
use meaning::{Comparison, Function};

// A walk over the elements that are true (or false): whether a run of them settles the aggregate; the reasons of that run, or of all of them.
// Stays: both cases hold a set, and as a Result the reasons of all would be an error that none is.
#[derive(Clone, Copy)]
pub struct Run {
    pub settled: bool,
    pub reason: [u64; 4],
}

// The reason of atom p joined to a set, or not.
pub fn joined(on: bool, p: usize, reasons: &[[u64; 4]; 256], more: [u64; 4]) -> [u64; 4]
    requires { (1 ≤ p) × (p ≤ 256) }
    ensures { row result ≡ join_if on (rows reasons.now p) (row more) }
{
    if on {
        levels::union(reasons[p - 1], more)
    } else {
        more
    }
}

// Whether the byte of a value says true (or false).
pub fn of_sign(sign: bool, b: u8) -> bool
    ensures { result ≡ of_sign sign (cell_by b 0) }
{
    if sign { b == 1 } else { 1 < b }
}

// ---- count and sum

// Whether the comparison is the same at both bounds.
pub fn alike(c: Comparison, k: usize, low: usize, high: usize) -> bool
    ensures { result ≡ alike_by c k low high }
{
    aggregates::passes(c, k, low) == aggregates::passes(c, k, high)
}

// Whether true (or false) elements that come to x settle a count or a sum that is at most `high`.
pub fn bound(sign: bool, c: Comparison, k: usize, high: usize, x: usize) -> bool
    requires { x ≤ high }
    ensures { result ≡ bound_by sign c k high x }
{
    if sign {
        alike(c, k, x, high)
    } else {
        alike(c, k, 0, high - x)
    }
}

// What all elements come to.
pub fn whole(w: &[i32], count: bool) -> usize
    requires { Paired w.now }
    ensures { result ≡ whole_of count (pairs w.now) }
{
    let mut x: usize = 0;
    for [value, _] in w.as_chunks::<2>().0 {
        x += aggregates::weight(count, words::size(*value));
    }
    x
}

// The shortest run of true (or false) elements that settles a count or a sum, from the first.
pub fn shortest(
    w: &[i32],
    sign: bool,
    count: bool,
    c: Comparison,
    k: usize,
    high: usize,
    values: &[u8; 256],
    reasons: &[[u64; 4]; 256],
    more: [u64; 4],
) -> Run
    requires { Paired w.now × (whole_of count (pairs w.now) ≤ high) }
    ensures { told_by result ≡ run_of sign count c k high (valued values.now) (rows reasons.now) (pairs w.now) 0 (row more) }
{
    let mut acc = more;
    let mut x: usize = 0;
    for [value, atom] in w.as_chunks::<2>().0 {
        if bound(sign, c, k, high, x) {
            return Run {
                settled: true,
                reason: acc,
            };
        }
        let on = of_sign(sign, crate::byte(*atom, values));
        let next = joined(on, words::size(*atom), reasons, acc);
        acc = next;
        x += aggregates::part(on, aggregates::weight(count, words::size(*value)));
    }
    let settled = bound(sign, c, k, high, x);
    Run {
        settled,
        reason: acc,
    }
}

// The reasons of what settles a count or a sum, joined to a set: of a run of true elements, or else of false ones, or else of all.
pub fn adds_reason(
    w: &[i32],
    count: bool,
    c: Comparison,
    k: usize,
    values: &[u8; 256],
    reasons: &[[u64; 4]; 256],
    more: [u64; 4],
) -> [u64; 4]
    requires { Paired w.now }
    ensures { row result ≡ adds_of count c k (valued values.now) (rows reasons.now) (pairs w.now) (row more) }
{
    let high = whole(w, count);
    let up = shortest(w, true, count, c, k, high, values, reasons, more);
    let trues = up.reason;
    if up.settled {
        return trues;
    }
    let down = shortest(w, false, count, c, k, high, values, reasons, more);
    let falses = down.reason;
    if down.settled {
        return falses;
    }
    levels::union(trues, falses)
}

// ---- min and max

// How many elements' values pass the comparison.
pub fn passing(w: &[i32], c: Comparison, k: usize) -> usize
    requires { Paired w.now }
    ensures { result ≡ passing_of c k (pairs w.now) }
{
    let mut x: usize = 0;
    for [value, _] in w.as_chunks::<2>().0 {
        x += usize::from(aggregates::passes(c, k, words::size(*value)));
    }
    x
}

// Whether one known element settles a min or a max alone: `sure` it is true, `ok` its value passes, `pass` and `fail` another's does so.
pub fn alone(each: bool, sure: bool, ok: bool, pass: bool, fail: bool) -> bool
    ensures { result ≡ alone_by each sure ok pass fail }
{
    if each {
        if sure {
            return !ok | !fail;
        }
        return !pass;
    }
    (sure & ok) | !pass
}

// The same of an element by the byte of its atom's value, where of all elements so many pass, and so many fail.
pub fn settles_alone(each: bool, b: u8, ok: bool, pass: usize, fail: usize) -> bool
    ensures { result ≡ alone_at each (cell_by b 0) ok pass fail }
{
    if b == 0 {
        return false;
    }
    alone(
        each,
        b == 1,
        ok,
        usize::from(ok) < pass,
        usize::from(!ok) < fail,
    )
}

// The reasons of what settles a min or a max, joined to a set: of the first element that does so alone, or else of the false ones, if they do,
// or else of all.
pub fn single_reason(
    w: &[i32],
    each: bool,
    c: Comparison,
    k: usize,
    values: &[u8; 256],
    reasons: &[[u64; 4]; 256],
    more: [u64; 4],
) -> [u64; 4]
    requires { Paired w.now }
    ensures { row result ≡ single_of each c k (valued values.now) (rows reasons.now) (pairs w.now) (row more) }
{
    let pass = passing(w, c, k);
    let fail = w.len() / 2 - pass;
    let mut falses = more;
    let mut all = more;
    let mut may = false;
    for [value, atom] in w.as_chunks::<2>().0 {
        let b = crate::byte(*atom, values);
        let ok = aggregates::passes(c, k, words::size(*value));
        let p = words::size(*atom);
        if settles_alone(each, b, ok, pass, fail) {
            return joined(true, p, reasons, more);
        }
        let narrow = joined(1 < b, p, reasons, falses);
        let wide = joined(0 < b, p, reasons, all);
        falses = narrow;
        all = wide;
        may = (ok & (b < 2)) | may;
    }
    if may { all } else { falses }
}

// Whether the comparison is "greater than".
pub fn above(c: Comparison) -> bool
    ensures { result ≡ asks_each Min c }
{
    matches!(c, Comparison::Greater)
}

// The reason of the aggregate that begins at `at`, joined to a set.
pub fn aggregate_reason(
    t: &[i32],
    at: usize,
    values: &[u8; 256],
    reasons: &[[u64; 4]; 256],
    more: [u64; 4],
) -> [u64; 4]
    requires { AggregateLies 256 t.now at }
    ensures { row result ≡ union (reasons_at (rows reasons.now) (settling_of (valued values.now) (aggregate_at t.now at))) (row more) }
{
    let w = layout::pairs(t, at);
    let c = layout::comparison(t, at);
    let k = aggregates::limit(t, at + 2);
    match layout::function(t, at) {
        Function::Count => adds_reason(w, true, c, k, values, reasons, more),
        Function::Sum => adds_reason(w, false, c, k, values, reasons, more),
        Function::Min => single_reason(w, above(c), c, k, values, reasons, more),
        Function::Max => single_reason(w, !above(c), c, k, values, reasons, more),
    }
}
