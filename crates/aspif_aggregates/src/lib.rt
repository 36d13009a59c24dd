// The lines that give a new atom its value (02, Wish 6): "Sum and count become weight bodies"; "Min and max become several rules, and no element
// must still mean no value".
#![tactic(auto)]

ghost use Rattle.std.specs.Prelude.{◌≡◌, true, map, ◌++◌, [], ◌∷◌, ◌+◌, ◌≤◌, ◌<◌, ◌*◌, length};
ghost use Rattle.meaning.specs.Lists.{keep};
ghost use Rattle.meaning.specs.declared.Comparison.TheVariants.{Greater};
ghost use Rattle.layout.specs.Layout.{AggregateLies, aggregate_at, pairs};
ghost use Rattle.aspif.specs.Writing.{with, barred, stating, bodies_of, defining_all, used};
ghost use Rattle.bytes_out.specs.Putting.{Put};
ghost use Rattle.aspif_parts.specs.Held.{held_by};
ghost use Rattle.aspif_parts.specs.Uses.{NewAtoms};
ghost use Rattle.aspif_parts.specs.Parts.{line_text, lines_text, head_text, literals_text, pairs_text, bound_by, passes_by, pass_of, bad_for_least, bad_for_most, test_of, weights_by, weighed, reached_body, barred_by, element_body, element_bodies, stating_all, AtomsFrom1, used_lines, element_of, weight_text, barred_text, good_text};

use aspif_parts::{Test, at_least, bad_for_least, bad_for_most, bound, passes, start};
use bytes_out::{put, put_byte, put_field, put_signed};
use layout::Accepted;
use meaning::{Comparison, Function};

// How many elements pass.
fn passing(test: Test, l: &[i32]) -> usize
    ensures { (result ≡ length (keep (pass_of test) (pairs l.now))) × (result ≤ length l.now) }
{
    let mut n: usize = 0;
    for j in 0..l.len() / 2 {
        if passes(test, words::atom(l, 2 * j)) {
            n += 1;
        }
    }
    n
}

// An element of a weight body: its atom and its weight.
fn put_weight(
    test: Test,
    count: bool,
    value: usize,
    atom: usize,
    at: usize,
    out: &mut [u8],
) -> usize
    ensures { Put out.old at (weight_text test count value atom) result out.new }
{
    if passes(test, value) {
        let after_atom = put_field(atom, at, out);
        if count {
            return put_field(1, after_atom, out);
        }
        return put_field(value, after_atom, out);
    }
    at
}

// Stays: three short walks, with `put_all_barred` and `put_all_good`: one walk would take a closure, and its contract what that puts.
// The elements of a weight body that pass: each with weight 1 in a count.
fn put_weights(test: Test, count: bool, l: &[i32], at: usize, out: &mut [u8]) -> usize
    ensures { Put out.old at (pairs_text (weights_by test count (pairs l.now))) result out.new }
{
    let mut to = at;
    for j in 0..l.len() / 2 {
        let value = words::atom(l, 2 * j);
        to = put_weight(test, count, value, words::atom(l, 2 * j + 1), to, out);
    }
    to
}

// A rule statement with one head atom, as far as its head.
fn put_new(p: usize, at: usize, out: &mut [u8]) -> usize
    ensures { Put out.old at (head_text (p ∷ [])) result out.new }
{
    let begun = put(b"1 0 1", at, out);
    put_field(p, begun, out)
}

// The line that says of p that a count or a sum reaches the bound; a fact where the bound is 0.
fn put_reached(
    p: usize,
    b: usize,
    test: Test,
    count: bool,
    l: &[i32],
    at: usize,
    out: &mut [u8],
) -> usize
    ensures { Put out.old at (line_text (stating p (reached_body b (weights_by test count (pairs l.now))))) result out.new }
{
    let after_head = put_new(p, at, out);
    if b == 0 {
        return put(b" 0 0\n", after_head, out);
    }
    let begun = put(b" 1", after_head, out);
    let after_bound = put_field(b, begun, out);
    let counted = put_field(passing(test, l), after_bound, out);
    let after_weights = put_weights(test, count, l, counted, out);
    put_byte(10, after_weights, out)
}

// An element that must not be true, if it passes.
fn put_barred(test: Test, value: usize, atom: usize, at: usize, out: &mut [u8]) -> usize
    requires { 1 ≤ atom }
    ensures { Put out.old at (barred_text test value atom) result out.new }
{
    if passes(test, value) {
        return put_signed(false, atom, at, out);
    }
    at
}

// The elements that must not be true: those that pass.
fn put_all_barred(test: Test, l: &[i32], at: usize, out: &mut [u8]) -> usize
    requires { AtomsFrom1 l.now }
    ensures { Put out.old at (literals_text (barred_by test (pairs l.now))) result out.new }
{
    let mut to = at;
    for j in 0..l.len() / 2 {
        let value = words::atom(l, 2 * j);
        to = put_barred(test, value, words::atom(l, 2 * j + 1), to, out);
    }
    to
}

// The line that gives p its value by one good element.
fn put_good(p: usize, bad: Test, atom: usize, l: &[i32], at: usize, out: &mut [u8]) -> usize
    requires { AtomsFrom1 l.now }
    ensures { Put out.old at (line_text (stating p (element_body bad (pairs l.now) (element_of 0 atom)))) result out.new }
{
    let after_head = put_new(p, at, out);
    let begun = put(b" 0", after_head, out);
    let number = passing(bad, l) + 1;
    let counted = put_field(number, begun, out);
    let after_good = put_field(atom, counted, out);
    let after_bad = put_all_barred(bad, l, after_good, out);
    put_byte(10, after_bad, out)
}

fn put_if_good(
    p: usize,
    good: Test,
    bad: Test,
    value: usize,
    atom: usize,
    l: &[i32],
    at: usize,
    out: &mut [u8],
) -> usize
    requires { AtomsFrom1 l.now }
    ensures { Put out.old at (good_text p good bad (pairs l.now) value atom) result out.new }
{
    if passes(good, value) {
        return put_good(p, bad, atom, l, at, out);
    }
    at
}

// A line for each good element.
fn put_all_good(p: usize, good: Test, bad: Test, l: &[i32], at: usize, out: &mut [u8]) -> usize
    requires { AtomsFrom1 l.now }
    ensures { Put out.old at (lines_text (stating_all p (element_bodies good bad (pairs l.now) (pairs l.now)))) result out.new }
{
    let mut to = at;
    for j in 0..l.len() / 2 {
        let value = words::atom(l, 2 * j);
        to = put_if_good(p, good, bad, value, words::atom(l, 2 * j + 1), l, to, out);
    }
    to
}

// The lines that give p the value of the aggregate that begins at `begin`.
fn put_defining(t: &[i32], begin: usize, p: usize, at: usize, out: &mut [u8]) -> usize
    requires { AggregateLies 256 t.now begin }
    ensures { Put out.old at (lines_text (stating_all p (bodies_of (aggregate_at t.now begin).function (aggregate_at t.now begin)))) result out.new }
{
    let place = begin + 2;
    let l = layout::pairs(t, begin);
    let k = layout::comparison(t, begin);
    let b = bound(k, t, place);
    let good = Test {
        comparison: k,
        bound: b,
    };
    let f = layout::function(t, begin);
    match f {
        Function::Count => put_reached(p, b, at_least(0), true, l, at, out),
        Function::Sum => put_reached(p, b, at_least(1), false, l, at, out),
        Function::Min => put_all_good(p, good, bad_for_least(k, b), l, at, out),
        Function::Max => put_all_good(p, good, bad_for_most(k, b), l, at, out),
    }
}

// The same for a literal with the new atom `new`, 0 where it is not in use.
fn put_used(t: &[i32], begin: usize, new: u16, at: usize, out: &mut [u8]) -> usize
    requires { AggregateLies 256 t.now begin }
    ensures { Put out.old at (used_lines (aggregate_at t.now begin) new) result out.new }
{
    if new == 0 {
        return at;
    }
    put_defining(t, begin, new as usize, at, out)
}

// The lines of all new atoms, by aggregate number, j before -j.
pub fn put_all_used(t: &Accepted, news: &[u16; 128], at: usize, out: &mut [u8]) -> usize
    requires { NewAtoms (held_by t.now.words.now t.now.places) news.now }
    ensures { Put out.old at (lines_text (defining_all (held_by t.now.words.now t.now.places) (used (held_by t.now.words.now t.now.places)))) result out.new }
{
    let n = t.places.aggregates;
    let mut to = at;
    for j in 0..n {
        let begin = start(t.places, j);
        let plain = 2 * j;
        let negated = plain + 1;
        let between = put_used(t.words, begin, news[plain], to, out);
        to = put_used(t.words, begin, news[negated], between, out);
    }
    to
}
