// Parts of a text with something between them: atoms, the elements of an aggregate. Meaning: `notation`, `specs/Notation.antt`.
ghost use Rattle.std.specs.Prelude.{◌≡◌, map, ◌++◌, ◌+◌, ◌<◌, ◌≤◌, pos, length, get_or};
ghost use Rattle.layout.specs.Layout as L;
ghost use Rattle.layout.specs.Layout.{pairs, nat_at, aggregate_at, past_aggregate};
ghost use Rattle.bytes_out.specs.Putting.{Put};
ghost use Rattle.notation.specs.Notation as N;
ghost use Rattle.notation.specs.Notation.{before, joined_from, comma, atom_text, element_text, function_text, comparison_text, threshold_text, aggregate_text};
ghost use Rattle.aspif_parts.specs.Parts.{element_of};

use aspif_parts::negated;
use bytes_out::{put, put_byte, put_number};
use meaning::{Comparison, Function};

// Whether a list has members.
pub fn some(l: &[i32]) -> bool
    ensures { result ≡ N.some l.now }
{
    !l.is_empty()
}

// What stands between two parts, if one stands before.
pub fn put_between(between: &[u8], behind: bool, at: usize, out: &mut [u8]) -> usize
    ensures { Put out.old at (before between.now behind) result out.new }
{
    if behind {
        return put(between, at, out);
    }
    at
}

// The atom at index i of a list, with a word before it.
fn put_atom(
    l: &[i32],
    i: usize,
    word: &[u8],
    between: &[u8],
    behind: bool,
    at: usize,
    out: &mut [u8],
) -> usize
    requires { i < length l.now }
    ensures { Put out.old at (before between.now behind ++ atom_text word.now (nat_at l.now i)) result out.new }
{
    let after_between = put_between(between, behind, at, out);
    let after_word = put(word, after_between, out);
    put_number(words::atom(l, i), after_word, out)
}

// Stays: three short walks, this one, `put_elements` and `put_literals`: one walk would take a closure, and its contract what that puts.
// Atoms, each with a word before it.
pub fn put_atoms(
    l: &[i32],
    word: &[u8],
    between: &[u8],
    behind: bool,
    at: usize,
    out: &mut [u8],
) -> usize
    ensures { Put out.old at (joined_from between.now behind (map (atom_text word.now) (L.atoms l.now))) result out.new }
{
    let mut to = at;
    let mut follows = behind;
    for i in 0..l.len() {
        to = put_atom(l, i, word, between, follows, to, out);
        follows = true;
    }
    to
}

// The element at index i of the pairs of an aggregate.
fn put_element(l: &[i32], i: usize, behind: bool, at: usize, out: &mut [u8]) -> usize
    requires { i + 1 < length l.now }
    ensures { Put out.old at (before comma behind ++ element_text (element_of (nat_at l.now i) (nat_at l.now (i + 1)))) result out.new }
{
    let next = i + 1;
    let after_between = put_between(b", ", behind, at, out);
    let after_value = put_number(words::atom(l, i), after_between, out);
    let after_colon = put_byte(58, after_value, out);
    put_number(words::atom(l, next), after_colon, out)
}

// The elements of an aggregate.
fn put_elements(l: &[i32], at: usize, out: &mut [u8]) -> usize
    ensures { Put out.old at (N.joined comma (map element_text (pairs l.now))) result out.new }
{
    let mut to = at;
    let mut follows = false;
    for j in 0..l.len() / 2 {
        to = put_element(l, 2 * j, follows, to, out);
        follows = true;
    }
    to
}

fn put_function(f: Function, at: usize, out: &mut [u8]) -> usize
    ensures { Put out.old at (function_text f) result out.new }
{
    match f {
        Function::Count => put(b"count{", at, out),
        Function::Sum => put(b"sum{", at, out),
        Function::Min => put(b"min{", at, out),
        Function::Max => put(b"max{", at, out),
    }
}

fn put_comparison(k: Comparison, at: usize, out: &mut [u8]) -> usize
    ensures { Put out.old at (comparison_text k) result out.new }
{
    match k {
        Comparison::Less => put(b"} < ", at, out),
        Comparison::Greater => put(b"} > ", at, out),
    }
}

// The threshold at index i of the table.
fn put_threshold(t: &[i32], i: usize, at: usize, out: &mut [u8]) -> usize
    requires { i < length t.now }
    ensures { Put out.old at (threshold_text (get_or t.now i (pos 0))) result out.new }
{
    let after_minus = put_between(b"-", negated(t, i), at, out);
    put_number(words::atom(t, i), after_minus, out)
}

// The aggregate that begins at `begin`.
pub fn put_aggregate(t: &[i32], begin: usize, at: usize, out: &mut [u8]) -> usize
    requires { past_aggregate t.now begin ≤ length t.now }
    ensures { Put out.old at (aggregate_text (aggregate_at t.now begin)) result out.new }
{
    let threshold = begin + 2;
    let after_function = put_function(layout::function(t, begin), at, out);
    let after_elements = put_elements(layout::pairs(t, begin), after_function, out);
    let after_comparison = put_comparison(layout::comparison(t, begin), after_elements, out);
    put_threshold(t, threshold, after_comparison, out)
}
