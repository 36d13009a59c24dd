// Writing words: one after the other, as far as there is room; a table that was accepted has room for all of it.
ghost use Rattle.std.specs.Prelude.{◌≡◌, [], ◌∷◌, map, ℕ, ◌+◌, ◌*◌, ◌<◌, ◌≤◌, pos, negsuc, drop, get_or, length};
ghost use Rattle.std.proofs.Math.IntN.{pred_ℤ};
ghost use Rattle.table.specs.Contents.{encode_atoms, encode_elements};
ghost use Rattle.aspif.specs.Lines.{lines_of};
ghost use Rattle.aspif_scan.specs.Marks.{row_from, weights_from};
ghost use Rattle.aspif_read.specs.Writing.{Put, Wrote, Capped, aggregate_words, literal_words, rule_words, statement_words, line_words, line_aggregates, section_from, weighed_line, weighed_in};

use crate::lines::{line_after, line_end};
use crate::taking::take;
use aspif_scan::kind::{Kind, kind_of};
use aspif_scan::marks::count;

// Where the next word goes, and how many aggregates there were before.
#[derive(Clone, Copy)]
pub struct Next {
    pub at: usize,
    pub before: usize,
}

// A number at index `at`; the index after it.
pub fn put(n: usize, at: usize, words: &mut [i32]) -> usize
    requires { (at ≤ length words.old) × (n ≤ 4194306) }
    ensures { Put words.old at (pos n ∷ []) result words.new }
{
    if at < words.len() {
        words[at] = n as i32;
        return at + 1;
    }
    at
}

// The word -1.
fn put_below(at: usize, words: &mut [i32]) -> usize
    requires { at ≤ length words.old }
    ensures { Put words.old at (negsuc 0 ∷ []) result words.new }
{
    if at < words.len() {
        words[at] = -1;
        return at + 1;
    }
    at
}

// The threshold of a bound: one less.
fn put_threshold(bound: usize, at: usize, words: &mut [i32]) -> usize
    requires { (at ≤ length words.old) × (bound ≤ 4194306) }
    ensures { Put words.old at (pred_ℤ (pos bound) ∷ []) result words.new }
{
    if bound == 0 {
        return put_below(at, words);
    }
    let threshold = bound - 1;
    put(threshold, at, words)
}

// Stays: two short walks, this one and `put_elements`: one walk would take a closure, and its contract what that puts.
// The atoms of a row.
fn put_members(marks: &[u32; 1280], row: usize, at: usize, words: &mut [i32]) -> usize
    requires { (at ≤ length words.old) × (row < 5) }
    ensures { Put words.old at (map pos (row_from marks.now (row * 256) 1 256)) result words.new }
{
    let mut to = at;
    for i in 0..256 {
        let place = row * 256 + i;
        if 0 < marks[place] {
            to = put(i + 1, to, words);
        }
    }
    to
}

// The atoms of a row after their count.
fn put_atoms(marks: &[u32; 1280], row: usize, at: usize, words: &mut [i32]) -> usize
    requires { (at ≤ length words.old) × (row < 5) }
    ensures { Put words.old at (encode_atoms (row_from marks.now (row * 256) 1 256)) result words.new }
{
    let after = put(count(marks, row), at, words);
    put_members(marks, row, after, words)
}

// A value and an atom.
fn put_element(value: u32, p: usize, at: usize, words: &mut [i32]) -> usize
    requires { (at ≤ length words.old) × (value ≤ 65536) × (p ≤ 256) }
    ensures { Put words.old at (pos value ∷ pos p ∷ []) result words.new }
{
    let after = put(value as usize, at, words);
    put(p, after, words)
}

// The elements of a weight body.
fn put_elements(marks: &[u32; 1280], at: usize, words: &mut [i32]) -> usize
    requires { (at ≤ length words.old) × Capped marks.now }
    ensures { Put words.old at (encode_elements (weights_from marks.now 768 1 256)) result words.new }
{
    let mut to = at;
    for i in 0..256 {
        let place = 768 + i;
        if 0 < marks[place] {
            to = put_element(marks[place + 256], i + 1, to, words);
        }
    }
    to
}

// The aggregate of a weight body: 1 for sum, 1 for greater, the threshold and the elements after their count.
pub fn put_aggregate(bound: usize, marks: &[u32; 1280], at: usize, words: &mut [i32]) -> usize
    requires { (at ≤ length words.old) × (bound ≤ 4194306) × Capped marks.now }
    ensures { Put words.old at (aggregate_words bound marks.now) result words.new }
{
    let after_function = put(1, at, words);
    let after_comparison = put(1, after_function, words);
    let after_threshold = put_threshold(bound, after_comparison, words);
    let after_count = put(count(marks, 3), after_threshold, words);
    put_elements(marks, after_count, words)
}

// The aggregate literals of a rule: none, or the aggregate after `before` others.
fn put_literals(own: usize, before: usize, at: usize, words: &mut [i32]) -> usize
    requires { (at ≤ length words.old) × (before ≤ 64) }
    ensures { Put words.old at (literal_words own before) result words.new }
{
    if own == 0 {
        return put(0, at, words);
    }
    let after = put(1, at, words);
    put(before + 1, after, words)
}

// A rule: its head, its body, its aggregate literals.
pub fn put_rule(
    own: usize,
    before: usize,
    marks: &[u32; 1280],
    at: usize,
    words: &mut [i32],
) -> usize
    requires { (at ≤ length words.old) × (before ≤ 64) }
    ensures { Put words.old at (rule_words own before marks.now) result words.new }
{
    let after_head = put_atoms(marks, 0, at, words);
    let after_positive = put_atoms(marks, 1, after_head, words);
    let after_negated = put_atoms(marks, 2, after_positive, words);
    put_literals(own, before, after_negated, words)
}

// What a statement adds to a section: its rule, or its aggregate if it has one.
fn put_statement(line: &[u8], rules: bool, before: usize, at: usize, words: &mut [i32]) -> Next
    requires { (at ≤ length words.old) × (before ≤ 64) }
    ensures { Wrote words.old at (statement_words rules before line.now) (before + weighed_line line.now) result words.new }
{
    let taken = take(line, false, rules, before, at, words);
    Next {
        at: taken.at,
        before: taken.before,
    }
}

// What a line adds to a section.
fn put_line(line: &[u8], rules: bool, before: usize, at: usize, words: &mut [i32]) -> Next
    requires { (at ≤ length words.old) × (before ≤ 64) }
    ensures { Wrote words.old at (line_words rules before line.now) (before + line_aggregates line.now) result words.new }
{
    let kind = kind_of(line);
    match kind {
        Kind::Closing => Next { at, before },
        Kind::Comment => Next { at, before },
        Kind::Other => put_statement(line, rules, before, at, words),
    }
}

// A section: the aggregates, or the rules, of the lines from `from` on.
pub fn put_section(text: &[u8], from: usize, rules: bool, at: usize, words: &mut [i32]) -> usize
    requires { (from ≤ length text.now) × (at ≤ length words.old) × (weighed_in (lines_of (drop from text.now)) ≤ 64) }
    ensures { Put words.old at (section_from rules 0 (lines_of (drop from text.now))) result words.new }
{
    let mut to = Next { at, before: 0 };
    let mut start = from;
    while start < text.len() {
        let end = line_end(text, start);
        to = put_line(&text[start..end], rules, to.before, to.at, words);
        start = line_after(text, end);
    }
    to.at
}
