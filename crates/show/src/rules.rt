// The rules of a table as lines, each after its number. Meaning: `notation`, `rule_text` and `rules_text`.
ghost use Rattle.std.specs.Prelude.{◌≡◌, cond, map, ◌++◌, ◌<◌, ◌≤◌, leb, pos, length, get_or};
ghost use Rattle.layout.specs.Layout as L;
ghost use Rattle.layout.specs.Accepted.{RuleIn};
ghost use Rattle.layout.specs.Layout.{Members};
ghost use Rattle.table.specs.Contents.{aggregate_by};
ghost use Rattle.bytes_out.specs.Putting.{Put};
ghost use Rattle.notation.specs.Notation as N;
ghost use Rattle.notation.specs.Notation.{before, joined, joined_from, comma, name_text, aggregate_text, literal_text, body_parts, lists_text, rule_text, rule_line, rules_text};
ghost use Rattle.aspif_parts.specs.Held.{numbered_at, numbered_from, held_by};

use crate::parts::{put_aggregate, put_atoms, put_between, some};
use aspif_parts::{negated, start};
use bytes_out::{put, put_byte, put_number};
use layout::Accepted;

// The name of an aggregate.
pub fn put_name(j: usize, at: usize, out: &mut [u8]) -> usize
    ensures { Put out.old at (name_text j) result out.new }
{
    let after_sign = put_byte(35, at, out);
    put_number(j, after_sign, out)
}

// Aggregate j: its name if it has one, or written out.
fn put_reference(t: &Accepted, d: usize, j: usize, at: usize, out: &mut [u8]) -> usize
    requires { (1 ≤ j) × (j ≤ t.now.places.aggregates) }
    ensures { Put out.old at (cond (leb j d) (name_text j) (aggregate_text (aggregate_by (held_by t.now.words.now t.now.places).aggregates j))) result out.new }
{
    if j <= d {
        return put_name(j, at, out);
    }
    let place = j - 1;
    put_aggregate(t.words, start(t.places, place), at, out)
}

// The aggregate literal at index i of a rule's list.
fn put_literal(
    t: &Accepted,
    d: usize,
    l: &[i32],
    i: usize,
    behind: bool,
    at: usize,
    out: &mut [u8],
) -> usize
    requires { Members t.now.places.aggregates l.now × (i < length l.now) }
    ensures { Put out.old at (before comma behind ++ literal_text d (held_by t.now.words.now t.now.places).aggregates (get_or l.now i (pos 0))) result out.new }
{
    let after_between = put_between(b", ", behind, at, out);
    let after_not = put_between(b"not ", negated(l, i), after_between, out);
    put_reference(t, d, words::atom(l, i), after_not, out)
}

// The aggregate literals of a rule.
fn put_literals(t: &Accepted, d: usize, l: &[i32], behind: bool, at: usize, out: &mut [u8]) -> usize
    requires { Members t.now.places.aggregates l.now }
    ensures { Put out.old at (joined_from comma behind (map (literal_text d (held_by t.now.words.now t.now.places).aggregates) l.now)) result out.new }
{
    let mut to = at;
    let mut follows = behind;
    for i in 0..l.len() {
        to = put_literal(t, d, l, i, follows, to, out);
        follows = true;
    }
    to
}

// Between a head and a body, by whether they have members.
fn put_neck(head: bool, body: bool, at: usize, out: &mut [u8]) -> usize
    ensures { Put out.old at (N.neck head body) result out.new }
{
    if head {
        return put_between(b" :- ", body, at, out);
    }
    put(b":- ", at, out)
}

// A body of three lists: positive atoms, negated atoms, aggregate literals.
fn put_body(
    t: &Accepted,
    d: usize,
    positive: &[i32],
    barred: &[i32],
    literals: &[i32],
    at: usize,
    out: &mut [u8],
) -> usize
    requires { Members t.now.places.aggregates literals.now }
    ensures { Put out.old at (joined comma (body_parts d (held_by t.now.words.now t.now.places).aggregates (L.atoms positive.now) (L.atoms barred.now) literals.now)) result out.new }
{
    let one = some(positive);
    let two = one | some(barred);
    let after_positive = put_atoms(positive, b"", b", ", false, at, out);
    let after_barred = put_atoms(barred, b"not ", b", ", one, after_positive, out);
    put_literals(t, d, literals, two, after_barred, out)
}

// A rule of four lists.
fn put_lists(
    t: &Accepted,
    d: usize,
    head: &[i32],
    positive: &[i32],
    barred: &[i32],
    literals: &[i32],
    at: usize,
    out: &mut [u8],
) -> usize
    requires { Members t.now.places.aggregates literals.now }
    ensures { Put out.old at (lists_text d (held_by t.now.words.now t.now.places).aggregates (L.atoms head.now) (L.atoms positive.now) (L.atoms barred.now) literals.now) result out.new }
{
    let body = some(positive) | some(barred) | some(literals);
    let after_head = put_atoms(head, b"", b" | ", false, at, out);
    let after_neck = put_neck(some(head), body, after_head, out);
    let after_body = put_body(t, d, positive, barred, literals, after_neck, out);
    put(b".\n", after_body, out)
}

// The rule that begins at `rule`.
pub fn put_rule(t: &Accepted, d: usize, rule: usize, at: usize, out: &mut [u8]) -> usize
    requires { RuleIn t.now rule }
    ensures { Put out.old at (rule_text d (held_by t.now.words.now t.now.places).aggregates (numbered_at t.now.words.now rule)) result out.new }
{
    let positive = layout::past(t.words, rule);
    let barred = layout::past(t.words, positive);
    let literals = layout::past(t.words, barred);
    let h = layout::part(t.words, rule);
    let p = layout::part(t.words, positive);
    let b = layout::part(t.words, barred);
    let l = layout::part(t.words, literals);
    put_lists(t, d, h, p, b, l, at, out)
}

// A rule after its number.
fn put_line(t: &Accepted, d: usize, number: usize, rule: usize, at: usize, out: &mut [u8]) -> usize
    requires { RuleIn t.now rule }
    ensures { Put out.old at (rule_line d (held_by t.now.words.now t.now.places).aggregates number (numbered_at t.now.words.now rule)) result out.new }
{
    let after_number = put_number(number, at, out);
    let after_colon = put(b": ", after_number, out);
    put_rule(t, d, rule, after_colon, out)
}

// All rules, in table order.
pub fn put_rules(t: &Accepted, d: usize, at: usize, out: &mut [u8]) -> usize
    ensures { Put out.old at (rules_text d (held_by t.now.words.now t.now.places).aggregates 1 (held_by t.now.words.now t.now.places).rules) result out.new }
{
    let mut to = at;
    let mut rule = t.places.first;
    for i in 0..t.places.rules {
        to = put_line(t, d, i + 1, rule, to, out);
        rule = layout::past_rule(t.words, rule);
    }
    to
}
