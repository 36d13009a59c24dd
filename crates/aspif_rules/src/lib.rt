// The rules of a table as lines: the head, then the positive atoms, the negated ones and the aggregate literals by their new atoms.
#![tactic(auto)]

ghost use Rattle.std.specs.Prelude.{◌≡◌, not, map, ◌++◌, [], ◌∷◌, ◌+◌, ◌≤◌, ◌<◌, pos, length, get_or};
ghost use Rattle.std.specs.Bool.{beq};
ghost use Rattle.layout.specs.Layout as L;
ghost use Rattle.layout.specs.Accepted.{RuleIn};
ghost use Rattle.layout.specs.Layout.{Members, part_at, past_at, aggs_at, nat_at, function_by, comparison_by};
ghost use Rattle.aspif.specs.Writing as W;
ghost use Rattle.aspif.specs.Writing.{with, stated_literal, stated};
ghost use Rattle.bytes_out.specs.Putting.{Put, signed_text};
ghost use Rattle.aspif_parts.specs.Held.{numbered_at, numbered_from, held_by};
ghost use Rattle.aspif_parts.specs.Uses.{NewAtoms};
ghost use Rattle.aspif_parts.specs.Parts.{line_text, lines_text, head_text, literal_text, literals_text, body_text, InUse, BodyLies, stated_body};

use aspif_parts::{negated, place, start, straight, turned};
use bytes_out::{put, put_byte, put_field, put_signed};
use layout::Accepted;

// Stays: two short walks, this one and `put_literals`: one walk would take a closure, and its contract what that puts.
// Atoms, each plain or each negated.
pub fn put_atoms(l: &[i32], plain: bool, at: usize, out: &mut [u8]) -> usize
    requires { Members 256 l.now }
    ensures { Put out.old at (literals_text (map (with plain) (L.atoms l.now))) result out.new }
{
    let mut to = at;
    for i in 0..l.len() {
        to = put_signed(plain, words::atom(l, i), to, out);
    }
    to
}

// A new atom in the place of a literal over the aggregate that begins at `begin`.
fn put_new(t: &[i32], begin: usize, new: u16, negation: bool, at: usize, out: &mut [u8]) -> usize
    requires { begin + 1 < length t.now }
    ensures { Put out.old at (signed_text (beq (not negation) (not (W.turned (function_by (nat_at t.now begin)) (comparison_by (nat_at t.now (begin + 1)))))) new) result out.new }
{
    let turn = turned(layout::function(t, begin), layout::comparison(t, begin));
    let plain = straight(negation, turn);
    put_signed(plain, new as usize, at, out)
}

// The aggregate literal at index i of a rule's list, by its new atom.
fn put_literal(
    t: &Accepted,
    news: &[u16; 128],
    l: &[i32],
    i: usize,
    at: usize,
    out: &mut [u8],
) -> usize
    requires { NewAtoms (held_by t.now.words.now t.now.places) news.now × Members t.now.places.aggregates l.now × InUse (held_by t.now.words.now t.now.places) l.now × (i < length l.now) }
    ensures { Put out.old at (literal_text (stated_literal (held_by t.now.words.now t.now.places) (get_or l.now i (pos 0)))) result out.new }
{
    let number = words::atom(l, i) - 1;
    let begin = start(t.places, number);
    let slot = place(l, i);
    put_new(t.words, begin, news[slot], negated(l, i), at, out)
}

// The aggregate literals of a rule by their new atoms.
fn put_literals(t: &Accepted, news: &[u16; 128], l: &[i32], at: usize, out: &mut [u8]) -> usize
    requires { NewAtoms (held_by t.now.words.now t.now.places) news.now × Members t.now.places.aggregates l.now × InUse (held_by t.now.words.now t.now.places) l.now }
    ensures { Put out.old at (literals_text (map (stated_literal (held_by t.now.words.now t.now.places)) l.now)) result out.new }
{
    let mut to = at;
    for i in 0..l.len() {
        to = put_literal(t, news, l, i, to, out);
    }
    to
}

// A rule statement as far as its head.
fn put_head(l: &[i32], at: usize, out: &mut [u8]) -> usize
    requires { Members 256 l.now }
    ensures { Put out.old at (head_text (L.atoms l.now)) result out.new }
{
    let begun = put(b"1 0", at, out);
    let counted = put_field(l.len(), begun, out);
    put_atoms(l, true, counted, out)
}

// The body of the rule whose positive atoms stand at `positive`.
fn put_body(t: &Accepted, news: &[u16; 128], positive: usize, at: usize, out: &mut [u8]) -> usize
    requires { NewAtoms (held_by t.now.words.now t.now.places) news.now × BodyLies t.now.words.now t.now.places positive × InUse (held_by t.now.words.now t.now.places) (part_at t.now.words.now (past_at t.now.words.now (past_at t.now.words.now positive))) }
    ensures { Put out.old at (body_text (stated_body (held_by t.now.words.now t.now.places) t.now.words.now positive)) result out.new }
{
    let barred = layout::past(t.words, positive);
    let literals = layout::past(t.words, barred);
    let number = words::atom(t.words, positive)
        + words::atom(t.words, barred)
        + words::atom(t.words, literals);
    let begun = put(b" 0", at, out);
    let counted = put_field(number, begun, out);
    let after_positive = put_atoms(layout::part(t.words, positive), true, counted, out);
    let after_barred = put_atoms(layout::part(t.words, barred), false, after_positive, out);
    put_literals(t, news, layout::part(t.words, literals), after_barred, out)
}

// The line of the rule that begins at `rule`.
fn put_rule(t: &Accepted, news: &[u16; 128], rule: usize, at: usize, out: &mut [u8]) -> usize
    requires { NewAtoms (held_by t.now.words.now t.now.places) news.now × RuleIn t.now rule × InUse (held_by t.now.words.now t.now.places) (part_at t.now.words.now (aggs_at t.now.words.now rule)) }
    ensures { Put out.old at (line_text (stated (held_by t.now.words.now t.now.places) (numbered_at t.now.words.now rule))) result out.new }
{
    let positive = layout::past(t.words, rule);
    let after_head = put_head(layout::part(t.words, rule), at, out);
    let after_body = put_body(t, news, positive, after_head, out);
    put_byte(10, after_body, out)
}

// The lines of all rules, in table order.
pub fn put_rules(t: &Accepted, news: &[u16; 128], at: usize, out: &mut [u8]) -> usize
    requires { NewAtoms (held_by t.now.words.now t.now.places) news.now }
    ensures { Put out.old at (lines_text (map (stated (held_by t.now.words.now t.now.places)) (numbered_from t.now.words.now t.now.places.first t.now.places.rules))) result out.new }
{
    let mut to = at;
    let mut rule = t.places.first;
    for _ in 0..t.places.rules {
        to = put_rule(t, news, rule, to, out);
        rule = layout::past_rule(t.words, rule);
    }
    to
}
