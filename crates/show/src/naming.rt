// How many aggregates need a name: those after them are taken in turn by the literals of the rules, each once. Meaning: `notation`, `named`.
ghost use Rattle.std.specs.Prelude.{◌≡◌, ◌<◌, ◌≤◌, pos, length, get_or};
ghost use Rattle.layout.specs.Layout.{Members, nat_at};
ghost use Rattle.notation.specs.Notation as N;
ghost use Rattle.aspif_parts.specs.Held.{numbered_from, held_by};

use layout::Accepted;

// Stays: 0 says that no turn can follow, as `turn` of crate `notation` has it, whose meaning may not change.
// The aggregate whose turn it is after the literal at index i of a list, or 0.
fn turn(l: &[i32], i: usize, d: usize, e: usize) -> usize
    requires { (i < length l.now) × (nat_at l.now i ≤ 64) }
    ensures { result ≡ N.turn d e (get_or l.now i (pos 0)) }
{
    let n = words::atom(l, i);
    if n <= d {
        return e;
    }
    if n == e {
        return n + 1;
    }
    0
}

// The same after all literals of a list.
fn turns(l: &[i32], d: usize, e: usize) -> usize
    requires { Members 64 l.now }
    ensures { result ≡ N.turns d e l.now }
{
    let mut next = e;
    for i in 0..l.len() {
        next = turn(l, i, d, next);
    }
    next
}

// Whether the aggregates after d are taken in turn, to the last.
fn in_turn(t: &Accepted, d: usize) -> bool
    requires { (d < 64) }
    ensures { result ≡ N.in_turn (held_by t.now.words.now t.now.places) d }
{
    let mut next = d + 1;
    let mut rule = t.places.first;
    for _ in 0..t.places.rules {
        let literals = layout::literals_at(t.words, rule);
        next = turns(layout::part(t.words, literals), d, next);
        rule = layout::past_rule(t.words, rule);
    }
    next == t.places.aggregates + 1
}

// The least number of names that does.
pub fn named(t: &Accepted) -> usize
    ensures { result ≡ N.named (held_by t.now.words.now t.now.places) }
{
    let most = t.places.aggregates;
    for d in 0..most {
        if in_turn(t, d) {
            return d;
        }
    }
    most
}
