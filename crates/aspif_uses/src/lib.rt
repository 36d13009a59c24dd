// Which aggregate literals are in use, and their new atoms (02, Wish 6: "a new atom above N for each aggregate literal in use"). Aggregate j has
// place 2 (j - 1) and its negation the next: the places are in the order in which new atoms are numbered. Meaning: `specs/Uses.antt`.
#![tactic(auto)]

ghost use Rattle.std.specs.Prelude.{◌≡◌, suc, ◌≤◌, ◌<◌, replicate};
ghost use Rattle.layout.specs.Layout.{Members};
ghost use Rattle.aspif_parts.specs.Held.{numbered_from, held_by};
ghost use Rattle.aspif_parts.specs.Uses.{mark_all, mark_rules, atom_by, next_by, numbered_by, NewAtoms};

use aspif_parts::place;
use layout::Accepted;

// How many literals there can be: two for each of 64 aggregates.
pub const MOST: usize = 128;

// The literals of a list marked.
fn mark(l: &[i32], mut marks: [u16; 128]) -> [u16; 128]
    requires { Members 64 l.now }
    ensures { result ≡ mark_all marks l.now }
{
    for i in 0..l.len() {
        let at = place(l, i);
        marks[at] = 1;
    }
    marks
}

// Every literal that a rule has is marked.
fn marked(t: &Accepted) -> [u16; 128]
    ensures { result ≡ mark_rules (replicate 128 0) (numbered_from t.now.words.now t.now.places.first t.now.places.rules) }
{
    let mut marks = [0u16; MOST];
    let mut at = t.places.first;
    for _ in 0..t.places.rules {
        let literals = layout::literals_at(t.words, at);
        let next = mark(layout::part(t.words, literals), marks);
        marks = next;
        at = layout::past(t.words, literals);
    }
    marks
}

// Stays: 0 says that a literal is not in use, as `NewAtoms` has it, whose meaning may not change.
// The new atom of a literal with this mark, where `next` is the next one that is free; 0 where the literal is not in use.
fn atom(mark: u16, next: u16) -> u16
    ensures { result ≡ atom_by mark next }
{
    if mark == 0 {
        return 0;
    }
    next
}

// The next free one after it.
fn after(mark: u16, next: u16) -> u16
    requires { next < 65535 }
    ensures { result ≡ next_by mark next }
{
    if mark == 0 {
        return next;
    }
    next + 1
}

// The new atom of every literal in use; 0 for the others.
fn numbered(n: usize, mut marks: [u16; 128]) -> [u16; 128]
    requires { n ≤ 256 }
    ensures { result ≡ numbered_by (suc n) marks }
{
    let mut next = n as u16 + 1;
    for i in 0..MOST {
        let mark = marks[i];
        marks[i] = atom(mark, next);
        next = after(mark, next);
    }
    marks
}

// The new atoms of an accepted table.
pub fn new_atoms(t: &Accepted) -> [u16; 128]
    ensures { NewAtoms (held_by t.now.words.now t.now.places) result }
{
    let marks = marked(t);
    let n = t.places.atoms;
    numbered(n, marks)
}
