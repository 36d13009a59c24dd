// For each atom the rules that have it in the head, in rule order, found once for an accepted table: steps d and e walk only those. A rule is
// named by the index at which it begins. All lists stand one after the other in one array: list 0 has all rules, list p those with atom p in the
// head. List p begins at the index that stands at index 2p and ends before the one that stands at index 2p + 1. Meaning: `specs/Heads.antt`.
// The members of each list are counted first, which says where it ends; then the rules are put at the front of their lists, from the last on.
// Memory: 514 words of 16 bits, and one for each rule (1,024 at most) and each atom of a head (16,384 at most): 35,844 bytes.
#![tactic(auto)]

ghost use Rattle.std.specs.Prelude.{◌≡◌, List, [], ℕ, ◌+◌, ◌*◌, ◌≤◌, ◌<◌, length, get_or, take, drop};
ghost use Rattle.meaning.specs.Lists.{has};
ghost use Rattle.layout.specs.Layout.{atoms, Members};
ghost use Rattle.heads.specs.Heads.{bounds, size, places_of, list_at, Whole, Counted, Counts, end_of, Ended, Regions, Room, Put};

use layout::{Accepted, Table};

// The words that say where lists begin and end: two for list 0 and two for each atom.
pub const BOUNDS: usize = 2 * (Table::ATOMS + 1);

// All words: those, one for each rule, and one for each atom of a head, of which there are fewer than words of the table.
pub const SIZE: usize = BOUNDS + Table::RULES + Table::WORDS;

// The lists of a table.
pub type Lists = [u16; SIZE];

// List p, as a part of the lists.
pub fn list(lists: &[u16], p: usize) -> &[u16]
    requires { (2 * p + 1 < length lists.now) × (get_or lists.now (2 * p) 0 ≤ get_or lists.now (2 * p + 1) 0) × (get_or lists.now (2 * p + 1) 0 ≤ length lists.now) }
    ensures { result.now ≡ list_at lists.now p }
{
    let begin = 2 * p;
    let end = begin + 1;
    let from = lists[begin] as usize;
    let to = lists[end] as usize;
    &lists[from..to]
}

// Whether an atom is in a list.
pub fn has_atom(l: &[i32], p: usize) -> bool
    ensures { result ≡ has p (atoms l.now) }
{
    l.iter().any(|w| words::size(*w) == p)
}

// The words that say where lists begin and end, all 0.
pub fn clear(lists: &mut [u16])
    requires { length lists.old ≡ size }
    ensures { (length lists.new ≡ size) × ((i : ℕ) → i < bounds → get_or lists.new i 0 ≡ 0) }
{
    lists[..BOUNDS].fill(0);
}

// Where each rule begins, written from index `BOUNDS` on: list 0.
pub fn rules(t: &Accepted, lists: &mut [u16])
    requires { (length lists.old ≡ size) }
    ensures { (length lists.new ≡ size) × (take bounds lists.new ≡ take bounds lists.old)
        × (take t.now.places.rules (drop bounds lists.new) ≡ places_of t.now.words.now t.now.places) }
{
    let mut at = t.places.first;
    for i in 0..t.places.rules {
        lists[BOUNDS + i] = at as u16;
        at = layout::past_rule(t.words, at);
    }
}

// One rule counted: for each atom of its head, one more at the index where its list's end will stand. An atom that stands again later in the head is
// counted there.
pub fn count_head(head: &[i32], lists: &mut [u16])
    requires { Members 256 head.now × (length lists.old ≡ size) × ((p : ℕ) → p ≤ 256 → get_or lists.old (2 * p + 1) 0 ≤ 1024) }
    ensures { Counted (atoms head.now) lists.old lists.new }
{
    for i in (0..head.len()).rev() {
        let p = words::atom(head, i);
        if !has_atom(&head[i + 1..], p) {
            lists[2 * p + 1] += 1;
        }
    }
}

// The rules with each atom in the head, counted.
pub fn count(t: &Accepted, lists: &mut [u16])
    requires { Counts t.now.words.now t.now.places [] lists.old }
    ensures { Counts t.now.words.now t.now.places (places_of t.now.words.now t.now.places) lists.new }
{
    for r in (0..t.places.rules).rev() {
        let at = lists[BOUNDS + r] as usize;
        let head = layout::part(t.words, at);
        count_head(head, lists);
    }
}

// From the counts, where each list ends; so far it begins there too. List 0 is whole.
pub fn ends(rules: usize, lists: &mut [u16])
    requires { (length lists.old ≡ size) × (end_of lists.old (bounds + rules) 256 ≤ size) }
    ensures { Ended (bounds + rules) 256 lists.old lists.new }
{
    let mut end = BOUNDS + rules;
    lists[0] = BOUNDS as u16;
    lists[1] = end as u16;
    for p in 1..Table::ATOMS + 1 {
        let begins = 2 * p;
        let ends = begins + 1;
        end += lists[ends] as usize;
        lists[begins] = end as u16;
        lists[ends] = end as u16;
    }
}

// One rule put at the front of the list of each atom of its head. For an atom that stands again later in the head it is put there.
// Stays: a walk shared with `count_head` would take a closure that writes the lists, and its contract would be longer than the four lines.
pub fn put_head(head: &[i32], rule: u16, lists: &mut [u16])
    requires { Members 256 head.now × Regions lists.old × Room (atoms head.now) lists.old }
    ensures { Put (atoms head.now) rule lists.old lists.new }
{
    for i in (0..head.len()).rev() {
        let p = words::atom(head, i);
        if !has_atom(&head[i + 1..], p) {
            let begins = 2 * p;
            let front = lists[begins] - 1;
            lists[front as usize] = rule;
            lists[begins] = front;
        }
    }
}

// All rules put into their lists, from the last to the first, where each list is empty and its end is known.
pub fn put_rules(t: &Accepted, lists: &mut [u16])
    requires { ((a : List ℕ) × Counts t.now.words.now t.now.places (places_of t.now.words.now t.now.places) a × Ended (bounds + t.now.places.rules) 256 a lists.old) }
    ensures { Whole t.now.words.now t.now.places lists.new }
{
    for last in (0..t.places.rules).rev() {
        let rule = lists[BOUNDS + last];
        let head = layout::part(t.words, rule as usize);
        put_head(head, rule, lists);
    }
}

// The lists of an accepted table.
pub fn fill(t: &Accepted, lists: &mut [u16])
    requires { (length lists.old ≡ size) }
    ensures { Whole t.now.words.now t.now.places lists.new }
{
    clear(lists);
    rules(t, lists);
    count(t, lists);
    ends(t.places.rules, lists);
    put_rules(t, lists);
}
