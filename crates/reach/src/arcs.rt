// The arcs from an atom, as the set of atoms to which they go, read from the rules that have it in the head. Sets of atoms are rows of four words, as
// in `levels`. Meaning: `specs/Arcs.antt`.
ghost use Rattle.std.specs.Prelude.{◌≡◌, ◌-◌, ◌≤◌};
ghost use Rattle.layout.specs.Accepted.{program_in, rule_in, RuleIn};
ghost use Rattle.layout.specs.Layout.{pairs_at, start_from, Members};
ghost use Rattle.heads.specs.Heads.{Listed};
ghost use Rattle.levels.specs.Levels.{union};
ghost use Rattle.levels.specs.View.{row};
ghost use Rattle.reach.specs.Arcs.{arcs_of, targets, listed, elements, literals, Elements};

use heads::Lists;
use layout::Accepted;

// The words of the pairs of aggregate j, from 1.
pub fn elements_of<'a>(t: &Accepted<'a>, j: usize) -> &'a [i32]
    requires { (1 ≤ j) × (j ≤ t.now.places.aggregates) }
    ensures { result.now ≡ pairs_at t.now.words.now (start_from t.now.words.now 2 (j - 1)) }
{
    let place = j - 1;
    let start = t.places.starts[place] as usize;
    layout::pairs(t.words, start)
}

// A list's atoms joined to a set.
pub fn with_atoms(l: &[i32], set: [u64; 4]) -> [u64; 4]
    requires { Members 256 l.now }
    ensures { row result ≡ union (listed l.now) (row set) }
{
    let mut all = set;
    for w in l {
        let next = levels::with(all, words::size(*w));
        all = next;
    }
    all
}

// The atoms of pairs of value and atom joined to a set.
// Stays: it differs from `with_atoms` in the words that it takes, and one function for both would be told which by a step and an offset.
pub fn with_pairs(l: &[i32], set: [u64; 4]) -> [u64; 4]
    requires { Elements 256 l.now }
    ensures { row result ≡ union (elements l.now) (row set) }
{
    let mut all = set;
    for i in 0..l.len() / 2 {
        let next = levels::with(all, words::atom(l, 2 * i + 1));
        all = next;
    }
    all
}

// The element atoms of a list of aggregate literals joined to a set, whether a literal is negated or not.
pub fn with_literals(t: &Accepted, l: &[i32], set: [u64; 4]) -> [u64; 4]
    requires { Members t.now.places.aggregates l.now }
    ensures { row result ≡ union (literals t.now.words.now l.now) (row set) }
{
    let mut all = set;
    for w in l {
        let pairs = elements_of(t, words::size(*w));
        let next = with_pairs(pairs, all);
        all = next;
    }
    all
}

// The atoms to which the rule that begins at `at` makes arcs joined to a set: its positive body atoms, and the elements of its aggregates where
// `added`.
pub fn targets(t: &Accepted, added: bool, at: usize, set: [u64; 4]) -> [u64; 4]
    requires { RuleIn t.now at }
    ensures { row result ≡ union (targets added (rule_in t.now at)) (row set) }
{
    let positive = layout::past(t.words, at);
    let body = layout::part(t.words, positive);
    let plain = with_atoms(body, set);
    if added {
        let literals = layout::literals_at(t.words, at);
        let l = layout::part(t.words, literals);
        return with_literals(t, l, plain);
    }
    plain
}

// The atoms to which an arc goes from p.
pub fn from_atom(t: &Accepted, lists: &Lists, added: bool, p: usize) -> [u64; 4]
    requires { Listed t.now.words.now t.now.places lists.now × (1 ≤ p) × (p ≤ t.now.places.atoms) }
    ensures { row result ≡ arcs_of added (program_in t.now) p }
{
    let l = heads::list(lists, p);
    let mut all = levels::empty();
    for at in l {
        let next = targets(t, added, *at as usize, all);
        all = next;
    }
    all
}
