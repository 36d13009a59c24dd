// Whether an arc from an atom to a positive body atom goes to an atom of a set, or to one that is not in it. It is found at the first such arc, without
// the set of all arcs, and serves as a short cut: "yes" for atoms of the set is sure, and nothing else is said. Meaning: `specs/Arcs.antt`.
ghost use Rattle.std.specs.Prelude.{◌≡◌, true, false, ℕ, ◌≤◌};
ghost use Rattle.meaning.specs.Lists.{Is};
ghost use Rattle.layout.specs.Accepted.{program_in};
ghost use Rattle.layout.specs.Layout.{Members};
ghost use Rattle.heads.specs.Heads.{Listed};
ghost use Rattle.levels.specs.View.{row};
ghost use Rattle.reach.specs.Arcs.{arcs_of, listed};

use heads::Lists;
use layout::Accepted;

// Whether an atom is in a set, or is not, as is wanted.
pub fn lies(set: [u64; 4], q: usize, wanted: bool) -> bool
    requires { (1 ≤ q) × (q ≤ 256) }
    ensures { wanted ≡ true → result ≡ true → Is (row set q) }
{
    levels::has(set, q) == wanted
}

// Whether one of a list's atoms is.
pub fn atoms_lie(l: &[i32], set: [u64; 4], wanted: bool) -> bool
    requires { Members 256 l.now }
    ensures { wanted ≡ true → result ≡ true → (q : ℕ) × Is (listed l.now q) × Is (row set q) }
{
    for w in l {
        if lies(set, words::size(*w), wanted) {
            return true;
        }
    }
    false
}

// Whether one of the positive body atoms of the rules with p in the head is.
pub fn touches(t: &Accepted, lists: &Lists, p: usize, set: [u64; 4], wanted: bool) -> bool
    requires { Listed t.now.words.now t.now.places lists.now × (1 ≤ p) × (p ≤ t.now.places.atoms) }
    ensures { wanted ≡ true → result ≡ true → (q : ℕ) × Is (arcs_of false (program_in t.now) p q) × Is (row set q) }
{
    let l = heads::list(lists, p);
    for at in l {
        let positive = layout::past(t.words, *at as usize);
        let body = layout::part(t.words, positive);
        if atoms_lie(body, set, wanted) {
            return true;
        }
    }
    false
}
