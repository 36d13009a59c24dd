// Which of the atoms that p reaches reach p in turn: with p, a circle. No list has the rules by their bodies, so the list of a visit is walked until a
// walk adds nothing, from its last atom to its first, since an atom that was found late is more often near an arc back. Meaning: `specs/Visits.antt`.
ghost use Rattle.std.specs.Prelude.{◌≡◌, ◌↔◌, ℕ, ◌≤◌, ◌<◌, length, get_or};
ghost use Rattle.meaning.specs.Lists.{Is};
ghost use Rattle.layout.specs.Accepted.{program_in};
ghost use Rattle.heads.specs.Heads.{Listed};
ghost use Rattle.levels.specs.View.{row};
ghost use Rattle.reach.specs.Arcs.{arcs_of};
ghost use Rattle.reach.specs.Visits.{size, Reached, Led, Walked, Circle};

use crate::marks::Marked;
use crate::{arcs, marks, touching, visits};
use heads::Lists;
use layout::Accepted;

// Atom q marked, if an arc goes from it to a marked atom. Where a positive body atom is marked, that is seen first.
pub fn led(t: &Accepted, lists: &Lists, added: bool, q: usize, found: Marked) -> Marked
    requires { Listed t.now.words.now t.now.places lists.now × (1 ≤ q) × (q ≤ t.now.places.atoms) × (found.count ≤ size (row found.marks) 256) }
    ensures { Led (arcs_of added (program_in t.now)) q (row found.marks) found.count (row result.marks) result.count }
{
    let marks = found.marks;
    if levels::has(marks, q) {
        return found;
    }
    if touching::touches(t, lists, q, marks, true) {
        return marks::more(found, q);
    }
    let to = arcs::from_atom(t, lists, added, q);
    let n = t.places.atoms;
    if !marks::meets(to, marks, n) {
        return found;
    }
    marks::more(found, q)
}

// One walk over the atoms of a list.
pub fn walk(t: &Accepted, lists: &Lists, added: bool, list: &[u8], found: Marked) -> Marked
    requires { Listed t.now.words.now t.now.places lists.now × (length list.now ≤ 256) × ((i : ℕ) → i < length list.now → get_or list.now i 0 < t.now.places.atoms) × (found.count ≤ size (row found.marks) 256) }
    ensures { Walked (arcs_of added (program_in t.now)) list.now 0 (length list.now) (row found.marks) found.count (row result.marks) result.count }
{
    let mut all = found;
    for q in list.iter().rev() {
        all = led(t, lists, added, *q as usize + 1, all);
    }
    all
}

// The atoms on the list of a visit from p that reach p.
pub fn back(t: &Accepted, lists: &Lists, added: bool, list: &[u8], p: usize) -> [u64; 4]
    requires { Listed t.now.words.now t.now.places lists.now × (1 ≤ p) × (p ≤ t.now.places.atoms) × Reached (arcs_of added (program_in t.now)) p list.now (length list.now) }
    ensures { (q : ℕ) → Is (row result q) ↔ Circle (arcs_of added (program_in t.now)) p q }
{
    let alone = levels::single(p);
    let mut found = Marked {
        marks: alone,
        count: 1,
    };
    loop {
        let next = walk(t, lists, added, list, found);
        if next.count == found.count {
            return found.marks;
        }
        found = next;
    }
}

// The circle of p: the atoms that p reaches and that reach p; and how many it reaches, which then stand on the list.
pub fn circle(t: &Accepted, lists: &Lists, added: bool, p: usize, list: &mut [u8; 256]) -> Marked
    requires { Listed t.now.words.now t.now.places lists.now × (1 ≤ p) × (p ≤ t.now.places.atoms) × (length list.old ≡ 256) }
    ensures { ((q : ℕ) → Is (row result.marks q) ↔ Circle (arcs_of added (program_in t.now)) p q)
        × Reached (arcs_of added (program_in t.now)) p list.new result.count }
{
    let seen = visits::visit(t, lists, added, p, list);
    let many = seen.count;
    let round = back(t, lists, added, &list[..many], p);
    Marked {
        marks: round,
        count: many,
    }
}
