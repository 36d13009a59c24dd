// The atoms that an atom reaches: a visit with a list of atoms still to visit and a mark for each atom (02, Wish 3).
// Meaning: `specs/Visits.antt`; that a mark says exactly whether there is a chain of arcs: the contract of `visit`.
ghost use Rattle.std.specs.Prelude.{◌≡◌, ◌≤◌, length};
ghost use Rattle.layout.specs.Accepted.{program_in};
ghost use Rattle.heads.specs.Heads.{Listed};
ghost use Rattle.levels.specs.View.{row};
ghost use Rattle.reach.specs.Arcs.{arcs_of};
ghost use Rattle.reach.specs.Visits.{Visited};

use crate::marks::Marked;
use crate::{arcs, marks};
use heads::Lists;
use layout::Accepted;

// The atoms that p reaches, by one arc or more or none. The list has them in the order in which they are found; those from index i on are still to
// visit. Each atom is marked when it is put on the list, so it is put there once, and the list has room.
pub fn visit(t: &Accepted, lists: &Lists, added: bool, p: usize, list: &mut [u8; 256]) -> Marked
    requires { Listed t.now.words.now t.now.places lists.now × (1 ≤ p) × (p ≤ t.now.places.atoms) × (length list.old ≡ 256) }
    ensures { Visited (arcs_of added (program_in t.now)) p (row result.marks) list.new result.count }
{
    let n = t.places.atoms;
    let mut seen = marks::start(p, list);
    // Stays: the list grows while it is walked, so its end is not known before, and no range has it.
    let mut i: usize = 0;
    while i < seen.count {
        let a = list[i] as usize + 1;
        let to = arcs::from_atom(t, lists, added, a);
        seen = marks::put(to, n, seen, list);
        i += 1;
    }
    seen
}
