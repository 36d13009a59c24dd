// Atoms that surely lie on no cycle: those whose arcs all go to atoms settled before, and to none else. Walks over all atoms find most of them at once where there is no
// cycle; how many walks are made is bounded, since what is left unsettled is visited. Meaning: `specs/Visits.antt`.
ghost use Rattle.std.specs.Prelude.{◌≡◌, true, ℕ, ◌≤◌, ◌<◌, length, get_or};
ghost use Rattle.layout.specs.Accepted.{program_in};
ghost use Rattle.heads.specs.Heads.{Listed};
ghost use Rattle.levels.specs.Levels.{up_to};
ghost use Rattle.levels.specs.View.{row};
ghost use Rattle.reach.specs.Arcs.{arcs_of};
ghost use Rattle.reach.specs.Visits.{Part, Closed, Settling, Settled};

use crate::{arcs, marks, touching};
use heads::Lists;
use layout::{Accepted, Table};

// How many times all atoms are walked, down and up.
pub const ROUNDS: usize = 2;

// Atom p settled, if all its arcs go to settled atoms. Where one surely does not, that is seen first.
pub fn settle(t: &Accepted, lists: &Lists, added: bool, p: usize, done: [u64; 4]) -> [u64; 4]
    requires { Listed t.now.words.now t.now.places lists.now × (1 ≤ p) × (p ≤ t.now.places.atoms) × Closed (arcs_of added (program_in t.now)) (row done) }
    ensures { Settling (arcs_of added (program_in t.now)) (row done) (row result) }
{
    if levels::has(done, p) {
        return done;
    }
    if touching::touches(t, lists, p, done, false) {
        return done;
    }
    let to = arcs::from_atom(t, lists, added, p);
    if !marks::inside(to, done) {
        return done;
    }
    levels::with(done, p)
}

// A walk from the last atom to the first.
// Stays: `down`, `up` and `along` differ in the order alone, and a shared walk over any order would take an iterator, with a contract longer than the loop.
pub fn down(t: &Accepted, lists: &Lists, added: bool, done: [u64; 4]) -> [u64; 4]
    requires { Listed t.now.words.now t.now.places lists.now × Closed (arcs_of added (program_in t.now)) (row done) }
    ensures { Settling (arcs_of added (program_in t.now)) (row done) (row result) }
{
    let mut all = done;
    for p in (1..=t.places.atoms).rev() {
        let next = settle(t, lists, added, p, all);
        all = next;
    }
    all
}

// A walk from the first atom to the last.
pub fn up(t: &Accepted, lists: &Lists, added: bool, done: [u64; 4]) -> [u64; 4]
    requires { Listed t.now.words.now t.now.places lists.now × Closed (arcs_of added (program_in t.now)) (row done) }
    ensures { Settling (arcs_of added (program_in t.now)) (row done) (row result) }
{
    let mut all = done;
    for p in 1..=t.places.atoms {
        let next = settle(t, lists, added, p, all);
        all = next;
    }
    all
}

// A walk over the atoms of a list, from the last to the first: where an atom was found from another one, it comes before it.
pub fn along(t: &Accepted, lists: &Lists, added: bool, list: &[u8], done: [u64; 4]) -> [u64; 4]
    requires { Listed t.now.words.now t.now.places lists.now × ((i : ℕ) → i < length list.now → get_or list.now i 0 < t.now.places.atoms) × Closed (arcs_of added (program_in t.now)) (row done) }
    ensures { Settling (arcs_of added (program_in t.now)) (row done) (row result) }
{
    let mut all = done;
    for p in list.iter().rev() {
        let next = settle(t, lists, added, *p as usize + 1, all);
        all = next;
    }
    all
}

// The atoms that a few walks settle.
pub fn settled(t: &Accepted, lists: &Lists, added: bool) -> [u64; 4]
    requires { Listed t.now.words.now t.now.places lists.now }
    ensures { Settled (arcs_of added (program_in t.now)) (row result) }
{
    let mut all = levels::empty();
    for _ in 0..ROUNDS {
        let lower = down(t, lists, added, all);
        let both = up(t, lists, added, lower);
        if both == all {
            return both;
        }
        all = both;
    }
    all
}

// Whether all atoms are settled.
pub fn everything(done: [u64; 4], tb: Table) -> bool
    requires { tb.atoms ≤ 256 }
    ensures { result ≡ true → Part (up_to tb.atoms) (row done) }
{
    let n = tb.atoms;
    let all = levels::upto(n);
    marks::inside(all, done)
}
