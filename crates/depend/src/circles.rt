// Which atoms reach each other: for each atom a name of its circle. Atoms with the same name are those that reach each other. Each circle is found once,
// by a visit from its lowest atom and a walk back; atoms that lie on no cycle keep a name of their own. Meaning: `specs/Circles.antt`.
ghost use Rattle.std.specs.Prelude.{◌≡◌, cond, ◌+◌, ◌-◌, ◌≤◌, ◌<◌, length, set};
ghost use Rattle.layout.specs.Accepted.{program_in};
ghost use Rattle.heads.specs.Heads.{Listed};
ghost use Rattle.levels.specs.View.{row};
ghost use Rattle.reach.specs.Arcs.{arcs_of};
ghost use Rattle.reach.specs.Visits.{Settled};
ghost use Rattle.depend.specs.Circles.{alike, Apart, Renamed, Named, Final};

use heads::Lists;
use layout::Accepted;
use reach::{back, marks, settling};

// The name of an atom's circle is one of its atoms, less one.
pub type Names = [u8; 256];

// Each atom with a name of its own.
pub fn apart() -> Names
    ensures { Apart 256 result }
{
    let mut names = [0u8; 256];
    for i in 0..256 {
        names[i] = i as u8;
    }
    names
}

// Whether two atoms have the same name.
pub fn same(names: &Names, p: usize, q: usize) -> bool
    requires { (1 ≤ p) × (p ≤ 256) × (1 ≤ q) × (q ≤ 256) }
    ensures { result ≡ alike names.now p q }
{
    let i = p - 1;
    let j = q - 1;
    names[i] == names[j]
}

// Atom l named by p, if it is in the set.
pub fn name_one(these: [u64; 4], l: usize, p: usize, names: &mut Names)
    requires { (1 ≤ l) × (l ≤ 256) × (1 ≤ p) × (p ≤ 256) × (length names.old ≡ 256) }
    ensures { names.new ≡ cond (row these l) (set names.old (l - 1) (p - 1)) names.old }
{
    if !levels::has(these, l) {
        return;
    }
    let place = l - 1;
    let own = p - 1;
    names[place] = own as u8;
}

// The atoms 1 to n of a set named by p.
pub fn name(these: [u64; 4], n: usize, p: usize, names: &mut Names)
    requires { (n ≤ 256) × (1 ≤ p) × (p ≤ 256) × (length names.old ≡ 256) }
    ensures { Renamed 0 n (row these) p names.old names.new }
{
    for i in (0..n).rev() {
        name_one(these, i + 1, p, names);
    }
}

// The circle of the atom after p named, if that atom is not done with and has its own name still; and what is done with then. An atom whose arcs all go to
// such atoms is alone on its circle. Where all that an atom reaches is done with or on its circle, the circle is done with too; else those that it reaches
// are tried, from the last on.
pub fn find_one(
    t: &Accepted,
    lists: &Lists,
    added: bool,
    settled: [u64; 4],
    p: usize,
    names: &mut Names,
) -> [u64; 4]
    requires { Listed t.now.words.now t.now.places lists.now × Final (arcs_of added (program_in t.now)) t.now.places.atoms names.old (row settled) × (p < t.now.places.atoms) × Named (arcs_of added (program_in t.now)) t.now.places.atoms p names.old }
    ensures { Named (arcs_of added (program_in t.now)) t.now.places.atoms (p + 1) names.new × Final (arcs_of added (program_in t.now)) t.now.places.atoms names.new (row result) }
{
    let q = p + 1;
    if levels::has(settled, q) {
        return settled;
    }
    if names[p] as usize != p {
        return settled;
    }
    let tried = settling::settle(t, lists, added, q, settled);
    if levels::has(tried, q) {
        return tried;
    }
    let mut list = [0u8; 256];
    let round = back::circle(t, lists, added, q, &mut list);
    let these = round.marks;
    let n = t.places.atoms;
    name(these, n, q, names);
    let reached = &list[..round.count];
    let all = levels::union(these, settled);
    if marks::listed_in(reached, all) {
        return all;
    }
    settling::along(t, lists, added, reached, settled)
}

// The circles of all atoms named.
pub fn find(t: &Accepted, lists: &Lists, added: bool, settled: [u64; 4], names: &mut Names)
    requires { Listed t.now.words.now t.now.places lists.now × Settled (arcs_of added (program_in t.now)) (row settled) × (length names.old ≡ 256) × Apart 256 names.old }
    ensures { Named (arcs_of added (program_in t.now)) t.now.places.atoms t.now.places.atoms names.new }
{
    let n = t.places.atoms;
    let mut done = settled;
    for p in 0..n {
        let next = find_one(t, lists, added, done, p, names);
        done = next;
    }
}
