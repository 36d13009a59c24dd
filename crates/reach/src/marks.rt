// Atoms that are marked, and the list on which each marked atom stands once, in the order in which they were marked. Meaning: `specs/Visits.antt`.
ghost use Rattle.std.specs.Prelude.{◌≡◌, true, ◌&&◌, ℕ, suc, ◌+◌, ◌≤◌, ◌<◌, length, get_or};
ghost use Rattle.meaning.specs.Lists.{Is};
ghost use Rattle.levels.specs.Levels.{union, only};
ghost use Rattle.levels.specs.View.{row};
ghost use Rattle.reach.specs.Visits.{Part, Apart, Meeting, within, Queue, Put};

// The marks, and how many atoms are marked.
#[derive(Clone, Copy)]
pub struct Marked {
    pub marks: [u64; 4],
    pub count: usize,
}

// One more atom marked.
pub fn more(found: Marked, q: usize) -> Marked
    requires { (1 ≤ q) × (q ≤ 256) × (found.count ≤ 256) }
    ensures { (row result.marks ≡ union (only q) (row found.marks)) × (result.count ≡ found.count + 1) }
{
    let marks = found.marks;
    let next = levels::with(marks, q);
    Marked {
        marks: next,
        count: found.count + 1,
    }
}

// Whether all atoms of a set surely lie in another one.
pub fn inside(a: [u64; 4], b: [u64; 4]) -> bool
    ensures { result ≡ true → Part (row a) (row b) }
{
    levels::union(a, b) == b
}

// Whether an atom is in both of two sets.
pub fn in_both(a: [u64; 4], b: [u64; 4], l: usize) -> bool
    requires { (1 ≤ l) × (l ≤ 256) }
    ensures { result ≡ row a l && row b l }
{
    levels::has(a, l) && levels::has(b, l)
}

// Whether two sets surely have no atom in common.
pub fn apart(a: [u64; 4], b: [u64; 4]) -> bool
    ensures { result ≡ true → Apart (row a) (row b) }
{
    a.iter().zip(b.iter()).all(|(x, y)| *x & *y == 0)
}

// Whether one of the atoms 1 to n is in both of two sets.
pub fn meets(a: [u64; 4], b: [u64; 4], n: usize) -> bool
    requires { n ≤ 256 }
    ensures { Meeting n (row a) (row b) result }
{
    if apart(a, b) {
        return false;
    }
    for l in (1..=n).rev() {
        if in_both(a, b, l) {
            return true;
        }
    }
    false
}

// Atom p marked and put on an empty list.
pub fn start(p: usize, list: &mut [u8; 256]) -> Marked
    requires { (1 ≤ p) × (p ≤ 256) × (length list.old ≡ 256) }
    ensures { (row result.marks ≡ only p) × Queue (only p) list.new result.count }
{
    let place = p - 1;
    list[0] = place as u8;
    let marks = levels::single(p);
    Marked {
        marks: marks,
        count: 1,
    }
}

// Atom l, if it is in the set and not yet marked, marked and put at the end of the list.
pub fn put_one(to: [u64; 4], l: usize, seen: Marked, list: &mut [u8; 256]) -> Marked
    requires { (1 ≤ l) × (l ≤ 256) × Queue (row seen.marks) list.old seen.count }
    ensures { Put (within l l (row to)) (row seen.marks) list.old seen.count (row result.marks) list.new result.count }
{
    let marks = seen.marks;
    if !levels::has(to, l) {
        return seen;
    }
    if levels::has(marks, l) {
        return seen;
    }
    let end = seen.count;
    let place = l - 1;
    list[end] = place as u8;
    more(seen, l)
}

// The atoms 1 to n of a set that are not yet marked, marked and put at the end of the list. The atoms of a word that is 0 are passed over together.
pub fn put(to: [u64; 4], n: usize, seen: Marked, list: &mut [u8; 256]) -> Marked
    requires { (n ≤ 256) × Queue (row seen.marks) list.old seen.count }
    ensures { Put (within 1 n (row to)) (row seen.marks) list.old seen.count (row result.marks) list.new result.count }
{
    let mut all = seen;
    let mut l = n;
    while 0 < l {
        let k = (l - 1) / 64;
        if to[k] == 0 {
            l = 64 * k;
            continue;
        }
        all = put_one(to, l, all, list);
        l -= 1;
    }
    all
}

// Whether all atoms of a list are in a set.
pub fn listed_in(list: &[u8], set: [u64; 4]) -> bool
    ensures { result ≡ true → (i : ℕ) → i < length list.now → Is (row set (suc (get_or list.now i 0))) }
{
    for q in list {
        if !levels::has(set, *q as usize + 1) {
            return false;
        }
    }
    true
}
