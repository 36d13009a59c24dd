// Sets of levels 1 to 256 as rows of four words. Meaning: `specs/Levels.antt`, read by `specs/View.antt`.
#![tactic(auto)]

ghost use Rattle.std.specs.Prelude.{◌≡◌, ◌≤◌, ◌<◌};
ghost use Rattle.levels.specs.Levels.{no_levels, union, only, without, up_to, highest};
ghost use Rattle.levels.specs.View.{row, rows};

pub fn empty() -> [u64; 4]
    ensures { row result ≡ no_levels }
{
    [0u64; 4]
}

// No reasons at all.
pub fn no_rows() -> [[u64; 4]; 256]
    ensures { rows result ≡ (λ p. no_levels) }
{
    let blank = [0u64; 4];
    [blank; 256]
}

pub fn union(a: [u64; 4], b: [u64; 4]) -> [u64; 4]
    ensures { row result ≡ union (row a) (row b) }
{
    [a[0] | b[0], a[1] | b[1], a[2] | b[2], a[3] | b[3]]
}

// Whether a level is in a set.
pub fn has(a: [u64; 4], l: usize) -> bool
    requires { (1 ≤ l) × (l ≤ 256) }
    ensures { result ≡ row a l }
{
    let j = l - 1;
    let w = a[j / 64];
    (w >> (j % 64)) % 2 == 1
}

// A level more.
pub fn with(mut a: [u64; 4], l: usize) -> [u64; 4]
    requires { (1 ≤ l) × (l ≤ 256) }
    ensures { row result ≡ union (only l) (row a) }
{
    let j = l - 1;
    let k = j / 64;
    let b = 1u64 << (j % 64);
    a[k] |= b;
    a
}

pub fn single(l: usize) -> [u64; 4]
    requires { (1 ≤ l) × (l ≤ 256) }
    ensures { row result ≡ only l }
{
    with(empty(), l)
}

pub fn without(mut a: [u64; 4], l: usize) -> [u64; 4]
    requires { (1 ≤ l) × (l ≤ 256) }
    ensures { row result ≡ without l (row a) }
{
    let j = l - 1;
    let k = j / 64;
    let b = 1u64 << (j % 64);
    a[k] = (a[k] | b) ^ b;
    a
}

// All levels 1 to k.
pub fn upto(k: usize) -> [u64; 4]
    requires { k ≤ 256 }
    ensures { row result ≡ up_to k }
{
    let mut a = empty();
    for below in 0..k {
        let next = with(a, below + 1);
        a = next;
    }
    a
}

// The highest level of 1 to k in a set, or 0.
pub fn highest(a: [u64; 4], k: usize) -> usize
    requires { k ≤ 256 }
    ensures { result ≡ highest (row a) k }
{
    for l in (1..=k).rev() {
        if has(a, l) {
            return l;
        }
    }
    0
}
