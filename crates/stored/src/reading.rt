// The words that stored bytes hold, with what their names come to: from the left, the first fault deciding. Words go in as far as there is room, and are counted all
// the same. Meaning: `specs/Bytes.antt`, `read_bytes`.
ghost use Rattle.std.specs.Prelude.{◌≡◌, ◌≤◌, drop, length, set};
ghost use Rattle.stored.specs.Bytes.{name_of, names_of, sections, scan, read_bytes};
ghost use Rattle.stored.specs.Machine.{signed};
ghost use Rattle.stored.specs.Taking.{name_told, names_told, ended_at, TakesScan, TakesAfter, Takes};

use crate::numbers::{count_at, number_at};
use crate::points::{Point, asks, step};
use results::Refusal;

// A number by its size and whether it is below 0.
fn word_of(minus: bool, n: usize) -> i32
    requires { n ≤ 4194304 }
    ensures { result ≡ signed minus n }
{
    let size = n as i64;
    if minus {
        let below = 0 - size;
        return below as i32;
    }
    size as i32
}

// A word at index `k`, if there is room.
fn put(minus: bool, n: usize, k: usize, words: &mut [i32])
    requires { n ≤ 4194304 }
    ensures { words.new ≡ set words.old k (signed minus n) }
{
    let w = word_of(minus, n);
    if k < words.len() {
        words[k] = w;
    }
}

// One name at `at`: its length, then its bytes, which may be any. Whether it is not empty, and the next place.
fn name_at(bytes: &[u8], at: usize) -> Result<(bool, usize), Refusal>
    requires { at ≤ length bytes.now }
    ensures { result ≡ name_told (name_of at (drop at bytes.now)) }
{
    let (n, _, first) = count_at(bytes, at, 32)?;
    if bytes.len() - first < n {
        return Err(Refusal::Absent(first));
    }
    Ok((0 < n, first + n))
}

// The names of `n` atoms: whether one is not empty, and the next place.
fn names_at(bytes: &[u8], at: usize, n: usize) -> Result<(bool, usize), Refusal>
    requires { at ≤ length bytes.now }
    ensures { result ≡ names_told (names_of n at (drop at bytes.now)) }
{
    let mut to = at;
    let mut any = false;
    for _ in 0..n {
        let (filled, next) = name_at(bytes, to)?;
        any = filled | any;
        to = next;
    }
    Ok((any, to))
}

// "then 3 at the first byte too many": `k` words were taken up to `at`.
fn ended(bytes: &[u8], at: usize, k: usize, filled: bool) -> Result<(usize, bool), Refusal>
    ensures { result ≡ ended_at (length bytes.now) at k filled }
{
    if at < bytes.len() {
        return Err(Refusal::Trailing(at));
    }
    Ok((k, filled))
}

// The words from index 1 on, of a table of `top` atoms; the end of the bytes is asked for too.
fn take_sections(
    bytes: &[u8],
    top: usize,
    filled: bool,
    at: usize,
    words: &mut [i32],
) -> Result<(usize, bool), Refusal>
    requires { (at ≤ length bytes.now) × (top ≤ 256) }
    ensures { TakesScan (scan (sections top) at (drop at bytes.now)) filled words.old words.new result }
{
    let mut to = at;
    let mut k: usize = 1;
    let mut point = Point::Aggregates;
    loop {
        let Some(what) = asks(point, top) else {
            return ended(bytes, to, k, filled);
        };
        let (n, minus, next) = number_at(bytes, to, what)?;
        put(minus, n, k, words);
        point = step(point, n);
        to = next;
        k += 1;
    }
}

// What follows the number of atoms: their names, then the other words.
fn take_named(
    bytes: &[u8],
    top: usize,
    at: usize,
    words: &mut [i32],
) -> Result<(usize, bool), Refusal>
    requires { (at ≤ length bytes.now) × (top ≤ 256) }
    ensures { TakesAfter top (names_of top at (drop at bytes.now)) words.old words.new result }
{
    let (filled, first) = names_at(bytes, at, top)?;
    put(false, top, 0, words);
    take_sections(bytes, top, filled, first, words)
}

// All words that the bytes hold, to the front of the buffer as far as there is room; how many they are, and whether some name is not empty; or the first refusal.
pub fn take_table(bytes: &[u8], words: &mut [i32]) -> Result<(usize, bool), Refusal>
    ensures { Takes (read_bytes bytes.now) words.old words.new result }
{
    let (top, _, at) = count_at(bytes, 0, 256)?;
    take_named(bytes, top, at, words)
}
