// A table as bytes: the number of atoms, empty names, then word after word in the bytes of its role. Meaning: `specs/Bytes.antt`, `stored`.
ghost use Rattle.std.specs.Prelude.{◌≡◌, true, ◌≤◌, ◌<◌, drop, Some};
ghost use Rattle.bytes_out.specs.Putting.{Put};
ghost use Rattle.stored.specs.Bytes.{two, four, complement, twice, no_names, names_bytes, laid, sections};
ghost use Rattle.stored.specs.Machine.{signed, bytes_by, Held, HeldOf, PutTable};

use crate::points::{Asked, Point, asks, step};
use bytes_out::put_byte;

// A number in two bytes, low byte first; the index after it.
fn put_two(n: usize, at: usize, out: &mut [u8]) -> usize
    ensures { Put out.old at (two n) result out.new }
{
    let low = (n % 256) as u8;
    let high = (n / 256 % 256) as u8;
    let second = put_byte(low, at, out);
    put_byte(high, second, out)
}

// A number in four bytes, low byte first; the index after it.
fn put_four(n: usize, at: usize, out: &mut [u8]) -> usize
    ensures { Put out.old at (four n) result out.new }
{
    let a = (n % 256) as u8;
    let b = (n / 256 % 256) as u8;
    let c = (n / 256 / 256 % 256) as u8;
    let d = (n / 256 / 256 / 256 % 256) as u8;
    let second = put_byte(a, at, out);
    let third = put_byte(b, second, out);
    let fourth = put_byte(c, third, out);
    put_byte(d, fourth, out)
}

// A threshold in two's complement.
fn put_threshold(minus: bool, n: usize, at: usize, out: &mut [u8]) -> usize
    requires { (n ≤ 4194304) × (minus ≡ true → 0 < n) }
    ensures { Put out.old at (four (complement (signed minus n))) result out.new }
{
    if minus {
        return put_four(4294967296 - n, at, out);
    }
    put_four(n, at, out)
}

// An aggregate literal: twice its number, plus one if negated.
fn put_literal(minus: bool, n: usize, at: usize, out: &mut [u8]) -> usize
    requires { (n ≤ 4194304) × (minus ≡ true → 0 < n) }
    ensures { Put out.old at (two (twice (signed minus n))) result out.new }
{
    let double = 2 * n;
    if minus {
        let odd = double + 1;
        return put_two(odd, at, out);
    }
    put_two(double, at, out)
}

// A number in the bytes of what is asked of it, by its size and whether it is below 0.
fn put_word(what: Asked, minus: bool, n: usize, at: usize, out: &mut [u8]) -> usize
    requires { (n ≤ 4194304) × (minus ≡ true → 0 < n) }
    ensures { Put out.old at (bytes_by (Some what) minus n) result out.new }
{
    match what {
        Asked::Count(_) | Asked::Quantity(_) | Asked::Member(_, _) => put_two(n, at, out),
        Asked::Threshold => put_threshold(minus, n, at, out),
        Asked::Literal(_, _) => put_literal(minus, n, at, out),
    }
}

// The empty names of `n` atoms.
fn put_names(n: usize, at: usize, out: &mut [u8]) -> usize
    ensures { Put out.old at (names_bytes (no_names n)) result out.new }
{
    let mut to = at;
    for _ in 0..n {
        to = put_two(0, to, out);
    }
    to
}

// The words of an accepted table from index 1 on.
fn put_sections(t: &[i32], top: usize, at: usize, out: &mut [u8]) -> usize
    requires { HeldOf t.now top }
    ensures { Put out.old at (laid (sections top) (drop 1 t.now)) result out.new }
{
    let mut to = at;
    let mut point = Point::Aggregates;
    for k in 1..t.len() {
        let Some(what) = asks(point, top) else {
            unreachable!();
        };
        let w = t[k];
        let n = words::size(w);
        to = put_word(what, w < 0, n, to, out);
        point = step(point, n);
    }
    to
}

// The stored form of an accepted table, with empty names, as far as there is room; the index after it.
pub fn put_table(t: &[i32], out: &mut [u8]) -> usize
    requires { Held t.now }
    ensures { PutTable t.now out.old result out.new }
{
    let top = words::atom(t, 0);
    let names = put_two(top, 0, out);
    let first = put_names(top, names, out);
    put_sections(t, top, first, out)
}
