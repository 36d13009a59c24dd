// The memory of a session: 16,451 words. First the table's words, then how many they are, then how many pins are held, then the pins' words, in order, then
// the mode: 0 where head cycles are refused. A pin's word is its atom's number, and 256 more where the atom is pinned false. Any words may stand there: what no `open` made is read as `specs/Memory.antt` says.
ghost use Rattle.std.specs.Prelude.{◌≡◌, ◌++◌, Bool, ◌+◌, ◌≤◌, ◌<◌, pos, length, drop, set};
ghost use Rattle.sessions.specs.Sessions.{is_held};
ghost use Rattle.pins.specs.Memory.{number_at, word_at, atom_as, value_as, pin_word, pins_to, with_pin, without_pin, mode_word, cycles_in, opened_with, held_in};

use layout::Table;

// Where it stands how many words the table has.
pub const COUNT: usize = Table::WORDS;

// Where it stands how many pins are held.
pub const HELD: usize = COUNT + 1;

// Where the pins stand.
pub const PINS: usize = HELD + 1;

// "at most 64 pins"
pub const MOST: usize = 64;

// Where the mode stands.
pub const MODE: usize = PINS + MOST;

// All words of a session.
pub const SIZE: usize = MODE + 1;

// A number that is kept at index i; one above `most` is none that a session keeps, and counts as 0.
pub fn number(s: &[i32], i: usize, most: usize) -> usize
    requires { i < length s.now }
    ensures { result ≡ number_at s.now i most }
{
    let n = words::atom(s, i);
    if most < n {
        return 0;
    }
    n
}

// The number n, kept at index i.
fn put(s: &mut [i32], i: usize, n: usize)
    requires { (i < length s.old) × (n ≤ 16384) }
    ensures { s.new ≡ set s.old i (pos n) }
{
    s[i] = n as i32;
}

// The table's words, kept from index 0 on.
// Stays: the library's `copy_from_slice` needs `memmove`, and the libraries for C need no more than `memcpy` and `memset` from outside.
fn copy(words: &[i32], s: &mut [i32])
    requires { length words.now ≤ length s.old }
    ensures { s.new ≡ words.now ++ drop (length words.now) s.old }
{
    for i in 0..words.len() {
        s[i] = words[i];
    }
}

// A mode as it is kept.
fn mode(cycles: bool) -> usize
    ensures { result ≡ mode_word cycles }
{
    usize::from(cycles)
}

// Whether the session takes head cycles (request 14): any word but 0 says so.
pub fn takes_cycles(s: &[i32]) -> bool
    requires { length s.now ≡ 16451 }
    ensures { result ≡ cycles_in s.now }
{
    words::atom(s, MODE) != 0
}

// A new session: the words, no pin, and the mode.
pub fn fill(words: &[i32], cycles: bool, s: &mut [i32])
    requires { (length words.now ≤ 16384) × (length s.old ≡ 16451) }
    ensures { s.new ≡ opened_with cycles words.now s.old }
{
    let count = words.len();
    copy(words, s);
    put(s, COUNT, count);
    put(s, HELD, 0);
    put(s, MODE, mode(cycles));
}

// The atom of a pin's word.
fn atom_as(m: usize) -> usize
    ensures { result ≡ atom_as m }
{
    if Table::ATOMS < m {
        return m - Table::ATOMS;
    }
    m
}

// The atom of the pin at index i, from 0.
pub fn atom_at(s: &[i32], i: usize) -> usize
    requires { (i < 64) × (length s.now ≡ 16451) }
    ensures { result ≡ atom_as (word_at s.now i) }
{
    let place = PINS + i;
    atom_as(words::atom(s, place))
}

// Its value.
pub fn value_at(s: &[i32], i: usize) -> bool
    requires { (i < 64) × (length s.now ≡ 16451) }
    ensures { result ≡ value_as (word_at s.now i) }
{
    let place = PINS + i;
    let m = words::atom(s, place);
    !(Table::ATOMS < m)
}

// Whether an atom is pinned; the last pins are asked first.
pub fn is_held(s: &[i32], held: usize, p: usize) -> bool
    requires { (held ≤ 64) × (length s.now ≡ 16451) }
    ensures { result ≡ is_held p (pins_to s.now held) }
{
    for i in (0..held).rev() {
        if p == atom_at(s, i) {
            return true;
        }
    }
    false
}

// The word of a pin.
fn word(p: usize, v: bool) -> usize
    requires { p ≤ 256 }
    ensures { result ≡ pin_word p v }
{
    if v {
        return p;
    }
    p + Table::ATOMS
}

// One more pin.
pub fn push(s: &mut [i32], held: usize, p: usize, v: bool)
    requires { (held < 64) × (held ≡ held_in s.old) × (p ≤ 256) × (length s.old ≡ 16451) }
    ensures { s.new ≡ with_pin p v s.old }
{
    let place = PINS + held;
    let m = word(p, v);
    put(s, place, m);
    let more = held + 1;
    put(s, HELD, more);
}

// One pin fewer: the last one's word stays, and is read no more.
pub fn pop(s: &mut [i32], held: usize)
    requires { (0 < held) × (held ≡ held_in s.old) × (held ≤ 64) × (length s.old ≡ 16451) }
    ensures { s.new ≡ without_pin s.old }
{
    let fewer = held - 1;
    put(s, HELD, fewer);
}
