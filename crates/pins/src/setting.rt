// The search of a session: 01's, from the start that the pins make. "Pins are set before the first pass, in order, with empty reasons." A pin that `pin` would refuse
// in a new session given the pins in this order is passed over; a session that `open` made holds none.
ghost use Rattle.std.specs.Prelude.{◌≡◌, Bool, ◌≤◌, ◌<◌, length};
ghost use Rattle.heads.specs.Heads.{Listed, taking};
ghost use Rattle.interpretation.specs.State.{set_at};
ghost use Rattle.interpretation.specs.View.{view, valued};
ghost use Rattle.smaller.specs.Cyclic.{problem_by};
ghost use Rattle.sessions.specs.Sessions.{pins_of};
ghost use Rattle.jumping.specs.Jumping.{Solves};
ghost use Rattle.pins.specs.Memory.{pins_in, taken_of};
ghost use Rattle.pins.specs.Setting.{is_free, set_pin, start_with};

use crate::memory;
use foundation::Candidates;
use heads::Lists;
use interpretation::{Interpretation, Value};
use layout::Accepted;
use outcome::{Found, Start};

// Whether an atom of 1 to n has no value yet.
fn free(values: &[u8; 256], n: usize, p: usize) -> bool
    requires { n ≤ 256 }
    ensures { result ≡ is_free n (valued values.now) p }
{
    if p < 1 || n < p {
        return false;
    }
    matches!(interpretation::value_of(values, p), Value::Undefined)
}

// A pin is no choice: its atom is set at the present level, which is 0, and no level is opened.
fn put(it: Interpretation, p: usize, v: bool) -> Interpretation
    requires { (1 ≤ p) × (p ≤ 256) × (it.depth < 256) }
    ensures { view result ≡ set_at p v (view it) }
{
    it.set(p, v)
}

// A pin set, if its atom is free.
fn set(it: Interpretation, n: usize, p: usize, v: bool) -> Interpretation
    requires { (n ≤ 256) × (it.depth < 256) }
    ensures { view result ≡ set_pin n p v (view it) }
{
    if !free(&it.values, n, p) {
        return it;
    }
    put(it, p, v)
}

// Where the search starts.
fn start(s: &[i32], n: usize) -> Interpretation
    requires { (n ≤ 256) × (length s.now ≡ 16451) }
    ensures { view result ≡ start_with (taken_of n (pins_in s.now)) }
{
    let held = memory::number(s, memory::HELD, memory::MOST);
    let mut it = Interpretation::start();
    for i in 0..held {
        let p = memory::atom_at(s, i);
        let v = memory::value_at(s, i);
        it = set(it, n, p, v);
    }
    it
}

// The search over an accepted table with the pins of a session.
pub fn search(
    t: &Accepted,
    cycles: bool,
    lists: &Lists,
    s: &[i32],
    limit: u32,
    candidates: &mut Candidates,
) -> Found
    requires { Listed t.now.words.now t.now.places lists.now × (length s.now ≡ 16451) }
    ensures { Solves (problem_by cycles (taking t.now.words.now lists.now) t.now.places.atoms (pins_of (taken_of t.now.places.atoms (pins_in s.now)))) limit result }
{
    let n = t.places.atoms;
    let it = start(s, n);
    let from = Start {
        it,
        choices: 0,
        skips: 0,
        passes: 0,
    };
    let reasons = levels::no_rows();
    let halt = jumping::search_by(t, cycles, lists, limit, from, reasons, candidates);
    halt.found
}
