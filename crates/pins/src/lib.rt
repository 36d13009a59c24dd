// Sessions with pins (request 10 of 02): "Stack managers pin atoms true or false, take pins off from the last backwards, and ask for a plan." A session is lent
// memory of a fixed size, which keeps its own copy of the words. No entry asks anything of its caller, of the memory neither: `specs/Memory.antt` says what
// words that no `open` made are read as. Meaning: `specs/Session.antt` and crate `sessions`; that each promise has one answer, and what the calls before a plan
// come to: `proofs/Unique.antt`, `proofs/History.antt`.
#![tactic(auto)]

ghost use Rattle.std.specs.Prelude.{◌≡◌, Bool, length};
ghost use Rattle.sessions.specs.Sessions.{pin, unpin};
ghost use Rattle.meaning.specs.Cycles.{inside};
ghost use Rattle.pins.specs.Session.{Opening, Changing, Plans};

use foundation::Candidates;
use heads::Lists;
use judging::Buffer;
use layout::{Accepted, Table};
use results::Refusal;
use solver::Solution;

mod memory;
mod setting;

// The memory of a session.
pub type Session = [i32; memory::SIZE];

// Begins a session with a table, a mode (request 14: whether head cycles are taken) and no pin, or refuses the table as solving does, without 10; a refusal
// leaves the session as it stood. The memory that the judge works in is lent: nothing is said of what it holds before or after, and nothing depends on it.
pub fn open_with(
    words: &[i32],
    cycles: bool,
    session: &mut Session,
    lists: &mut Lists,
) -> Result<(), Refusal>
    ensures { Opening cycles words.now session.old session.new result }
{
    open_in(words, cycles, session, lists)
}

// The same with memory of its own.
pub fn open(words: &[i32], cycles: bool, session: &mut Session) -> Result<(), Refusal>
    ensures { Opening cycles words.now session.old session.new result }
{
    let mut lists = [0u16; heads::SIZE];
    open_with(words, cycles, session, &mut lists)
}

fn open_in(words: &[i32], cycles: bool, s: &mut [i32], lists: &mut Lists) -> Result<(), Refusal>
    requires { length s.old ≡ 16451 }
    ensures { Opening cycles words.now s.old s.new result }
{
    judging::judge_in(words, cycles, Buffer::Nothing, lists)?;
    memory::fill(words, cycles, s);
    Ok(())
}

// Pins an atom: 20, 21 and 22 in that order; a refusal leaves the session as it stood.
pub fn pin(session: &mut Session, atom: usize, value: bool) -> Result<(), Refusal>
    ensures { Changing (pin atom value) session.old session.new result }
{
    pin_in(session, atom, value)
}

fn is_inside(n: usize, p: usize) -> bool
    ensures { result ≡ inside n p }
{
    1 <= p && p <= n
}

fn pin_in(s: &mut [i32], atom: usize, value: bool) -> Result<(), Refusal>
    requires { length s.old ≡ 16451 }
    ensures { Changing (pin atom value) s.old s.new result }
{
    let n = memory::number(s, 0, Table::ATOMS);
    if !is_inside(n, atom) {
        return Err(Refusal::PinNumber);
    }
    let held = memory::number(s, memory::HELD, memory::MOST);
    if memory::is_held(s, held, atom) {
        return Err(Refusal::PinTwice);
    }
    if 63 < held {
        return Err(Refusal::PinsFull);
    }
    memory::push(s, held, atom, value);
    Ok(()) // the pin is held
}

// Takes the last pin off, or refuses with 23.
pub fn unpin(session: &mut Session) -> Result<(), Refusal>
    ensures { Changing unpin session.old session.new result }
{
    unpin_in(session)
}

fn unpin_in(s: &mut [i32]) -> Result<(), Refusal>
    requires { length s.old ≡ 16451 }
    ensures { Changing unpin s.old s.new result }
{
    let held = memory::number(s, memory::HELD, memory::MOST);
    if held < 1 {
        return Err(Refusal::NoPin);
    }
    memory::pop(s, held);
    Ok(())
}

// The plan of a session: what `solver::solve` gives, over the answer sets that agree with the pins held. It writes nothing to the session. The memory of the
// search is lent, as that of `solver::solve_with`.
pub fn plan_with(
    session: &Session,
    limit: u32,
    plan: &mut [u8],
    lists: &mut Lists,
    candidates: &mut Candidates,
) -> Solution
    ensures { Plans session.now limit plan.old plan.new result }
{
    plan_in(session, limit, plan, lists, candidates)
}

// The same with memory of its own.
pub fn plan(session: &Session, limit: u32, plan: &mut [u8]) -> Solution
    ensures { Plans session.now limit plan.old plan.new result }
{
    let mut lists = [0u16; heads::SIZE];
    let mut candidates = [0u32; Table::RULES];
    plan_with(session, limit, plan, &mut lists, &mut candidates)
}

fn plan_in(
    s: &[i32],
    limit: u32,
    plan: &mut [u8],
    lists: &mut Lists,
    candidates: &mut Candidates,
) -> Solution
    requires { length s.now ≡ 16451 }
    ensures { Plans s.now limit plan.old plan.new result }
{
    let count = memory::number(s, memory::COUNT, Table::WORDS);
    let words = &s[..count];
    let cycles = memory::takes_cycles(s);
    match judging::judge_in(words, cycles, Buffer::Plan(plan.len()), lists) {
        Err(f) => {
            let whys = explaining::nothing();
            Solution {
                solved: Err(f),
                whys,
            }
        }
        Ok(places) => {
            let t = Accepted { words, places };
            let found = setting::search(&t, cycles, lists, s, limit, candidates);
            let solved = solver::plans::report(found, places.atoms, plan);
            let whys = solver::whys_by(&t, cycles, solved, found.it, candidates);
            Solution {
                solved: Ok(solved),
                whys,
            }
        }
    }
}
