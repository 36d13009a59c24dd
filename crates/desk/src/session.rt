// Sessions with pins for C and Rust (request 10 of 02), as `include/saucepebbly.h` declares them. Meaning: `specs/Session.antt`.
ghost use Rattle.std.specs.Prelude.{◌≡◌, not, eqb};
ghost use Rattle.results.specs.Results.{pinned_kind};
ghost use Rattle.sessions.specs.Sessions.{pin, unpin};
ghost use Rattle.desk.specs.Session.{changed_first, changed_second, Opens, Changes, PlansInC};

use foundation::Candidates;
use heads::Lists;
use pins::Session;
use reports::{first, kind, narrowed, second, third, whys, write, write_third};
use results::Refusal;

// The kind of the result of a call that changes a session.
fn changed_kind(pinned: Result<(), Refusal>) -> u32
    ensures { result ≡ pinned_kind pinned }
{
    match pinned {
        Ok(()) => 0,
        Err(_) => 3,
    }
}

// The number of a refusal.
fn changed_first(pinned: Result<(), Refusal>) -> u32
    ensures { result ≡ changed_first pinned }
{
    match pinned {
        Ok(()) => 0,
        Err(f) => f.number(),
    }
}

// The place of a refusal.
fn changed_second(pinned: Result<(), Refusal>) -> u32
    ensures { result ≡ changed_second pinned }
{
    match pinned {
        Ok(()) => 0,
        Err(f) => narrowed(f.place()),
    }
}

// Begins a session in a mode: the kind of the result, and in the report a refusal's number and place.
#[unsafe(no_mangle)]
pub extern "C" fn saucepebbly_open(
    words: &[i32],
    mode: u32,
    session: &mut Session,
    report: &mut [u32],
    lists: &mut Lists,
) -> u32
    ensures { Opens words.now mode session.old session.new report.old report.new result }
{
    let pinned = pins::open_with(words, mode != 0, session, lists);
    write(report, changed_first(pinned), changed_second(pinned));
    changed_kind(pinned)
}

// Pins an atom: false with the value 0, true with any other.
#[unsafe(no_mangle)]
pub extern "C" fn saucepebbly_pin(
    session: &mut Session,
    atom: u32,
    value: u32,
    report: &mut [u32],
) -> u32
    ensures { Changes (pin atom (not (eqb value 0))) session.old session.new report.old report.new result }
{
    let pinned = pins::pin(session, atom as usize, value != 0);
    write(report, changed_first(pinned), changed_second(pinned));
    changed_kind(pinned)
}

// Takes the last pin off.
#[unsafe(no_mangle)]
pub extern "C" fn saucepebbly_unpin(session: &mut Session, report: &mut [u32]) -> u32
    ensures { Changes unpin session.old session.new report.old report.new result }
{
    let pinned = pins::unpin(session);
    write(report, changed_first(pinned), changed_second(pinned));
    changed_kind(pinned)
}

// The plan of a session, as `saucepebbly_solve` tells one.
#[unsafe(no_mangle)]
pub extern "C" fn saucepebbly_plan(
    session: &Session,
    limit: u32,
    plan: &mut [u8],
    report: &mut [u32],
    whys: &mut [u16],
    lists: &mut Lists,
    candidates: &mut Candidates,
) -> u32
    ensures { PlansInC session.now limit plan.old plan.new report.old report.new whys.old whys.new result }
{
    let solution = pins::plan_with(session, limit, plan, lists, candidates);
    let solved = solution.solved;
    whys::write(solution.whys, whys);
    write(report, first(solved), second(solved));
    write_third(report, third(solved));
    kind(solved)
}
