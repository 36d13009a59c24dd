// The entries for the dock, as `include/saucepebbly.h` declares them: the night's plan and the check of one. A slice is a pointer and a length; that these are
// what they say and that the lent buffers do not overlap is all that a caller owes. Lent memory is an array of a fixed size, a plain pointer: nothing is said
// of what it holds before or after, and no result depends on it. Meaning: `specs/Dock.antt`.
#![tactic(auto)]

ghost use Rattle.dock.specs.Dock.{Solves, Approves};

use foundation::Candidates;
use heads::Lists;
use results::Ask;

// The night's plan: the kind of the result, in the report its numbers, and for each atom its round and its rule. The mode is 0 where head cycles are refused; any
// other takes them (request 14).
#[unsafe(no_mangle)]
pub extern "C" fn saucepebbly_solve(
    words: &[i32],
    mode: u32,
    limit: u32,
    plan: &mut [u8],
    report: &mut [u32],
    whys: &mut [u16],
    lists: &mut Lists,
    candidates: &mut Candidates,
) -> u32
    ensures { Solves words.now mode limit plan.old plan.new report.old report.new whys.old whys.new result }
{
    let cycles = mode != 0;
    let ask = Ask { cycles, limit };
    let solution = solver::solve_with(words, ask, plan, lists, candidates);
    let solved = solution.solved;
    reports::whys::write(solution.whys, whys);
    reports::write(report, reports::first(solved), reports::second(solved));
    reports::write_third(report, reports::third(solved));
    reports::kind(solved)
}

// Whether an offered plan is an answer set: the kind of the result, and in the report a refusal's number and place.
#[unsafe(no_mangle)]
pub extern "C" fn saucepebbly_approve(
    words: &[i32],
    mode: u32,
    plan: &[u8],
    report: &mut [u32],
    lists: &mut Lists,
    candidates: &mut Candidates,
) -> u32
    ensures { Approves words.now mode plan.now report.old report.new result }
{
    match solver::approve_with(words, mode != 0, plan, lists, candidates) {
        Ok(true) => 0,
        Ok(false) => 1,
        Err(f) => {
            reports::write(report, f.number(), reports::narrowed(f.place()));
            3
        }
    }
}
