// The two entries of the base: `solve` and `approve` (01, "What comes back"). Neither asks anything of its caller. Meaning: `specs/`, one file for
// each entry, and of the refusals crate `judging`; that each promise has one answer only: `proofs/Unique.antt`.
#![tactic(auto)]

ghost use Rattle.std.specs.Prelude.{◌≡◌, true, ◌≤◌, length};
ghost use Rattle.meaning.specs.Answers.{model};
ghost use Rattle.interpretation.specs.State.{true_atoms, AllDefined};
ghost use Rattle.interpretation.specs.View.{view, valued};
ghost use Rattle.layout.specs.Accepted.{program_in};
ghost use Rattle.heads.specs.Heads.{Whole};
ghost use Rattle.judging.specs.declared.Buffer.TheVariants.{Plan};
ghost use Rattle.rounds.specs.Rounds.{why_of, Recorded};
ghost use Rattle.solver.specs.Solving.{Solving};
ghost use Rattle.promises.specs.Plans.{plan_atoms};
ghost use Rattle.solver.specs.Explaining.{ExplainingBy};
ghost use Rattle.solver.specs.Approving.{ApprovingBy};
ghost use Rattle.solver.specs.Plans.{bad_from, passes_by, checked_by, is_answer, whys_for, whys_by};

use foundation::Candidates;
use heads::Lists;
use interpretation::Interpretation;
use judging::Buffer;
use layout::{Accepted, Table};
use results::{Ask, Refusal, Solved};
use rounds::Why;

pub mod plans;

// What comes back from solving: the result, and for each atom why it is in the plan, atom p's at index p - 1.
#[derive(Clone, Copy)]
pub struct Solution {
    pub solved: Result<Solved, Refusal>,
    pub whys: [Why; 256],
}

// The night's plan: an answer, none or limit with the counts, or a refusal. Only an answer writes, and only the bytes of the
// table's own atoms; only an answer explains. The memory of the search is lent: nothing is said of what it holds before or after, and nothing
// depends on it.
pub fn solve_with(
    words: &[i32],
    ask: Ask,
    plan: &mut [u8],
    lists: &mut Lists,
    candidates: &mut Candidates,
) -> Solution
    ensures { Solving words.now ask plan.old plan.new result.solved
        × ExplainingBy ask.cycles words.now (Plan (length plan.old)) plan.new result.solved result.whys }
{
    let cycles = ask.cycles;
    match judging::judge_in(words, cycles, Buffer::Plan(plan.len()), lists) {
        Err(f) => {
            let whys = explaining::nothing();
            Solution {
                solved: Err(f),
                whys,
            }
        }
        Ok(places) => {
            let t = Accepted { words, places };
            let found = jumping::search(&t, cycles, lists, ask.limit, candidates);
            let solved = plans::report(found, places.atoms, plan);
            let whys = whys_by(&t, cycles, solved, found.it, candidates);
            Solution {
                solved: Ok(solved),
                whys,
            }
        }
    }
}

// The same with memory of its own.
pub fn solve(words: &[i32], ask: Ask, plan: &mut [u8]) -> Solution
    ensures { Solving words.now ask plan.old plan.new result.solved
        × ExplainingBy ask.cycles words.now (Plan (length plan.old)) plan.new result.solved result.whys }
{
    let mut lists = [0u16; heads::SIZE];
    let mut candidates = [0u32; Table::RULES];
    solve_with(words, ask, plan, &mut lists, &mut candidates)
}

// Only an answer comes with rounds and rules.
fn is_answer(solved: Solved) -> bool
    ensures { result ≡ is_answer solved }
{
    matches!(solved, Solved::Answer(_))
}

// Why each atom is in the answer that the search ended with: its records are filled, and read. Without an answer no atom has a round or a rule. The
// candidates of the search are free by then, and are lent again.
pub fn whys_for(
    t: &Accepted,
    solved: Solved,
    it: Interpretation,
    candidates: &mut Candidates,
) -> [Why; 256]
    requires { (is_answer solved ≡ true → AllDefined t.now.places.atoms (view it).cell) }
    ensures { Recorded result (whys_for solved (why_of (program_in t.now) t.now.places.atoms (true_atoms t.now.places.atoms (view it).cell))) }
{
    if !is_answer(solved) {
        return explaining::nothing();
    }
    let answer = explaining::explain(t, it, candidates);
    explaining::whys_of(answer)
}

// The same by the mode: where the call takes head cycles all are 0.
pub fn whys_by(
    t: &Accepted,
    cycles: bool,
    solved: Solved,
    it: Interpretation,
    candidates: &mut Candidates,
) -> [Why; 256]
    requires { (is_answer solved ≡ true → AllDefined t.now.places.atoms (view it).cell) }
    ensures { Recorded result (whys_by cycles solved (why_of (program_in t.now) t.now.places.atoms (true_atoms t.now.places.atoms (view it).cell))) }
{
    if cycles {
        return explaining::nothing();
    }
    whys_for(t, solved, it, candidates)
}

// Whether an offered plan is an answer set of the table, or a refusal; with or without head cycles. It never writes to the plan. Its memory is lent, as that of
// `solve_with`.
pub fn approve_with(
    words: &[i32],
    cycles: bool,
    plan: &[u8],
    lists: &mut Lists,
    candidates: &mut Candidates,
) -> Result<bool, Refusal>
    ensures { ApprovingBy cycles words.now plan.now result }
{
    let places = judging::judge_in(words, cycles, Buffer::Plan(plan.len()), lists)?;
    let t = Accepted { words, places };
    check(&t, cycles, lists, plan, candidates)
}

// The same with memory of its own.
pub fn approve(words: &[i32], cycles: bool, plan: &[u8]) -> Result<bool, Refusal>
    ensures { ApprovingBy cycles words.now plan.now result }
{
    let mut lists = [0u16; heads::SIZE];
    let mut candidates = [0u32; Table::RULES];
    approve_with(words, cycles, plan, &mut lists, &mut candidates)
}

// The test of an offered model: whether it is founded, or, where the call takes head cycles, whether it has no smaller model.
fn passes(
    t: &Accepted,
    cycles: bool,
    lists: &Lists,
    values: &[u8; 256],
    candidates: &mut Candidates,
) -> bool
    requires { Whole t.now.words.now t.now.places lists.now × AllDefined t.now.places.atoms (valued values.now) }
    ensures { result ≡ passes_by cycles (program_in t.now) t.now.places.atoms (true_atoms t.now.places.atoms (valued values.now)) }
{
    if cycles {
        let places = heads::list(lists, 0);
        return !second_search::has_smaller(t, places, values);
    }
    foundation::founded_by(t, values, candidates)
}

// The check of a plan offered for an accepted table: its bytes, then whether it is a model, then that test.
fn check(
    t: &Accepted,
    cycles: bool,
    lists: &Lists,
    plan: &[u8],
    candidates: &mut Candidates,
) -> Result<bool, Refusal>
    requires { Whole t.now.words.now t.now.places lists.now × (256 ≤ length plan.now) }
    ensures { result ≡ checked_by (bad_from plan.now 0 t.now.places.atoms) (model (program_in t.now) (plan_atoms t.now.places.atoms plan.now)) (passes_by cycles (program_in t.now) t.now.places.atoms (plan_atoms t.now.places.atoms plan.now)) }
{
    if let Some(i) = plans::first_bad(plan, t.places.atoms) {
        return Err(Refusal::PlanByte(i));
    }
    let values = plans::values_of(plan, t.places.atoms);
    let model = foundation::is_model(t, &values);
    let approved = model && passes(t, cycles, lists, &values, candidates);
    Ok(approved)
}
