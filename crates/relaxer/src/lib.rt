// The entry that says what to give up when no plan exists (request 13 of 02): the rules that have a head are taken, then the constraints are offered in table
// order, and each one is kept with which a plan still exists. It asks nothing of its caller. Meaning: `specs/Promise.antt`, and crate `relaxing`; of the refusals
// crate `judging`; that the promise has one answer only: `proofs/Unique.antt`. Each offer is a search of its own with the call's limit: at most one more than
// there are constraints. With a small limit the call can end with limit where `solve` finds a plan: it is meant for use after "none".
#![tactic(auto)]

ghost use Rattle.std.specs.Prelude.{◌≡◌, not, cond, ◌||◌, ◌++◌, ◌∷◌, ◌+◌, ◌≤◌, ◌<◌, suc, length, set, drop};
ghost use Rattle.meaning.specs.Program.{Program};
ghost use Rattle.levels.specs.View.{row};
ghost use Rattle.layout.specs.Accepted.{program_in, rule_in, RuleIn};
ghost use Rattle.heads.specs.Heads.{Listed};
ghost use Rattle.promises.specs.Plans.{bit_of};
ghost use Rattle.relaxing.specs.Relaxing.{rules_of, dropped_of, trial, relax};
ghost use Rattle.relaxer.specs.Promise.{relaxed_by, list_after, plan_after, Relaxing};
ghost use Rattle.relaxer.specs.Offering.{is_answer, is_nothing, trial_of, goes_on, held_by};

use foundation::Candidates;
use heads::Lists;
use judging::Buffer;
use kept::Kept;
use layout::{Accepted, Table};
use outcome::Ending;
use results::{Ask, Refusal, Relaxed};
use solver::plans;

pub mod choosing;
pub mod kept;

// What is held while constraints are offered: how the last trial that counts ended, the numbers of the constraints kept, and the values of the plan.
#[derive(Clone, Copy)]
pub struct Offered {
    pub ending: Ending,
    pub kept: Kept,
    pub values: [u8; 256],
}

fn is_answer(e: Ending) -> bool
    ensures { result ≡ is_answer e }
{
    matches!(e, Ending::Answer)
}

fn is_nothing(e: Ending) -> bool
    ensures { result ≡ is_nothing e }
{
    matches!(e, Ending::Nothing)
}

// A trial: the search over the rules that have a head and the constraints in `kept`.
fn attempt(
    t: &Accepted,
    cycles: bool,
    limit: u32,
    kept: Kept,
    lists: &mut Lists,
    candidates: &mut Candidates,
) -> Offered
    requires { Listed t.now.words.now t.now.places lists.old }
    ensures { (result.kept ≡ kept) × (trial_of t.now.places.atoms result ≡ trial cycles t.now.places.atoms limit (rules_of (program_in t.now) (row kept))) × Listed t.now.words.now t.now.places lists.new }
{
    choosing::choose(t, kept, lists);
    let found = jumping::search(t, cycles, lists, limit, candidates);
    let ending = found.ending;
    let values = found.it.values;
    Offered {
        ending,
        kept,
        values,
    }
}

// The rule at `at`, which has the number i, is offered if it is a constraint; after a trial without an answer nothing is offered.
fn step(
    t: &Accepted,
    cycles: bool,
    limit: u32,
    at: usize,
    i: usize,
    held: Offered,
    lists: &mut Lists,
    candidates: &mut Candidates,
) -> Offered
    requires { Listed t.now.words.now t.now.places lists.old × RuleIn t.now at × (1 ≤ i) × (i ≤ 1024) }
    ensures { ((rest : Program) → goes_on (trial cycles t.now.places.atoms limit) (program_in t.now) t.now.places.atoms result (suc i) rest
        ≡ goes_on (trial cycles t.now.places.atoms limit) (program_in t.now) t.now.places.atoms held i (rule_in t.now at ∷ rest)) × Listed t.now.words.now t.now.places lists.new }
{
    if !is_answer(held.ending) {
        return held;
    }
    if choosing::has_head(t.words, at) {
        return held;
    }
    let kept = kept::with(held.kept, i);
    let tried = attempt(t, cycles, limit, kept, lists, candidates);
    if is_nothing(tried.ending) {
        return held;
    }
    tried
}

// All constraints offered in table order.
fn offer_all(
    t: &Accepted,
    cycles: bool,
    limit: u32,
    lists: &mut Lists,
    candidates: &mut Candidates,
) -> Offered
    requires { Listed t.now.words.now t.now.places lists.old }
    ensures { held_by t.now.places.atoms result ≡ relax cycles t.now.places.atoms limit (program_in t.now) }
{
    let none = kept::nothing();
    let mut held = attempt(t, cycles, limit, none, lists, candidates);
    let mut at = t.places.first;
    for i in 0..t.places.rules {
        held = step(t, cycles, limit, at, i + 1, held, lists, candidates);
        at = layout::past_rule(t.words, at);
    }
    held
}

// The numbers of the rules that are dropped, ascending, and how many there are; the rest of the list keeps its contents.
fn write_dropped(t: &Accepted, kept: Kept, dropped: &mut [u32]) -> usize
    requires { (t.now.places.rules ≤ length dropped.old) }
    ensures { (result ≡ length (dropped_of (program_in t.now) (row kept)))
        × (dropped.new ≡ dropped_of (program_in t.now) (row kept) ++ drop (length (dropped_of (program_in t.now) (row kept))) dropped.old) }
{
    let mut at = t.places.first;
    let mut n: usize = 0;
    for i in 0..t.places.rules {
        let number = i + 1;
        let takes = choosing::takes_part(t.words, at, kept, number);
        n = choosing::put(dropped, n, number as u32, !takes);
        at = layout::past_rule(t.words, at);
    }
    n
}

// What to give up of an accepted table, for a list with a place for each rule.
fn give_up(
    t: &Accepted,
    ask: Ask,
    dropped: &mut [u32],
    plan: &mut [u8],
    lists: &mut Lists,
    candidates: &mut Candidates,
) -> Relaxed
    requires { Listed t.now.words.now t.now.places lists.old × (t.now.places.rules ≤ length dropped.old) × (256 ≤ length plan.old) }
    ensures { (result ≡ relaxed_by (program_in t.now) (relax ask.cycles t.now.places.atoms ask.limit (program_in t.now)))
        × (dropped.new ≡ list_after (program_in t.now) (relax ask.cycles t.now.places.atoms ask.limit (program_in t.now)) dropped.old)
        × (plan.new ≡ plan_after t.now.places.atoms (relax ask.cycles t.now.places.atoms ask.limit (program_in t.now)) plan.old) }
{
    let held = offer_all(t, ask.cycles, ask.limit, lists, candidates);
    match held.ending {
        Ending::Answer => {
            plans::write(held.values, t.places.atoms, plan);
            let number = write_dropped(t, held.kept, dropped);
            Relaxed::Answer(number)
        }
        Ending::Nothing => Relaxed::Nothing,
        Ending::Limit => Relaxed::Limit,
    }
}

// What to give up: the numbers of the dropped rules in the lent list, with their number, and the first plan of the rules that are kept; none where the rules
// with heads alone have no plan; limit where a trial meets it; or a refusal. Only an answer writes. The memory of the search is lent: nothing is said of what
// it holds before or after, and nothing depends on it.
pub fn relax_with(
    words: &[i32],
    ask: Ask,
    dropped: &mut [u32],
    plan: &mut [u8],
    lists: &mut Lists,
    candidates: &mut Candidates,
) -> Result<Relaxed, Refusal>
    ensures { Relaxing words.now ask dropped.old dropped.new plan.old plan.new result }
{
    let places = judging::judge_in(words, ask.cycles, Buffer::Plan(plan.len()), lists)?;
    if dropped.len() < places.rules {
        return Err(Refusal::ShortList);
    }
    let t = Accepted { words, places };
    Ok(give_up(&t, ask, dropped, plan, lists, candidates))
}

// The same with memory of its own.
pub fn relax(
    words: &[i32],
    ask: Ask,
    dropped: &mut [u32],
    plan: &mut [u8],
) -> Result<Relaxed, Refusal>
    ensures { Relaxing words.now ask dropped.old dropped.new plan.old plan.new result }
{
    let mut lists = [0u16; heads::SIZE];
    let mut candidates = [0u32; Table::RULES];
    relax_with(words, ask, dropped, plan, &mut lists, &mut candidates)
}
