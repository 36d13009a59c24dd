// The plain engine (request 5 of 02): 01's search with no jump and no reason, to be read beside 01. One part opens a choice, the other tries a side of it,
// each calling the other while fewer atoms stay undefined. Propagation: `passes.rt`. Meaning: `specs/`.
#![tactic(auto)]

ghost use Rattle.std.specs.Prelude.{◌≡◌, false};
ghost use Rattle.plain.specs.Promise.{plain_counts, Plainly};
ghost use Rattle.plain.specs.Plain.{Ready, Sided, Chosen, Testable, Tests};

use heads::Lists;
use judging::Buffer;
use layout::{Accepted, Table};
use passes::Side;
use results::{Ask, Refusal, Solved};
use second_search::Tested;

mod passes;

// The night's plan by the plain search: an answer, none or limit with the choices, and no skips; or a refusal. Only an answer writes, and only the bytes
// of the table's own atoms. "Search: propagate", with no atom defined.
pub fn solve(words: &[i32], ask: Ask, plan: &mut [u8]) -> Result<Solved, Refusal>
    ensures { Plainly words.now ask plan.old plan.new result }
{
    let mut lists = [0u16; heads::SIZE];
    let places = judging::judge_in(words, ask.cycles, Buffer::Plan(plan.len()), &mut lists)?;
    let t = Accepted { words, places };
    let start = Side {
        values: [0u8; 256],
        choices: 0,
        changed: false,
        conflict: false,
    };
    let side = passes::propagate(&t, &lists, start);
    Ok(choose(&t, ask, &lists, side, plan))
}

// Opens a choice: "at the limit, end with limit; else open one more level with the lowest undefined atom true .. this is one choice". A side that ends in a
// conflict holds nothing; then "that atom becomes false", and this side is tried.
#[cycle(choose_try_side)]
fn choose(t: &Accepted, ask: Ask, lists: &Lists, side: Side, plan: &mut [u8]) -> Solved
    requires { Ready t.now.words.now t.now.places lists.now ask.limit side plan.old }
    ensures { Chosen ask.cycles t.now.words.now t.now.places ask.limit side plan.old plan.new result }
{
    if side.conflict {
        return Solved::Nothing(counted(side.choices));
    }
    if let Some(p) = interpretation::lowest_undefined(&side.values, t.places.atoms) {
        if ask.limit <= side.choices {
            return Solved::Limit(counted(side.choices));
        }
        let first = try_side(t, ask, lists, side.on(p, true, side.choices + 1), plan);
        let Solved::Nothing(n) = first else {
            return first;
        };
        let sofar = n.choices;
        return try_side(t, ask, lists, side.on(p, false, sofar), plan);
    }
    tested(t, ask, lists, side, plan)
}

// Tries a side of a choice: ".. then propagate again".
#[cycle(choose_try_side)]
fn try_side(t: &Accepted, ask: Ask, lists: &Lists, side: Side, plan: &mut [u8]) -> Solved
    requires { Ready t.now.words.now t.now.places lists.now ask.limit side plan.old × (side.conflict ≡ false) }
    ensures { Sided ask.cycles t.now.words.now t.now.places ask.limit side plan.old plan.new result }
{
    let tried = passes::propagate(t, lists, side);
    choose(t, ask, lists, tried, plan)
}

// "If there is no conflict and all atoms are defined, test foundedness .. All true atoms added: answer. If not: conflict". Where head cycles are taken the test
// is the second search of request 14, whose choices are counted here and against the limit. An answer is the plan.
fn tested(t: &Accepted, ask: Ask, lists: &Lists, side: Side, plan: &mut [u8]) -> Solved
    requires { Testable t.now.words.now t.now.places lists.now ask.limit side.values side.choices plan.old }
    ensures { Tests ask.cycles t.now.words.now t.now.places ask.limit side.values side.choices plan.old plan.new result }
{
    let mut room = [0u32; Table::RULES];
    let left = ask.limit - side.choices;
    let found = turns::test(t, ask.cycles, lists, &side.values, left, &mut room);
    match found {
        Tested::Passed(spent) => {
            solver::plans::write(side.values, t.places.atoms, plan);
            Solved::Answer(counted(side.choices + spent))
        }
        Tested::Failed(spent) => Solved::Nothing(counted(side.choices + spent)),
        Tested::Exhausted => Solved::Limit(counted(ask.limit)),
    }
}

// "It never jumps": no skips. Passes are not counted.
fn counted(choices: u32) -> results::Counts
    ensures { result ≡ plain_counts choices }
{
    results::Counts {
        choices,
        skips: 0,
        passes: 0,
    }
}
