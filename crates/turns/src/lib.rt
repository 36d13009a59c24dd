// What a turn of the search asks after its propagation (01, "Reasons and jumps"): which atom is next, what the final test says, what is to be done, and
// where a conflict leads. All of it is asked through lent values; nothing here changes the state. Meaning: `specs/Turns.antt`.
#![tactic(auto)]

ghost use Rattle.std.specs.Prelude.{◌≡◌, ◌-◌, ◌≤◌, max, ltb};
ghost use Rattle.levels.specs.View.{row};
ghost use Rattle.interpretation.specs.State.{lowest, true_atoms, AllDefined};
ghost use Rattle.interpretation.specs.View.{choices, valued};
ghost use Rattle.heads.specs.Heads.{Listed, taking};
ghost use Rattle.smaller.specs.Cyclic.{test_by};
ghost use Rattle.second_search.specs.Looking.{tested_of};
ghost use Rattle.turns.specs.Turns.{turn_of, blamed, ChosenIn, back_of};

use foundation::Candidates;
use heads::Lists;
use layout::Accepted;
use outcome::Outcome;
use second_search::Tested;

// What a turn does after propagation; where the final test was made, with the choices that it spent.
#[derive(Clone, Copy)]
pub enum Turn {
    Answer(u32),
    Limit(u32),
    Choose(usize),
    Conflict(u32),
}

// Where a conflict leads, with the skips that it adds: to the end, or back to a level, whose choice atom becomes false.
// Stays: both cases hold skips, and neither is an error or nothing.
#[derive(Clone, Copy)]
pub enum Back {
    End(u32),
    Level(usize, usize, u32),
}

// The greater of two numbers.
pub fn greater(a: u32, b: u32) -> u32
    ensures { result ≡ max a b }
{
    a.max(b)
}

// The final test of a total interpretation, with so many choices left: foundedness, which spends none; or, where the call takes head cycles, the second search over the rules of list 0. Constraints add no atom: for foundedness all rules are as good.
pub fn test(
    t: &Accepted,
    cycles: bool,
    lists: &Lists,
    values: &[u8; 256],
    left: u32,
    candidates: &mut Candidates,
) -> Tested
    requires { Listed t.now.words.now t.now.places lists.now × AllDefined t.now.places.atoms (valued values.now) }
    ensures { tested_of result ≡ test_by cycles (taking t.now.words.now lists.now) t.now.places.atoms left (true_atoms t.now.places.atoms (valued values.now)) }
{
    if cycles {
        let places = heads::list(lists, 0);
        return second_search::look(t, places, values, left);
    }
    if foundation::founded_by(t, values, candidates) {
        return Tested::Passed(0);
    }
    Tested::Failed(0)
}

// What is to be done after a propagation. The limit is tested only where a choice would be opened.
pub fn decide(
    t: &Accepted,
    cycles: bool,
    lists: &Lists,
    out: Outcome,
    values: &[u8; 256],
    choices: u32,
    limit: u32,
    candidates: &mut Candidates,
) -> Turn
    requires { Listed t.now.words.now t.now.places lists.now × (choices ≤ limit) }
    ensures { result ≡ turn_of (limit - choices) out (lowest (valued values.now) t.now.places.atoms) (test_by cycles (taking t.now.words.now lists.now) t.now.places.atoms (limit - choices) (true_atoms t.now.places.atoms (valued values.now))) (ltb choices limit) }
{
    match out {
        Outcome::Conflict => Turn::Conflict(0),
        Outcome::Settled => {
            let n = t.places.atoms;
            match interpretation::lowest_undefined(values, n) {
                Some(p) => {
                    if choices < limit {
                        return Turn::Choose(p);
                    }
                    Turn::Limit(0)
                }
                None => {
                    let left = limit - choices;
                    let tested = test(t, cycles, lists, values, left, candidates);
                    match tested {
                        Tested::Passed(spent) => Turn::Answer(spent),
                        Tested::Failed(spent) => Turn::Conflict(spent),
                        Tested::Exhausted => Turn::Limit(left),
                    }
                }
            }
        }
    }
}

// The reason of a conflict at level k: propagation's, or all present levels where the final test failed.
pub fn blame(out: Outcome, why: [u64; 4], k: usize) -> [u64; 4]
    requires { k ≤ 256 }
    ensures { row result ≡ blamed out (row why) k }
{
    match out {
        Outcome::Conflict => why,
        Outcome::Settled => levels::upto(k),
    }
}

// Where a conflict with the reason `why` leads, k levels being present: to the highest level in it, or to the end.
// Stays: 0 is no level, as `highest` of crate `levels` has it, whose meaning may not change.
pub fn go_back(chosen: &[u16; 256], k: usize, why: [u64; 4]) -> Back
    requires { (k ≤ 256) × ChosenIn (choices chosen.now k) k }
    ensures { result ≡ back_of (choices chosen.now k) (row why) k }
{
    let m = levels::highest(why, k);
    if m == 0 {
        return Back::End(k as u32);
    }
    let i = m - 1;
    let atom = chosen[i] as usize;
    let skips = (k - m) as u32;
    Back::Level(m, atom, skips)
}
