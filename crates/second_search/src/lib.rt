// The second search of request 14, on the table's words: "look for a smaller model of the reduct by a second search: over the candidate's true atoms, steps a to c
// on the reduct's rules, the lowest undefined atom tried false first, stepping back one choice at a time, keeping all atoms not counting as smaller". No reasons
// are kept: the plain search reads none. The candidate's values are lent. Meaning: crate `smaller`; how the code's arrays are read: `specs/Looking.antt`.
#![tactic(auto)]

ghost use Rattle.std.specs.Prelude.{◌≡◌, Bool, true, false, map, ◌≤◌, suc, ltb};
ghost use Rattle.meaning.specs.Answers.{body, reduct};
ghost use Rattle.interpretation.specs.State.{AllDefined, true_atoms, lowest};
ghost use Rattle.interpretation.specs.View.{valued};
ghost use Rattle.layout.specs.Accepted.{rule_in, RuleIn};
ghost use Rattle.heads.specs.Heads.{AllLie};
ghost use Rattle.steps.specs.Steps.{pass, passes};
ghost use Rattle.rules.specs.Demand.{demand_of};
ghost use Rattle.smaller.specs.Smaller.{lacks_one, smaller_test};
ghost use Rattle.smaller.specs.Cyclic.{has_smaller};
ghost use Rattle.second_search.specs.Looking.{Like, work_of, cells_at, Whole, asked_of, turn_of, tested_of};

pub mod held;

use layout::Accepted;
use rules::Step;

// What the test says of the candidate, with the choices that it spent: no smaller model was found, or one was; or the limit stopped the test.
#[derive(Clone, Copy)]
pub enum Tested {
    Passed(u32),
    Failed(u32),
    Exhausted,
}

// What a pass, or passes, did: whether an atom was set, and whether there was a conflict.
// Stays: two flags: a pass may set atoms and then meet a conflict, and the contracts of `rule_steps` and `propagate` tell of both.
#[derive(Clone, Copy)]
pub struct Steps {
    pub changed: bool,
    pub conflict: bool,
}

// What a turn does after propagation.
#[derive(Clone, Copy)]
pub enum Turn {
    Smaller,
    Limit,
    Choose(usize),
    Back,
}

// Whether the rule at `at` belongs to the reduct: its whole body is true in the candidate.
pub fn takes_part(t: &Accepted, at: usize, candidate: &[u8; 256]) -> bool
    requires { RuleIn t.now at × AllDefined t.now.places.atoms (valued candidate.now) }
    ensures { result ≡ body (true_atoms t.now.places.atoms (valued candidate.now)) (rule_in t.now at) }
{
    let i = layout::past(t.words, at);
    let positive = layout::part(t.words, i);
    let asked = rules::atoms_ask(positive, true, candidate);
    asked == Step::Conflict && foundation::rest_true(t, at, candidate)
}

// What steps a to c ask of the rule at `at`: nothing where it is not in the reduct.
pub fn asked(t: &Accepted, at: usize, candidate: &[u8; 256], values: &[u8; 256]) -> Step
    requires { RuleIn t.now at × AllDefined t.now.places.atoms (valued candidate.now) }
    ensures { result ≡ asked_of (body (true_atoms t.now.places.atoms (valued candidate.now)) (rule_in t.now at)) (demand_of (valued values.now) (rule_in t.now at)) }
{
    if takes_part(t, at, candidate) {
        return rules::demand(t, at, values);
    }
    Step::Nothing
}

// A pass: steps a to c at the reduct's rules, in the order of the places.
pub fn rule_steps(
    t: &Accepted,
    places: &[u16],
    candidate: &[u8; 256],
    level: u16,
    values: &mut [u8; 256],
    levels: &mut [u16; 256],
) -> Steps
    requires { AllLie t.now.places t.now.words.now places.now × AllDefined t.now.places.atoms (valued candidate.now) × Whole values.old levels.old }
    ensures { Whole values.new levels.new
        × Like (work_of level (cells_at values.new levels.new) result.changed result.conflict) (pass (reduct (map (rule_in t.now) places.now) (true_atoms t.now.places.atoms (valued candidate.now))) 0 (work_of level (cells_at values.old levels.old) false false)) }
{
    let mut changed = false;
    for place in places {
        let step = asked(t, *place as usize, candidate, values);
        match step {
            Step::Nothing => {}
            Step::Conflict => {
                return Steps {
                    changed,
                    conflict: true,
                };
            }
            Step::Set(p, v) => {
                held::set(p, v, level, values, levels);
                changed = true;
            }
        }
    }
    Steps {
        changed,
        conflict: false,
    }
}

// "Passes repeat until one changes nothing or a conflict ends it": one more than there are atoms are enough.
pub fn propagate(
    t: &Accepted,
    places: &[u16],
    candidate: &[u8; 256],
    level: u16,
    values: &mut [u8; 256],
    levels: &mut [u16; 256],
) -> Steps
    requires { AllLie t.now.places t.now.words.now places.now × AllDefined t.now.places.atoms (valued candidate.now) × Whole values.old levels.old }
    ensures { Whole values.new levels.new
        × Like (work_of level (cells_at values.new levels.new) result.changed result.conflict) (passes (reduct (map (rule_in t.now) places.now) (true_atoms t.now.places.atoms (valued candidate.now))) 0 (suc t.now.places.atoms) (work_of level (cells_at values.old levels.old) false false)) }
{
    let mut changed = false;
    for _pass in 0..t.places.atoms + 1 {
        let made = rule_steps(t, places, candidate, level, values, levels);
        if made.conflict {
            return made;
        }
        if !made.changed {
            return made;
        }
        changed = true;
    }
    Steps {
        changed,
        conflict: false,
    }
}

// Whether the values keep all of the candidate's true atoms, or lack one.
pub fn lacks_one(candidate: &[u8; 256], values: &[u8; 256], n: usize) -> bool
    requires { n ≤ 256 }
    ensures { result ≡ lacks_one n (true_atoms n (valued candidate.now)) (true_atoms n (valued values.now)) }
{
    for p in 1..n + 1 {
        if foundation::is_true(candidate, p) && !foundation::is_true(values, p) {
            return true;
        }
    }
    false
}

// What is to be done after a propagation. "keeping all atoms not counting as smaller": then it goes back as after a conflict.
pub fn decide(
    candidate: &[u8; 256],
    n: usize,
    conflict: bool,
    values: &[u8; 256],
    choices: u32,
    left: u32,
) -> Turn
    requires { n ≤ 256 }
    ensures { result ≡ turn_of conflict (lowest (valued values.now) n) (lacks_one n (true_atoms n (valued candidate.now)) (true_atoms n (valued values.now))) (ltb choices left) }
{
    if conflict {
        return Turn::Back;
    }
    match interpretation::lowest_undefined(values, n) {
        Some(p) => {
            if choices < left {
                return Turn::Choose(p);
            }
            Turn::Limit
        }
        None => {
            if lacks_one(candidate, values, n) {
                return Turn::Smaller;
            }
            Turn::Back
        }
    }
}

// The test of a candidate with so many choices left, over the rules at the places: propagate, then a smaller model is found, or a choice is opened, or it goes back one choice.
pub fn look(t: &Accepted, places: &[u16], candidate: &[u8; 256], left: u32) -> Tested
    requires { AllLie t.now.places t.now.words.now places.now × AllDefined t.now.places.atoms (valued candidate.now) }
    ensures { tested_of result ≡ smaller_test (map (rule_in t.now) places.now) t.now.places.atoms left (true_atoms t.now.places.atoms (valued candidate.now)) }
{
    let n = t.places.atoms;
    let mut values = [0u8; 256];
    let mut levels = [0u16; 256];
    let mut chosen = [0u16; 256];
    let mut depth: u16 = 0;
    let mut choices: u32 = 0;
    held::start(candidate, n, &mut values, &mut levels);
    loop {
        let made = propagate(t, places, candidate, depth, &mut values, &mut levels);
        let turn = decide(candidate, n, made.conflict, &values, choices, left);
        match turn {
            Turn::Smaller => return Tested::Failed(choices),
            Turn::Limit => return Tested::Exhausted,
            Turn::Choose(p) => {
                depth = held::opened(p, depth, &mut values, &mut levels, &mut chosen);
                choices += 1;
            }
            Turn::Back => {
                if depth == 0 {
                    return Tested::Passed(choices);
                }
                depth = held::flipped(depth, &chosen, &mut values, &mut levels);
            }
        }
    }
}

// Whether a candidate has a smaller model, over the rules at the places: "The check makes the test with no limit". The same search; it counts nothing.
// Stays: a loop beside that of `look`: with no limit a count of the choices fits no width, and one loop for both would test an option at each choice.
pub fn has_smaller(t: &Accepted, places: &[u16], candidate: &[u8; 256]) -> bool
    requires { AllLie t.now.places t.now.words.now places.now × AllDefined t.now.places.atoms (valued candidate.now) }
    ensures { result ≡ has_smaller (map (rule_in t.now) places.now) t.now.places.atoms (true_atoms t.now.places.atoms (valued candidate.now)) }
{
    let n = t.places.atoms;
    let mut values = [0u8; 256];
    let mut levels = [0u16; 256];
    let mut chosen = [0u16; 256];
    let mut depth: u16 = 0;
    held::start(candidate, n, &mut values, &mut levels);
    loop {
        let made = propagate(t, places, candidate, depth, &mut values, &mut levels);
        let turn = decide(candidate, n, made.conflict, &values, 0, 1); // one more choice is always allowed
        match turn {
            Turn::Smaller => return true,
            Turn::Limit => return false,
            Turn::Choose(p) => {
                depth = held::opened(p, depth, &mut values, &mut levels, &mut chosen);
            }
            Turn::Back => {
                if depth == 0 {
                    return false;
                }
                depth = held::flipped(depth, &chosen, &mut values, &mut levels);
            }
        }
    }
}
