// The jumping search over an accepted table (01, "Propagation" and "Reasons and jumps"). It starts from a state that is handed in and hands the
// state at its end back, so that it can begin with pins and go on after a plan. `cycles`: the call takes head cycles (request 14). Meaning: crates `steps`, `search` and
// `smaller`; how the code's structs are
// read: `specs/Jumping.antt`. What can be asked through lent values stands apart (crates `rules`, `support`, `turns`); what changes the state stands in
// the loop of `search_by`, so that the reasons exist once.
#![tactic(auto)]

ghost use Rattle.heads.specs.Heads.{Listed, taking};
ghost use Rattle.smaller.specs.Cyclic.{base_by};
ghost use Rattle.jumping.specs.Jumping.{Ready, Searches, Solves};

use foundation::Candidates;
use heads::Lists;
use interpretation::Interpretation;
use layout::Accepted;
use outcome::{Ending, Found, Halt, Outcome, Start};
use rules::Step;
use support::Ask;
use turns::{Back, Turn};

// The search over the rules of list 0, by the lists of the table's rules: propagate, then answer, end, open a level or go back, and again.
pub fn search_by(
    t: &Accepted,
    cycles: bool,
    lists: &Lists,
    limit: u32,
    from: Start,
    rows0: [[u64; 4]; 256],
    candidates: &mut Candidates,
) -> Halt
    requires { Listed t.now.words.now t.now.places lists.now × Ready t.now.places.atoms limit from }
    ensures { Searches (base_by cycles (taking t.now.words.now lists.now) t.now.places.atoms) limit from rows0 result }
{
    let mut it = from.it;
    let mut reasons = rows0;
    let mut choices = from.choices;
    let mut skips = from.skips;
    let mut most = from.passes;
    let n = t.places.atoms;
    let first = lists[0] as usize;
    let end = lists[1] as usize;
    'turns: loop {
        let mut why = levels::empty();
        let mut made: u32 = 1; // the pass at hand counts, also if a conflict ends it
        let mut rules_to = end; // from there on no rule asks anything now: a pass that has changed nothing stops
        let mut atoms_to = n; // and no atom above this one
        let out = 'passes: loop {
            let mut changed = false;
            let mut quiet = first; // from there on the rules passed ask nothing now
            let mut r = first;
            // Stays: two counted loops: an atom that is set moves the ends of both, and a range keeps the end with which it began.
            'rules: while r < rules_to {
                let at = lists[r] as usize;
                let s = rules::demand(t, at, &it.values);
                match s {
                    Step::Nothing => {}
                    Step::Conflict => {
                        let reason = rules::reason(t, at, &it.values, &reasons);
                        why = reason;
                        break 'passes Outcome::Conflict;
                    }
                    Step::Set(q, v) => {
                        let reason = rules::reason(t, at, &it.values, &reasons);
                        let i = q - 1;
                        reasons[i] = reason;
                        it = it.set(q, v);
                        changed = true;
                        quiet = r + 1;
                        rules_to = end;
                        atoms_to = n;
                    }
                }
                r += 1;
            }
            rules_to = quiet;
            let mut last: usize = 0; // above it the atoms passed ask nothing now
            let mut p: usize = 1;
            'atoms: while p <= atoms_to {
                let a = support::asked(t, lists, p, &it.values);
                match a {
                    Ask::Nothing => {}
                    Ask::Conflict => {
                        let whole = propagation::whole_reason(t, lists, p, &it.values, &reasons);
                        why = whole;
                        break 'passes Outcome::Conflict;
                    }
                    Ask::Unset => {
                        let others = support::blame(t, lists, p, &it.values, &reasons);
                        let i = p - 1;
                        reasons[i] = others;
                        it = it.set(p, false);
                        changed = true; // figure 2 of source 001 forgets this one
                        last = p;
                        rules_to = end;
                        atoms_to = n;
                    }
                    Ask::Sole(place) => {
                        let whole = propagation::whole_reason(t, lists, p, &it.values, &reasons);
                        'sets: while let Some((q, v)) = support::forced(t, place, &it.values) {
                            let j = q - 1;
                            reasons[j] = whole;
                            it = it.set(q, v);
                        }
                        changed = true;
                        last = p;
                        rules_to = end;
                        atoms_to = n;
                    }
                }
                p += 1;
            }
            atoms_to = last;
            if !changed {
                break 'passes Outcome::Settled;
            }
            made += 1;
        };
        most = turns::greater(most, made);
        let turn = turns::decide(
            t, cycles, lists, out, &it.values, choices, limit, candidates,
        );
        match turn {
            Turn::Answer(spent) => {
                choices += spent;
                let found = Found {
                    it,
                    ending: Ending::Answer,
                    choices,
                    skips,
                    passes: most,
                };
                return outcome::pack(found, reasons);
            }
            Turn::Limit(spent) => {
                choices += spent;
                let found = Found {
                    it,
                    ending: Ending::Limit,
                    choices,
                    skips,
                    passes: most,
                };
                return outcome::pack(found, reasons);
            }
            Turn::Choose(a) => {
                let level = it.depth as usize + 1;
                let i = a - 1;
                let own = levels::single(level);
                reasons[i] = own;
                it = it.open(a);
                choices += 1;
            }
            Turn::Conflict(spent) => {
                choices += spent;
                let k = it.depth as usize;
                let reason = turns::blame(out, why, k);
                let back = turns::go_back(&it.chosen, k, reason);
                match back {
                    Back::End(passed) => {
                        skips += passed;
                        let found = Found {
                            it,
                            ending: Ending::Nothing,
                            choices,
                            skips,
                            passes: most,
                        };
                        return outcome::pack(found, reasons);
                    }
                    Back::Level(m, a, passed) => {
                        let i = a - 1;
                        let rest = levels::without(reason, m);
                        reasons[i] = rest;
                        it = it.jump(m as u16);
                        skips += passed;
                    }
                }
            }
        }
    }
}

// The search over an accepted table from its start, by the lists of its rules: those of list 0 take part. What the candidates' array held before does not matter.
pub fn search(
    t: &Accepted,
    cycles: bool,
    lists: &Lists,
    limit: u32,
    candidates: &mut Candidates,
) -> Found
    requires { Listed t.now.words.now t.now.places lists.now }
    ensures { Solves (base_by cycles (taking t.now.words.now lists.now) t.now.places.atoms) limit result }
{
    let it = Interpretation::start();
    let from = Start {
        it,
        choices: 0,
        skips: 0,
        passes: 0,
    };
    let reasons = levels::no_rows();
    let halt = search_by(t, cycles, lists, limit, from, reasons, candidates);
    halt.found
}
