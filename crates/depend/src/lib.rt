// Which atom depends on which, and refusals 8 and 9 from it (01, "Meaning": "Two classes are refused"), on an accepted table.
// Meaning: `specs/Cycles.antt`; that it is exactly the definition's `HeadCycle` and `AggregateCycle`: `proofs/Exact.antt`.
// Memory: a name of one byte for each atom, and what one visit takes (`reach`): a list of one byte and a mark of one bit for each atom.
// Cost: where a cycle of the kind can be, a few walks that settle the atoms on no cycle; then, for each circle of atoms that is left, one visit and a
// walk back or a few; and a pass over the rules.
#![tactic(auto)]

ghost use Rattle.std.specs.Prelude.{◌≡◌, suc};
ghost use Rattle.meaning.specs.Cycles.{aggregate_cycle};
ghost use Rattle.layout.specs.Accepted.{program_in};
ghost use Rattle.heads.specs.Heads.{Listed};
ghost use Rattle.depend.specs.Cycles.{lowest, ninth, cycle_test, head_cycle_by, cycle_by};

use heads::Lists;
use layout::Accepted;
use reach::settling;
use results::Refusal;

mod circles;
mod cycles;

// The refusal of an accepted table for its cycles: 8 before 9, each at its lowest rule; where head cycles are taken, 9 alone. `lists` are the table's
// lists of rules by head.
pub fn refusal(t: &Accepted, cycles: bool, lists: &Lists) -> Result<(), Refusal>
    requires { Listed t.now.words.now t.now.places lists.now }
    ensures { result ≡ cycle_by cycles t.now.places.atoms (program_in t.now) }
{
    match lowest_eighth(t, cycles, lists) {
        Some(rule) => Err(Refusal::HeadCycle(rule)),
        None => ninth(t, lists),
    }
}

// The lowest rule that 8 is given for: none where head cycles are taken.
fn lowest_eighth(t: &Accepted, cycles: bool, lists: &Lists) -> Option<usize>
    requires { Listed t.now.words.now t.now.places lists.now }
    ensures { result ≡ lowest (head_cycle_by cycles (suc t.now.places.atoms) (program_in t.now)) 1 (program_in t.now) }
{
    if cycles {
        return None;
    }
    lowest_of(t, false, lists)
}

// Refusal 9 at its lowest rule, or nothing. It is asked at one place, so that the compiler lets what it takes share the memory of 8.
fn ninth(t: &Accepted, lists: &Lists) -> Result<(), Refusal>
    requires { Listed t.now.words.now t.now.places lists.now }
    ensures { result ≡ ninth (lowest (aggregate_cycle (suc t.now.places.atoms) (program_in t.now)) 1 (program_in t.now)) }
{
    match lowest_of(t, true, lists) {
        Some(rule) => Err(Refusal::AggregateCycle(rule)),
        None => Ok(()),
    }
}

// The lowest rule with a head cycle, or where `added` the lowest that adds an arc of an aggregate cycle.
fn lowest_of(t: &Accepted, added: bool, lists: &Lists) -> Option<usize>
    requires { Listed t.now.words.now t.now.places lists.now }
    ensures { result ≡ lowest (cycle_test added (suc t.now.places.atoms) (program_in t.now)) 1 (program_in t.now) }
{
    if !cycles::may_close(t, added) {
        return None;
    }
    let settled = settling::settled(t, lists, added);
    if settling::everything(settled, t.places) {
        return None;
    }
    let mut names = circles::apart();
    circles::find(t, lists, added, settled, &mut names);
    cycles::first(t, added, &names)
}
