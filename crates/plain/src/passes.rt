// Propagation (01, "Propagation") with no reasons: no step reads one. What a rule asks is read by crate `rules`, what an atom asks by crate `support`: the
// questions of the jumping search. Meaning: crate `steps`, read by `specs/Passes.antt`.
ghost use Rattle.std.specs.Prelude.{◌≡◌, false, ◌≤◌, suc};
ghost use Rattle.std.proofs.Math.Option.{some};
ghost use Rattle.levels.specs.Levels.{no_levels};
ghost use Rattle.layout.specs.Accepted.{program_in, rule_in, RuleIn};
ghost use Rattle.heads.specs.Heads.{Listed};
ghost use Rattle.steps.specs.Steps.{set, step_e, rule_pass, atom_pass, passes};
ghost use Rattle.plain.specs.Passes.{work_of, Like, Comes};

use heads::Lists;
use layout::Accepted;

// A side of a choice: each atom's value (0 undefined, 1 true, 2 false; atom p at index p - 1) and the choices opened so far; of the pass at hand, whether it
// has changed a value, and whether it has met a conflict.
// Stays: two flags: a pass may change values and then meet a conflict, and `Comes` tells of both.
#[derive(Clone, Copy)]
pub struct Side {
    pub values: [u8; 256],
    pub choices: u32,
    pub changed: bool,
    pub conflict: bool,
}

impl Side {
    // Atom p becomes v: "every change is seen at once by the next step".
    pub fn set(mut self, p: usize, v: bool) -> Self
        requires { (1 ≤ p) × (p ≤ 256) }
        ensures { Comes self result (set p v no_levels (work_of self)) }
    {
        let i = p - 1;
        self.values[i] = interpretation::byte(v);
        self.changed = true;
        self
    }

    // The side on which atom p is v, when so many choices are opened.
    pub fn on(mut self, p: usize, v: bool, choices: u32) -> Self
        requires { (1 ≤ p) × (p ≤ 256) }
        ensures { Like (work_of result) (set p v no_levels (work_of self)) × (result.choices ≡ choices) }
    {
        self.choices = choices;
        self.set(p, v)
    }
}

// "Passes repeat until one changes nothing or a conflict ends it."
pub fn propagate(t: &Accepted, lists: &Lists, mut side: Side) -> Side
    requires { Listed t.now.words.now t.now.places lists.now × (side.conflict ≡ false) }
    ensures { Comes side result (passes (program_in t.now) t.now.places.atoms (suc t.now.places.atoms) (work_of side)) }
{
    loop {
        side.changed = false;
        side = rule_steps(t, side);
        if side.conflict {
            return side;
        }
        side = atom_steps(t, lists, side);
        if side.conflict {
            return side;
        }
        if !side.changed {
            return side;
        }
    }
}

// "One pass takes rules 1 to M with steps a to c": a rule that already holds asks nothing.
fn rule_steps(t: &Accepted, mut side: Side) -> Side
    requires { (side.conflict ≡ false) }
    ensures { Comes side result (rule_pass (program_in t.now) (work_of side)) }
{
    let mut at = t.places.first;
    for _rule in 0..t.places.rules {
        let step = rules::demand(t, at, &side.values);
        match step {
            rules::Step::Nothing => {}
            // a. Body true, head all false: conflict.
            rules::Step::Conflict => {
                side.conflict = true;
                return side;
            }
            // b. Body true, one head atom undefined, the others false: that atom becomes true.
            // c. Head all false, exactly one body literal undefined, the others true: it becomes false.
            rules::Step::Set(p, v) => side = side.set(p, v),
        }
        at = layout::past_rule(t.words, at);
    }
    side
}

// ".. then atoms 1 to N with steps d and e".
fn atom_steps(t: &Accepted, lists: &Lists, mut side: Side) -> Side
    requires { Listed t.now.words.now t.now.places lists.now × (side.conflict ≡ false) }
    ensures { Comes side result (atom_pass (program_in t.now) t.now.places.atoms 1 (work_of side)) }
{
    for p in 1..t.places.atoms + 1 {
        let ask = support::asked(t, lists, p, &side.values);
        match ask {
            support::Ask::Nothing => {}
            // d. No rule supports p: conflict if p is true ..
            support::Ask::Conflict => {
                side.conflict = true;
                return side;
            }
            // .. if undefined, p becomes false.
            support::Ask::Unset => side = side.set(p, false),
            // e. p is true and one rule supports it.
            support::Ask::Sole(at) => side = forced_by(t, at, side),
        }
    }
    side
}

// e. "that rule's other undefined head atoms become false, then its positive body atoms still undefined true, then its negated atoms still undefined false".
fn forced_by(t: &Accepted, at: usize, mut side: Side) -> Side
    requires { RuleIn t.now at }
    ensures { Comes side result (step_e (some (rule_in t.now at)) no_levels (work_of side)) }
{
    while let Some((p, v)) = support::forced(t, at, &side.values) {
        side = side.set(p, v);
    }
    side
}
