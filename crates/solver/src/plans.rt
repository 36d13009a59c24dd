// The plan buffer: what an answer writes, and what an offered plan says. Meaning: `specs/Plans.antt` here and in crate `promises`.
ghost use Rattle.std.specs.Prelude.{◌≡◌, ◌≤◌, eqb, length};
ghost use Rattle.interpretation.specs.State.{true_atoms};
ghost use Rattle.interpretation.specs.View.{valued};
ghost use Rattle.promises.specs.Plans.{bit_of, plan_with};
ghost use Rattle.solver.specs.Plans.{report_of, buffer_of, bad_from, Offers};

use outcome::{Ending, Found};
use results::{Counts, Solved};

// The plan's byte of an atom, from its value's byte.
pub fn bit(value: u8) -> u8
    ensures { result ≡ bit_of (eqb value 1) }
{
    u8::from(value == 1)
}

// The first n bytes of the plan from the first n values; the others keep their contents.
pub fn write(values: [u8; 256], n: usize, plan: &mut [u8])
    requires { (n ≤ 256) × (n ≤ length plan.old) }
    ensures { plan.new ≡ plan_with n (true_atoms n (valued values)) plan.old }
{
    for i in 0..n {
        plan[i] = bit(values[i]);
    }
}

// What the search found, as a result; only an answer writes.
pub fn report(found: Found, n: usize, plan: &mut [u8]) -> Solved
    requires { (n ≤ 256) × (n ≤ length plan.old) }
    ensures { (result ≡ report_of n found) × (plan.new ≡ buffer_of n found plan.old) }
{
    let counts = Counts {
        choices: found.choices,
        skips: found.skips,
        passes: found.passes,
    };
    match found.ending {
        Ending::Answer => {
            write(found.it.values, n, plan);
            Solved::Answer(counts)
        }
        Ending::Nothing => Solved::Nothing(counts),
        Ending::Limit => Solved::Limit(counts),
    }
}

// The index of the first byte of an offered plan that is neither 0 nor 1.
pub fn first_bad(plan: &[u8], n: usize) -> Option<usize>
    requires { n ≤ length plan.now }
    ensures { result ≡ bad_from plan.now 0 n }
{
    plan[..n].iter().position(|byte| 1 < *byte)
}

// The values of an offered plan: true where the byte is 1, and else false.
pub fn values_of(plan: &[u8], n: usize) -> [u8; 256]
    requires { (n ≤ 256) × (n ≤ length plan.now) }
    ensures { Offers n plan.now result }
{
    let mut values = [0u8; 256];
    for i in 0..n {
        values[i] = interpretation::byte(plan[i] == 1);
    }
    values
}
