// What the C entries are told of a result (01, "What comes back"): its kind, its numbers in a lent report, and the rounds and rules of an answer. The entries of
// `dock` and `desk` share it. Meaning: `specs/Report.antt`, `specs/Whys.antt`.
#![tactic(auto)]

ghost use Rattle.std.specs.Prelude.{◌≡◌};
ghost use Rattle.reports.specs.Report.{narrow, first_of, second_of, third_of, reported, with_third};
ghost use Rattle.results.specs.Results.{kind_of};

use results::{Refusal, Solved};

pub mod whys;

// The kind of a result.
pub fn kind(solved: Result<Solved, Refusal>) -> u32
    ensures { result ≡ kind_of solved }
{
    match solved {
        Ok(Solved::Answer(_)) => 0,
        Ok(Solved::Nothing(_)) => 1,
        Ok(Solved::Limit(_)) => 2,
        Err(_) => 3,
    }
}

// A place in 32 bits.
pub fn narrowed(place: usize) -> u32
    ensures { result ≡ narrow place }
{
    u32::try_from(place).unwrap_or(u32::MAX)
}

// The choices, or the number of a refusal.
pub fn first(solved: Result<Solved, Refusal>) -> u32
    ensures { result ≡ first_of solved }
{
    match solved {
        Ok(Solved::Answer(counts) | Solved::Nothing(counts) | Solved::Limit(counts)) =>
            counts.choices,
        Err(f) => f.number(),
    }
}

// The skips, or the place of a refusal.
pub fn second(solved: Result<Solved, Refusal>) -> u32
    ensures { result ≡ second_of solved }
{
    match solved {
        Ok(Solved::Answer(counts) | Solved::Nothing(counts) | Solved::Limit(counts)) =>
            counts.skips,
        Err(f) => narrowed(f.place()),
    }
}

// The greatest number of passes, or 0 of a refusal.
pub fn third(solved: Result<Solved, Refusal>) -> u32
    ensures { result ≡ third_of solved }
{
    match solved {
        Ok(Solved::Answer(counts) | Solved::Nothing(counts) | Solved::Limit(counts)) =>
            counts.passes,
        Err(_) => 0,
    }
}

// A third number, to a report that has room for it.
pub fn write_third(report: &mut [u32], third: u32)
    ensures { report.new ≡ with_third third report.old }
{
    if report.len() < 3 {
        return;
    }
    report[2] = third;
}

// The two numbers, to a report that has room for both.
pub fn write(report: &mut [u32], first: u32, second: u32)
    ensures { report.new ≡ reported first second report.old }
{
    if report.len() < 2 {
        return;
    }
    report[0] = first;
    report[1] = second;
}
