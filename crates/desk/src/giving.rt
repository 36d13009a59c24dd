// What to give up when no plan exists, for C and Rust (request 13 of 02), as `include/saucepebbly.h` declares it. Meaning: `specs/Giving.antt`.
ghost use Rattle.std.specs.Prelude.{◌≡◌};
ghost use Rattle.desk.specs.Giving.{relax_kind, relax_first, relax_second, GivesUpInC};

use foundation::Candidates;
use heads::Lists;
use reports::{narrowed, write};
use results::{Ask, Refusal, Relaxed};

// The kind of the result.
fn relax_kind(relaxed: Result<Relaxed, Refusal>) -> u32
    ensures { result ≡ relax_kind relaxed }
{
    match relaxed {
        Ok(Relaxed::Answer(_)) => 0,
        Ok(Relaxed::Nothing) => 1,
        Ok(Relaxed::Limit) => 2,
        Err(_) => 3,
    }
}

// How many rules are dropped, or the number of a refusal.
fn relax_first(relaxed: Result<Relaxed, Refusal>) -> u32
    ensures { result ≡ relax_first relaxed }
{
    match relaxed {
        Ok(Relaxed::Answer(n)) => narrowed(n),
        Ok(Relaxed::Nothing | Relaxed::Limit) => 0,
        Err(f) => f.number(),
    }
}

// The place of a refusal.
fn relax_second(relaxed: Result<Relaxed, Refusal>) -> u32
    ensures { result ≡ relax_second relaxed }
{
    match relaxed {
        Ok(_) => 0,
        Err(f) => narrowed(f.place()),
    }
}

// What to give up: the kind of the result, and in the report its two numbers.
#[unsafe(no_mangle)]
pub extern "C" fn saucepebbly_relax(
    words: &[i32],
    mode: u32,
    limit: u32,
    dropped: &mut [u32],
    plan: &mut [u8],
    report: &mut [u32],
    lists: &mut Lists,
    candidates: &mut Candidates,
) -> u32
    ensures { GivesUpInC words.now mode limit dropped.old dropped.new plan.old plan.new report.old report.new result }
{
    let cycles = mode != 0;
    let ask = Ask { cycles, limit };
    let relaxed = relaxer::relax_with(words, ask, dropped, plan, lists, candidates);
    write(report, relax_first(relaxed), relax_second(relaxed));
    relax_kind(relaxed)
}
