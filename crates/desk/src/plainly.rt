// The plain engine for C and Rust (request 5 of 02), as `include/saucepebbly.h` declares it. Meaning: `specs/Plain.antt`.
ghost use Rattle.desk.specs.Plain.{SolvesPlainly};

use reports::{first, kind, second, write};
use results::Ask;

// The night's plan by the plain search: the kind of the result, and in the report its two numbers.
#[unsafe(no_mangle)]
pub extern "C" fn saucepebbly_plain(
    words: &[i32],
    mode: u32,
    limit: u32,
    plan: &mut [u8],
    report: &mut [u32],
) -> u32
    ensures { SolvesPlainly words.now mode limit plan.old plan.new report.old report.new result }
{
    let cycles = mode != 0;
    let ask = Ask { cycles, limit };
    let solved = plain::solve(words, ask, plan);
    write(report, first(solved), second(solved));
    kind(solved)
}
