// Prints what solving and the check say of tables where head cycles are taken (request 14). A case on standard input is a text, the limit and the words, and a plan, which is
// empty where the table is to be solved; each comes after its length in bytes, four bytes, low byte first. A solved table has two lines: the line that the text program
// would print, and `why` with an atom, its round and its rule for each atom that has a round or a rule. A checked plan has one: yes, no, or the refusal.
// tools/cycles.py makes the cases and the lines of `stdout` from vectors of request 14.
#![tactic(auto)]

use framed::next_part;
use printed::{print_line, print_whys};
use results::Ask;
use std::io;
use std::io::Read;
use text::reader::read;

// Room for any text of the vectors.
const MOST_BYTES: usize = 65536;

// Both lines of a table that is solved.
fn run_table(rt: &impl Print, words: &[i32], limit: u32) -> io::Result<()> {
    let mut plan = [0u8; 256];
    let ask = Ask {
        cycles: true,
        limit,
    };
    let solution = solver::solve(words, ask, &mut plan);
    print_line(rt, solution.solved, &plan)?;
    print_whys(rt, &solution.whys)
}

// The line of a plan that is checked.
fn check_plan(rt: &impl Print, words: &[i32], plan: &[u8]) -> io::Result<()> {
    match solver::approve(words, true, plan) {
        Ok(true) => rt.write_all(b"yes\n"),
        Ok(false) => rt.write_all(b"no\n"),
        Err(f) => print_line(rt, Err(f), &[0; 256]),
    }
}

// The lines of a text: solved, or checked where a plan is given.
fn run_text(rt: &impl Print, bytes: &[u8], plan: &[u8]) -> io::Result<()> {
    let mut words = [0i32; 32768];
    match read(bytes, &mut words) {
        Err(f) => print_line(rt, Err(f), &[0; 256]),
        Ok((limit, count)) => {
            if plan.is_empty() {
                run_table(rt, &words[..count], limit)
            } else {
                check_plan(rt, &words[..count], plan)
            }
        }
    }
}

// Reads a case and prints its lines; whether there was one.
fn run(rt: &impl Print, input: &mut impl Read) -> io::Result<bool> {
    let mut buffer = [0u8; MOST_BYTES];
    let mut plan = [0u8; 256];
    let length = next_part(input, &mut buffer)?;
    let given = next_part(input, &mut plan)?;
    let (Some(length), Some(given)) = (length, given) else {
        return Ok(false);
    };
    run_text(rt, &buffer[..length], &plan[..given])?;
    Ok(true)
}

// Nothing says that the input ends, so the turns are counted.
fn main(rt: HostRuntime) -> io::Result<()> {
    let mut input = rt.stdin();
    for _ in 0..u64::MAX {
        if !run(&rt, &mut input)? {
            break;
        }
    }
    Ok(())
}
