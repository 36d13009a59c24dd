// Prints two lines for each text on standard input: the line that the text program prints for it, and `why` with an atom, its round and its rule for each
// atom that has a round or a rule. tools/why.py makes the texts and the lines of `stdout` from vectors of request 1: a text comes after its length in bytes, four
// bytes, low byte first.
#![tactic(auto)]

use framed::next_part;
use printed::{print_line, print_whys};
use results::Ask;
use std::io;
use std::io::Read;
use text::reader::read;

// Room for any text of the vectors.
const MOST_BYTES: usize = 65536;

// Both lines of a table.
fn run_table(rt: &impl Print, words: &[i32], limit: u32) -> io::Result<()> {
    let mut plan = [0u8; 256];
    let ask = Ask {
        cycles: false,
        limit,
    };
    let solution = solver::solve(words, ask, &mut plan);
    print_line(rt, solution.solved, &plan)?;
    print_whys(rt, &solution.whys)
}

// Both lines of a text; a refused text has the first alone.
fn run_text(rt: &impl Print, bytes: &[u8]) -> io::Result<()> {
    let mut words = [0i32; 32768];
    match read(bytes, &mut words) {
        Ok((limit, count)) => run_table(rt, &words[..count], limit),
        Err(f) => print_line(rt, Err(f), &[0; 256]),
    }
}

// Reads a text and prints its lines; whether there was one.
fn run(rt: &impl Print, input: &mut impl Read) -> io::Result<bool> {
    let mut buffer = [0u8; MOST_BYTES];
    let Some(length) = next_part(input, &mut buffer)? else {
        return Ok(false);
    };
    run_text(rt, &buffer[..length])?;
    Ok(true)
}

// Nothing says that the input ends, so the turns are counted.
fn main(rt: HostRuntime) -> io::Result<()> {
    let mut input = rt.stdin();
    for _ in 0..u64::MAX {
        if !run(&rt, &mut input)? {
            break;
        }
    }
    Ok(())
}
