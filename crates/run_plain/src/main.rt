// Puts each table on standard input through both engines. A text, the limit and the words as the text program reads them, comes after its length in bytes, four
// bytes, low byte first. For each text the plain engine's line is printed; and then `differs`, where the jumping engine with the same limit says something else,
// though the plain one has not met it. tools/plain.py makes the texts and the lines of `stdout`.
#![tactic(auto)]

use framed::next_part;
use printed::print_line;
use results::{Ask, Refusal, Solved};
use std::io;
use std::io::Read;
use text::reader::read;

// Room for a text of one byte too many.
const MOST_BYTES: usize = 65537;

// Whether two results are of one kind: both an answer, both none, both the limit, or the same refusal.
fn same_kind(a: Result<Solved, Refusal>, b: Result<Solved, Refusal>) -> bool {
    match (a, b) {
        (Ok(Solved::Answer(_)), Ok(Solved::Answer(_))) => true,
        (Ok(Solved::Nothing(_)), Ok(Solved::Nothing(_))) => true,
        (Ok(Solved::Limit(_)), Ok(Solved::Limit(_))) => true,
        (Err(f), Err(g)) => f == g,
        _ => false,
    }
}

// Both engines on a table.
fn run_table(rt: &impl Print, words: &[i32], limit: u32) -> io::Result<()> {
    let mut plan = [0u8; 256];
    let ask = Ask {
        cycles: false,
        limit,
    };
    let solved = plain::solve(words, ask, &mut plan);
    print_line(rt, solved, &plan)?;
    if matches!(solved, Ok(Solved::Limit(_))) {
        return Ok(());
    }
    let mut other = [0u8; 256];
    let jumped = solver::solve(words, ask, &mut other).solved;
    if !same_kind(solved, jumped) || plan != other {
        rt.write_all(b"differs\n")?;
    }
    Ok(())
}

// Both engines on the table of a text.
fn run_text(rt: &impl Print, bytes: &[u8]) -> io::Result<()> {
    let mut words = [0i32; 32768];
    match read(bytes, &mut words) {
        Ok((limit, count)) => run_table(rt, &words[..count], limit),
        Err(f) => print_line(rt, Err(f), &[0; 256]),
    }
}

// Reads a text and puts its table through both engines; whether there was one.
fn run(rt: &impl Print, input: &mut impl Read) -> io::Result<bool> {
    let mut buffer = [0u8; MOST_BYTES];
    let Some(length) = next_part(input, &mut buffer)? else {
        return Ok(false);
    };
    run_text(rt, &buffer[..length])?;
    Ok(true)
}

// Nothing says that the input ends, so the turns are counted.
fn main(rt: HostRuntime) -> io::Result<()> {
    let mut input = rt.stdin();
    for _ in 0..u64::MAX {
        if !run(&rt, &mut input)? {
            break;
        }
    }
    Ok(())
}
