// Prints, for each text on standard input, the line that the text program prints for it. tools/lines.py makes the texts and the lines of
// `stdout`: a text comes after its length in bytes, four bytes, low byte first.
#![tactic(auto)]

use framed::next_part;
use std::io;
use std::io::Read;

// Room for a text of one byte too many.
const MOST_BYTES: usize = 65537;

// Room for any line.
const LINE: usize = 1100;

// The line for a text.
fn print_line(rt: &impl Print, text: &[u8]) -> io::Result<()> {
    let mut out = [0u8; LINE];
    let wrote = reply::line(text, &mut out);
    rt.write_all(&out[..wrote])
}

// Reads a text and prints its line; whether there was one.
fn run(rt: &impl Print, input: &mut impl Read) -> io::Result<bool> {
    let mut buffer = [0u8; MOST_BYTES];
    let Some(length) = next_part(input, &mut buffer)? else {
        return Ok(false);
    };
    print_line(rt, &buffer[..length])?;
    Ok(true)
}

// Nothing says that the input ends, so the turns are counted.
fn main(rt: HostRuntime) -> io::Result<()> {
    let mut input = rt.stdin();
    for _ in 0..u64::MAX {
        if !run(&rt, &mut input)? {
            break;
        }
    }
    Ok(())
}
