// Prints, for each case on standard input, what the reader of aspif says of it, a line a case: the number of words and the words, or the refusal;
// then how many words of the buffer are as before. tools/read_aspif.py makes the cases and the lines of `stdout` from vectors with right answers.
#![tactic(auto)]

mod input;

use std::io;
use std::io::Read;

// The largest text and buffer of a case.
const MOST_BYTES: usize = 8192;

const MOST_WORDS: usize = 16384;

// What the buffer's words are before.
const BEFORE: i32 = -7;

// A space and the number, one write each: what a write that fails leaves out begins with it.
fn print_number(rt: &impl Print, n: u64) -> io::Result<()> {
    rt.write_all(b" ")?;
    print!(rt; "{n}")
}

fn print_word(rt: &impl Print, w: i32) -> io::Result<()> {
    rt.write_all(b" ")?;
    if w < 0 {
        rt.write_all(b"-")?;
    }
    print!(rt; "{}", w.unsigned_abs())
}

// A case's line.
fn print_case(rt: &impl Print, text: &[u8], words: &mut [i32]) -> io::Result<()> {
    match aspif_read::read(text, words) {
        Ok(n) => {
            rt.write_all(b"wrote")?;
            print_number(rt, n as u64)?;
            rt.write_all(b":")?;
            for w in words.iter().take(n) {
                print_word(rt, *w)?;
            }
        }
        Err(refusal) => {
            rt.write_all(b"refused")?;
            print_number(rt, u64::from(refusal.number()))?;
            print_number(rt, refusal.place() as u64)?;
        }
    }
    let mut kept: u64 = 0;
    for w in words.iter() {
        kept = kept.wrapping_add(u64::from(*w == BEFORE));
    }
    rt.write_all(b" /")?;
    print_number(rt, kept)?;
    rt.write_all(b"\n")
}

// Reads a case and prints its line; whether there was one.
fn run_case(rt: &impl Print, input: &mut impl Read) -> io::Result<bool> {
    let room = input::number(input)?.unwrap_or(usize::MAX);
    let length = input::number(input)?.unwrap_or(usize::MAX);
    if length > MOST_BYTES {
        return Ok(false);
    }
    let mut text = [0u8; MOST_BYTES];
    let mut words = [BEFORE; MOST_WORDS];
    for b in text[..length].iter_mut() {
        *b = input::byte(input)?;
    }
    if room <= MOST_WORDS {
        print_case(rt, &text[..length], &mut words[..room])?;
    }
    Ok(true)
}

// Nothing says that the input ends, so the turns are counted.
fn main(rt: HostRuntime) -> io::Result<()> {
    let mut input = rt.stdin();
    for _ in 0..u64::MAX {
        if !run_case(&rt, &mut input)? {
            break;
        }
    }
    Ok(())
}
