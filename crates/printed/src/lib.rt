// What the programs of the tests print of results.
#![tactic(auto)]

use framed::next_part;
use results::{Refusal, Solved};
use rounds::Why;
use std::io;
use std::io::Read;
use text::printer::print;
use text::reader::read;

// Room for any line.
const LINE: usize = 1100;

// Room for any text of a writer's case, and for any buffer of one.
const MOST_BYTES: usize = 65536;

// The line of a result.
pub fn print_line(rt: &impl Print, solved: Result<Solved, Refusal>, plan: &[u8]) -> io::Result<()> {
    let mut out = [0u8; LINE];
    let wrote = print(solved, 256, plan, &mut out);
    rt.write_all(&out[..wrote])
}

// A space and the number, one write each: what a write that fails leaves out begins with it.
fn print_number(rt: &impl Print, n: u64) -> io::Result<()> {
    rt.write_all(b" ")?;
    print!(rt; "{n}")
}

// The line `why`: an atom, its round and its rule for each atom that has a round or a rule.
pub fn print_whys(rt: &impl Print, whys: &[Why; 256]) -> io::Result<()> {
    rt.write_all(b"why")?;
    for (i, why) in whys.iter().enumerate() {
        if why.round != 0 || why.rule != 0 {
            print_number(rt, i as u64 + 1)?;
            print_number(rt, u64::from(why.round))?;
            print_number(rt, u64::from(why.rule))?;
        }
    }
    rt.write_all(b"\n")
}

// What a writer says, and its buffer after it.
fn print_written(
    rt: &impl Print,
    written: Result<usize, Refusal>,
    buffer: &[u8],
) -> io::Result<()> {
    match written {
        Ok(n) => {
            rt.write_all(b"wrote ")?;
            print!(rt; "{n}")?;
        }
        Err(refusal) => {
            rt.write_all(b"refused ")?;
            print!(rt; "{}", refusal.number())?;
            print_number(rt, refusal.place() as u64)?;
        }
    }
    rt.write_all(b"\n")?;
    rt.write_all(buffer)?;
    rt.write_all(b"\n")
}

// A writer on the words of a text, with a buffer of the text's limit, `#` everywhere; a refused text prints nothing, nor does one whose limit is
// above the room.
fn write_words<W: Fn(&[i32], &mut [u8]) -> Result<usize, Refusal>>(
    rt: &impl Print,
    bytes: &[u8],
    write: &W,
) -> io::Result<()>
    requires { W.IsAlwaysCallable write.now }
{
    let mut words = [0i32; 32768];
    let Ok((room, count)) = read(bytes, &mut words) else {
        return Ok(());
    };
    if room > 65536 {
        return Ok(());
    }
    let mut buffer = [b'#'; MOST_BYTES];
    let out = &mut buffer[..room as usize];
    let written = write(&words[..count], out);
    print_written(rt, written, out)
}

// Reads a writer's case and prints what it writes; whether there was one.
fn write_next<W: Fn(&[i32], &mut [u8]) -> Result<usize, Refusal>>(
    rt: &impl Print,
    input: &mut impl Read,
    write: &W,
) -> io::Result<bool>
    requires { W.IsAlwaysCallable write.now }
{
    let mut text = [0u8; MOST_BYTES];
    let Some(length) = next_part(input, &mut text)? else {
        return Ok(false);
    };
    write_words(rt, &text[..length], write)?;
    Ok(true)
}

// A writer on each case of the input, as tools/written.py and tools/shown.py write them. Nothing says that the input ends, so the turns are counted.
pub fn write_all<W: Fn(&[i32], &mut [u8]) -> Result<usize, Refusal>>(
    rt: &impl Print,
    input: &mut impl Read,
    write: &W,
) -> io::Result<()>
    requires { W.IsAlwaysCallable write.now }
{
    for _ in 0..u64::MAX {
        if !write_next(rt, input, write)? {
            break;
        }
    }
    Ok(())
}
