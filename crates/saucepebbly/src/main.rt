// The text program (01): standard input to one line on standard output. What the line says is `reply::line`'s contract.
#![tactic(auto)]

use framed::read_full;
use std::io;

// One byte more than a text may have.
const MOST_BYTES: usize = 65537;

// Room for any line.
const LINE: usize = 1100;

fn main(rt: HostRuntime) -> io::Result<()> {
    let mut text = [0u8; MOST_BYTES];
    let mut out = [0u8; LINE];
    let length = read_full(&mut rt.stdin(), &mut text)?;
    let wrote = reply::line(&text[..length], &mut out);
    rt.write_all(&out[..wrote])
}
