// Writes, for each case on standard input, the table as aspif into a buffer of the case's length. tools/written.py makes the cases and the
// lines of `stdout`, and says what a case is: a text after its length in bytes, four bytes, low byte first.
#![tactic(auto)]

use std::io;

fn main(rt: HostRuntime) -> io::Result<()> {
    printed::write_all(
        &rt,
        &mut rt.stdin(),
        &|words, out| aspif_write::write(words, out),
    )
}
