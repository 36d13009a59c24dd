// A line's fields one by one through the machine.
ghost use Rattle.std.specs.Prelude.{◌≡◌};
ghost use Rattle.aspif_scan.specs.Machine.{start_of, read_by};
ghost use Rattle.aspif_scan.specs.Marks.{marks_by};
ghost use Rattle.aspif_scan.specs.Scan.{numbers_in};

use crate::machine::{State, start, step};
use crate::marks::mark;
use crate::number::number_of;
use text::scan::{run_end, run_start};

// What a line's numbers come to: the machine's last state, and the marks.
pub fn scan(line: &[u8], marks: &mut [u32; 1280]) -> State
    ensures value { result ≡ read_by start_of (numbers_in line.now) }
    ensures marks_after { marks.new ≡ marks_by start_of (numbers_in line.now) marks.old }
{
    let mut s = start();
    let mut at = run_start(line, 0);
    while at < line.len() {
        let end = run_end(line, at);
        let n = number_of(&line[at..end]);
        mark(s, n, marks);
        s = step(s, n);
        at = run_start(line, end);
    }
    s
}
