// From a text to its line (01, "The text program"): read, solve, print. Meaning: `specs/Reply.antt`.
#![tactic(auto)]

ghost use Rattle.std.specs.Prelude.{◌≤◌, length};
ghost use Rattle.reply.specs.Reply.{Tells, Replies};

use results::Ask;
use text::printer::print;
use text::reader::read;

// The line for words and a limit.
fn tell(words: &[i32], limit: u32, out: &mut [u8]) -> usize
    ensures line { Tells words.now limit out.old result out.new }
    ensures room { result ≤ length out.new }
{
    let mut plan = [0u8; 256];
    let ask = Ask {
        cycles: false,
        limit,
    };
    let solution = solver::solve(words, ask, &mut plan);
    print(solution.solved, 256, &plan, out)
}

// The line for a text, at the front of a buffer of at least 1,100 bytes: how much was written. To a shorter one nothing is written.
pub fn line(bytes: &[u8], out: &mut [u8]) -> usize
    ensures line { Replies bytes.now out.old result out.new }
    ensures room { result ≤ length out.new }
{
    let mut words = [0i32; 32768];
    match read(bytes, &mut words) {
        Ok((limit, count)) => tell(&words[..count], limit, out),
        Err(f) => print(Err(f), 256, &[0; 256], out),
    }
}
