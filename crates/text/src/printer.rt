// Printing a result as 01's line. The inner functions write as far as there is room; `print` asks for room for any line before it writes.
ghost use Rattle.std.specs.Prelude.{◌≡◌, [], ◌∷◌, ◌++◌, ◌+◌, ◌%◌, ◌≤◌, min, length, take};
ghost use Rattle.text.specs.Line.{decimal, pair, line, answer_line, atom, atoms_from, PrintAs};
ghost use Rattle.text.specs.Putting.{Put};

use results::{Refusal, Solved};

// One byte at index `at`; the index after it.
// Stays: `bytes_out` has the same writers, whose index goes on past the end to find a text's length; here it stops, as `Put` of `specs/Putting.antt` has it.
fn put_byte(b: u8, at: usize, out: &mut [u8]) -> usize
    requires { at ≤ length out.old }
    ensures { Put out.old at (b ∷ []) result out.new }
{
    if at < out.len() {
        out[at] = b;
        return at + 1;
    }
    at
}

// Some bytes from index `at` on; the index after them.
fn put(text: &[u8], at: usize, out: &mut [u8]) -> usize
    requires { at ≤ length out.old }
    ensures { Put out.old at text.now result out.new }
{
    let mut to = at;
    for b in text {
        to = put_byte(*b, to, out);
    }
    to
}

// The last digit of a number.
fn last_digit(n: u64) -> u8
    ensures { result ≡ 48 + n % 10 }
{
    b'0' + (n % 10) as u8
}

// A number in decimal digits: those before the last, and the last.
fn put_number(n: u64, at: usize, out: &mut [u8]) -> usize
    requires { at ≤ length out.old }
    ensures { Put out.old at (decimal n) result out.new }
{
    if n < 10 {
        return put_byte(last_digit(n), at, out);
    }
    let to = put_number(n / 10, at, out);
    put_byte(last_digit(n), to, out)
}

// A word and two numbers, a space between them, at the front.
fn put_pair(word: &[u8], first: u64, second: u64, out: &mut [u8]) -> usize
    ensures put { Put out.old 0 (pair word.now first second) result out.new }
    ensures second_in_bounds { length (pair word.now first second) ≤ length word.now + 41 }
{
    let after_word = put(word, 0, out);
    let after_first = put_number(first, after_word, out);
    let after_space = put_byte(b' ', after_first, out);
    put_number(second, after_space, out)
}

// A space and the atom's number, if its byte of the plan says that it is true.
fn put_atom(p: usize, b: u8, at: usize, out: &mut [u8]) -> usize
    requires { at ≤ length out.old }
    ensures { Put out.old at (atom p b) result out.new }
{
    if b == 1 {
        let after_space = put_byte(b' ', at, out);
        return put_number(p as u64, after_space, out);
    }
    at
}

// The true atoms among the first `atoms`, of which there are at most 256.
fn put_atoms(atoms: usize, plan: &[u8], at: usize, out: &mut [u8]) -> usize
    requires { at ≤ length out.old }
    ensures { Put out.old at (atoms_from 1 (take (min atoms 256) plan.now)) result out.new }
{
    let shown = &plan[..atoms.min(256).min(plan.len())];
    let mut to = at;
    for (i, b) in shown.iter().enumerate() {
        to = put_atom(i + 1, *b, to, out);
    }
    to
}

// A line of a word and two numbers.
fn put_line(word: &[u8], first: u64, second: u64, out: &mut [u8]) -> usize
    ensures put { Put out.old 0 (line word.now first second) result out.new }
    ensures second_in_bounds { length (line word.now first second) ≤ length word.now + 42 }
{
    let after_pair = put_pair(word, first, second, out);
    put_byte(b'\n', after_pair, out)
}

// The line of an answer.
fn put_answer(choices: u64, skips: u64, atoms: usize, plan: &[u8], out: &mut [u8]) -> usize
    ensures put { Put out.old 0 (answer_line choices skips atoms plan.now) result out.new }
    ensures plan_len_bound { length (answer_line choices skips atoms plan.now) ≤ 1100 }
{
    let after_pair = put_pair(b"answer ", choices, skips, out);
    let after_colon = put_byte(b':', after_pair, out);
    let after_atoms = put_atoms(atoms, plan, after_colon, out);
    put_byte(b'\n', after_atoms, out)
}

// The line of a result, at the front of a buffer of at least 1,100 bytes, into which any line fits: how much was written. The rest of the buffer
// is kept; to a shorter one nothing is written. `plan` holds the answer's plan, of `atoms` atoms.
pub fn print(solved: Result<Solved, Refusal>, atoms: usize, plan: &[u8], out: &mut [u8]) -> usize
    ensures line { PrintAs solved atoms plan.now out.old result out.new }
    ensures room { result ≤ length out.new }
{
    if out.len() < 1100 {
        return 0;
    }
    match solved {
        Ok(Solved::Answer(counts)) => put_answer(
            u64::from(counts.choices),
            u64::from(counts.skips),
            atoms,
            plan,
            out,
        ),
        Ok(Solved::Nothing(counts)) => put_line(
            b"none ",
            u64::from(counts.choices),
            u64::from(counts.skips),
            out,
        ),
        Ok(Solved::Limit(counts)) => put_line(
            b"limit ",
            u64::from(counts.choices),
            u64::from(counts.skips),
            out,
        ),
        Err(r) => put_line(b"refused ", u64::from(r.number()), r.place() as u64, out),
    }
}
