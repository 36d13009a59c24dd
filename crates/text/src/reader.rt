// Reading a text: a first pass judges every number, and only a good text is written to the words' buffer, by a second pass.
ghost use Rattle.std.specs.Prelude.{◌≡◌, ◌≤◌, drop, length, IfOk};
ghost use Rattle.std.proofs.lemmas.List.Edits.{sets};
ghost use Rattle.text.specs.Text.{runs, words_from, ReadAs};
ghost use Rattle.text.specs.Scan.{count_of, listed};

use crate::number::{limit_of, word_of};
use crate::scan::{run_end, run_start};
use results::Refusal;

// How many words there are from `from` on, or which number is the first bad one; the first of them is number 1 of the text.
fn count_words(bytes: &[u8], from: usize) -> Result<usize, usize>
    requires { from ≤ length bytes.now }
    ensures { result ≡ count_of 0 (words_from 1 (runs (drop from bytes.now))) }
{
    let mut n: usize = 0;
    let mut at = run_start(bytes, from);
    while at < bytes.len() {
        let end = run_end(bytes, at);
        if word_of(&bytes[at..end]).is_none() {
            return Err(n + 1);
        }
        n += 1;
        at = run_start(bytes, end);
    }
    Ok(n)
}

// The words from `from` on, up to the first bad one, to the front of the buffer.
fn write_words(bytes: &[u8], from: usize, words: &mut [i32; 32768])
    requires { (from ≤ length bytes.now) × (length bytes.now ≤ 65536) }
    ensures { words.new ≡ sets words.old 0 (listed (runs (drop from bytes.now))) }
{
    let mut n: usize = 0;
    let mut at = run_start(bytes, from);
    while at < bytes.len() {
        let end = run_end(bytes, at);
        let Some(word) = word_of(&bytes[at..end]) else {
            return;
        };
        words[n] = word;
        n += 1;
        at = run_start(bytes, end);
    }
}

// The limit and the words of a text. The words come to the front of the buffer and the rest of it is kept; a refusal keeps all of it. A text of
// 65,536 bytes has at most 32,768 numbers, so there is always room.
pub fn read(bytes: &[u8], words: &mut [i32; 32768]) -> Result<(u32, usize), Refusal>
    ensures reading { ReadAs bytes.now words.old result words.new }
    ensures room { IfOk result (λ found. found.1 ≤ length words.new) }
{
    if 65536 < bytes.len() {
        return Err(Refusal::TooManyBytes);
    }
    let at = run_start(bytes, 0);
    let end = run_end(bytes, at);
    let limit = limit_of(&bytes[at..end]).ok_or(Refusal::BadNumber(0))?;
    let count = count_words(bytes, end).map_err(Refusal::BadNumber)?;
    write_words(bytes, end, words);
    Ok((limit, count))
}
