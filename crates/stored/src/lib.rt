// The stored form with names (02, Wish 12): an accepted table as bytes, with empty names, and back. `store` lays the bytes twice by the same functions: first into no
// buffer, to find their length, so that a buffer that is too short stays as it is. `restore` takes the words twice by the same functions: first into memory of its
// own or lent, where they are judged, so that a refusal leaves the buffer as it is. Meaning: `specs/Bytes.antt`, `specs/Promises.antt`, `specs/Restoring.antt`; that
// each promise has one answer only: `proofs/Unique.antt`; that bytes are read exactly if they were stored: `proofs/Exact.antt`.
#![tactic(auto)]

ghost use Rattle.std.specs.Prelude.{◌≡◌, length};
ghost use Rattle.stored.specs.Machine.{Held, Storing};
ghost use Rattle.stored.specs.Promises.{Stores};
ghost use Rattle.stored.specs.Restoring.{Restores};
ghost use Rattle.stored.specs.Taking.{names_fault};

use crate::reading::take_table;
use crate::writing::put_table;
use heads::Lists;
use judging::Buffer;
use layout::Table;
use results::Refusal;

mod numbers;
mod points;
mod reading;
mod writing;

// The memory that restored words are judged in.
pub type Words = [i32; Table::WORDS];

// The bytes of an accepted table, if the buffer has room for all of them.
fn store_held(words: &[i32], bytes: &mut [u8]) -> Result<usize, Refusal>
    requires { Held words.now }
    ensures { Storing words.now bytes.old bytes.new result }
{
    let mut nothing = [0u8; 1];
    let length = put_table(words, &mut nothing);
    if bytes.len() < length {
        return Err(Refusal::ShortBuffer);
    }
    Ok(put_table(words, bytes))
}

// The table as bytes at the front of the buffer, with empty names: how many, the rest being kept; or a refusal, and then the whole buffer is kept. The memory of the
// judge is lent: nothing is said of what it holds before or after, and nothing depends on it.
pub fn store_with(words: &[i32], bytes: &mut [u8], lists: &mut Lists) -> Result<usize, Refusal>
    ensures { Stores words.now bytes.old bytes.new result }
{
    judging::judge_by(words, Buffer::Nothing, lists)?;
    store_held(words, bytes)
}

// The same with memory of its own.
pub fn store(words: &[i32], bytes: &mut [u8]) -> Result<usize, Refusal>
    ensures { Stores words.now bytes.old bytes.new result }
{
    let mut lists = [0u16; heads::SIZE];
    store_with(words, bytes, &mut lists)
}

// "24 going back while some name isn't empty".
fn names_fault(filled: bool) -> Option<Refusal>
    ensures { result ≡ names_fault filled }
{
    if filled {
        Some(Refusal::NamesLost)
    } else {
        None
    }
}

// Refusals in the order of `RestoreRefused`: of the judge's and the names' the first is given.
fn restore_in(
    bytes: &[u8],
    words: &mut [i32],
    memory: &mut [i32],
    lists: &mut Lists,
) -> Result<usize, Refusal>
    requires { length memory.old ≡ 16384 }
    ensures { Restores bytes.now words.old words.new result }
{
    if words.len() < Table::WORDS {
        return Err(Refusal::ShortWords);
    }
    let (n, filled) = take_table(bytes, memory)?;
    if Table::WORDS < n {
        return Err(Refusal::TooManyWords);
    }
    let judged = judging::judge_by(&memory[..n], Buffer::Nothing, lists).err();
    let named = names_fault(filled);
    if let Some(fault) = judged.or(named) {
        return Err(fault);
    }
    take_table(bytes, words)?;
    Ok(n)
}

// The words of stored bytes at the front of a buffer of at least 16,384: how many, the rest being kept; or a refusal, and then the whole buffer is kept. Memory for
// the words while they are judged, and the judge's, are lent: nothing is said of what they hold before or after, and nothing depends on it.
pub fn restore_with(
    bytes: &[u8],
    words: &mut [i32],
    memory: &mut Words,
    lists: &mut Lists,
) -> Result<usize, Refusal>
    ensures { Restores bytes.now words.old words.new result }
{
    restore_in(bytes, words, memory, lists)
}

// The same with memory of its own.
pub fn restore(bytes: &[u8], words: &mut [i32]) -> Result<usize, Refusal>
    ensures { Restores bytes.now words.old words.new result }
{
    let mut memory = [0i32; Table::WORDS];
    let mut lists = [0u16; heads::SIZE];
    restore_with(bytes, words, &mut memory, &mut lists)
}
