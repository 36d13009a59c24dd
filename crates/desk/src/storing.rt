// The stored form for C and Rust (request 12 of 02), as `include/saucepebbly.h` declares it. Meaning: `specs/Storing.antt`.
ghost use Rattle.desk.specs.Storing.{StoresTable, RestoresTable};

use crate::reading::{read_first, read_kind, read_second};
use heads::Lists;
use reports::write;
use stored::Words;

// A table as stored bytes, with empty names: the kind of the result, and in the report its two numbers.
#[unsafe(no_mangle)]
pub extern "C" fn saucepebbly_store(
    words: &[i32],
    bytes: &mut [u8],
    report: &mut [u32],
    lists: &mut Lists,
) -> u32
    ensures { StoresTable words.now bytes.old bytes.new report.old report.new result }
{
    let written = stored::store_with(words, bytes, lists);
    write(report, read_first(written), read_second(written));
    read_kind(written)
}

// The words of stored bytes: the kind of the result, and in the report its two numbers.
#[unsafe(no_mangle)]
pub extern "C" fn saucepebbly_restore(
    bytes: &[u8],
    words: &mut [i32],
    report: &mut [u32],
    memory: &mut Words,
    lists: &mut Lists,
) -> u32
    ensures { RestoresTable bytes.now words.old words.new report.old report.new result }
{
    let written = stored::restore_with(bytes, words, memory, lists);
    write(report, read_first(written), read_second(written));
    read_kind(written)
}
