// Writing aspif for C and Rust (request 6 of 02), as `include/saucepebbly.h` declares it. Meaning: `specs/Writing.antt`.
ghost use Rattle.desk.specs.Writing.{WritesAspif};

use crate::reading::{read_first, read_kind, read_second};
use heads::Lists;
use reports::write;

// A table as an aspif text: the kind of the result, and in the report its two numbers.
#[unsafe(no_mangle)]
pub extern "C" fn saucepebbly_write_aspif(
    words: &[i32],
    text: &mut [u8],
    report: &mut [u32],
    lists: &mut Lists,
) -> u32
    ensures { WritesAspif words.now text.old text.new report.old report.new result }
{
    let written = aspif_write::write_with(words, text, lists);
    write(report, read_first(written), read_second(written));
    read_kind(written)
}
