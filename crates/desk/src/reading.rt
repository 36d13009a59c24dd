// Reading aspif for C and Rust (request 2 of 02), as `include/saucepebbly.h` declares it. Meaning: `specs/Reading.antt`.
ghost use Rattle.std.specs.Prelude.{◌≡◌};
ghost use Rattle.desk.specs.Reading.{read_kind, read_first, read_second, ReadsAspif};

use reports::{narrowed, write};
use results::Refusal;

// The kind of the result.
pub fn read_kind(written: Result<usize, Refusal>) -> u32
    ensures { result ≡ read_kind written }
{
    match written {
        Ok(_) => 0,
        Err(_) => 3,
    }
}

// How many words or bytes were written, or the number of a refusal.
pub fn read_first(written: Result<usize, Refusal>) -> u32
    ensures { result ≡ read_first written }
{
    match written {
        Ok(n) => narrowed(n),
        Err(f) => f.number(),
    }
}

// The place of a refusal.
pub fn read_second(written: Result<usize, Refusal>) -> u32
    ensures { result ≡ read_second written }
{
    match written {
        Ok(_) => 0,
        Err(f) => narrowed(f.place()),
    }
}

// The words of an aspif text: the kind of the result, and in the report its two numbers.
#[unsafe(no_mangle)]
pub extern "C" fn saucepebbly_read_aspif(text: &[u8], words: &mut [i32], report: &mut [u32]) -> u32
    ensures { ReadsAspif text.now words.old words.new report.old report.new result }
{
    let written = aspif_read::read(text, words);
    write(report, read_first(written), read_second(written));
    read_kind(written)
}
