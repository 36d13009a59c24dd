// Which table is refused, and why (01, "What comes back": "Order: .. 1, 10; then the first faulty word from the left ..; then 3, 8, 9"). Every entry
// that is given a table asks here, and says which buffer of its own is judged in the place of 10, and whether it takes head cycles (request 14: then 8 is
// not given). Nothing is written. Meaning: `specs/Refusals.antt`; that a table has one judgement: `proofs/Unique.antt`.
#![tactic(auto)]

ghost use Rattle.std.specs.Prelude.{◌≡◌, ◌≤◌, length};
ghost use Rattle.judging.specs.Judging.{Judged, JudgedBy, JudgedWords, Filled, fault_of};

use heads::Lists;
use layout::{Accepted, Table};
use results::Refusal;

// The buffer that an entry is lent for what it writes or reads, as far as it is judged with the table.
// Stays: three answers to one question, each named at its entry; an Option around two of them would name none of the first.
#[derive(Clone, Copy)]
pub enum Buffer {
    // None is judged here.
    Nothing,
    // A plan buffer of so many bytes.
    Plan(usize),
    // A buffer of so many bytes for rows of plans.
    Rows(usize),
}

// "plan buffer shorter than 256 bytes"; "256-byte rows"
pub const ROOM: usize = 256;

// The refusal that an entry's own buffer earns in the place of 10.
fn earned(buffer: Buffer) -> Result<(), Refusal>
    ensures { result ≡ fault_of buffer }
{
    match buffer {
        Buffer::Nothing => Ok(()),
        Buffer::Plan(room) => {
            if room < ROOM {
                return Err(Refusal::ShortPlan);
            }
            Ok(())
        }
        Buffer::Rows(room) => {
            if 0 < room % ROOM {
                return Err(Refusal::PartRow);
            }
            Ok(())
        }
    }
}

// The words alone, of which there are not too many: the first faulty word, 3, 8 and 9. The lists of rules by head are made before 8 and 9 are asked.
fn words_judged(words: &[i32], cycles: bool, lists: &mut Lists) -> Result<Table, Refusal>
    ensures { JudgedWords cycles words.now result × Filled words.now result lists.new }
{
    let places = table::read(words)?;
    let t = Accepted { words, places };
    heads::fill(&t, lists);
    depend::refusal(&t, cycles, lists)?;
    Ok(places)
}

// Where the parts of an accepted table stand, with its lists of rules by head; or why it is refused. What the lists held before does not matter.
pub fn judge_in(
    words: &[i32],
    cycles: bool,
    buffer: Buffer,
    lists: &mut Lists,
) -> Result<Table, Refusal>
    ensures { JudgedBy cycles words.now buffer result × Filled words.now result lists.new }
{
    if Table::WORDS < words.len() {
        return Err(Refusal::TooManyWords);
    }
    earned(buffer)?;
    words_judged(words, cycles, lists)
}

// The same where head cycles are refused.
pub fn judge_by(words: &[i32], buffer: Buffer, lists: &mut Lists) -> Result<Table, Refusal>
    ensures { Judged words.now buffer result × Filled words.now result lists.new }
{
    judge_in(words, false, buffer, lists)
}

// Where the parts of an accepted table stand, or why it is refused; head cycles are refused.
pub fn judge(words: &[i32], buffer: Buffer) -> Result<Table, Refusal>
    ensures { Judged words.now buffer result }
{
    let mut lists = [0u16; heads::SIZE];
    judge_by(words, buffer, &mut lists)
}
