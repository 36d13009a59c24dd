// The entry that lists every plan (request 7 of 02): all answer sets in 01's order, each once, into lent rows of 256 bytes. It asks nothing of its
// caller. Meaning: `specs/Listing.antt`, and of the refusals crate `judging`; that the promise has one answer only: `proofs/Unique.antt`; that the
// first row is what `solve` answers: `proofs/FirstRow.antt`.
#![tactic(auto)]

ghost use Rattle.std.specs.Prelude.{◌≡◌};
ghost use Rattle.lister.specs.Listing.{Listing};
ghost use Rattle.lister.specs.Telling.{result_of};

use foundation::Candidates;
use heads::Lists;
use judging::Buffer;
use layout::{Accepted, Table};
use listing::{Kind, Told};
use results::{Ask, Counts, Listed, Refusal};

// All plans: complete, full or limit with the number listed and the counts, or a refusal. Only the listed rows are written, each whole. The memory of the
// search is lent: nothing is said of what it holds before or after, and nothing depends on it.
pub fn list_with(
    words: &[i32],
    ask: Ask,
    rows: &mut [u8],
    lists: &mut Lists,
    candidates: &mut Candidates,
) -> Result<Listed, Refusal>
    ensures { Listing words.now ask rows.old rows.new result }
{
    let places = judging::judge_in(words, ask.cycles, Buffer::Rows(rows.len()), lists)?;
    let t = Accepted { words, places };
    let told = listing::list_by(&t, ask.cycles, lists, ask.limit, rows, candidates);
    Ok(result(told))
}

// The same with memory of its own.
pub fn list(words: &[i32], ask: Ask, rows: &mut [u8]) -> Result<Listed, Refusal>
    ensures { Listing words.now ask rows.old rows.new result }
{
    let mut lists = [0u16; heads::SIZE];
    let mut candidates = [0u32; Table::RULES];
    list_with(words, ask, rows, &mut lists, &mut candidates)
}

// What a listing of an accepted table reports, as a result.
fn result(told: Told) -> Listed
    ensures { result ≡ result_of told }
{
    let number = told.number;
    let counts = Counts {
        choices: told.choices,
        skips: told.skips,
        passes: told.passes,
    };
    match told.kind {
        Kind::Complete => Listed::Complete(number, counts),
        Kind::Full => Listed::Full(number, counts),
        Kind::Limit => Listed::Limit(number, counts),
    }
}
