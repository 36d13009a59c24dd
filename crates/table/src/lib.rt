// The rule table: read in place, or refused exactly (01, "The rule table", and the refusals 1 to 7 of "What comes back"). One pass over the
// words, from the left; nothing is copied and nothing is written; no local is larger than the 128 bytes of the aggregates' places.
// The cursor starts at `Table::start()`; each function takes where it stands and hands back where it stands then, or a refusal.
// `roles` reads one word, `grammar` the parts, `starts` the section of the aggregates. The lists of a rule are handed on by `layout::part`.
// Meaning: `specs/Grammar.antt` has the table's words with their roles and the contents that they make, `specs/Contents.antt` the ranges, the
// encoding and the program. `proofs/Theorem.antt`: accepted exactly if an encoding, and the place is the first fault. What later crates rely on is
// `layout`'s `Laid`, which `proofs/Accepted.antt` shows of every accepted table.
#![tactic(auto)]

ghost use Rattle.std.specs.Prelude.{◌≡◌, drop};
ghost use Rattle.table.specs.Roles.{run};
ghost use Rattle.table.specs.Grammar.{rules};
ghost use Rattle.table.specs.Places.{finished, reading_of};

use crate::grammar::rules_at;
use crate::roles::count_at;
use crate::starts::aggregates_at;
use layout::{Cursor, Table};
use results::Refusal;

mod grammar;
mod roles;
mod starts;

// The section of the aggregates: their number, where each begins, and the index past them.
#[derive(Clone, Copy)]
pub struct Places {
    pub number: usize,
    pub starts: [u16; Table::AGGREGATES],
    pub end: Cursor,
}

// The section of the rules, whose count stands past the aggregates, and the end of the table.
fn finish(t: &[i32], atoms: usize, places: Places) -> Result<Table, Refusal>
    ensures { result ≡ finished atoms places.number places.starts places.end (run (rules atoms places.number) places.end (drop places.end t.now)) }
{
    let (number, first) = count_at(t, places.end, Table::RULES)?;
    let end = rules_at(t, first, number, atoms, places.number)?;
    if end < t.len() {
        return Err(Refusal::Trailing(end));
    }
    let starts = places.starts;
    Ok(Table {
        atoms,
        aggregates: places.number,
        rules: number,
        first,
        starts,
    })
}

// The table's places, or exactly the refusal of 1 to 7 that 01 gives.
pub fn read(words: &[i32]) -> Result<Table, Refusal>
    ensures { result ≡ reading_of words.now }
{
    if Table::WORDS < words.len() {
        return Err(Refusal::TooManyWords);
    }
    let start = Table::start();
    let (atoms, next) = count_at(words, start, Table::ATOMS)?;
    let places = aggregates_at(words, next, atoms)?;
    finish(words, atoms, places)
}
