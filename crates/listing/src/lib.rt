// The listing of every plan (request 7 of 02), over an accepted table: the search goes on after a plan "as after a conflict whose reason is all present levels". Meaning: crate
// `search`, `specs/Listing.antt`; how the code's rows and struct are read: `specs/Rows.antt`.
#![tactic(auto)]

ghost use Rattle.std.specs.Prelude.{◌≡◌, ◌+◌, ◌*◌, ◌≤◌, ◌<◌, ◌/◌, length};
ghost use Rattle.interpretation.specs.State.{unset, true_atoms};
ghost use Rattle.interpretation.specs.View.{view, valued, choices};
ghost use Rattle.heads.specs.Heads.{Listed, taking};
ghost use Rattle.levels.specs.Levels.{up_to};
ghost use Rattle.smaller.specs.Cyclic.{base_by};
ghost use Rattle.turns.specs.Turns.{ChosenIn, back_of};
ghost use Rattle.listing.specs.Rows.{row_byte, row_put, ListsBy};

use foundation::Candidates;
use heads::Lists;
use interpretation::Interpretation;
use layout::Accepted;
use outcome::{Ending, Found, Start};
use turns::Back;

// How a listing ended: every plan is listed, there is one more than rows, or the limit is met.
#[derive(Clone, Copy)]
pub enum Kind {
    Complete,
    Full,
    Limit,
}

// What a listing reports.
#[derive(Clone, Copy)]
pub struct Told {
    pub kind: Kind,
    pub number: usize,
    pub choices: u32,
    pub skips: u32,
    pub passes: u32,
}

// The bytes of a row: a plan has 256.
pub const ROW: usize = 256;

// A row's byte at index i: 1 for a true atom of 1 to n, else 0.
fn row_byte(values: &[u8; 256], n: usize, i: usize) -> u8
    requires { i < 256 }
    ensures { result ≡ row_byte (true_atoms n (valued values.now)) i }
{
    u8::from(i < n && values[i] == 1)
}

// "256-byte rows, rest bytes 0": the row that begins at `at` is written whole; no other byte is.
fn write_row(values: &[u8; 256], n: usize, rows: &mut [u8], at: usize)
    requires { at + 256 ≤ length rows.old }
    ensures { rows.new ≡ row_put (true_atoms n (valued values.now)) at 256 rows.old }
{
    for i in 0..ROW {
        rows[at + i] = row_byte(values, n, i);
    }
}

// Where the search goes on after a plan: back as after a conflict whose reason is all present levels.
fn after_plan(chosen: &[u16; 256], k: usize) -> Back
    requires { (k ≤ 256) × ChosenIn (choices chosen.now k) k }
    ensures { result ≡ back_of (choices chosen.now k) (up_to k) k }
{
    let why = levels::upto(k);
    turns::go_back(chosen, k, why)
}

// What is reported of a search that ended, with so many plans listed.
fn report(kind: Kind, number: usize, found: Found) -> Told
    ensures { result ≡ record { kind = kind; number = number; choices = found.choices; skips = found.skips; passes = found.passes } }
{
    Told {
        kind,
        number,
        choices: found.choices,
        skips: found.skips,
        passes: found.passes,
    }
}

// Where the listing begins: nothing is chosen or counted.
fn begin() -> Start
    ensures { (view result.it ≡ unset) × (result.choices ≡ 0) × (result.skips ≡ 0) × (result.passes ≡ 0) }
{
    let it = Interpretation::start();
    Start {
        it,
        choices: 0,
        skips: 0,
        passes: 0,
    }
}

// Where it goes on after a plan, with what was counted so far.
fn again(found: Found, it: Interpretation) -> Start
    ensures { result ≡ record { it = it; choices = found.choices; skips = found.skips; passes = found.passes } }
{
    Start {
        it,
        choices: found.choices,
        skips: found.skips,
        passes: found.passes,
    }
}

// The listing, by the lists of the table's rules: search, write the plan's row, go back, and search on.
pub fn list_by(
    t: &Accepted,
    cycles: bool,
    lists: &Lists,
    limit: u32,
    rows: &mut [u8],
    candidates: &mut Candidates,
) -> Told
    requires { Listed t.now.words.now t.now.places lists.now }
    ensures { ListsBy (base_by cycles (taking t.now.words.now lists.now) t.now.places.atoms) limit (length rows.old / 256) rows.old rows.new result }
{
    let room = rows.len() / ROW;
    let n = t.places.atoms;
    let mut from = begin();
    let mut reasons = levels::no_rows();
    let mut number: usize = 0;
    loop {
        let halt = jumping::search_by(t, cycles, lists, limit, from, reasons, candidates);
        let found = halt.found;
        let ending = found.ending;
        match ending {
            Ending::Nothing => return report(Kind::Complete, number, found),
            Ending::Limit => return report(Kind::Limit, number, found),
            Ending::Answer => {
                if room <= number {
                    return report(Kind::Full, number, found);
                }
                let plan = found.it;
                write_row(&plan.values, n, rows, number * ROW);
                number += 1;
                let k = plan.depth as usize;
                let back = after_plan(&plan.chosen, k);
                match back {
                    Back::End(_) => return report(Kind::Complete, number, found),
                    Back::Level(m, a, _) => {
                        let next = outcome::rows_of(halt);
                        reasons = next;
                        let i = a - 1;
                        let why = levels::upto(k);
                        let rest = levels::without(why, m);
                        reasons[i] = rest;
                        let it = plan.jump(m as u16);
                        from = again(found, it);
                    }
                }
            }
        }
    }
}
