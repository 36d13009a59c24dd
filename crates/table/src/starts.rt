// The section of the aggregates, with the index at which each begins, so that finding one needs no second pass. Meaning: `specs/Places.antt`.
ghost use Rattle.std.specs.Prelude.{◌≡◌, suc, ◌≤◌, length, drop};
ghost use Rattle.table.specs.Roles.{run};
ghost use Rattle.table.specs.Grammar.{aggregate, aggregates, times};
ghost use Rattle.table.specs.Places.{no_starts, places_from};

use crate::Places;
use crate::grammar::aggregate_at;
use crate::roles::count_at;
use layout::{Cursor, Table};
use results::Refusal;

// Where the `n` aggregates from `i` on begin, over atoms 1 to `top`.
pub fn starts_at(t: &[i32], i: Cursor, n: usize, top: usize) -> Result<Places, Refusal>
    requires { (n ≤ 64) × (length t.now ≤ 16384) }
    ensures { result ≡ places_from 0 i no_starts (run (times n (aggregate top)) i (drop i t.now)) }
{
    let mut starts = [0u16; Table::AGGREGATES];
    let mut at = i;
    for k in 0..n {
        let next = aggregate_at(t, at, top)?;
        starts[k] = at as u16;
        at = next;
    }
    Ok(Places {
        number: n,
        starts,
        end: at,
    })
}

// The section of the aggregates, whose count stands at `i`.
pub fn aggregates_at(t: &[i32], i: Cursor, top: usize) -> Result<Places, Refusal>
    requires { length t.now ≤ 16384 }
    ensures { result ≡ places_from 0 (suc i) no_starts (run (aggregates top) i (drop i t.now)) }
{
    let (n, first) = count_at(t, i, Table::AGGREGATES)?;
    starts_at(t, first, n, top)
}
