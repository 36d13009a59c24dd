// The parts of the table, each passed over word by word: lists, aggregates, rules (01, "The rule table"). Meaning: `specs/Grammar.antt`.
ghost use Rattle.std.specs.Prelude.{◌≡◌, drop};
ghost use Rattle.table.specs.Roles.{run};
ghost use Rattle.table.specs.Grammar.{members, list, elements, aggregate, times, rule};
ghost use Rattle.table.specs.Places.{part_of};

use crate::roles::{count_at, member_at, quantity_at};
use layout::{Cursor, Table};
use results::Refusal;

// The index past `n` members from `i` on.
pub fn members_at(
    t: &[i32],
    i: Cursor,
    n: usize,
    signed: bool,
    top: usize,
) -> Result<Cursor, Refusal>
    ensures { result ≡ part_of (run (members signed top 0 n) i (drop i t.now)) }
{
    let mut at = i;
    let mut previous: usize = 0;
    for _ in 0..n {
        let (a, next) = member_at(t, at, signed, top, previous)?;
        previous = a;
        at = next;
    }
    Ok(at)
}

// The index past a list of at most `most` members whose count stands at `i`.
pub fn list_at(
    t: &[i32],
    i: Cursor,
    most: usize,
    signed: bool,
    top: usize,
) -> Result<Cursor, Refusal>
    ensures { result ≡ part_of (run (list most signed top) i (drop i t.now)) }
{
    let (n, next) = count_at(t, i, most)?;
    members_at(t, next, n, signed, top)
}

// The index past `n` pairs of value and atom from `i` on.
pub fn elements_at(t: &[i32], i: Cursor, n: usize, top: usize) -> Result<Cursor, Refusal>
    ensures { result ≡ part_of (run (elements top 0 n) i (drop i t.now)) }
{
    let mut at = i;
    let mut previous: usize = 0;
    for _ in 0..n {
        let (_, place) = quantity_at(t, at, 0, Table::VALUE)?;
        let (a, next) = member_at(t, place, false, top, previous)?;
        previous = a;
        at = next;
    }
    Ok(at)
}

// The index past the aggregate that begins at `i`, over atoms 1 to `top`.
pub fn aggregate_at(t: &[i32], i: Cursor, top: usize) -> Result<Cursor, Refusal>
    ensures { result ≡ part_of (run (aggregate top) i (drop i t.now)) }
{
    let (_, comparison) = quantity_at(t, i, 0, Table::FUNCTION)?;
    let (_, threshold) = quantity_at(t, comparison, 0, Table::COMPARISON)?;
    let (_, count) = quantity_at(t, threshold, Table::LOWEST, Table::THRESHOLD)?;
    let (n, first) = count_at(t, count, Table::ELEMENTS)?;
    elements_at(t, first, n, top)
}

// The index past the rule that begins at `i`, over atoms 1 to `top` and aggregates 1 to `most`.
pub fn rule_at(t: &[i32], i: Cursor, top: usize, most: usize) -> Result<Cursor, Refusal>
    ensures { result ≡ part_of (run (rule top most) i (drop i t.now)) }
{
    let positive = list_at(t, i, Table::HEAD, false, top)?;
    let negated = list_at(t, positive, Table::BODY, false, top)?;
    let literals = list_at(t, negated, Table::BODY, false, top)?;
    list_at(t, literals, Table::LITERALS, true, most)
}

// The index past `n` rules from `i` on.
pub fn rules_at(t: &[i32], i: Cursor, n: usize, top: usize, most: usize) -> Result<Cursor, Refusal>
    ensures { result ≡ part_of (run (times n (rule top most)) i (drop i t.now)) }
{
    let mut at = i;
    for _ in 0..n {
        at = rule_at(t, at, top, most)?;
    }
    Ok(at)
}
