// One word of the table: read, and tested as its role asks, each word for 2, 4, 7, 5, 6 as far as they apply to it (01, "What comes back").
// Meaning: `specs/Roles.antt`.
ghost use Rattle.std.specs.Prelude.{◌≡◌, drop};
ghost use Rattle.table.specs.Roles.{count, quantity, member, run};
ghost use Rattle.table.specs.Grammar.{one};
ghost use Rattle.table.specs.Places.{word_of, got_of};

use layout::Cursor;
use results::Refusal;

// The word at `i` with the next index; "a needed word is absent" where there is none.
pub fn word_at(t: &[i32], i: Cursor) -> Result<(i32, Cursor), Refusal>
    ensures { result ≡ word_of i (drop i t.now) }
{
    match t.get(i) {
        Some(w) => Ok((*w, i + 1)),
        None => Err(Refusal::Absent(i)),
    }
}

// A count of 0 to `most` at `i`.
pub fn count_at(t: &[i32], i: Cursor, most: usize) -> Result<(usize, Cursor), Refusal>
    ensures { result ≡ got_of (run (one (count most)) i (drop i t.now)) }
{
    let Ok((w, next)) = word_at(t, i) else {
        return Err(Refusal::Absent(i));
    };
    let below = w < 0;
    if below {
        return Err(Refusal::Count(i));
    }
    let n = words::size(w);
    if most < n {
        return Err(Refusal::Count(i));
    }
    Ok((n, next))
}

// A function, comparison, threshold or value of `low` to `high` at `i`.
pub fn quantity_at(t: &[i32], i: Cursor, low: i32, high: i32) -> Result<(usize, Cursor), Refusal>
    ensures { result ≡ got_of (run (one (quantity low high)) i (drop i t.now)) }
{
    let Ok((w, next)) = word_at(t, i) else {
        return Err(Refusal::Absent(i));
    };
    if w < low {
        return Err(Refusal::Quantity(i));
    }
    if high < w {
        return Err(Refusal::Quantity(i));
    }
    let n = words::size(w);
    Ok((n, next))
}

// A member at `i` of a list whose previous number is `previous`: an atom, or where `signed` an aggregate literal. Its range is tested before
// the ascent.
pub fn member_at(
    t: &[i32],
    i: Cursor,
    signed: bool,
    top: usize,
    previous: usize,
) -> Result<(usize, Cursor), Refusal>
    ensures { result ≡ got_of (run (one (member signed top previous)) i (drop i t.now)) }
{
    let Ok((w, next)) = word_at(t, i) else {
        return Err(Refusal::Absent(i));
    };
    if w < 0 && !signed {
        return Err(Refusal::Number(i));
    }
    let n = words::size(w);
    if n == 0 {
        return Err(Refusal::Number(i));
    }
    if top < n {
        return Err(Refusal::Number(i));
    }
    if n <= previous {
        return Err(Refusal::Descent(i));
    }
    Ok((n, next))
}
