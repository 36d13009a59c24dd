// One number of a stored table: read from its bytes, and tested as 01's word is, at the place of its first byte. Meaning: `specs/Bytes.antt`, `step_of`.
ghost use Rattle.std.specs.Prelude.{◌≡◌, true, false, ◌+◌, ◌*◌, ◌≤◌, pos, negsuc, length, get_or, drop, Some};
ghost use Rattle.table.specs.Roles.{count, quantity, member};
ghost use Rattle.stored.specs.Bytes.{step_of};
ghost use Rattle.stored.specs.Machine.{role_of, got_of};

use crate::points::Asked;
use results::Refusal;

// A number that has passed its tests: its size, whether it is below 0, and the next place.
pub type Got = (usize, bool, usize);

// The number of the two bytes from `at` on, low byte first.
fn two_at(bytes: &[u8], at: usize) -> usize
    requires { at + 2 ≤ length bytes.now }
    ensures { result ≡ get_or bytes.now at 0 + 256 * get_or bytes.now (at + 1) 0 }
{
    usize::from(u16::from_le_bytes([bytes[at], bytes[at + 1]]))
}

// The number of the four bytes from `at` on, low byte first.
fn four_at(bytes: &[u8], at: usize) -> usize
    requires { at + 4 ≤ length bytes.now }
    ensures { (result ≡ get_or bytes.now at 0 + 256 * get_or bytes.now (at + 1) 0 + 65536 * get_or bytes.now (at + 2) 0 + 16777216 * get_or bytes.now (at + 3) 0) × (result ≤ 4294967295) }
{
    let four = [bytes[at], bytes[at + 1], bytes[at + 2], bytes[at + 3]];
    u32::from_le_bytes(four) as usize
}

// A count of 0 to `most` at `at`.
pub fn count_at(bytes: &[u8], at: usize, most: usize) -> Result<Got, Refusal>
    requires { at ≤ length bytes.now }
    ensures { result ≡ got_of (step_of (count most) at (drop at bytes.now)) }
{
    if bytes.len() - at < 2 {
        return Err(Refusal::Absent(at));
    }
    let n = two_at(bytes, at);
    if most < n {
        return Err(Refusal::Count(at));
    }
    Ok((n, false, at + 2))
}

// A function, comparison or value of 0 to `high` at `at`.
// Stays: it differs from `count_at` in the refusal; one function would be told that by a closure, and its contract would speak of two definitions.
fn quantity_at(bytes: &[u8], at: usize, high: usize) -> Result<Got, Refusal>
    requires { at ≤ length bytes.now }
    ensures { result ≡ got_of (step_of (quantity (pos 0) (pos high)) at (drop at bytes.now)) }
{
    if bytes.len() - at < 2 {
        return Err(Refusal::Absent(at));
    }
    let n = two_at(bytes, at);
    if high < n {
        return Err(Refusal::Quantity(at));
    }
    Ok((n, false, at + 2))
}

// A threshold at `at`, in four bytes and two's complement: of the numbers below 0 only -1 is in 01's range.
fn threshold_at(bytes: &[u8], at: usize) -> Result<Got, Refusal>
    requires { at ≤ length bytes.now }
    ensures { result ≡ got_of (step_of (quantity (negsuc 0) (pos 4194304)) at (drop at bytes.now)) }
{
    if bytes.len() - at < 4 {
        return Err(Refusal::Absent(at));
    }
    let n = four_at(bytes, at);
    if n == 4294967295 {
        return Ok((1, true, at + 4));
    }
    if 4194304 < n {
        return Err(Refusal::Quantity(at));
    }
    Ok((n, false, at + 4))
}

// An atom of 1 to `top` at `at`, in a list whose previous number is `previous`.
fn member_at(bytes: &[u8], at: usize, top: usize, previous: usize) -> Result<Got, Refusal>
    requires { at ≤ length bytes.now }
    ensures { result ≡ got_of (step_of (member false top previous) at (drop at bytes.now)) }
{
    if bytes.len() - at < 2 {
        return Err(Refusal::Absent(at));
    }
    let n = two_at(bytes, at);
    if n == 0 {
        return Err(Refusal::Number(at));
    }
    if top < n {
        return Err(Refusal::Number(at));
    }
    if n <= previous {
        return Err(Refusal::Descent(at));
    }
    Ok((n, false, at + 2))
}

// An aggregate literal of 1 to `top` at `at`, in a list whose previous number is `previous`: twice its number, plus one if negated.
fn literal_at(bytes: &[u8], at: usize, top: usize, previous: usize) -> Result<Got, Refusal>
    requires { at ≤ length bytes.now }
    ensures { result ≡ got_of (step_of (member true top previous) at (drop at bytes.now)) }
{
    if bytes.len() - at < 2 {
        return Err(Refusal::Absent(at));
    }
    let code = two_at(bytes, at);
    let n = code / 2;
    if n == 0 {
        return Err(Refusal::Number(at));
    }
    if top < n {
        return Err(Refusal::Number(at));
    }
    if n <= previous {
        return Err(Refusal::Descent(at));
    }
    let minus = code % 2 == 1;
    Ok((n, minus, at + 2))
}

// The number at `at`, as it is asked for.
pub fn number_at(bytes: &[u8], at: usize, what: Asked) -> Result<Got, Refusal>
    requires { at ≤ length bytes.now }
    ensures { result ≡ got_of (step_of (role_of (Some what)) at (drop at bytes.now)) }
{
    match what {
        Asked::Count(most) => count_at(bytes, at, most),
        Asked::Quantity(high) => quantity_at(bytes, at, high),
        Asked::Threshold => threshold_at(bytes, at),
        Asked::Member(top, previous) => member_at(bytes, at, top, previous),
        Asked::Literal(top, previous) => literal_at(bytes, at, top, previous),
    }
}
