// The table: its limits, where reading starts, and the parts of an accepted one, read in place (01, "The rule table"): "The words of each list
// are handed on as the part of the table that holds them, with no copy made". Of a rule `part` returns each of the four lists as that part of
// the caller's slice, its count standing at the rule's own index, at `past` of it, at `past` of that, and at `literals_at`. Meaning:
// `specs/Layout.antt`. Crate `table` finds the places; the functions here rely on them.
#![tactic(auto)]

ghost use Rattle.std.specs.Prelude.{◌≡◌, ◌+◌, ◌-◌, ◌*◌, ◌≤◌, ◌<◌, length, get_or, T, nat_abs, pos};
ghost use Rattle.std.specs.Int.Signed.{non_neg};
ghost use Rattle.layout.specs.Props.{Laid_prop};
ghost use Rattle.layout.specs.Layout.{nat_at, part_at, past_at, function_by, comparison_by, pairs_at, past_aggregate, aggs_at, past_rule, Laid};

use meaning::{Comparison, Function};

// Where the parts of an accepted table stand: the numbers of atoms, aggregates and rules, the index of the first rule, and the index at
// which each aggregate begins.
#[derive(Clone, Copy)]
pub struct Table {
    pub atoms: usize,
    pub aggregates: usize,
    pub rules: usize,
    pub first: usize,
    pub starts: [u16; Table::AGGREGATES],
}

// An accepted table: its words, and where their parts stand. That all parts lie within the words and within 01's ranges comes with it.
#[derive(Clone, Copy)]
pub struct Accepted<'a> {
    pub words: &'a [i32],
    pub places: Table,
    ghost laid: { Laid words.now places } by { Laid_prop words.now places },
}

// Where reading stands: the index of the next word.
pub type Cursor = usize;

impl Table {
    // "At most 16,384 words in all."
    pub const WORDS: usize = 16384;
    // "the count N, 0 to 256"
    pub const ATOMS: usize = 256;
    // "the count G, 0 to 64"
    pub const AGGREGATES: usize = 64;
    // "function (0 count, 1 sum, 2 min, 3 max), comparison (0 less than, 1 greater than), threshold (-1 to 4,194,304)"
    pub const FUNCTION: i32 = 3;

    pub const COMPARISON: i32 = 1;

    pub const LOWEST: i32 = -1;

    pub const THRESHOLD: i32 = 4194304;
    // "element count (0 to 64), then pairs of value (0 to 65,535) and atom"
    pub const ELEMENTS: usize = 64;

    pub const VALUE: i32 = 65535;
    // "the count M, 0 to 1,024"
    pub const RULES: usize = 1024;
    // "head atoms (0 to 16), positive body atoms (0 to 64), negated body atoms (0 to 64), aggregate literals (0 to 8)"
    pub const HEAD: usize = 16;

    pub const BODY: usize = 64;

    pub const LITERALS: usize = 8;

    // Reading starts at the first word.
    pub fn start() -> Cursor
        ensures { result ≡ 0 }
    {
        0
    }
}

// The list whose count stands at `at`, as a part of the table.
pub fn part(t: &[i32], at: usize) -> &[i32]
    requires { past_at t.now at ≤ length t.now }
    ensures { result.now ≡ part_at t.now at }
{
    let a = at + 1;
    let n = words::atom(t, at);
    let e = a + n;
    &t[a..e]
}

// The index past that list.
pub fn past(t: &[i32], at: usize) -> usize
    requires { past_at t.now at ≤ length t.now }
    ensures { result ≡ past_at t.now at }
{
    let n = words::atom(t, at);
    at + 1 + n
}

// The same list, and the index past it, where the count is known not to be negative.
// Stays: beside `part` and `past` these two save up to 8 % of a solve's instructions, and they ask for what readers of literals cannot show.
pub fn plain_part(t: &[i32], at: usize) -> &[i32]
    requires { (past_at t.now at ≤ length t.now) × T (non_neg (get_or t.now at (pos 0))) }
    ensures { result.now ≡ part_at t.now at }
{
    let a = at + 1;
    let n = words::number(t, at);
    let e = a + n;
    &t[a..e]
}

pub fn plain_past(t: &[i32], at: usize) -> usize
    requires { (past_at t.now at ≤ length t.now) × T (non_neg (get_or t.now at (pos 0))) }
    ensures { result ≡ past_at t.now at }
{
    let n = words::number(t, at);
    at + 1 + n
}

// Where the aggregate literals stand of the rule that begins at `at`.
pub fn literals_at(t: &[i32], at: usize) -> usize
    requires { aggs_at t.now at ≤ length t.now }
    ensures { result ≡ aggs_at t.now at }
{
    let positive = past(t, at);
    let negated = past(t, positive);
    past(t, negated)
}

// The index past that rule.
pub fn past_rule(t: &[i32], at: usize) -> usize
    requires { past_rule t.now at ≤ length t.now }
    ensures { result ≡ past_rule t.now at }
{
    let literals = literals_at(t, at);
    past(t, literals)
}

// The pairs of value and atom of the aggregate that begins at `at`, as a part of the table.
pub fn pairs(t: &[i32], at: usize) -> &[i32]
    requires { past_aggregate t.now at ≤ length t.now }
    ensures { result.now ≡ pairs_at t.now at }
{
    let a = at + 4;
    let place = at + 3;
    let n = words::atom(t, place);
    let e = a + 2 * n;
    &t[a..e]
}

// Its function.
pub fn function(t: &[i32], at: usize) -> Function
    requires { at < length t.now }
    ensures { result ≡ function_by (nat_at t.now at) }
{
    match words::atom(t, at) {
        0 => Function::Count,
        1 => Function::Sum,
        2 => Function::Min,
        _ => Function::Max,
    }
}

// Its comparison.
pub fn comparison(t: &[i32], at: usize) -> Comparison
    requires { at + 1 < length t.now }
    ensures { result ≡ comparison_by (nat_at t.now (at + 1)) }
{
    match words::atom(t, at + 1) {
        0 => Comparison::Less,
        _ => Comparison::Greater,
    }
}
