// Literals of a rule, read from the table's words under the values of a partial interpretation: what they are, and why (01, "Propagation" and
// "Reasons and jumps"). Meaning: crate `valuing`; how a list is walked: `specs/Scan.antt`. Nothing here writes.
#![tactic(auto)]

ghost use Rattle.std.specs.Prelude.{◌≡◌, ◌-◌, ◌≤◌, ◌<◌, T, nat_abs, pos, length, get_or};
ghost use Rattle.std.specs.Int.Signed.{non_neg};
ghost use Rattle.levels.specs.Levels.{union};
ghost use Rattle.levels.specs.View.{row, rows};
ghost use Rattle.interpretation.specs.View.{valued, cell_by, cell_value};
ghost use Rattle.layout.specs.Layout.{Members, atoms, literal_of};
ghost use Rattle.valuing.specs.Values.{says_true, signed, agg_lit, literal_value};
ghost use Rattle.valuing.specs.Reasons.{reason_at, reason_of, reasons_of};
ghost use Rattle.literals.specs.Scan.{atom_lits, literal_lits, first_false, atoms_reason};

use interpretation::Value;
use layout::{Accepted, Table};

mod aggregates;
mod settling;

// ---- one value

// With the sign false, the opposite.
pub fn signed(sign: bool, v: Value) -> Value
    ensures { result ≡ signed sign v }
{
    if sign {
        return v;
    }
    match v {
        Value::True => Value::False,
        Value::False => Value::True,
        Value::Undefined => Value::Undefined,
    }
}

// ---- one byte of the values: 0 undefined, 1 true, any other false

// That of the atom of a word.
pub fn byte(w: i32, values: &[u8; 256]) -> u8
    requires { (1 ≤ nat_abs w) × (nat_abs w ≤ 256) × T (non_neg w) }
    ensures { cell_by result 0 ≡ valued values.now (nat_abs w) }
{
    values[words::plain(w) - 1]
}

// That of the atom at index i of a list.
pub fn byte_at(w: &[i32], i: usize, values: &[u8; 256]) -> u8
    requires { (i < length w.now) × (1 ≤ nat_abs (get_or w.now i (pos 0))) × (nat_abs (get_or w.now i (pos 0)) ≤ 256) × T (non_neg (get_or w.now i (pos 0))) }
    ensures { cell_by result 0 ≡ valued values.now (nat_abs (get_or w.now i (pos 0))) }
{
    byte(w[i], values)
}

// Whether it makes the atom true, with the sign false the opposite.
pub fn affirms(sign: bool, b: u8) -> bool
    ensures { result ≡ says_true (signed sign (cell_value (cell_by b 0))) }
{
    if sign { b == 1 } else { 1 < b }
}

// ---- lists of atoms

// The first false one of a list of atoms taken as literals, plain or negated: its index from 0.
pub fn false_atom(l: &[i32], sign: bool, values: &[u8; 256]) -> Option<usize>
    requires { Members 256 l.now }
    ensures { result ≡ first_false (valued values.now) (atom_lits sign l.now) }
{
    l.iter().position(|w| {
        let v = interpretation::value_of(values, words::size(*w));
        signed(sign, v) == Value::False
    })
}

// The reason of atom p joined to a set.
pub fn atom_reason(
    p: usize,
    values: &[u8; 256],
    reasons: &[[u64; 4]; 256],
    more: [u64; 4],
) -> [u64; 4]
    requires { (1 ≤ p) × (p ≤ 256) }
    ensures { row result ≡ union (reason_at (valued values.now p) (rows reasons.now p)) (row more) }
{
    let k = p - 1;
    let value = values[k];
    if value == 0 {
        return more;
    }
    levels::union(reasons[k], more)
}

// The reasons of a list's atoms joined to a set.
pub fn atoms_reason(
    l: &[i32],
    values: &[u8; 256],
    reasons: &[[u64; 4]; 256],
    more: [u64; 4],
) -> [u64; 4]
    requires { Members 256 l.now }
    ensures { row result ≡ union (atoms_reason (valued values.now) (rows reasons.now) (atoms l.now)) (row more) }
{
    let mut acc = more;
    for w in l {
        let next = atom_reason(words::size(*w), values, reasons, acc);
        acc = next;
    }
    acc
}

// ---- lists of aggregate literals

// Where the aggregate of the literal at index k of a list begins.
pub fn start(tb: Table, l: &[i32], k: usize) -> usize
    requires { (k < length l.now) × (1 ≤ nat_abs (get_or l.now k (pos 0))) × (nat_abs (get_or l.now k (pos 0)) ≤ 64) }
    ensures { result ≡ get_or tb.starts (nat_abs (get_or l.now k (pos 0)) - 1) 0 }
{
    let place = words::atom(l, k) - 1;
    tb.starts[place] as usize
}

// The value of the aggregate literal at index k of a list of them.
pub fn literal_value(t: &Accepted, l: &[i32], k: usize, values: &[u8; 256]) -> Value
    requires { Members t.now.places.aggregates l.now × (k < length l.now) }
    ensures { result ≡ literal_value (valued values.now) (literal_of t.now.words.now (get_or l.now k (pos 0))) }
{
    let at = start(t.places, l, k);
    let v = aggregates::aggregate_value(t.words, at, values);
    signed(0 <= l[k], v)
}

// The first false one of a list of aggregate literals: its index from 0.
pub fn false_literal(t: &Accepted, l: &[i32], values: &[u8; 256]) -> Option<usize>
    requires { Members t.now.places.aggregates l.now }
    ensures { result ≡ first_false (valued values.now) (literal_lits t.now.words.now l.now) }
{
    for k in 0..l.len() {
        if literal_value(t, l, k, values) == Value::False {
            return Some(k);
        }
    }
    None
}

// The reason of the aggregate literal at index k of a list, joined to a set: the union over elements that settle it.
pub fn literal_reason(
    t: &Accepted,
    l: &[i32],
    k: usize,
    values: &[u8; 256],
    reasons: &[[u64; 4]; 256],
    more: [u64; 4],
) -> [u64; 4]
    requires { Members t.now.places.aggregates l.now × (k < length l.now) }
    ensures { row result ≡ union (reason_of (valued values.now) (rows reasons.now) (agg_lit (literal_of t.now.words.now (get_or l.now k (pos 0))))) (row more) }
{
    let at = start(t.places, l, k);
    settling::aggregate_reason(t.words, at, values, reasons, more)
}

// The reasons of all aggregate literals of a list joined to a set.
pub fn literals_reason(
    t: &Accepted,
    l: &[i32],
    values: &[u8; 256],
    reasons: &[[u64; 4]; 256],
    more: [u64; 4],
) -> [u64; 4]
    requires { Members t.now.places.aggregates l.now }
    ensures { row result ≡ union (reasons_of (valued values.now) (rows reasons.now) (literal_lits t.now.words.now l.now)) (row more) }
{
    let mut acc = more;
    for k in 0..l.len() {
        let next = literal_reason(t, l, k, values, reasons, acc);
        acc = next;
    }
    acc
}
