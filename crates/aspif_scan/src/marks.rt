// What a statement holds, as five rows of a number for each atom 1 to 256: how often it is in the head, positive in the body, negated there, in
// the weight body, and the weights that it has there, added. A number is held at 65,536, which is no weight of 01's. Meaning: `specs/Marks.antt`.
ghost use Rattle.std.specs.Prelude.{◌≡◌, ◌+◌, ◌*◌, ◌<◌, ◌≤◌, min, length, IfSome};
ghost use Rattle.aspif_scan.specs.Marks.{slot_of, literal_row, add_of, mark_at, mark_of, row_from, light_from};

use crate::machine::{Stage, State};
use crate::number::{Number, nought};

// The sum of two numbers, held at 65,536.
fn sum(x: u32, more: u64) -> u32
    ensures { result ≡ min (x + more) 65536 }
{
    let total = u64::from(x).saturating_add(more);
    total.min(65536) as u32
}

// The index of an atom in a row, where the number is an atom of 1 to 256.
#[tactic(auto, unfolding(crate::specs::Marks::slot_of))]
fn slot(row: usize, p: u64) -> Option<usize>
    requires { row < 5 }
    ensures value { result ≡ slot_of row p }
    ensures inside { IfSome result (λ i. i < 1280) }
{
    if p == 0 {
        return None;
    }
    if 256 < p {
        return None;
    }
    let place = p - 1;
    Some(row * 256 + place as usize)
}

fn literal_row(minus: bool) -> usize
    ensures value { result ≡ literal_row minus }
    ensures upper_bound { result < 5 }
{
    if minus { 2 } else { 1 }
}

// Adds to the number of an atom in a row.
#[tactic(auto, unfolding(crate::specs::Marks::add_of))]
fn add(marks: &mut [u32; 1280], row: usize, p: u64, more: u64)
    requires { row < 5 }
    ensures { marks.new ≡ add_of marks.old (slot_of row p) more }
{
    let Some(i) = slot(row, p) else {
        return;
    };
    marks[i] = sum(marks[i], more);
}

// What a number of a statement adds.
fn mark_number(s: State, n: Number, marks: &mut [u32; 1280])
    ensures { marks.new ≡ mark_at s.stage s.atom n marks.old }
{
    match s.stage {
        Stage::Rule => {}
        Stage::Disjunction => {}
        Stage::HeadCount => {}
        Stage::Head => add(marks, 0, n.size, 1),
        Stage::Body => {}
        Stage::LiteralCount => {}
        Stage::Literal => add(marks, literal_row(n.minus), n.size, 1),
        Stage::Bound => {}
        Stage::PairCount => {}
        Stage::Pair => add(marks, 3, n.size, 1),
        Stage::Weight => add(marks, 4, s.atom, n.size),
        Stage::NormalEnd => {}
        Stage::WeightEnd => {}
        Stage::Outside => {}
    }
}

// What the next field of a statement adds: what 0 adds, where it is no number.
#[tactic(auto, unfolding(crate::specs::Marks::mark_of))]
pub fn mark(s: State, field: Option<Number>, marks: &mut [u32; 1280])
    ensures { marks.new ≡ mark_of s field marks.old }
{
    let Some(n) = field else {
        return mark_number(s, nought(), marks);
    };
    mark_number(s, n, marks);
}

// How many atoms a row has.
pub fn count(marks: &[u32; 1280], row: usize) -> usize
    requires { row < 5 }
    ensures value { result ≡ length (row_from marks.now (row * 256) 1 256) }
    ensures upper_bound { result ≤ 256 }
{
    let mut n: usize = 0;
    for i in 0..256 {
        if 0 < marks[row * 256 + i] {
            n += 1;
        }
    }
    n
}

// Whether every weight is at most 65,535.
pub fn light(marks: &[u32; 1280]) -> bool
    ensures { result ≡ light_from marks.now 1024 256 }
{
    marks[1024..].iter().all(|weight| *weight <= 65535)
}
