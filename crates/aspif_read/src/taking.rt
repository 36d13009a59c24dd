// A statement's marks, and what each pass takes from them. The marks are the reader's largest local: they stand in one function, so that no two passes
// have them at a time.
ghost use Rattle.std.specs.Prelude.{◌≤◌, length};
ghost use Rattle.aspif_read.specs.Writing.{Takes};

use crate::judge::{Fault, Judged, aggregates, judged_by};
use crate::putting::{put_aggregate, put_rule};
use aspif_scan::scan::scan;

// The judgement, or where the next word goes and how many aggregates there were before.
#[derive(Clone, Copy)]
pub struct Taken {
    pub judged: Result<Judged, Fault>,
    pub at: usize,
    pub before: usize,
}

// Stays: one function, told by two flags: with a function for each pass the marks lay on the stack twice, 10.4 KiB where 8 may be used.
// The judgement of a statement, in the first pass; or what it adds to a section: its rule, or its aggregate if it has one.
pub fn take(
    line: &[u8],
    judging: bool,
    rules: bool,
    before: usize,
    at: usize,
    words: &mut [i32],
) -> Taken
    requires { (at ≤ length words.old) × (before ≤ 64) }
    ensures { Takes judging rules before line.now words.old at result words.new }
{
    let mut marks = [0u32; 1280];
    let s = scan(line, &mut marks);
    if judging {
        let judged = judged_by(s, &marks);
        return Taken { judged, at, before };
    }
    let stage = s.stage;
    let own = aggregates(stage);
    let after = before + own;
    if rules {
        let to = put_rule(own, before, &marks, at, words);
        return Taken {
            judged: Err(Fault::Outside),
            at: to,
            before: after,
        };
    }
    if own == 0 {
        return Taken {
            judged: Err(Fault::Outside),
            at,
            before: after,
        };
    }
    let to = put_aggregate(s.bound as usize, &marks, at, words);
    Taken {
        judged: Err(Fault::Outside),
        at: to,
        before: after,
    }
}
