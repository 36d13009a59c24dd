// Which rules take part in a trial: those that have a head, and the constraints whose numbers are kept. List 0 of the lists by head (crate `heads`) is made
// again with them, in table order; the table is not copied. Meaning: `specs/Offering.antt`.
ghost use Rattle.std.specs.Prelude.{◌≡◌, cond, ◌||◌, ◌+◌, ◌≤◌, ◌<◌, length, set};
ghost use Rattle.levels.specs.View.{row};
ghost use Rattle.layout.specs.Layout.{past_at, rule_at};
ghost use Rattle.heads.specs.Heads.{list_at, Listed};
ghost use Rattle.promises.specs.Plans.{bit_of};
ghost use Rattle.relaxing.specs.Relaxing.{headed};
ghost use Rattle.relaxer.specs.Offering.{kept_places};

use crate::kept;
use crate::kept::Kept;
use layout::Accepted;

// Whether the rule at `at` has a head.
pub fn has_head(t: &[i32], at: usize) -> bool
    requires { past_at t.now at ≤ length t.now }
    ensures { result ≡ headed (rule_at t.now at) }
{
    let head = layout::part(t, at);
    !head.is_empty()
}

// Whether the rule at `at`, which has the number i, takes part.
pub fn takes_part(t: &[i32], at: usize, kept: Kept, i: usize) -> bool
    requires { (past_at t.now at ≤ length t.now) × (1 ≤ i) × (i ≤ 1024) }
    ensures { result ≡ headed (rule_at t.now at) || row kept i }
{
    has_head(t, at) || kept::has(kept, i)
}

// An item put at index n, where it takes part; the index after it.
pub fn put<T: Copy>(list: &mut [T], n: usize, item: T, takes: bool) -> usize
    requires { n < length list.old }
    ensures { (result ≡ n + bit_of takes) × (list.new ≡ cond takes (set list.old n item) list.old) }
{
    if takes {
        list[n] = item;
        return n + 1;
    }
    n
}

// List 0 made again.
pub fn choose(t: &Accepted, kept: Kept, lists: &mut [u16])
    requires { Listed t.now.words.now t.now.places lists.old }
    ensures { Listed t.now.words.now t.now.places lists.new × (list_at lists.new 0 ≡ kept_places (row kept) t.now.words.now t.now.places) }
{
    let mut at = t.places.first;
    let mut end = heads::BOUNDS;
    for i in 0..t.places.rules {
        let takes = takes_part(t.words, at, kept, i + 1);
        end = put(lists, end, at as u16, takes);
        at = layout::past_rule(t.words, at);
    }
    lists[1] = end as u16;
}
