// Lists of atoms, as parts of the table, under the values of a partial interpretation. Meaning: `specs/Asking.antt`.
ghost use Rattle.std.specs.Prelude.{◌≡◌};
ghost use Rattle.interpretation.specs.View.{valued};
ghost use Rattle.layout.specs.Layout.{Members, Plain, atoms};
ghost use Rattle.support.specs.Asking.{values_of, first_with, other_true};

use interpretation::Value;

// The first atom of a list with a value.
pub fn first_with(l: &[i32], v: Value, values: &[u8; 256]) -> Option<usize>
    requires { Members 256 l.now × Plain l.now }
    ensures { result ≡ first_with (values_of (valued values.now)) v (atoms l.now) }
{
    for w in l {
        let q = words::plain(*w);
        if interpretation::value_of(values, q) == v {
            return Some(q);
        }
    }
    None
}

// The first true atom of a list other than p.
// Stays: an index, so that an edit can begin at the second atom (must-fail/later_witness).
pub fn other_true(l: &[i32], p: usize, values: &[u8; 256]) -> Option<usize>
    requires { Members 256 l.now × Plain l.now }
    ensures { result ≡ other_true (values_of (valued values.now)) p (atoms l.now) }
{
    for k in 0..l.len() {
        let q = words::plain(l[k]);
        let holds = interpretation::value_of(values, q) == Value::True;
        if (q != p) & holds {
            return Some(q);
        }
    }
    None
}
