// Words of the table as numbers on their own.
#![tactic(auto)]

ghost use Rattle.std.specs.Prelude.{◌≡◌, T, nat_abs, pos, length, get_or, ◌<◌};
ghost use Rattle.std.specs.Int.Signed.{non_neg};

// The number without its sign: the one place where a signed word becomes an unsigned one.
pub fn size(w: i32) -> usize
    ensures { result ≡ nat_abs w }
{
    w.unsigned_abs() as usize
}

// The number at an index of a list, without its sign.
pub fn atom(l: &[i32], i: usize) -> usize
    requires { i < length l.now }
    ensures { result ≡ nat_abs (get_or l.now i (pos 0)) }
{
    size(l[i])
}

// A word that is not below 0: no sign is taken off.
pub fn plain(w: i32) -> usize
    requires { T (non_neg w) }
    ensures { result ≡ nat_abs w }
{
    w as usize
}

// The number at an index of a list where no word is below 0.
pub fn number(l: &[i32], i: usize) -> usize
    requires { (i < length l.now) × T (non_neg (get_or l.now i (pos 0))) }
    ensures { result ≡ nat_abs (get_or l.now i (pos 0)) }
{
    plain(l[i])
}
