// Which number of a table comes next: a point of the grammar of `table`, said for words and bytes alike. Meaning: `specs/Machine.antt`, tied to the grammar by
// `proofs/Leading.antt`.
ghost use Rattle.std.specs.Prelude.{◌≡◌};
ghost use Rattle.stored.specs.Machine.{aggregate_next, element_next, rule_next, list_next, member_next, point_after, most_by, member_by, asked_at};

// The number that comes next. With it stand: how many aggregates there are, how many aggregates or rules follow this one, how many lists of the rule follow
// this one, how many members of the list follow this one, and the number of the member before.
#[derive(Clone, Copy, Debug, PartialEq, Eq)]
pub enum Point {
    Aggregates,
    Function(usize, usize),
    Comparison(usize, usize),
    Threshold(usize, usize),
    Elements(usize, usize),
    Value(usize, usize, usize, usize),
    Atom(usize, usize, usize, usize),
    Rules(usize),
    Count(usize, usize, usize),
    Member(usize, usize, usize, usize, usize),
    End,
}

// What is asked of a number: a count of 0 to the first, a function, comparison or value of 0 to the first, a threshold, an atom or an aggregate literal of
// 1 to the first whose number is above the second.
#[derive(Clone, Copy, Debug, PartialEq, Eq)]
pub enum Asked {
    Count(usize),
    Quantity(usize),
    Threshold,
    Member(usize, usize),
    Literal(usize, usize),
}

// `k` of `g` aggregates are to come.
fn aggregate_next(g: usize, k: usize) -> Point
    ensures { result ≡ aggregate_next g k }
{
    if k == 0 {
        return Point::Rules(g);
    }
    let left = k - 1;
    Point::Function(g, left)
}

// `n` elements are to come, after atom `p`.
fn element_next(g: usize, k: usize, p: usize, n: usize) -> Point
    ensures { result ≡ element_next g k p n }
{
    if n == 0 {
        return aggregate_next(g, k);
    }
    let left = n - 1;
    Point::Value(g, k, left, p)
}

// `k` rules are to come.
fn rule_next(g: usize, k: usize) -> Point
    ensures { result ≡ rule_next g k }
{
    if k == 0 {
        return Point::End;
    }
    let left = k - 1;
    Point::Count(g, left, 3)
}

// `l` lists of the rule are to come.
fn list_next(g: usize, k: usize, l: usize) -> Point
    ensures { result ≡ list_next g k l }
{
    if l == 0 {
        return rule_next(g, k);
    }
    let left = l - 1;
    Point::Count(g, k, left)
}

// `n` members are to come, after number `p`.
fn member_next(g: usize, k: usize, l: usize, p: usize, n: usize) -> Point
    ensures { result ≡ member_next g k l p n }
{
    if n == 0 {
        return list_next(g, k, l);
    }
    let left = n - 1;
    Point::Member(g, k, l, left, p)
}

// The point after a number of size `n`.
pub fn step(p: Point, n: usize) -> Point
    ensures { result ≡ point_after p n }
{
    match p {
        Point::Aggregates => aggregate_next(n, n),
        Point::Function(g, k) => Point::Comparison(g, k),
        Point::Comparison(g, k) => Point::Threshold(g, k),
        Point::Threshold(g, k) => Point::Elements(g, k),
        Point::Elements(g, k) => element_next(g, k, 0, n),
        Point::Value(g, k, m, q) => Point::Atom(g, k, m, q),
        Point::Atom(g, k, m, _) => element_next(g, k, n, m),
        Point::Rules(g) => rule_next(g, n),
        Point::Count(g, k, l) => member_next(g, k, l, 0, n),
        Point::Member(g, k, l, m, _) => member_next(g, k, l, n, m),
        Point::End => Point::End,
    }
}

// How long a list of a rule may be, by how many lists follow it.
fn most(l: usize) -> usize
    ensures { result ≡ most_by l }
{
    if l == 0 {
        return 8;
    }
    if l < 3 {
        return 64;
    }
    16
}

// A member of a list of a rule, by how many lists follow it.
fn member(top: usize, g: usize, p: usize, l: usize) -> Option<Asked>
    ensures { result ≡ member_by top g p l }
{
    if l == 0 {
        return Some(Asked::Literal(g, p));
    }
    Some(Asked::Member(top, p))
}

// What is asked of the number at a point, in a table of `top` atoms; at the end no number is to come.
pub fn asks(p: Point, top: usize) -> Option<Asked>
    ensures { result ≡ asked_at top p }
{
    match p {
        Point::Aggregates => Some(Asked::Count(64)),
        Point::Function(_, _) => Some(Asked::Quantity(3)),
        Point::Comparison(_, _) => Some(Asked::Quantity(1)),
        Point::Threshold(_, _) => Some(Asked::Threshold),
        Point::Elements(_, _) => Some(Asked::Count(64)),
        Point::Value(_, _, _, _) => Some(Asked::Quantity(65535)),
        Point::Atom(_, _, _, q) => Some(Asked::Member(top, q)),
        Point::Rules(_) => Some(Asked::Count(1024)),
        Point::Count(_, _, l) => Some(Asked::Count(most(l))),
        Point::Member(g, _, l, _, q) => member(top, g, q, l),
        Point::End => None,
    }
}
