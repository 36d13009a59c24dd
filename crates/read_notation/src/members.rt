// Why a text is refused, and the test of a member of a list that ascends.
ghost use Rattle.std.specs.Prelude.{◌≡◌};
ghost use Rattle.read_notation.specs.Admitting.{admitted};

// The token cannot stand here; a number is outside 01's range, or names what there is not; a list does not ascend; a list or a section is longer than 01
// allows; the number of a rule or a name is not the next one.
#[derive(Clone, Copy)]
pub enum Why {
    Unexpected,
    Outside,
    Descent,
    TooMany,
    Misnumbered,
}

// Whether the atom p may come after `count` atoms of which `last` is the last.
#[tactic(auto, unfolding(crate::specs::Admitting::admitted))]
pub fn admits(top: usize, most: usize, count: usize, last: usize, p: usize) -> Result<(), Why>
    ensures { result ≡ admitted top most count last p }
{
    if p == 0 {
        return Err(Why::Outside);
    }
    if top < p {
        return Err(Why::Outside);
    }
    if p <= last {
        return Err(Why::Descent);
    }
    if most <= count {
        return Err(Why::TooMany);
    }
    Ok(())
}
