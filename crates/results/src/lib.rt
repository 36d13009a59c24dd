// What comes back (01, "What comes back"): the refusals, and the results of solving, of listing and of giving up. An entry that can refuse gives a
// `Result` with a `Refusal` as its error: of a result below; of whether a plan is an answer set, for the check; of how much it wrote, for a writer; of
// nothing, for a call that changes a session. Meaning: `specs/Results.antt`, which states 01's number and values for each case.
#![tactic(auto)]

ghost use Rattle.std.specs.Prelude.{◌≡◌};
ghost use Rattle.results.specs.Results.{number_of, place_of};

// A refusal; those with a place hold it.
#[derive(Clone, Copy, Debug, PartialEq, Eq)]
pub enum Refusal {
    // 1: more than 16,384 words.
    TooManyWords,
    // 2: a needed word is absent, its index.
    Absent(usize),
    // 3: words follow the last rule, the index of the first.
    Trailing(usize),
    // 4: a count is outside its range, its index.
    Count(usize),
    // 5: an atom or aggregate number is 0 or outside its range, its index.
    Number(usize),
    // 6: a list does not ascend, the index of the first member not above the one before.
    Descent(usize),
    // 7: a function, comparison, threshold or value is outside its range, its index.
    Quantity(usize),
    // 8: head cycle, the lowest such rule, from 1.
    HeadCycle(usize),
    // 9: aggregate cycle, the lowest rule with such an arc, from 1.
    AggregateCycle(usize),
    // 10: the plan buffer is shorter than 256 bytes.
    ShortPlan,
    // 11: a byte of the offered plan is neither 0 nor 1, its index.
    PlanByte(usize),
    // 12: a bad number in the text, which one, from 0.
    BadNumber(usize),
    // 13: more than 65,536 bytes of text.
    TooManyBytes,
    // 14: aspif: text outside the subset, its line, from 1.
    OutsideSubset(usize),
    // 15: aspif: a number, list or table beyond 01's ranges, its line, from 1.
    BeyondRange(usize),
    // 16: the lent text or byte buffer is too short for the whole text.
    ShortBuffer,
    // 17: list: the buffer's length is no multiple of 256.
    PartRow,
    // 20: pin: the atom is 0 or above N.
    PinNumber,
    // 21: pin: the atom is pinned already.
    PinTwice,
    // 22: pin: there are 64 pins.
    PinsFull,
    // 23: a removal with no pin held.
    NoPin,
    // 24: going back from the stored form while some name is not empty.
    NamesLost,
    // 25: the word buffer is shorter than 16,384 words.
    ShortWords,
    // 26: give up: the list of dropped rules has fewer than M places.
    ShortList,
}

// What is asked with a table: whether head cycles are taken (request 14), and the limit, any unsigned 32-bit number.
#[derive(Clone, Copy, Debug, PartialEq, Eq)]
pub struct Ask {
    pub cycles: bool,
    pub limit: u32,
}

// What a result of solving counts: the choices, the skips, and the greatest number of passes that any one propagation took.
#[derive(Clone, Copy, Debug, PartialEq, Eq)]
pub struct Counts {
    pub choices: u32,
    pub skips: u32,
    pub passes: u32,
}

// The result of solving: an answer, none or limit, with the counts.
#[derive(Clone, Copy, Debug, PartialEq, Eq)]
pub enum Solved {
    Answer(Counts),
    Nothing(Counts),
    Limit(Counts),
}

// The result of listing every plan (request 7): how many are listed, with the counts: all there are, there is one more than rows, or the limit is
// met. A refusal writes nothing.
#[derive(Clone, Copy, Debug, PartialEq, Eq)]
pub enum Listed {
    Complete(usize, Counts),
    Full(usize, Counts),
    Limit(usize, Counts),
}

// The result of giving up constraints (request 13): the number of the rules that are dropped; the rules with heads alone have no plan; or a trial met the
// limit. Only the first writes.
#[derive(Clone, Copy, Debug, PartialEq, Eq)]
pub enum Relaxed {
    Answer(usize),
    Nothing,
    Limit,
}

impl Refusal {
    // 01's number of a refusal; from 14 on 02's.
    pub fn number(self) -> u32
        ensures { result ≡ number_of self }
    {
        match self {
            Refusal::TooManyWords => 1,
            Refusal::Absent(_) => 2,
            Refusal::Trailing(_) => 3,
            Refusal::Count(_) => 4,
            Refusal::Number(_) => 5,
            Refusal::Descent(_) => 6,
            Refusal::Quantity(_) => 7,
            Refusal::HeadCycle(_) => 8,
            Refusal::AggregateCycle(_) => 9,
            Refusal::ShortPlan => 10,
            Refusal::PlanByte(_) => 11,
            Refusal::BadNumber(_) => 12,
            Refusal::TooManyBytes => 13,
            Refusal::OutsideSubset(_) => 14,
            Refusal::BeyondRange(_) => 15,
            Refusal::ShortBuffer => 16,
            Refusal::PartRow => 17,
            Refusal::PinNumber => 20,
            Refusal::PinTwice => 21,
            Refusal::PinsFull => 22,
            Refusal::NoPin => 23,
            Refusal::NamesLost => 24,
            Refusal::ShortWords => 25,
            Refusal::ShortList => 26,
        }
    }

    // Its place; 0 for those that hold none.
    pub fn place(self) -> usize
        ensures { result ≡ place_of self }
    {
        match self {
            Refusal::Absent(i)
            | Refusal::Trailing(i)
            | Refusal::Count(i)
            | Refusal::Number(i)
            | Refusal::Descent(i)
            | Refusal::Quantity(i)
            | Refusal::HeadCycle(i)
            | Refusal::AggregateCycle(i)
            | Refusal::PlanByte(i)
            | Refusal::BadNumber(i)
            | Refusal::OutsideSubset(i)
            | Refusal::BeyondRange(i) => i,
            _ => 0,
        }
    }
}
