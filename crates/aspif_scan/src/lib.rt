// A line of aspif (02, Wish 2), read by itself: its numbers, what kind of line it is, and what a rule statement holds, as marks and weights of the
// atoms 1 to 256. Meaning: `specs/`; `aspif`'s `Lines` is what a text means, and `proofs/` ties the two.
#![tactic(auto)]

pub mod kind;
pub mod machine;
pub mod marks;
pub mod number;
pub mod scan;
