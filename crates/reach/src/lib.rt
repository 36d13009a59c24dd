// Which atoms an atom reaches by arcs from head atom to body atom (01, "Meaning"), found by a visit with a list of atoms still to visit and a mark for
// each atom, by the lists of rules by head. Which of them lead back to it, and which atoms surely lie on no cycle. Meaning: `specs/Visits.antt`; what
// an arc and a chain are: `meaning`.
// Memory: a list of 256 bytes and a mark of one bit for each atom, a few rows of 32 bytes besides.
// Cost: a visit reads the rules of each atom that is reached, once for each atom of their heads.
#![tactic(auto)]

pub mod arcs;
pub mod back;
pub mod marks;
pub mod settling;
pub mod touching;
pub mod visits;
