#![tactic(auto)]

// 01's cases with a star, and its worked example, as one table that the definitions compute (`specs/Cases.antt`), and the law that hands out what
// `solve` gives for each (`proofs/Solved.antt`).
