#![tactic(auto)]

// Values in a partial interpretation and the reasons of literals (01, "Propagation", "Reasons and jumps"): definitions in `specs/`, and in
// `proofs/` that the values are exact. The code that computes them on the table's words is crate `literals`.
