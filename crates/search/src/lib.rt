#![tactic(auto)]

// The defined search, jumping and plain by one flag (01, "Reasons and jumps"): definitions in `specs/`, and in `proofs/` that it is right.
// `proofs/Base.antt` has the final theorems. The code of the jumping search is crate `jumping`.
