#![tactic(auto)]

// Steps a to e, a pass, and passes until one changes nothing or a conflict ends it (01, "Propagation"): definitions in `specs/`, their laws in
// `proofs/`. The code is crates `rules` (a to c), `support` (d, e) and `propagation`.
