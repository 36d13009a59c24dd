#![tactic(auto)]

// Rules by their numbers, from 1, and the lowest that passes a test: definitions in `specs/`, and in `proofs/` what is shown of them.
