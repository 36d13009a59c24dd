#![tactic(auto)]

// What request 4 of 02 changes, and what it does not: the plain search depends on no reason, and with the reasons by settling a jump never gets shorter. No
// code: definitions in `specs/`, theorems in `proofs/`.
