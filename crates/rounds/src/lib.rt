// The round and the rule of each true atom (02, request 1): definitions in `specs/`, and in `proofs/` what is shown of them.
#![tactic(auto)]

// Why an atom is true: the round of the foundedness test that adds it, and the lowest rule that could add it in that round, both from 1; 0 and 0
// for an atom that is false.
#[derive(Clone, Copy)]
pub struct Why {
    pub round: u16,
    pub rule: u16,
}
