#![tactic(auto)]

// The notation of 01 for whole tables: the text of a table, and the table of a text. Definitions in `specs/`; in `proofs/` that what is written of an
// accepted table is read back as its words.
