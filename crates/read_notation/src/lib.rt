#![tactic(auto)]
// Reading 01's notation, from the bytes up: `scan` finds where tokens begin and end, `lexing` takes the token that comes next, `single` a number or a mark,
// `names` knows the words, `members` tests a member of a list, `places` says line and column. Meaning: `notation`, `specs/Tokens.antt`, through the definitions that follow the code, `specs/Scanning.antt`; `proofs/Lexed.antt` ties the two.
pub mod lexing;
pub mod members;
pub mod names;
pub mod places;
pub mod scan;
pub mod single;
