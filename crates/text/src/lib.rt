// The text program's input and output, on byte slices (01, "The text program reads standard input ..."): `reader::read` takes the limit and the
// words from bytes, `printer::print` writes a result as a line. Meaning: `specs/Text.antt` and `specs/Line.antt`.
#![tactic(auto)]

pub mod number;
pub mod printer;
pub mod reader;
pub mod scan;
