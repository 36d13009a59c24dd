// A table in 01's notation: `show` writes the words that the reader accepts as a text from which they can be read back. The text is laid twice by the
// same functions: first into no buffer, to find its length, so that a buffer that is too short stays as it is. Tables with a head cycle or an aggregate
// cycle are shown too, so that one can see why they are refused. Meaning: `notation`, `specs/Notation.antt`, and `specs/Promise.antt`; that the promise
// has one answer only: `proofs/Unique.antt`.
#![tactic(auto)]

ghost use Rattle.std.specs.Prelude.{◌≡◌, ◌++◌, ◌+◌, ◌<◌, ◌≤◌, length, get_or, take};
ghost use Rattle.table.specs.Contents.{no_aggregate};
ghost use Rattle.bytes_out.specs.Putting.{Put};
ghost use Rattle.notation.specs.Notation.{name_line, names_text, text_by, text_of};
ghost use Rattle.aspif_parts.specs.Held.{held_by};
ghost use Rattle.show.specs.Promise.{Laying, Shows};

use crate::naming::named;
use crate::parts::put_aggregate;
use crate::rules::{put_name, put_rules};
use aspif_parts::start;
use bytes_out::{put, put_number};
use layout::Accepted;
use results::Refusal;

mod naming;
mod parts;
mod rules;

// The line that gives aggregate j + 1 its name.
fn put_named(t: &Accepted, j: usize, at: usize, out: &mut [u8]) -> usize
    requires { (j < t.now.places.aggregates) }
    ensures { Put out.old at (name_line (j + 1) (get_or (held_by t.now.words.now t.now.places).aggregates j no_aggregate)) result out.new }
{
    let number = j + 1;
    let after_name = put_name(number, at, out);
    let after_is = put(b" = ", after_name, out);
    let after_aggregate = put_aggregate(t.words, start(t.places, j), after_is, out);
    put(b".\n", after_aggregate, out)
}

// The lines of the first d aggregates.
fn put_names(t: &Accepted, d: usize, at: usize, out: &mut [u8]) -> usize
    requires { (d ≤ t.now.places.aggregates) }
    ensures { Put out.old at (names_text 1 (take d (held_by t.now.words.now t.now.places).aggregates)) result out.new }
{
    let mut to = at;
    for j in 0..d {
        to = put_named(t, j, to, out);
    }
    to
}

// The whole text with d names; the index after it.
fn put_text(t: &Accepted, d: usize, out: &mut [u8]) -> usize
    requires { (d ≤ t.now.places.aggregates) }
    ensures { Put out.old 0 (text_by d (held_by t.now.words.now t.now.places)) result out.new }
{
    let n = t.places.atoms;
    let after_word = put(b"atoms ", 0, out);
    let after_number = put_number(n, after_word, out);
    let after_atoms = put(b".\n", after_number, out);
    let after_names = put_names(t, d, after_atoms, out);
    put_rules(t, d, after_names, out)
}

// The text of an accepted table, if the buffer has room for the whole of it.
fn show_laid(t: &Accepted, text: &mut [u8]) -> Result<usize, Refusal>
    ensures { Laying (text_of (held_by t.now.words.now t.now.places)) text.old text.new result }
{
    let d = named(t);
    let mut nothing = [0u8; 1];
    let length = put_text(t, d, &mut nothing);
    if text.len() < length {
        return Err(Refusal::ShortBuffer);
    }
    Ok(put_text(t, d, text))
}

// The table in 01's notation at the front of the buffer: how much was written, the rest being kept; or a refusal, and then the whole buffer is kept.
pub fn show(words: &[i32], text: &mut [u8]) -> Result<usize, Refusal>
    ensures { Shows words.now text.old text.new result }
{
    let places = table::read(words)?;
    let t = Accepted { words, places };
    show_laid(&t, text)
}
