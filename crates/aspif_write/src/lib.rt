// Writing aspif (02, "Write aspif"): any accepted table as a text of the public ASP intermediate format. `write` and `write_with` ask nothing of their caller. The text is
// laid twice by the same functions: first into no buffer, to find its length, so that a buffer that is too short stays as it is. The work is linear in
// the table and in the text; besides the places of the table there are 256 bytes of local memory, the new atoms. Meaning: `specs/Promise.antt`; that the
// promise has one answer only: `proofs/Unique.antt`.
#![tactic(auto)]

ghost use Rattle.std.specs.Prelude.{◌≤◌};
ghost use Rattle.aspif.specs.Writing.{written};
ghost use Rattle.aspif.specs.Lines.{text_of};
ghost use Rattle.bytes_out.specs.Putting.{Put};
ghost use Rattle.aspif_parts.specs.Held.{held_by};
ghost use Rattle.aspif_parts.specs.Uses.{NewAtoms};
ghost use Rattle.aspif_write.specs.Laying.{Laying};
ghost use Rattle.aspif_write.specs.Promise.{Writes};

use heads::Lists;
use judging::Buffer;
use layout::Accepted;
use results::Refusal;

// The whole text: header, rules, the lines of the new atoms, the closing 0; the index after it.
fn put_text(t: &Accepted, news: &[u16; 128], out: &mut [u8]) -> usize
    requires { NewAtoms (held_by t.now.words.now t.now.places) news.now }
    ensures { Put out.old 0 (text_of (written (held_by t.now.words.now t.now.places))) result out.new }
{
    let after_header = bytes_out::put(b"asp 1 0 0\n", 0, out);
    let after_rules = aspif_rules::put_rules(t, news, after_header, out);
    let after_used = aspif_aggregates::put_all_used(t, news, after_rules, out);
    bytes_out::put(b"0\n", after_used, out)
}

// The text of an accepted table, if the buffer has room for the whole of it.
fn write_laid(t: &Accepted, text: &mut [u8]) -> Result<usize, Refusal>
    ensures { Laying (text_of (written (held_by t.now.words.now t.now.places))) text.old text.new result }
{
    let news = aspif_uses::new_atoms(t);
    let mut nothing = [0u8; 1];
    let length = put_text(t, &news, &mut nothing);
    if text.len() < length {
        return Err(Refusal::ShortBuffer);
    }
    Ok(put_text(t, &news, text))
}

// The table as aspif at the front of the buffer: how much was written, the rest being kept; or a refusal, and then the whole buffer is kept. The memory
// of the judge is lent: nothing is said of what it holds before or after, and nothing depends on it.
pub fn write_with(words: &[i32], text: &mut [u8], lists: &mut Lists) -> Result<usize, Refusal>
    ensures { Writes words.now text.old text.new result }
{
    let places = judging::judge_by(words, Buffer::Nothing, lists)?;
    let t = Accepted { words, places };
    write_laid(&t, text)
}

// The same with memory of its own.
pub fn write(words: &[i32], text: &mut [u8]) -> Result<usize, Refusal>
    ensures { Writes words.now text.old text.new result }
{
    let mut lists = [0u16; heads::SIZE];
    write_with(words, text, &mut lists)
}
