// Bytes, decimal numbers and fields of numbers, written into a lent buffer from an index on. What would lie past the buffer's end is left out, and
// the index goes on all the same, so that the same functions find how long a text is and write it. Meaning: `specs/Putting.antt`.
#![tactic(auto)]

ghost use Rattle.std.specs.Prelude.{◌≡◌, [], ◌∷◌, ◌+◌, ◌%◌, ◌≤◌, min, set};
ghost use Rattle.text.specs.Line.{decimal};
ghost use Rattle.bytes_out.specs.Putting.{Put, field_text, signed_text};

// The index after another; the highest stays.
fn after(at: usize) -> usize
    ensures { result ≡ min (at + 1) 18446744073709551615 }
{
    at.saturating_add(1)
}

// One byte at index `at`, if there is room.
fn store(b: u8, at: usize, out: &mut [u8])
    ensures { out.new ≡ set out.old at b }
{
    if at < out.len() {
        out[at] = b;
    }
}

// One byte at index `at`; the index after it.
pub fn put_byte(b: u8, at: usize, out: &mut [u8]) -> usize
    ensures { Put out.old at (b ∷ []) result out.new }
{
    store(b, at, out);
    after(at)
}

// Some bytes from index `at` on; the index after them.
pub fn put(text: &[u8], at: usize, out: &mut [u8]) -> usize
    ensures { Put out.old at text.now result out.new }
{
    let mut to = at;
    for b in text {
        to = put_byte(*b, to, out);
    }
    to
}

// The last digit of a number.
fn last_digit(n: usize) -> u8
    ensures { result ≡ 48 + n % 10 }
{
    b'0' + (n % 10) as u8
}

// A number in decimal digits: those before the last, and the last.
pub fn put_number(n: usize, at: usize, out: &mut [u8]) -> usize
    ensures { Put out.old at (decimal n) result out.new }
{
    if n < 10 {
        return put_byte(last_digit(n), at, out);
    }
    let to = put_number(n / 10, at, out);
    put_byte(last_digit(n), to, out)
}

// A space and a number.
pub fn put_field(n: usize, at: usize, out: &mut [u8]) -> usize
    ensures { Put out.old at (field_text n) result out.new }
{
    let after_space = put_byte(b' ', at, out);
    put_number(n, after_space, out)
}

// A space and a number, with a minus where it is not plain.
pub fn put_signed(plain: bool, n: usize, at: usize, out: &mut [u8]) -> usize
    ensures { Put out.old at (signed_text plain n) result out.new }
{
    if plain {
        return put_field(n, at, out);
    }
    let after_space = put_byte(b' ', at, out);
    let after_minus = put_byte(b'-', after_space, out);
    put_number(n, after_minus, out)
}
