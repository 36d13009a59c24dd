// The numbers of standard input, as tools/cases.py writes them: one from -4 to 250 is a byte, the number plus 4; any other is the byte 255 and
// four bytes, low byte first, two's complement.
use framed::next_bytes;
use std::io;
use std::io::Read;

// Room for a table of one word too many, and for a plan of one byte too many.
pub const MOST_WORDS: usize = 16385;

pub const MOST_BYTES: usize = 257;

// The next number; past the end of the input its bytes are 0.
pub fn word(input: &mut impl Read) -> io::Result<i32> {
    let [first] = next_bytes(input, [0])?;
    if first < 255 {
        return Ok(i32::from(first) - 4);
    }
    Ok(i32::from_le_bytes(next_bytes(input, [0; 4])?))
}

// The next number, which is a count, if it is one: past the end of the input there is none.
pub fn count(input: &mut impl Read) -> io::Result<Option<usize>> {
    let [first] = next_bytes(input, [0])?;
    if first < 255 {
        return Ok(usize::from(first).checked_sub(4));
    }
    Ok(Some(u32::from_le_bytes(next_bytes(input, [0; 4])?) as usize))
}

// The next numbers, as many as there are words.
pub fn read_words(input: &mut impl Read, words: &mut [i32]) -> io::Result<()> {
    for w in words.iter_mut() {
        *w = word(input)?;
    }
    Ok(())
}

// The next counts, as many as there are bytes, each by its lowest byte.
pub fn read_bytes(input: &mut impl Read, bytes: &mut [u8]) -> io::Result<()> {
    for b in bytes.iter_mut() {
        *b = (count(input)?.unwrap_or(0) % 256) as u8;
    }
    Ok(())
}
