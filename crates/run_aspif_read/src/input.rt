// The cases of standard input, as tools/read_aspif.py writes them: the room in the buffer, a space, the length of the text, a newline, and the text.
use framed::next_bytes;
use std::io;
use std::io::Read;

// The next byte, 0 at the end of the input.
pub fn byte(input: &mut impl Read) -> io::Result<u8> {
    let [b] = next_bytes(input, [0])?;
    Ok(b)
}

// The next number, of at most 8 digits, with the byte after it; past the end of the input there is none.
pub fn number(input: &mut impl Read) -> io::Result<Option<usize>> {
    let mut b = byte(input)?;
    if b < b'0' {
        return Ok(None);
    }
    let mut n: usize = 0;
    for _ in 0..8 {
        if b < b'0' {
            break;
        }
        n = (n % 100000) * 10 + usize::from(b - b'0') % 10;
        b = byte(input)?;
    }
    Ok(Some(n))
}
