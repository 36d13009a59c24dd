// Standard input in parts, as the programs of the tests read it: each part comes after its length in bytes, four bytes, low byte first.
#![tactic(auto)]

ghost use Rattle.std.specs.Prelude.{◌≤◌, IfOk, IfSome, length};

use std::io;
use std::io::Read;

// Reads until the buffer is full or the input ends; how many bytes lie in its first places.
pub fn read_full(input: &mut impl Read, buffer: &mut [u8]) -> io::Result<usize>
    ensures { IfOk result (λ n. n ≤ length buffer.new) }
{
    let mut done = 0;
    while done < buffer.len() {
        let n = input.read(&mut buffer[done..])?;
        if n == 0 {
            break;
        }
        done += n;
    }
    Ok(done)
}

// The next bytes, each read on its own; one for which a read finds the end of the input is as given.
pub fn next_bytes<const N: usize>(input: &mut impl Read, given: [u8; N]) -> io::Result<[u8; N]> {
    let mut bytes = given;
    for b in bytes.iter_mut() {
        let mut one = [*b];
        read_full(input, &mut one)?;
        *b = one[0];
    }
    Ok(bytes)
}

// The next part, at the front of the buffer: how long it is. There is none at the end of the input, nor where it is longer than the buffer.
pub fn next_part(input: &mut impl Read, buffer: &mut [u8]) -> io::Result<Option<usize>>
    ensures { IfOk result (λ found. IfSome found (λ n. n ≤ length buffer.new)) }
{
    let length = u32::from_le_bytes(next_bytes(input, [255; 4])?) as usize;
    if length > buffer.len() {
        return Ok(None);
    }
    read_full(input, &mut buffer[..length])?;
    Ok(Some(length))
}
