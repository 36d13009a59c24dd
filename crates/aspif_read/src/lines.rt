// The bounds of lines: only a newline ends one, and the last may lack it.
ghost use Rattle.std.specs.Prelude.{◌≡◌, ◌+◌, ◌≤◌, min, drop, length};
ghost use Rattle.aspif_read.specs.Survey.{line_length};

// The index past the line that begins at `from`: its newline's, or the end.
pub fn line_end(text: &[u8], from: usize) -> usize
    ensures { result ≡ from + line_length (drop from text.now) }
{
    for i in from..text.len() {
        if text[i] == 10 {
            return i;
        }
    }
    from.max(text.len())
}

// Where the next line begins, after one that ends at `end`.
pub fn line_after(text: &[u8], end: usize) -> usize
    requires { end ≤ length text.now }
    ensures { result ≡ min (end + 1) (length text.now) }
{
    text.len().min(end + 1)
}
