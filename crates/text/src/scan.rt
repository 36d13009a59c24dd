// The bounds of runs: where the next one begins, and where it ends. Only a space and a newline part runs.
ghost use Rattle.std.specs.Prelude.{◌≡◌, ◌+◌, drop};
ghost use Rattle.text.specs.Text.{parting};
ghost use Rattle.text.specs.Scan.{skipped, spanned};

fn parts(b: u8) -> bool
    ensures { result ≡ parting b }
{
    b == b' ' || b == b'\n'
}

// The index of the first byte of a run, from `from` on; or the end.
pub fn run_start(bytes: &[u8], from: usize) -> usize
    ensures { result ≡ from + skipped (drop from bytes.now) }
{
    for i in from..bytes.len() {
        if !parts(bytes[i]) {
            return i;
        }
    }
    from.max(bytes.len())
}

// The index past the run that begins at `from`.
pub fn run_end(bytes: &[u8], from: usize) -> usize
    ensures { result ≡ from + spanned (drop from bytes.now) }
{
    for i in from..bytes.len() {
        if parts(bytes[i]) {
            return i;
        }
    }
    from.max(bytes.len())
}
