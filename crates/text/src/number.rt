// The number that a run writes: "one or more digits after at most one minus". The value decides, and not how long the run is.
ghost use Rattle.std.specs.Prelude.{◌≡◌};
ghost use Rattle.text.specs.Text as T;
ghost use Rattle.text.specs.Scan.{held, limit_in, word_in};

// The value of some digits, if they are some and nothing else. Values above 2 to the 64 less 1 stay there.
pub fn digits_of(run: &[u8]) -> Option<u64>
    ensures { result ≡ held (T.digits run.now) }
{
    if run.is_empty() {
        return None;
    }
    let mut value: u64 = 0;
    for b in run {
        if !b.is_ascii_digit() {
            return None;
        }
        value = value
            .saturating_mul(10)
            .saturating_add(u64::from(*b - b'0'));
    }
    Some(value)
}

// A limit: 0 to 4,294,967,295; `-0` is a good 0.
pub fn limit_of(run: &[u8]) -> Option<u32>
    ensures { result ≡ limit_in (T.limit run.now) }
{
    if let Some(digits) = run.strip_prefix(b"-") {
        return (digits_of(digits)? == 0).then_some(0);
    }
    u32::try_from(digits_of(run)?).ok()
}

// A word: a number of signed 32 bits.
// Stays: a test, so that an edit can turn what it lets through (must-fail/word_wrapped).
pub fn word_of(run: &[u8]) -> Option<i32>
    ensures { result ≡ word_in (T.word run.now) }
{
    if let Some(digits) = run.strip_prefix(b"-") {
        let size = i64::try_from(digits_of(digits)?).ok()?;
        return i32::try_from(-size).ok();
    }
    let value = digits_of(run)?;
    if 2147483647 < value {
        return None;
    }
    Some(value as i32)
}
