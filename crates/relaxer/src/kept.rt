// The numbers of the constraints that are kept, of 1 to 1,024, as bits: 128 bytes. Meaning: `row` of crate `levels`.
ghost use Rattle.std.specs.Prelude.{◌≡◌, ◌≤◌};
ghost use Rattle.levels.specs.View.{row};
ghost use Rattle.relaxing.specs.Relaxing.{none_kept, with_number};

pub type Kept = [u64; 16];

pub fn nothing() -> Kept
    ensures { row result ≡ none_kept }
{
    [0u64; 16]
}

pub fn has(a: Kept, i: usize) -> bool
    requires { (1 ≤ i) × (i ≤ 1024) }
    ensures { result ≡ row a i }
{
    let j = i - 1;
    let w = a[j / 64];
    (w >> (j % 64)) % 2 == 1
}

// One number more.
pub fn with(mut a: Kept, i: usize) -> Kept
    requires { (1 ≤ i) × (i ≤ 1024) }
    ensures { row result ≡ with_number i (row a) }
{
    let j = i - 1;
    let k = j / 64;
    let b = 1u64 << (j % 64);
    a[k] = a[k] | b;
    a
}
