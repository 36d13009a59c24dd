// The interpretation that the second search holds: for each atom its value and the level at which it was set, the choice atom of each level, and the
// present level. Atom p lies at index p - 1, level l's choice at index l - 1. The arrays are lent, so that none is copied. Meaning: `specs/Looking.antt`.
ghost use Rattle.std.specs.Prelude.{◌≡◌, true, false, ◌≤◌, ◌<◌, ◌-◌, length};
ghost use Rattle.interpretation.specs.State.{true_atoms, undefined, defined, put, undone};
ghost use Rattle.interpretation.specs.View.{valued, choices};
ghost use Rattle.search.specs.Search.{opened_as, jumped_as};
ghost use Rattle.second_search.specs.Looking.{cells_at, view_of, Whole, start_cells};

// Atom p gets a value at a level.
pub fn set(p: usize, v: bool, level: u16, values: &mut [u8; 256], levels: &mut [u16; 256])
    requires { (1 ≤ p) × (p ≤ 256) × Whole values.old levels.old }
    ensures { Whole values.new levels.new
        × (cells_at values.new levels.new ≡ put p (defined v level) (cells_at values.old levels.old)) }
{
    let i = p - 1;
    values[i] = interpretation::byte(v);
    levels[i] = level;
}

// All that was set at level m or later is undone.
pub fn undo(m: u16, values: &mut [u8; 256], levels: &mut [u16; 256])
    requires { Whole values.old levels.old }
    ensures { Whole values.new levels.new
        × (cells_at values.new levels.new ≡ (λ q. undone m (cells_at values.old levels.old q))) }
{
    for i in 0..256 {
        if m <= levels[i] {
            values[i] = 0;
            levels[i] = 0;
        }
    }
}

// What holds at the start, set where all was undefined: the candidate's true atoms stay so, all other atoms are false.
pub fn start(candidate: &[u8; 256], n: usize, values: &mut [u8; 256], levels: &mut [u16; 256])
    requires { (n ≤ 256) × Whole values.old levels.old × (cells_at values.old levels.old ≡ (λ p. undefined)) }
    ensures { Whole values.new levels.new × (cells_at values.new levels.new ≡ start_cells n (true_atoms n (valued candidate.now))) }
{
    for i in 0..n {
        let p = i + 1;
        if !foundation::is_true(candidate, p) {
            set(p, false, 0, values, levels);
        }
    }
}

// One more level, with atom p false as its choice. The result is the new level.
pub fn opened(
    p: usize,
    depth: u16,
    values: &mut [u8; 256],
    levels: &mut [u16; 256],
    chosen: &mut [u16; 256],
) -> u16
    requires { (1 ≤ p) × (p ≤ 256) × (depth < 256) × Whole values.old levels.old × (length chosen.old ≡ 256) }
    ensures { Whole values.new levels.new × (length chosen.new ≡ 256)
        × (view_of values.new levels.new chosen.new result ≡ opened_as false p (view_of values.old levels.old chosen.old depth)) }
{
    let k = depth as usize;
    let level = depth + 1;
    chosen[k] = p as u16;
    set(p, false, level, values, levels);
    level
}

// All that was set at the present level is undone, and its choice atom becomes true, one level less present. The result is the level that is left.
pub fn flipped(
    depth: u16,
    chosen: &[u16; 256],
    values: &mut [u8; 256],
    levels: &mut [u16; 256],
) -> u16
    requires { (1 ≤ depth) × (depth ≤ 256) × (1 ≤ choices chosen.now depth depth) × (choices chosen.now depth depth ≤ 256) × Whole values.old levels.old }
    ensures { Whole values.new levels.new
        × (view_of values.new levels.new chosen.now result ≡ jumped_as true (depth - 1) (view_of values.old levels.old chosen.now depth)) }
{
    let level = depth - 1;
    let k = level as usize;
    let p = chosen[k] as usize;
    undo(depth, values, levels);
    set(p, true, level, values, levels);
    level
}
