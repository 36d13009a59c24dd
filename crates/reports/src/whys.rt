// The rounds and rules that come with an answer, as numbers (02, request 1): atom i's round at index 2 (i - 1), and its rule after it. Meaning:
// `specs/Whys.antt`.
ghost use Rattle.std.specs.Prelude.{◌≡◌, length};
ghost use Rattle.reports.specs.Whys.{whys_written};

use rounds::Why;

// "a lent array of 512 numbers": written whole, or, where it is shorter, not at all.
pub fn write(whys: [Why; 256], numbers: &mut [u16])
    ensures { numbers.new ≡ whys_written whys numbers.old }
{
    if numbers.len() < 512 {
        return;
    }
    for (i, why) in whys.iter().enumerate() {
        numbers[2 * i] = why.round;
        numbers[2 * i + 1] = why.rule;
    }
}
