// The words of the notation: the four functions.
ghost use Rattle.std.specs.Prelude.{◌≡◌};
ghost use Rattle.notation.specs.Aggregates.{function_of};
ghost use Rattle.read_notation.specs.Naming.{named_of};

use aspif_scan::kind::same;
use meaning::Function;

// The function that a word names, if it names one.
#[tactic(auto, unfolding(notation::specs::Aggregates::function_of))]
pub fn function_of(word: &[u8]) -> Option<Function>
    ensures { named_of result ≡ function_of word.now }
{
    if same(word, b"count") {
        return Some(Function::Count);
    }
    if same(word, b"sum") {
        return Some(Function::Sum);
    }
    if same(word, b"min") {
        return Some(Function::Min);
    }
    if same(word, b"max") {
        return Some(Function::Max);
    }
    None
}
