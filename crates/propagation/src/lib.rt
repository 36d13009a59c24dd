// Propagation (01, "Propagation"): the reason of steps d and e, and the laws by which the passes of crate `jumping` are those of crate `steps`
// (`proofs/`): what each step of the code makes of the working state, how a pass and the passes go on by one, and what is handed over at their end.
// What a rule asks is read by crate `rules`, what an atom asks by crate `support`.
#![tactic(auto)]

ghost use Rattle.std.specs.Prelude.{◌≡◌, ◌≤◌};
ghost use Rattle.levels.specs.Levels.{union};
ghost use Rattle.levels.specs.View.{row, rows};
ghost use Rattle.interpretation.specs.View.{valued};
ghost use Rattle.layout.specs.Accepted.{program_in};
ghost use Rattle.heads.specs.Heads.{Listed};
ghost use Rattle.support.specs.Asking.{blame_of};

use heads::Lists;
use layout::Accepted;

// The reason of atom p with those of the witnesses of the rules that do not support it: step d's at a conflict, and step e's.
pub fn whole_reason(
    t: &Accepted,
    lists: &Lists,
    p: usize,
    values: &[u8; 256],
    reasons: &[[u64; 4]; 256],
) -> [u64; 4]
    requires { Listed t.now.words.now t.now.places lists.now × (1 ≤ p) × (p ≤ t.now.places.atoms) }
    ensures { row result ≡ union (rows reasons.now p) (blame_of (valued values.now) (rows reasons.now) p (program_in t.now)) }
{
    let others = support::blame(t, lists, p, values, reasons);
    let i = p - 1;
    let own = reasons[i];
    levels::union(own, others)
}
