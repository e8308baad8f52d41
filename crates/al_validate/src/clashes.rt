ghost use Rattle.std.specs.Prelude.{◌≡◌};
ghost use Rattle.al_core.specs.Chunk.{Outcome};
ghost use Rattle.al_core.specs.Clash.{clashes};
ghost use Rattle.al_core.specs.Lines.{IsLineSize};
ghost use Rattle.al_snap.specs.Changes.{IsOutcome, told};

use al_core::{Choice, Policy};
use al_sets::AddrSet;
use al_snap::Change;

/// Whether a chunk clashes with what was written.
#[tactic(auto, unfolding(al_snap::specs::Changes::told))]
pub(crate) fn clash_by(policy: Policy, line: u32, change: &Change, written: &AddrSet) -> bool
    requires { IsLineSize line }
    ensures { result ≡ clashes policy line (told change.now) written.now.members }
{
    match policy {
        Policy::Full => change.reads.meets_lines(written, line)
            || change.touched.meets_lines(written, line),
        Policy::Raw => change.reads.meets_lines(written, line),
        Policy::Waw => change.touched.meets_lines(written, line),
        Policy::None => false,
    }
}

/// Whether a chunk clashes with what was written, by the policy and the line of a choice. It takes no memory.
pub fn clash(choice: &Choice, change: &Change, written: &AddrSet) -> bool
    requires { IsLineSize choice.now.line }
    ensures { (o : Outcome)
        → IsOutcome change.now o
        → result ≡ clashes choice.now.policy choice.now.line o written.now.members }
{
    clash_by(choice.policy, choice.line, change, written)
}

/// Whether a chunk clashes with what one earlier chunk touched. It takes no memory.
pub fn clashes_with(choice: &Choice, change: &Change, earlier: &Change) -> bool
    requires { IsLineSize choice.now.line }
    ensures { (o before : Outcome)
        → IsOutcome change.now o
        → IsOutcome earlier.now before
        → result ≡ clashes choice.now.policy choice.now.line o before.touched }
{
    clash_by(choice.policy, choice.line, change, &earlier.touched)
}
