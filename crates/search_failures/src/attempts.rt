// Attempts to refute an assertion.
ghost use Rattle.std.specs.Prelude.{◌≤◌};

use search_base::{Fuel, SearchStop, SignedTerm};
use search_refuting::{Paid, Refuted, refute};
use search_state::Prover;

/// How the search for the refutation of one assertion ended.
#[derive(Clone, Copy)]
pub(crate) enum Ended {
    Refuted,
    OnOneSide,
    /// There was nothing more to look at.
    Exhausted,
    /// It was too hard.
    Early,
}

/// Refutes a goal within so many steps.
pub(crate) fn refute_within(
    prover: &mut Prover,
    goal: SignedTerm,
    steps: u64,
    paid: &mut Paid,
    fuel: &mut Fuel,
) -> Result<Ended, SearchStop>
    ensures { fuel.new.left ≤ fuel.old.left }
{
    let most = fuel.left.min(steps);
    let mut own = Fuel::new(most);
    let found = refute(prover, goal, paid, &mut own);
    let Fuel { left } = own;
    let used = most.saturating_sub(left);
    fuel.left = fuel.left.saturating_sub(used);
    fuel.take(1)?;
    match found {
        Ok(Refuted::By(_)) => Ok(Ended::Refuted),
        Ok(Refuted::OnOneSide) => Ok(Ended::OnOneSide),
        Err(SearchStop::Exhausted) => Ok(Ended::Exhausted),
        Err(SearchStop::Memory) => Err(SearchStop::Memory),
        Err(_) => Ok(Ended::Early),
    }
}
