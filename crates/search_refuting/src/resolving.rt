// Learning from steps that are false.
ghost use Rattle.std.specs.Prelude.{◌≤◌};

use search_base::{Found, Fuel, StepId};
use search_state::Prover;
use search_theory::attach;

/// Learns from a step that is false. Where it is false whatever is decided, the step without literals is given. The levels of bases are
/// left only where they have to be.
pub(crate) fn resolve(prover: &mut Prover, conflict: StepId, fuel: &mut Fuel) -> Found
    ensures { fuel.new.left ≤ fuel.old.left }
{
    prover.calm = 0;
    let level = prover.values.top(conflict, &prover.steps);
    prover.back(level as usize)?;
    if prover
        .steps
        .literals(conflict)
        .iter()
        .any(|it| prover.values.is_open(*it))
    {
        attach(prover, conflict, fuel)?;
        return Ok(None);
    }
    if level == 0 {
        return Ok(Some(prover.values.end_with(conflict, &mut prover.steps, fuel)?));
    }
    let learned = prover
        .values
        .learn(conflict, level, &mut prover.steps, fuel)?;
    let kept = (level as usize - 1).min(prover.bases.len().saturating_add(1));
    prover.back(kept.max(learned.behind as usize))?;
    attach(prover, learned.step, fuel)?;
    Ok(None)
}
