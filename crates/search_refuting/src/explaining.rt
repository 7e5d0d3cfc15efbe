// The steps from which it follows that a goal is false, in an order in which they propagate.
//
// What is used a second time, and follows at a place on the way to a goal, is said once as a step of its own, `[-place literal]`, for
// all goals behind it.
ghost use Rattle.std.specs.Prelude.{◌≤◌};

use crate::grounds::{grounds, place_of, reason_of, said_here, trace};
use crate::hints::{Hints, ground, put_all};
use search_base::{Fuel, SearchStop, SignedTerm, StepId};
use search_state::{Prover, Said};

/// The step that says that a goal is false, or one of what is assumed; and whether anything is.
#[derive(Clone, Copy)]
pub(crate) struct Explained {
    pub(crate) step: StepId,
    pub(crate) is_assumed: bool,
}

/// Explains why a goal is false.
pub(crate) fn explain(
    prover: &mut Prover,
    goal: SignedTerm,
    fuel: &mut Fuel,
) -> Result<Explained, SearchStop>
    ensures { fuel.new.left ≤ fuel.old.left }
{
    let reason = reason_of(prover, goal);
    let needed = grounds(prover, reason, goal.negated())?;
    let origins = trace(prover, goal, &needed, fuel)?;
    say_used(prover, &origins.order, fuel)?;
    let mut hints = Hints::new(prover.alloc, goal)?;
    let assumed = derive(prover, &mut hints, &needed, fuel)?;
    hints.steps.push(reason)?;
    let literals = clause(prover, &[goal.negated()], &assumed)?;
    let step = prover.steps.implied(&literals, &hints.steps)?;
    Ok(Explained {
        step,
        is_assumed: !assumed.is_empty(),
    })
}

/// Says at their places what was used there before.
fn say_used(prover: &mut Prover, literals: &[SignedTerm], fuel: &mut Fuel) -> Result<(), SearchStop>
    ensures { fuel.new.left ≤ fuel.old.left }
{
    for it in literals {
        let place = place_of(prover, *it);
        if !place.is_none() && !prover.used.insert((place, *it))? {
            say_at(prover, place, *it, fuel)?;
        }
    }
    Ok(())
}

/// Says that a literal follows at a place, and what has to be assumed for it.
fn say_at(
    prover: &mut Prover,
    place: SignedTerm,
    literal: SignedTerm,
    fuel: &mut Fuel,
) -> Result<(), SearchStop>
    ensures { fuel.new.left ≤ fuel.old.left }
{
    if said_here(prover, place, place, literal).is_some() {
        return Ok(());
    }
    let reason = reason_of(prover, literal);
    let needed = grounds(prover, reason, literal)?;
    let mut hints = Hints::new(prover.alloc, place)?;
    let assumed = derive(prover, &mut hints, &needed, fuel)?;
    hints.steps.push(reason)?;
    let literals = clause(prover, &[place.negated(), literal], &assumed)?;
    let step = prover.steps.implied(&literals, &hints.steps)?;
    prover
        .said
        .insert((place, literal), Said { step, assumed })?;
    Ok(())
}

/// Some literals, and the negations of what is assumed.
fn clause(
    prover: &Prover,
    literals: &[SignedTerm],
    assumed: &[SignedTerm],
) -> Result<Vec<SignedTerm>, SearchStop> {
    let mut found = Vec::with_capacity(prover.alloc, literals.len())?;
    found.extend_from_slice(literals)?;
    for it in assumed {
        found.push(it.negated())?;
    }
    Ok(found)
}

/// Puts the steps for literals, and gives what was decided for them that the top does not imply.
fn derive(
    prover: &mut Prover,
    hints: &mut Hints,
    literals: &[SignedTerm],
    fuel: &mut Fuel,
) -> Result<Vec<SignedTerm>, SearchStop>
    ensures { fuel.new.left ≤ fuel.old.left }
{
    let origins = trace(prover, hints.top, literals, fuel)?;
    hints.assume(&origins.assumed)?;
    put_all(prover, hints, &origins.order, fuel)?;
    for it in literals {
        ground(prover, hints, *it, fuel)?;
    }
    Ok(origins.assumed)
}
