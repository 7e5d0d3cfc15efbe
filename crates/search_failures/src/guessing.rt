// Values at which an assertion fails, where the search for a refutation found nothing more to look at.
use crate::attempts::{Ended, refute_within};
use crate::labels::LabelKey;
use crate::standings::Standings;
use search_base::{Fuel, SearchStop, SignedTerm, TermId, get, number, set};
use search_models::{make_model, put_model};
use search_state::Prover;

/// So much is done for the values of one assertion.
const STEPS_FOR_ONE: u64 = 1_300_000;

/// So many decisions are taken the other way, one at a time.
const MOST_TURNS: u32 = 16;

/// Puts values at which all is so that is assigned, where they are found.
pub(crate) fn put_values(
    prover: &mut Prover,
    label: LabelKey,
    found: &mut Standings,
) -> Result<(), SearchStop> {
    let most = found.left.min(STEPS_FOR_ONE);
    let mut fuel = Fuel::new(most);
    let text = values_text(prover, &mut fuel);
    let Fuel { left } = fuel;
    found.left = found.left.saturating_sub(most.saturating_sub(left));
    match text {
        Ok(Some(text)) => {
            found.values.insert(label, text)?;
            Ok(())
        }
        Err(SearchStop::Memory) => Err(SearchStop::Memory),
        _ => Ok(()),
    }
}

/// The text of values at which all is so that is assigned.
fn values_text(prover: &mut Prover, fuel: &mut Fuel) -> Result<Option<Vec<u8>>, SearchStop> {
    let Some(model) = make_model(prover, fuel)? else {
        return Ok(None);
    };
    let mut text = Vec::new(prover.alloc);
    put_model(&mut text, &model, fuel)?;
    Ok(Some(text))
}

/// Takes decisions the other way, one after the other, the last one first, until values are found. What was decided may have been
/// impossible in a way that the search does not know.
pub(crate) fn turn(
    prover: &mut Prover,
    place: usize,
    label: LabelKey,
    found: &mut Standings,
) -> Result<(), SearchStop> {
    let mut level = prover.values.levels();
    for _ in 0..MOST_TURNS {
        level = level.min(prover.values.levels());
        if found.values.contains_key(&label) || !is_behind(prover, place, level) {
            return Ok(());
        }
        let decision = decision_at(prover, level)?;
        level = level.saturating_sub(1);
        if decision.is_none() || !turn_one(prover, place, level, decision, found)? {
            return Ok(());
        }
        put_values(prover, label, found)?;
    }
    Ok(())
}

/// Whether a level is behind the one of the goal at a place.
fn is_behind(prover: &Prover, place: usize, level: usize) -> bool {
    let goal = get(&prover.problem.goals, place);
    prover.values.is_true(goal) && level > prover.values.level(goal) as usize
}

/// Goes back to a level and takes the decision behind it the other way. Whether there was nothing more to look at.
fn turn_one(
    prover: &mut Prover,
    place: usize,
    level: usize,
    decision: SignedTerm,
    found: &mut Standings,
) -> Result<bool, SearchStop> {
    prover.back(level)?;
    prover.looked_through = None;
    prover.decide(decision.negated())?;
    let goal = get(&prover.problem.goals, place);
    let most = found.left.min(STEPS_FOR_ONE);
    let mut fuel = Fuel::new(most);
    let ended = refute_within(prover, goal, most, &mut found.paid, &mut fuel);
    let Fuel { left } = fuel;
    found.left = found.left.saturating_sub(most.saturating_sub(left));
    match ended {
        Ok(Ended::Exhausted) => return Ok(true),
        Ok(Ended::Refuted) => set(&mut found.refuted, place, true)?,
        Err(SearchStop::Memory) => return Err(SearchStop::Memory),
        _ => {}
    }
    Ok(false)
}

/// What was decided at a level, from 1 on, or none.
fn decision_at(prover: &Prover, level: usize) -> Result<SignedTerm, SearchStop> {
    for place in 0..number(prover.terms.end())? {
        let it = TermId::of(place).literal();
        if prover.values.level(it) as usize == level {
            for literal in [it, it.negated()] {
                if prover.values.is_decided(literal) {
                    return Ok(literal);
                }
            }
        }
    }
    Ok(SignedTerm::NONE)
}
