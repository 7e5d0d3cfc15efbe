// What a `forall` says of places.
ghost use Rattle.std.specs.Prelude.{◌≤◌};

use search_base::{Found, Fuel, SearchStop, SignedTerm, copied, list_at, set};
use search_state::{Instance, Prover};
use search_steps::StepRule;
use search_theory::attach;

/// Says what each `forall` that reads a map says at keys. Gives back a step that is false.
pub(crate) fn triggered(
    prover: &mut Prover,
    map: SignedTerm,
    keys: &[SignedTerm],
    fuel: &mut Fuel,
) -> Found
    ensures { fuel.new.left ≤ fuel.old.left }
{
    for number in &copied(prover.alloc, list_at(&prover.triggers, map.term().place()))? {
        let conflict = triggered_by(prover, *number, keys, fuel)?;
        if conflict.is_some() {
            return Ok(conflict);
        }
    }
    Ok(None)
}

/// Says what a `forall` says at keys, where it holds.
fn triggered_by(prover: &mut Prover, number: u32, keys: &[SignedTerm], fuel: &mut Fuel) -> Found
    ensures { fuel.new.left ≤ fuel.old.left }
{
    let Some(forall) = prover.problem.foralls.get(number as usize) else {
        return Ok(None);
    };
    let term = forall.term.literal();
    if !prover.values.is_true(term) {
        prover.wait_for(term)?;
        return Ok(None);
    }
    let instance = instance(prover, number, keys)?;
    prover.look_at(instance.body)?;
    attach(prover, instance.step, fuel)
}

/// The body of a `forall` at keys, and the step that says it, made once.
fn instance(prover: &mut Prover, number: u32, keys: &[SignedTerm]) -> Result<Instance, SearchStop> {
    let key = (number, copied(prover.alloc, keys)?);
    if let Some(found) = prover.instances.get(&key) {
        return Ok(*found);
    }
    let made = make_instance(prover, number, keys)?;
    prover.instances.insert(key, made)?;
    Ok(made)
}

fn make_instance(
    prover: &mut Prover,
    number: u32,
    keys: &[SignedTerm],
) -> Result<Instance, SearchStop> {
    let Some(forall) = prover.problem.foralls.get(number as usize) else {
        return Err(SearchStop::Malformed);
    };
    let term = forall.term;
    let body = forall.at(prover.alloc, keys, &mut prover.terms)?;
    let mut words = vec![in prover.alloc; prover.terms.index(term), body.word()]?;
    for it in keys {
        words.push(it.word())?;
    }
    let literals = [term.literal().negated(), body];
    let step = prover.steps.add_words(&literals, StepRule::Inst, &words)?;
    set(&mut prover.bodies, body.term().place(), true)?;
    Ok(Instance { body, step })
}
