// What is decided where all that is known was looked at.
ghost use Rattle.std.specs.Prelude.{◌≤◌};

use crate::extending::extend;
use search_agenda::Item;
use search_base::{Found, Fuel, SearchStop, SignedTerm};
use search_bounds::{bounds, branch, probe, probe_all, tighten};
use search_state::Prover;
use search_theory::attach;

/// So many branches are made for a goal.
const MOST_BRANCHES: u32 = 40;

/// Where so much is decided and nothing is false, there is likely nothing that is: of what was found, 209 was the most.
const MOST_CALM: u64 = 2_000;

/// Says what follows of numbers, or decides what is wanted, or else what numbers need. Gives back a step that is false.
pub(crate) fn go_on(prover: &mut Prover, fuel: &mut Fuel) -> Found
    ensures { fuel.new.left ≤ fuel.old.left }
{
    let mut conflict = bound_all(prover, fuel)?;
    if conflict.is_none() && prover.values.is_told() {
        conflict = probe_all(prover, fuel)?;
    }
    if conflict.is_none() && prover.values.is_told() {
        conflict = tighten(prover, fuel)?;
    }
    if conflict.is_some() || !prover.values.is_told() {
        return Ok(conflict);
    }
    match prover.agenda.next_wanted(&prover.values) {
        Some(_) if prover.calm >= MOST_CALM => Err(SearchStop::Exhausted),
        Some(wanted) => decide_wanted(prover, wanted, fuel),
        None => go_further(prover, fuel),
    }
}

/// Decides a literal, unless it follows, or cannot be, by what is known of numbers.
fn decide_wanted(prover: &mut Prover, wanted: SignedTerm, fuel: &mut Fuel) -> Found
    ensures { fuel.new.left ≤ fuel.old.left }
{
    let n = wanted.term();
    if prover.terms.is_number_comparison(n) {
        if let Some(step) = probe(prover, n, fuel)? {
            return attach(prover, step, fuel);
        }
    }
    prover.decide(wanted)?;
    Ok(None)
}

/// Says more of products, or decides what numbers need, or has all looked at again.
fn go_further(prover: &mut Prover, fuel: &mut Fuel) -> Found
    ensures { fuel.new.left ≤ fuel.old.left }
{
    if extend(prover, fuel)? {
        return Ok(None);
    }
    let found = branch(prover, fuel)?;
    prover.branches = prover.branches.saturating_add(1);
    let Some(literal) = found.literal else {
        return look_through(prover);
    };
    if prover.branches > MOST_BRANCHES {
        return look_through(prover);
    }
    if let Some(step) = found.step {
        let conflict = attach(prover, step, fuel)?;
        if conflict.is_some() {
            return Ok(conflict);
        }
    }
    if prover.values.is_open(literal) {
        prover.decide(literal)?;
    }
    Ok(None)
}

/// Has everything looked at once more, unless that was done since the last literal got its value: then there is no more to find.
fn look_through(prover: &mut Prover) -> Found {
    let count = prover.values.count();
    if prover.looked_through == Some(count) {
        return Err(SearchStop::Exhausted);
    }
    prover.looked_through = Some(count);
    prover.agenda.wake_all()?;
    Ok(None)
}

/// Says what is known of choices between numbers. Gives back a step that is false.
fn bound_all(prover: &mut Prover, fuel: &mut Fuel) -> Found
    ensures { fuel.new.left ≤ fuel.old.left }
{
    for item in &prover.agenda.choices()? {
        let conflict = bound_one(prover, *item, fuel)?;
        if conflict.is_some() {
            return Ok(conflict);
        }
    }
    Ok(None)
}

/// Says what is known of a choice, once for the classes of its values.
fn bound_one(prover: &mut Prover, item: Item, fuel: &mut Fuel) -> Found
    ensures { fuel.new.left ≤ fuel.old.left }
{
    let Some(choice) = prover.choices.get(&item).copied() else {
        return Ok(None);
    };
    let values = choice.values;
    let (one, two) = (
        prover.classes.name(values[0]),
        prover.classes.name(values[1]),
    );
    if prover
        .bounded
        .insert((choice.term, choice.condition, one, two))?
    {
        bounds(prover, &choice, fuel)
    } else {
        Ok(None)
    }
}
