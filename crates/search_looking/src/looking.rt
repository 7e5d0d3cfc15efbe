// Going through the agenda.
ghost use Rattle.std.specs.Prelude.{◌≤◌};

use crate::terms::term;
use crate::truths::{ahead, truth};
use search_agenda::Item;
use search_base::{Found, Fuel, SearchStop};
use search_classes::Touched;
use search_state::Prover;
use search_terms::TermKind;
use search_theory::propagate;

/// Looks at what is on the agenda, until the goal is false or nothing is left. Gives back a step that is false.
pub fn look(prover: &mut Prover, fuel: &mut Fuel) -> Found
    ensures { fuel.new.left ≤ fuel.old.left }
{
    while !prover.values.is_done() {
        fuel.take(1)?;
        tell_touched(prover)?;
        let Some(item) = prover.agenda.next(fuel)? else {
            return Ok(None);
        };
        let conflict = look_at_one(prover, item, fuel)?;
        if conflict.is_some() {
            prover.agenda.stopped(item)?;
            return Ok(conflict);
        }
    }
    Ok(None)
}

/// Wakes what waits for classes that were touched.
fn tell_touched(prover: &mut Prover) -> Result<(), SearchStop> {
    for touched in &prover.classes.take_touched() {
        match *touched {
            Touched::Joined { old, new, is_known } => prover.agenda.joined(old, new, is_known)?,
            Touched::Parted(one, other) => prover.agenda.parted(one, other)?,
        }
    }
    Ok(())
}

/// Looks at an item, and at what follows from that. Gives back a step that is false.
fn look_at_one(prover: &mut Prover, item: Item, fuel: &mut Fuel) -> Found
    ensures { fuel.new.left ≤ fuel.old.left }
{
    prover.item = item;
    let conflict = look_into(prover, item, fuel)?;
    if conflict.is_none() && !prover.values.is_told() {
        return propagate(prover, fuel);
    }
    Ok(conflict)
}

fn look_into(prover: &mut Prover, item: Item, fuel: &mut Fuel) -> Found
    ensures { fuel.new.left ≤ fuel.old.left }
{
    let n = item.term();
    if item.is_ahead() {
        ahead(prover, n, fuel)
    } else if prover.terms.kind(n.literal()) == TermKind::Bool {
        truth(prover, n, fuel)
    } else {
        term(prover, n, fuel)
    }
}
