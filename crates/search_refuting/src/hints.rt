// Steps for literals that follow where the top is true.
ghost use Rattle.std.specs.Prelude.{◌≤◌};

use crate::grounds::{grounds, is_fixed, place_of, reason_of, said_here};
use search_base::{Fuel, SearchStop, SignedTerm, StepId, copied};
use search_paths::Back;
use search_state::Prover;
use search_steps::StepRule;
use std::alloc::Global;
use std::collections::BTreeSet;

/// Steps for literals that follow where the top is true.
#[derive(Drop)]
pub(crate) struct Hints {
    pub(crate) top: SignedTerm,
    /// The literals that the steps so far show.
    done: BTreeSet<SignedTerm>,
    pub(crate) steps: Vec<StepId>,
}

impl Hints {
    /// No steps.
    pub(crate) fn new(alloc: Global, top: SignedTerm) -> Result<Hints, SearchStop> {
        let mut done = BTreeSet::new(alloc);
        done.insert(top)?;
        Ok(Hints {
            top,
            done,
            steps: Vec::new(alloc),
        })
    }

    /// Takes literals as shown.
    pub(crate) fn assume(&mut self, literals: &[SignedTerm]) -> Result<(), SearchStop> {
        for it in literals {
            self.done.insert(*it)?;
        }
        Ok(())
    }

    /// Puts the step that shows a literal, unless it is shown.
    fn put(&mut self, literal: SignedTerm, step: StepId) -> Result<(), SearchStop> {
        if self.done.insert(literal)? {
            self.steps.push(step)?;
        }
        Ok(())
    }

    /// Puts the steps of a way from the top, but for those that lead to what is shown already.
    fn go(&mut self, way: &[Back]) -> Result<(), SearchStop> {
        for (literal, step) in way {
            self.put(*literal, *step)?;
        }
        Ok(())
    }
}

/// Puts the reasons of literals, in their order, and before each the steps for what it stands on.
pub(crate) fn put_all(
    prover: &mut Prover,
    hints: &mut Hints,
    order: &[SignedTerm],
    fuel: &mut Fuel,
) -> Result<(), SearchStop>
    ensures { fuel.new.left ≤ fuel.old.left }
{
    for it in order {
        let reason = reason_of(prover, *it);
        let needed = grounds(prover, reason, *it)?;
        ground_all(prover, hints, &needed, fuel)?;
        hints.put(*it, reason)?;
    }
    Ok(())
}

fn ground_all(
    prover: &mut Prover,
    hints: &mut Hints,
    literals: &[SignedTerm],
    fuel: &mut Fuel,
) -> Result<(), SearchStop>
    ensures { fuel.new.left ≤ fuel.old.left }
{
    for it in literals {
        ground(prover, hints, *it, fuel)?;
    }
    Ok(())
}

/// Puts the steps for a literal that is known where the top is true and what is assumed.
pub(crate) fn ground(
    prover: &mut Prover,
    hints: &mut Hints,
    literal: SignedTerm,
    fuel: &mut Fuel,
) -> Result<(), SearchStop>
    ensures { fuel.new.left ≤ fuel.old.left }
{
    if is_on_way(prover, hints, literal, fuel)? {
        return Ok(());
    }
    let place = place_of(prover, literal);
    let Some(said) = said_here(prover, hints.top, place, literal) else {
        return Ok(());
    };
    let step = said.step;
    let assumed = copied(prover.alloc, &said.assumed)?;
    is_on_way(prover, hints, place, fuel)?;
    put_ways(prover, hints, &assumed, fuel)?;
    hints.put(literal, step)
}

/// Puts the steps for literals that stand on the way to the top.
fn put_ways(
    prover: &mut Prover,
    hints: &mut Hints,
    literals: &[SignedTerm],
    fuel: &mut Fuel,
) -> Result<(), SearchStop>
    ensures { fuel.new.left ≤ fuel.old.left }
{
    for it in literals {
        is_on_way(prover, hints, *it, fuel)?;
    }
    Ok(())
}

/// Puts the steps for a literal that is shown, stands on the way to the top or is true whatever is decided. Whether it is.
fn is_on_way(
    prover: &mut Prover,
    hints: &mut Hints,
    literal: SignedTerm,
    fuel: &mut Fuel,
) -> Result<bool, SearchStop>
    ensures { fuel.new.left ≤ fuel.old.left }
{
    if hints.done.contains(&literal) {
        return Ok(true);
    }
    if climbs(prover, hints, literal)? {
        return Ok(true);
    }
    if is_fixed(prover, literal) {
        let step = prover.values.unit(literal.term(), &mut prover.steps, fuel)?;
        hints.put(literal, step)?;
        return Ok(true);
    }
    let Some(owner) = prover.paths.owner(literal) else {
        return Ok(false);
    };
    if !climbs(prover, hints, owner)? {
        return Ok(false);
    }
    let step = prover.steps.add_words(
        &[owner.negated(), literal],
        StepRule::Gate,
        &[owner.word(), 2],
    )?;
    hints.put(literal, step)?;
    Ok(true)
}

/// Puts the steps from the top to a literal that stands before it. Whether it does.
fn climbs(prover: &mut Prover, hints: &mut Hints, literal: SignedTerm) -> Result<bool, SearchStop> {
    match prover
        .paths
        .climb(hints.top, literal, &prover.terms, &mut prover.steps)?
    {
        Some(way) => {
            hints.go(&way)?;
            Ok(true)
        }
        None => Ok(false),
    }
}
