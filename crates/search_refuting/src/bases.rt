// The places on the way to a goal that are decided.
ghost use Rattle.std.specs.Prelude.{◌≤◌};

use search_base::{Fuel, SearchStop, SignedTerm, get};
use search_state::Prover;
use search_terms::TermOp;

/// Goes back to what is on the way to a goal, and decides where it parted from that.
pub(crate) fn leave(
    prover: &mut Prover,
    goal: SignedTerm,
    fuel: &mut Fuel,
) -> Result<(), SearchStop>
    ensures { fuel.new.left ≤ fuel.old.left }
{
    let kept = kept_bases(prover, goal, fuel)?;
    if kept >= prover.bases.len() {
        return Ok(());
    }
    let first = get(&prover.bases, kept);
    let shared = prover
        .paths
        .meet(first, goal, &prover.terms, &mut prover.steps)?;
    prover.bases.truncate(kept);
    prover.back(kept)?;
    match shared {
        Some(place) if prover.values.is_open(place) => decide_base(prover, place),
        _ => Ok(()),
    }
}

/// How many of the places that are decided a goal is behind.
fn kept_bases(prover: &mut Prover, goal: SignedTerm, fuel: &mut Fuel) -> Result<usize, SearchStop>
    ensures { fuel.new.left ≤ fuel.old.left }
{
    let mut kept = prover.bases.len();
    for _ in 0..prover.bases.len() {
        let place = get(&prover.bases, kept.saturating_sub(1));
        if is_behind(prover, goal, place, fuel)? {
            break;
        }
        kept = kept.saturating_sub(1);
    }
    Ok(kept)
}

/// Whether a run that comes to a goal came through a place, or may have where it came through one side of a branch.
fn is_behind(
    prover: &mut Prover,
    goal: SignedTerm,
    place: SignedTerm,
    fuel: &mut Fuel,
) -> Result<bool, SearchStop>
    ensures { fuel.new.left ≤ fuel.old.left }
{
    if prover
        .paths
        .climb(goal, place, &prover.terms, &mut prover.steps)?
        .is_some()
    {
        return Ok(true);
    }
    if !prover.by_side {
        return Ok(false);
    }
    prover
        .paths
        .may_pass(goal, place, &prover.terms, &mut prover.steps, fuel)
}

/// Decides the place of a goal, or the goal.
pub(crate) fn come_to(prover: &mut Prover, goal: SignedTerm) -> Result<(), SearchStop> {
    let place = prover.terms.part(goal.term(), 0);
    if has_place(prover, goal, place)? && prover.values.is_open(place) {
        return decide_base(prover, place);
    }
    let bases = prover.bases.len();
    if prover.values.levels() > bases {
        prover.back(bases)
    } else {
        prover.decide(goal)
    }
}

/// Whether a goal says that a run comes to a place and fails there.
fn has_place(prover: &mut Prover, goal: SignedTerm, place: SignedTerm) -> Result<bool, SearchStop> {
    if !goal.is_plain() || prover.terms.op(goal.term()) != TermOp::And {
        return Ok(false);
    }
    Ok(
        prover
            .paths
            .climb(goal, place, &prover.terms, &mut prover.steps)?
            .is_some(),
    )
}

/// Decides a place, and looks at what is known there.
fn decide_base(prover: &mut Prover, place: SignedTerm) -> Result<(), SearchStop> {
    prover.bases.push(place)?;
    prover.decide(place)?;
    prover.look_at(place)
}
