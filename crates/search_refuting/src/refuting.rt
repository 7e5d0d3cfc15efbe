// Refuting goals: literals that say that an assertion fails.
ghost use Rattle.std.specs.Prelude.{◌≤◌};

use crate::bases::{come_to, leave};
use crate::deciding::go_on;
use crate::explaining::explain;
use crate::keeping::Paid;
use crate::resolving::resolve;
use search_base::{Found, Fuel, SearchStop, SignedTerm, StepId, copied, get};
use search_looking::look;
use search_sides::check_numbers;
use search_state::Prover;
use search_theory::{attach, cycle, gate, propagate};
use std::alloc::Global;
use std::collections::{BTreeMap, BTreeSet};

/// What an attempt at a goal came to.
#[derive(Clone, Copy)]
pub enum Refuted {
    /// The step that says alone that it is false.
    By(StepId),
    /// It hangs on the side of a branch that is decided.
    OnOneSide,
}

/// What an attempt at all goals came to.
#[derive(Drop)]
pub enum Refutation {
    /// The steps that say of each goal alone that it is false, in their order.
    All(Vec<StepId>),
    /// The place of the first goal that is not refuted.
    Open(usize),
}

/// What a round came to.
#[derive(Clone, Copy)]
enum Round {
    Ended(Refuted),
    /// There is more to do; or first of all a step that is false.
    Open(Option<StepId>),
}

/// The steps that refuted goals have so far.
type Refutations = BTreeMap<SignedTerm, StepId>;

/// Refutes all goals, or tells the first one for which there is nothing more to look at.
///
/// At first a goal behind a branch is looked at where a run came through the side that was looked at last, so that what is known there
/// is not looked at anew; and then through the other side.
pub fn refute_all(prover: &mut Prover, fuel: &mut Fuel) -> Result<Refutation, SearchStop>
    ensures { fuel.new.left ≤ fuel.old.left }
{
    let goals = copied(prover.alloc, &prover.problem.goals)?;
    let mut found = BTreeMap::new(prover.alloc);
    let mut paid = Paid::default();
    prover.by_side = true;
    let open = refute_open(prover, &goals, &mut found, &mut paid, fuel)?;
    if open.is_some() {
        begin_anew(prover)?;
    }
    prover.by_side = false;
    let before = goals.get(..open.unwrap_or(goals.len())).unwrap_or(&[]);
    match refute_open(prover, before, &mut found, &mut paid, fuel)?.or(open) {
        Some(place) => Ok(Refutation::Open(place)),
        None => Ok(Refutation::All(in_order(prover.alloc, &goals, &found)?)),
    }
}

/// The steps that refuted goals, in the order of these.
fn in_order(
    alloc: Global,
    goals: &[SignedTerm],
    found: &Refutations,
) -> Result<Vec<StepId>, SearchStop> {
    let mut steps = Vec::with_capacity(alloc, goals.len())?;
    for goal in goals {
        steps.push(found.get(goal).copied().ok_or(SearchStop::Exhausted)?)?;
    }
    Ok(steps)
}

/// Tries the goals that are not refuted yet, up to the first one for which there is nothing more to look at. Its place.
fn refute_open(
    prover: &mut Prover,
    goals: &[SignedTerm],
    found: &mut Refutations,
    paid: &mut Paid,
    fuel: &mut Fuel,
) -> Result<Option<usize>, SearchStop>
    ensures { fuel.new.left ≤ fuel.old.left }
{
    for place in 0..goals.len() {
        let goal = get(goals, place);
        if !found.contains_key(&goal) {
            match refute(prover, goal, paid, fuel) {
                Ok(Refuted::By(step)) => {
                    found.insert(goal, step)?;
                }
                Ok(Refuted::OnOneSide) => {}
                Err(SearchStop::Exhausted) => return Ok(Some(place)),
                Err(stop) => return Err(stop),
            }
        }
    }
    Ok(None)
}

/// Takes back all that is decided, where a goal was not refuted, so that another one can be tried.
pub fn begin_anew(prover: &mut Prover) -> Result<(), SearchStop> {
    prover.back(0)?;
    prover.bases.clear();
    prover.products.extra.clear();
    prover.looked_through = None;
    Ok(())
}

/// Refutes a goal. Decided are first the place where it parts from the one before, then its own place, and then it. `Exhausted` where
/// there is nothing more to look at: what is assigned then is as far as the search knows so that the goal is true.
pub fn refute(
    prover: &mut Prover,
    goal: SignedTerm,
    paid: &mut Paid,
    fuel: &mut Fuel,
) -> Result<Refuted, SearchStop>
    ensures { fuel.new.left ≤ fuel.old.left }
{
    prover.branches = 0;
    prover.calm = 0;
    prover.values.goal = goal;
    let mut round = Round::Open(begin(prover, goal, fuel)?);
    while let Round::Open(conflict) = round {
        fuel.take(1)?;
        round = go_round(prover, goal, conflict, fuel)?;
        paid.pay(prover, fuel)?;
    }
    match round {
        Round::Ended(refuted) => Ok(refuted),
        Round::Open(_) => Err(SearchStop::Exhausted),
    }
}

/// Comes to where a goal parts from the one before. Gives back a step that is false.
fn begin(prover: &mut Prover, goal: SignedTerm, fuel: &mut Fuel) -> Found
    ensures { fuel.new.left ≤ fuel.old.left }
{
    prover.bounded = BTreeSet::new(prover.alloc);
    let conflict = gate(prover, goal.term(), fuel)?;
    if conflict.is_some() {
        return Ok(conflict);
    }
    leave(prover, goal, fuel)?;
    propagate(prover, fuel)
}

fn go_round(
    prover: &mut Prover,
    goal: SignedTerm,
    conflict: Option<StepId>,
    fuel: &mut Fuel,
) -> Result<Round, SearchStop>
    ensures { fuel.new.left ≤ fuel.old.left }
{
    if let Some(step) = conflict {
        return learn(prover, step, fuel);
    }
    match prover.values.value(goal) {
        None => Ok(Round::Open(look_before(prover, goal, fuel)?)),
        Some(true) => Ok(Round::Open(look_on(prover, goal, fuel)?)),
        Some(false) => explained(prover, goal, fuel),
    }
}

/// Learns from a step that is false.
fn learn(prover: &mut Prover, conflict: StepId, fuel: &mut Fuel) -> Result<Round, SearchStop>
    ensures { fuel.new.left ≤ fuel.old.left }
{
    if let Some(empty) = resolve(prover, conflict, fuel)? {
        return Ok(Round::Ended(Refuted::By(empty)));
    }
    let levels = prover.values.levels();
    prover.bases.truncate(levels);
    Ok(Round::Open(propagate(prover, fuel)?))
}

/// Looks at what is known on the way to a goal, and then proceeds to it. Gives back a step that is false.
fn look_before(prover: &mut Prover, goal: SignedTerm, fuel: &mut Fuel) -> Found
    ensures { fuel.new.left ≤ fuel.old.left }
{
    let conflict = look(prover, fuel)?;
    if conflict.is_some() || !prover.values.is_open(goal) {
        return Ok(conflict);
    }
    come_to(prover, goal)?;
    propagate(prover, fuel)
}

/// Looks at a goal that is decided, and at all that is known there. Gives back a step that is false.
fn look_on(prover: &mut Prover, goal: SignedTerm, fuel: &mut Fuel) -> Found
    ensures { fuel.new.left ≤ fuel.old.left }
{
    prover.look_at(goal)?;
    look_at_extra(prover)?;
    let mut conflict = look(prover, fuel)?;
    if conflict.is_none() && !prover.values.is_done() {
        conflict = cycle(prover, fuel)?;
    }
    if conflict.is_none() && !prover.values.is_done() {
        conflict = check_numbers(prover, fuel)?;
    }
    if conflict.is_none() && !prover.values.is_done() {
        conflict = go_on(prover, fuel)?;
    }
    if conflict.is_some() {
        return Ok(conflict);
    }
    propagate(prover, fuel)
}

/// Looks at what products need.
fn look_at_extra(prover: &mut Prover) -> Result<(), SearchStop> {
    for n in &copied(prover.alloc, &prover.products.extra)? {
        prover.look_at(n.literal())?;
    }
    Ok(())
}

/// A goal is false: gives the step that says that alone. Where it hangs on what was decided, it is tried anew, or on the other side.
fn explained(prover: &mut Prover, goal: SignedTerm, fuel: &mut Fuel) -> Result<Round, SearchStop>
    ensures { fuel.new.left ≤ fuel.old.left }
{
    if prover.values.level(goal) == 0 {
        let step = prover.values.unit(goal.term(), &mut prover.steps, fuel)?;
        return Ok(Round::Ended(Refuted::By(step)));
    }
    let reason = explain(prover, goal, fuel)?;
    attach(prover, reason.step, fuel)?;
    if !reason.is_assumed {
        return Ok(Round::Ended(Refuted::By(reason.step)));
    }
    if prover.by_side {
        return Ok(Round::Ended(Refuted::OnOneSide));
    }
    Ok(Round::Open(start_anew(prover, goal, fuel)?))
}

/// Tries a goal from where nothing is decided. Gives back a step that is false.
fn start_anew(prover: &mut Prover, goal: SignedTerm, fuel: &mut Fuel) -> Found
    ensures { fuel.new.left ≤ fuel.old.left }
{
    prover.back(0)?;
    prover.bases.clear();
    prover.bounded = BTreeSet::new(prover.alloc);
    leave(prover, goal, fuel)?;
    propagate(prover, fuel)
}
