// What is found of assertions, one after the other.
ghost use Rattle.std.specs.Prelude.{◌≤◌};

use crate::attempts::{Ended, refute_within};
use crate::guessing::{put_values, turn};
use crate::labels::{LabelKey, key_of};
use boogie_formula::Conditions;
use search_base::{Fuel, SearchStop, SignedTerm, get, set};
use search_refuting::{Paid, begin_anew};
use search_state::Prover;
use search_units::begin;
use std::alloc::Global;
use std::collections::{BTreeMap, BTreeSet};

/// So much is done to refute one assertion, so that one that is hard leaves enough for the others.
const STEPS_FOR_GOAL: u64 = 2_600_000;

/// So much is done for the values of all assertions: it is paid apart from what is done for proofs.
const STEPS_FOR_VALUES: u64 = 13_000_000;

/// What is found of assertions.
#[derive(Drop)]
pub(crate) struct Standings {
    /// By the place of an assertion, whether it is refuted.
    pub(crate) refuted: Vec<bool>,
    /// The goals for which there was nothing more to look at.
    exhausted: BTreeSet<SignedTerm>,
    /// By label, the text of values at which one of its assertions fails.
    pub(crate) values: BTreeMap<LabelKey, Vec<u8>>,
    /// What was paid for memory.
    pub(crate) paid: Paid,
    /// How much more is done for values.
    pub(crate) left: u64,
}

impl Standings {
    /// Nothing is found yet.
    pub(crate) fn new(alloc: Global) -> Standings {
        Standings {
            refuted: Vec::new(alloc),
            exhausted: BTreeSet::new(alloc),
            values: BTreeMap::new(alloc),
            paid: Paid::default(),
            left: STEPS_FOR_VALUES,
        }
    }

    /// Whether there is more to find of the assertion at a place, with its goal and label.
    fn is_wanted(&self, place: usize, goal: SignedTerm, label: LabelKey) -> bool {
        !get(&self.refuted, place)
            && !self.exhausted.contains(&goal)
            && !self.values.contains_key(&label)
    }
}

/// Tries all assertions: first where a run came through the side of a branch that was looked at last, and then through the other one.
pub(crate) fn try_all(
    alloc: Global,
    conditions: &Conditions,
    found: &mut Standings,
    fuel: &mut Fuel,
) -> Result<(), SearchStop>
    ensures { fuel.new.left ≤ fuel.old.left }
{
    let mut prover = begin(alloc, conditions, fuel)?;
    for by_side in [true, false] {
        prover.by_side = by_side;
        try_each(&mut prover, conditions, found, fuel)?;
    }
    Ok(())
}

fn try_each(
    prover: &mut Prover,
    conditions: &Conditions,
    found: &mut Standings,
    fuel: &mut Fuel,
) -> Result<(), SearchStop>
    ensures { fuel.new.left ≤ fuel.old.left }
{
    for place in 0..conditions.fails.len() {
        let goal = get(&prover.problem.goals, place);
        if let Some(fail) = conditions.fails.get(place) {
            let label = key_of(fail.label);
            if found.is_wanted(place, goal, label) && !try_one(prover, place, label, found, fuel)? {
                start_over(prover, conditions, fuel)?;
            }
        }
    }
    Ok(())
}

/// Forgets all: a search that ended in the middle is not continued.
fn start_over(
    prover: &mut Prover,
    conditions: &Conditions,
    fuel: &mut Fuel,
) -> Result<(), SearchStop>
    ensures { fuel.new.left ≤ fuel.old.left }
{
    fuel.take(prover.terms.end())?;
    let by_side = prover.by_side;
    *prover = begin(prover.alloc, conditions, fuel)?;
    prover.by_side = by_side;
    Ok(())
}

/// Refutes the assertion at a place, or finds values at which it fails. Whether the search came to an end.
fn try_one(
    prover: &mut Prover,
    place: usize,
    label: LabelKey,
    found: &mut Standings,
    fuel: &mut Fuel,
) -> Result<bool, SearchStop>
    ensures { fuel.new.left ≤ fuel.old.left }
{
    let goal = get(&prover.problem.goals, place);
    match refute_within(prover, goal, STEPS_FOR_GOAL, &mut found.paid, fuel)? {
        Ended::Refuted => set(&mut found.refuted, place, true)?,
        Ended::OnOneSide => {}
        Ended::Exhausted => {
            found.exhausted.insert(goal)?;
            put_values(prover, label, found)?;
            turn(prover, place, label, found)?;
            begin_anew(prover)?;
        }
        Ended::Early => {
            found.exhausted.insert(goal)?;
            put_values(prover, label, found)?;
            return Ok(false);
        }
    }
    Ok(true)
}
