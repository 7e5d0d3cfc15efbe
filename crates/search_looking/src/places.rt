// Places of maps. Each gives back a step that is false.
ghost use Rattle.std.specs.Prelude.{◌≤◌};

use crate::choices::choose;
use crate::foralls::triggered;
use search_base::{Found, Fuel, SearchStop, SignedTerm, StepId, TermId, get, set};
use search_state::Prover;
use search_steps::{StepRule, chain_step};
use search_terms::{TermKind, TermOp};
use search_theory::{attach, close, differs, gate, propagate, same};

/// So often keys are taken to differ, where that has to be decided.
const MOST_APART: u32 = 16;

/// Looks at a place of a map.
pub(crate) fn read(prover: &mut Prover, n: TermId, fuel: &mut Fuel) -> Found
    ensures { fuel.new.left ≤ fuel.old.left }
{
    let parts = prover.terms.parts(n)?;
    let Some((map, keys)) = parts.split_first() else {
        return Ok(None);
    };
    look_at_keys(prover, keys)?;
    let conflict = triggered(prover, *map, keys, fuel)?;
    if conflict.is_some() {
        return Ok(conflict);
    }
    match prover.terms.op(map.term()) {
        TermOp::If => read_choice(prover, n, map.term(), keys, fuel),
        TermOp::Put => read_changed(prover, n, map.term(), keys, fuel),
        _ => Ok(None),
    }
}

fn look_at_keys(prover: &mut Prover, keys: &[SignedTerm]) -> Result<(), SearchStop> {
    for it in keys {
        if it.is_plain() {
            prover.look_at(*it)?;
        }
    }
    Ok(())
}

/// The place of a map at keys.
fn place(
    prover: &mut Prover,
    map: SignedTerm,
    keys: &[SignedTerm],
) -> Result<SignedTerm, SearchStop> {
    let mut parts = vec![in prover.alloc; map]?;
    parts.extend_from_slice(keys)?;
    Ok(prover.terms.make(TermOp::At, &parts)?.literal())
}

/// Looks at a place of a choice between maps: the choice between places.
fn read_choice(
    prover: &mut Prover,
    n: TermId,
    map: TermId,
    keys: &[SignedTerm],
    fuel: &mut Fuel,
) -> Found
    ensures { fuel.new.left ≤ fuel.old.left }
{
    let (condition, one, two) = (
        prover.terms.part(map, 0),
        prover.terms.part(map, 1),
        prover.terms.part(map, 2),
    );
    let values = [place(prover, one, keys)?, place(prover, two, keys)?];
    choose(prover, n, condition, values, fuel)
}

/// How keys compare with those where a value was put: the equations of those that are not the same term; one that is false, and one
/// that is open, the last of each, or none.
#[derive(Drop)]
struct Keys {
    equations: Vec<SignedTerm>,
    differ: SignedTerm,
    unknown: SignedTerm,
    conflict: Option<StepId>,
}

/// Looks at a place of a map in which a value was put at a place.
fn read_changed(
    prover: &mut Prover,
    n: TermId,
    map: TermId,
    keys: &[SignedTerm],
    fuel: &mut Fuel,
) -> Found
    ensures { fuel.new.left ≤ fuel.old.left }
{
    let compared = compared(prover, map, keys, fuel)?;
    if compared.conflict.is_some() {
        return Ok(compared.conflict);
    }
    if !compared.differ.is_none() {
        return miss(prover, n, map, keys, compared.differ, fuel);
    }
    if !compared.unknown.is_none() {
        return undecided(prover, map, keys, &compared, fuel);
    }
    let value = prover.terms.part(map, keys.len().saturating_add(1));
    let result = prover.terms.equation(n.literal(), value)?;
    prover.look_at(result.literal())?;
    let step = chain_step(
        prover.alloc,
        &mut prover.steps,
        result,
        &compared.equations,
        StepRule::Hit,
    )?;
    attach(prover, step, fuel)
}

/// Compares keys with those where a value was put, up to a step that is false.
fn compared(
    prover: &mut Prover,
    map: TermId,
    keys: &[SignedTerm],
    fuel: &mut Fuel,
) -> Result<Keys, SearchStop>
    ensures { fuel.new.left ≤ fuel.old.left }
{
    let mut found = Keys {
        equations: Vec::new(prover.alloc),
        differ: SignedTerm::NONE,
        unknown: SignedTerm::NONE,
        conflict: None,
    };
    for k in 0..keys.len() {
        let (left, right) = (get(keys, k), prover.terms.part(map, k.saturating_add(1)));
        if left != right && found.conflict.is_none() {
            compare(prover, left, right, &mut found, fuel)?;
        }
    }
    Ok(found)
}

/// Compares two keys.
fn compare(
    prover: &mut Prover,
    left: SignedTerm,
    right: SignedTerm,
    keys: &mut Keys,
    fuel: &mut Fuel,
) -> Result<(), SearchStop>
    ensures { fuel.new.left ≤ fuel.old.left }
{
    let equation = prover.terms.equal(left, right)?;
    keys.conflict = decide(prover, equation, left, right, fuel)?;
    match prover.values.value(equation.literal()) {
        Some(true) => {}
        Some(false) => keys.differ = equation.literal(),
        None => keys.unknown = equation.literal(),
    }
    keys.equations.push(equation.literal())?;
    Ok(())
}

/// A place at a key that differs from the one where a value was put: it is as it was before.
fn miss(
    prover: &mut Prover,
    n: TermId,
    map: TermId,
    keys: &[SignedTerm],
    differ: SignedTerm,
    fuel: &mut Fuel,
) -> Found
    ensures { fuel.new.left ≤ fuel.old.left }
{
    let before = prover.terms.part(map, 0);
    let other = place(prover, before, keys)?;
    let result = prover.terms.equation(n.literal(), other)?.literal();
    prover.look_at(result)?;
    let step = prover
        .steps
        .add(&[differ, result], StepRule::Miss, &[result, differ])?;
    attach(prover, step, fuel)
}

/// Whether keys are equal has to be decided.
fn undecided(
    prover: &mut Prover,
    map: TermId,
    keys: &[SignedTerm],
    compared: &Keys,
    fuel: &mut Fuel,
) -> Found
    ensures { fuel.new.left ≤ fuel.old.left }
{
    let unknown = compared.unknown;
    let conflict = gate(prover, unknown.term(), fuel)?;
    for it in &compared.equations {
        prover.wait_for(*it)?;
    }
    wait_for_keys(prover, map, keys)?;
    // At first what makes less to look at; but where that was not enough, the other way, which perhaps cannot be for good.
    let times = get(&prover.wanted, unknown.term().place());
    set(
        &mut prover.wanted,
        unknown.term().place(),
        times.saturating_add(1),
    )?;
    let wanted = if times < MOST_APART {
        unknown.negated()
    } else {
        unknown
    };
    let item = prover.item;
    prover.agenda.want(item, wanted, 0)?;
    Ok(conflict)
}

/// Waits for the classes of keys, and of those where a value was put.
fn wait_for_keys(prover: &mut Prover, map: TermId, keys: &[SignedTerm]) -> Result<(), SearchStop> {
    for it in keys {
        wait_for_key(prover, *it)?;
    }
    for k in 0..keys.len() {
        let key = prover.terms.part(map, k.saturating_add(1));
        wait_for_key(prover, key)?;
    }
    Ok(())
}

fn wait_for_key(prover: &mut Prover, key: SignedTerm) -> Result<(), SearchStop> {
    if prover.terms.kind(key) == TermKind::Bool {
        return Ok(());
    }
    prover.wait_for_classes(&[key])
}

/// Decides the equation of two keys that are known to be equal or to differ. Gives back a step that is false.
fn decide(
    prover: &mut Prover,
    equation: TermId,
    left: SignedTerm,
    right: SignedTerm,
    fuel: &mut Fuel,
) -> Found
    ensures { fuel.new.left ≤ fuel.old.left }
{
    if !prover.values.is_open(equation.literal()) {
        return Ok(None);
    }
    let conflict = if prover.terms.kind(left) == TermKind::Bool {
        gate(prover, equation, fuel)?
    } else {
        let conflict = settle(prover, left, right, fuel)?;
        if conflict.is_some() {
            return Ok(conflict);
        }
        let Some(step) = known(prover, equation, left, right, fuel)? else {
            return Ok(None);
        };
        attach(prover, step, fuel)?
    };
    if conflict.is_some() {
        return Ok(conflict);
    }
    propagate(prover, fuel)
}

/// Gives two keys classes.
fn settle(prover: &mut Prover, left: SignedTerm, right: SignedTerm, fuel: &mut Fuel) -> Found
    ensures { fuel.new.left ≤ fuel.old.left }
{
    prover.register(left, fuel)?;
    prover.register(right, fuel)?;
    close(prover, fuel)
}

/// The step that says whether two keys are equal, where that is known.
fn known(
    prover: &mut Prover,
    equation: TermId,
    left: SignedTerm,
    right: SignedTerm,
    fuel: &mut Fuel,
) -> Found
    ensures { fuel.new.left ≤ fuel.old.left }
{
    if prover.classes.are_same(left, right) {
        return Ok(Some(same(prover, equation, fuel)?));
    }
    differs(prover, left, right, equation, fuel)
}
