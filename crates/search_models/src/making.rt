// Values of the variables of conditions, by what a search has assigned.
ghost use Rattle.std.specs.Prelude.{◌≤◌};

use crate::contents::{Known, value_of};
use crate::models::Model;
use search_base::{Fuel, SearchStop, TermId, copied, number};
use search_points::point;
use search_state::Prover;
use search_terms::{TermKind, TermOp};

/// Values of the variables at which all is so that is assigned, as far as it is looked at. None where none are found.
pub fn make_model(prover: &mut Prover, fuel: &mut Fuel) -> Result<Option<Model>, SearchStop>
    ensures { fuel.new.left ≤ fuel.old.left }
{
    let Some(point) = point(prover, fuel)? else {
        return Ok(None);
    };
    let known = Known::new(prover, point)?;
    let mut found = Model::new(prover.alloc)?;
    put_scalars(prover, &known, &mut found, fuel)?;
    put_entries(prover, &known, &mut found, fuel)?;
    Ok(Some(found))
}

/// Whether something is assigned of a term.
fn is_known(prover: &Prover, known: &Known, n: TermId) -> bool {
    let it = n.literal();
    prover.classes.has(it) || !prover.values.is_open(it) || known.point.contains_key(&n)
}

/// Puts the values of the variables that are no maps.
fn put_scalars(
    prover: &mut Prover,
    known: &Known,
    model: &mut Model,
    fuel: &mut Fuel,
) -> Result<(), SearchStop>
    ensures { fuel.new.left ≤ fuel.old.left }
{
    for n in &copied(prover.alloc, &prover.problem.variables)? {
        if is_scalar(prover.terms.kind(n.literal())) && is_known(prover, known, *n) {
            let value = value_of(prover, known, n.literal(), &mut model.table, fuel)?;
            model.scalars.insert(prover.terms.index(*n), value)?;
        }
    }
    Ok(())
}

/// Whether a kind is not that of maps.
fn is_scalar(kind: TermKind) -> bool {
    matches!(
        kind,
        TermKind::Bool | TermKind::Int | TermKind::Real | TermKind::Ref | TermKind::Snap
    )
}

/// Puts the entries of variables that are maps: the values of the places that are read.
fn put_entries(
    prover: &mut Prover,
    known: &Known,
    model: &mut Model,
    fuel: &mut Fuel,
) -> Result<(), SearchStop>
    ensures { fuel.new.left ≤ fuel.old.left }
{
    for n in &reads(prover, known)? {
        put_entry(prover, known, *n, model, fuel)?;
    }
    Ok(())
}

/// The reads of variables of which something is assigned.
fn reads(prover: &Prover, known: &Known) -> Result<Vec<TermId>, SearchStop> {
    let mut found = Vec::new(prover.alloc);
    for place in 0..number(prover.terms.end())? {
        let n = TermId::of(place);
        let map = prover.terms.part(n, 0).term();
        let is_read = prover.terms.op(n) == TermOp::At && prover.terms.op(map) == TermOp::Var;
        if is_read && !prover.terms.is_marked(n) && is_known(prover, known, n) {
            found.push(n)?;
        }
    }
    Ok(found)
}

/// Puts the entry of a read.
fn put_entry(
    prover: &mut Prover,
    known: &Known,
    n: TermId,
    model: &mut Model,
    fuel: &mut Fuel,
) -> Result<(), SearchStop>
    ensures { fuel.new.left ≤ fuel.old.left }
{
    let arity = prover.terms.arity(n);
    let mut keys = Vec::with_capacity(prover.alloc, arity)?;
    for k in 1..arity {
        let key = prover.terms.part(n, k);
        keys.push(value_of(prover, known, key, &mut model.table, fuel)?)?;
    }
    let value = value_of(prover, known, n.literal(), &mut model.table, fuel)?;
    let map = prover.terms.part(n, 0).term();
    model
        .entries
        .insert((prover.terms.index(map), keys), value)?;
    Ok(())
}
