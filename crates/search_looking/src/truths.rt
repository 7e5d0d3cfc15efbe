// Truth values: what is open is decided where no term decides it.
ghost use Rattle.std.specs.Prelude.{◌≤◌};

use crate::parts::{truth_and, truth_equal, truth_if};
use crate::terms::term;
use search_agenda::{Item, Note};
use search_base::{Found, Fuel, TermId};
use search_sides::compared;
use search_state::Prover;
use search_terms::TermOp;
use search_theory::{attach, differs, gate, same};

/// Looks at a comparison, and decides it only where its parts do.
pub(crate) fn ahead(prover: &mut Prover, n: TermId, fuel: &mut Fuel) -> Found
    ensures { fuel.new.left ≤ fuel.old.left }
{
    if !prover.values.is_open(n.literal()) {
        return Ok(None);
    }
    match settled(prover, n, fuel)? {
        Some(step) => attach(prover, step, fuel),
        None => {
            prover.wait_for_sides(n)?;
            Ok(None)
        }
    }
}

/// Looks at a truth value.
pub(crate) fn truth(prover: &mut Prover, n: TermId, fuel: &mut Fuel) -> Found
    ensures { fuel.new.left ≤ fuel.old.left }
{
    let Some(holds) = prover.values.value(n.literal()) else {
        return open(prover, n, fuel);
    };
    match prover.terms.op(n) {
        TermOp::And => {
            truth_and(prover, n, holds)?;
            Ok(None)
        }
        TermOp::If => {
            truth_if(prover, n)?;
            Ok(None)
        }
        TermOp::Eq => truth_equal(prover, n, holds, fuel),
        TermOp::Le => {
            prover.look_at_parts(n)?;
            Ok(None)
        }
        TermOp::At => term(prover, n, fuel),
        _ => Ok(None),
    }
}

/// Looks at a truth value that is open, and wants it decided where its parts do not.
fn open(prover: &mut Prover, n: TermId, fuel: &mut Fuel) -> Found
    ensures { fuel.new.left ≤ fuel.old.left }
{
    let conflict = gate(prover, n, fuel)?;
    if conflict.is_some() || !prover.values.is_told() {
        prover.look_again(n)?;
        return Ok(conflict);
    }
    prover.wait_for(n.literal())?;
    let conflict = peek(prover, n, fuel)?;
    let is_seen = prover.agenda.is_noted(n, Note::Peeked) && prover.agenda.is_seen(Item::of(n));
    if conflict.is_none() && prover.values.is_open(n.literal()) && is_seen {
        prover.want(n.literal(), 0)?;
    }
    Ok(conflict)
}

/// Looks at the parts of a comparison that is not decided, and then whether they decide it.
fn peek(prover: &mut Prover, n: TermId, fuel: &mut Fuel) -> Found
    ensures { fuel.new.left ≤ fuel.old.left }
{
    let is_first = prover.agenda.note(n, Note::Peeked)?;
    if !prover.terms.is_comparison(n) {
        return Ok(None);
    }
    if is_first {
        prover.look_again(n)?;
        prover.look_at_parts(n)?;
        return Ok(None);
    }
    match settled(prover, n, fuel)? {
        Some(step) => {
            prover.look_again(n)?;
            attach(prover, step, fuel)
        }
        None => {
            prover.wait_for_sides(n)?;
            Ok(None)
        }
    }
}

/// A step that decides a comparison of terms that are known to be equal or to differ.
fn settled(prover: &mut Prover, n: TermId, fuel: &mut Fuel) -> Found
    ensures { fuel.new.left ≤ fuel.old.left }
{
    let (a, b) = (prover.terms.part(n, 0), prover.terms.part(n, 1));
    prover.register(a, fuel)?;
    prover.register(b, fuel)?;
    if prover.classes.is_open() {
        return Ok(None);
    }
    if prover.terms.op(n) == TermOp::Le {
        if prover.classes.constant(a).is_none() || prover.classes.constant(b).is_none() {
            return Ok(None);
        }
        return Ok(Some(compared(prover, n, a, b, fuel)?));
    }
    if prover.classes.are_same(a, b) {
        return Ok(Some(same(prover, n, fuel)?));
    }
    differs(prover, a, b, n, fuel)
}
