// The clauses of truth values.
ghost use Rattle.std.specs.Prelude.{◌≤◌};

use search_base::{Found, Fuel, SearchStop, SignedTerm, StepId, TermId, copied, get, number, set};
use search_state::Prover;
use search_steps::StepRule;
use search_terms::{TermKind, TermOp};

/// Puts a step among the clauses, with what its literals mean; gives it back where it is false.
pub fn attach(prover: &mut Prover, step: StepId, fuel: &mut Fuel) -> Found
    ensures { fuel.new.left ≤ fuel.old.left }
{
    if prover.values.has(step) {
        return prover.values.touch(step, &prover.steps);
    }
    let literals = copied(prover.alloc, prover.steps.literals(step))?;
    let conflict = gate_all(prover, &literals, fuel)?;
    if conflict.is_some() {
        return Ok(conflict);
    }
    prover.values.attach(step, &prover.steps)
}

/// Puts steps among the clauses up to one that is false, and gives that back.
pub fn attach_all(prover: &mut Prover, steps: &[StepId], fuel: &mut Fuel) -> Found
    ensures { fuel.new.left ≤ fuel.old.left }
{
    for step in steps {
        let conflict = attach(prover, *step, fuel)?;
        if conflict.is_some() {
            return Ok(conflict);
        }
    }
    Ok(None)
}

/// The clauses of these literals. Gives back a step that is false.
fn gate_all(prover: &mut Prover, literals: &[SignedTerm], fuel: &mut Fuel) -> Found
    ensures { fuel.new.left ≤ fuel.old.left }
{
    for literal in literals {
        let conflict = gate(prover, literal.term(), fuel)?;
        if conflict.is_some() {
            return Ok(conflict);
        }
    }
    Ok(None)
}

/// Puts the clauses of a truth value and of its parts. Gives back a step that is false.
pub fn gate(prover: &mut Prover, n: TermId, fuel: &mut Fuel) -> Found
    ensures { fuel.new.left ≤ fuel.old.left }
{
    let mut todo = vec![in prover.alloc; n]?;
    let mut joins = Vec::new(prover.alloc);
    let mut conflict = None;
    while let Some(n) = todo.pop() {
        fuel.take(1)?;
        if !get(&prover.gated, n.place()) {
            set(&mut prover.gated, n.place(), true)?;
            if is_gate(prover, n) {
                conflict = gate_one(prover, n, conflict, &mut todo)?;
                if prover.terms.op(n) == TermOp::And {
                    joins.push(n)?;
                }
            }
        }
    }
    joins.sort_unstable();
    join_all(prover, &joins, conflict, fuel)
}

/// Whether a term is a truth value that is made of others.
fn is_gate(prover: &Prover, n: TermId) -> bool {
    match prover.terms.op(n) {
        TermOp::True | TermOp::And => true,
        TermOp::If => prover.terms.kind(n.literal()) == TermKind::Bool,
        TermOp::Eq => prover.terms.kind(prover.terms.part(n, 0)) == TermKind::Bool,
        _ => false,
    }
}

/// Makes the clauses of a truth value, puts them unless there is a conflict, and its parts to do. Gives back the conflict.
fn gate_one(
    prover: &mut Prover,
    n: TermId,
    conflict: Option<StepId>,
    todo: &mut Vec<TermId>,
) -> Found {
    for k in 0..prover.terms.arity(n) {
        todo.push(prover.terms.part(n, k).term())?;
    }
    let steps = gates(prover, n)?;
    let mut conflict = conflict;
    for step in &steps {
        if conflict.is_none() {
            conflict = prover.values.attach(*step, &prover.steps)?;
        }
    }
    Ok(conflict)
}

/// Puts the shortcuts of conjunctions. Gives back a step that is false.
fn join_all(
    prover: &mut Prover,
    joins: &[TermId],
    conflict: Option<StepId>,
    fuel: &mut Fuel,
) -> Found
    ensures { fuel.new.left ≤ fuel.old.left }
{
    let mut conflict = conflict;
    for n in joins {
        if let Some(step) = prover
            .paths
            .shortcut(*n, &prover.terms, &mut prover.steps, fuel)?
        {
            if conflict.is_none() {
                conflict = prover.values.attach(step, &prover.steps)?;
            }
        }
    }
    Ok(conflict)
}

/// The clauses of a truth value, in the order of the certificate's cases.
fn gates(prover: &mut Prover, n: TermId) -> Result<Vec<StepId>, SearchStop> {
    let mut found = Vec::new(prover.alloc);
    match prover.terms.op(n) {
        TermOp::True => put_case(prover, n, &[n.literal()], &mut found)?,
        TermOp::And => put_and(prover, n, &mut found)?,
        TermOp::If => put_if(prover, n, &mut found)?,
        _ => put_equal(prover, n, &mut found)?,
    }
    Ok(found)
}

/// Puts the next clause of a truth value.
fn put_case(
    prover: &mut Prover,
    n: TermId,
    clause: &[SignedTerm],
    found: &mut Vec<StepId>,
) -> Result<(), SearchStop> {
    let case = i64::from(number(found.len())?);
    let step = prover
        .steps
        .add_words(clause, StepRule::Gate, &[n.literal().word(), case])?;
    found.push(step)?;
    Ok(())
}

fn put_and(prover: &mut Prover, n: TermId, found: &mut Vec<StepId>) -> Result<(), SearchStop> {
    let (it, not) = (n.signed(true), n.signed(false));
    let (x, y) = (prover.terms.part(n, 0), prover.terms.part(n, 1));
    put_case(prover, n, &[it, x.negated(), y.negated()], found)?;
    put_case(prover, n, &[not, x], found)?;
    put_case(prover, n, &[not, y], found)
}

fn put_if(prover: &mut Prover, n: TermId, found: &mut Vec<StepId>) -> Result<(), SearchStop> {
    let (it, not) = (n.signed(true), n.signed(false));
    let condition = prover.terms.part(n, 0);
    let (x, y) = (prover.terms.part(n, 1), prover.terms.part(n, 2));
    put_case(prover, n, &[not, condition.negated(), x], found)?;
    put_case(prover, n, &[not, condition, y], found)?;
    put_case(prover, n, &[it, condition.negated(), x.negated()], found)?;
    put_case(prover, n, &[it, condition, y.negated()], found)
}

fn put_equal(prover: &mut Prover, n: TermId, found: &mut Vec<StepId>) -> Result<(), SearchStop> {
    let (it, not) = (n.signed(true), n.signed(false));
    let (x, y) = (prover.terms.part(n, 0), prover.terms.part(n, 1));
    put_case(prover, n, &[it, x, y], found)?;
    put_case(prover, n, &[it, x.negated(), y.negated()], found)?;
    put_case(prover, n, &[not, x.negated(), y], found)?;
    put_case(prover, n, &[not, x, y.negated()], found)
}
