// Comparisons of numbers that are open, and follow, or cannot be, by what is assigned of numbers.
ghost use Rattle.std.specs.Prelude.{◌≤◌};

use search_base::{Found, Fuel, SearchStop, SignedTerm, TermId};
use search_rational::Rational;
use search_rows::{LinearRow, RowSource, contradiction};
use search_sides::{against, difference, refuted, split};
use search_state::Prover;
use search_terms::TermOp;
use search_theory::attach;
use std::collections::BTreeSet;

/// Says what follows of the comparisons that are to be probed. Gives back a step that is false.
pub fn probe_all(prover: &mut Prover, fuel: &mut Fuel) -> Found
    ensures { fuel.new.left ≤ fuel.old.left }
{
    let probes = std::mem::replace(&mut prover.probes, BTreeSet::new(prover.alloc));
    for n in &probes {
        if is_open(prover, *n) {
            let conflict = probe_one(prover, *n, fuel)?;
            if conflict.is_some() {
                return Ok(conflict);
            }
        }
    }
    Ok(None)
}

/// Whether a comparison is open, and its sides have classes.
fn is_open(prover: &Prover, n: TermId) -> bool {
    let (a, b) = (prover.terms.part(n, 0), prover.terms.part(n, 1));
    prover.values.is_open(n.literal()) && prover.classes.has(a) && prover.classes.has(b)
}

fn probe_one(prover: &mut Prover, n: TermId, fuel: &mut Fuel) -> Found
    ensures { fuel.new.left ≤ fuel.old.left }
{
    match probe(prover, n, fuel)? {
        Some(step) => attach(prover, step, fuel),
        None => Ok(None),
    }
}

/// The step that says whether a comparison holds, where that follows from what is assigned of numbers.
pub fn probe(prover: &mut Prover, n: TermId, fuel: &mut Fuel) -> Found
    ensures { fuel.new.left ≤ fuel.old.left }
{
    if prover.terms.op(n) == TermOp::Eq {
        let found = split(prover, n, fuel)?;
        return if found.is_some() {
            Ok(found)
        } else {
            not_equal(prover, n, fuel)
        };
    }
    let found = not_so(prover, n.literal(), fuel)?;
    if found.is_some() {
        return Ok(found);
    }
    not_so(prover, n.literal().negated(), fuel)
}

/// The step that says that a comparison is not so, where it is contradicted.
fn not_so(prover: &mut Prover, literal: SignedTerm, fuel: &mut Fuel) -> Found
    ensures { fuel.new.left ≤ fuel.old.left }
{
    match against(prover, literal, fuel)? {
        Some(wrong) => Ok(Some(refuted(prover, &wrong, literal, fuel)?)),
        None => Ok(None),
    }
}

/// The step that says that two numbers are not equal, where they cannot be.
fn not_equal(prover: &mut Prover, equation: TermId, fuel: &mut Fuel) -> Found
    ensures { fuel.new.left ≤ fuel.old.left }
{
    let (a, b) = (
        prover.terms.part(equation, 0),
        prover.terms.part(equation, 1),
    );
    let mut row = difference(prover, a, b, fuel)?;
    row.add_source(RowSource::holds(equation.literal()), Rational::ONE)?;
    let row = prover.numbers.solved.reduce(row, fuel)?;
    let wrong = if row.is_wrong() {
        Some(row)
    } else {
        against_equation(prover, &row, fuel)?
    };
    match wrong {
        Some(row) => Ok(Some(refuted(prover, &row, equation.literal(), fuel)?)),
        None => Ok(None),
    }
}

/// What contradicts an equation, as a row that has it.
fn against_equation(
    prover: &Prover,
    row: &LinearRow,
    fuel: &mut Fuel,
) -> Result<Option<LinearRow>, SearchStop>
    ensures { fuel.new.left ≤ fuel.old.left }
{
    if row.terms.is_empty() {
        return Ok(None);
    }
    let places = prover.numbers.near(row, fuel)?;
    fuel.take(places.len())?;
    let mut rows = Vec::with_capacity(prover.alloc, places.len())?;
    for other in prover.numbers.rows_at(&places)? {
        rows.push(other.without(row)?)?;
    }
    if let Some(like) = prover.numbers.unequal_like(row, fuel)? {
        rows.push(like.without(row)?)?;
    }
    first_wrong(prover, &rows, fuel)
}

/// A row that cannot be; or what rows that contradict each other come to.
pub(crate) fn first_wrong(
    prover: &Prover,
    rows: &[LinearRow],
    fuel: &mut Fuel,
) -> Result<Option<LinearRow>, SearchStop>
    ensures { fuel.new.left ≤ fuel.old.left }
{
    match rows.iter().find(|it| it.is_wrong()) {
        Some(it) => Ok(Some(it.again()?)),
        None => contradiction(prover.alloc, rows, fuel),
    }
}
