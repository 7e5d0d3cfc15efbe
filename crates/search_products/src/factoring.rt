// Products in one equation that share a factor: their sum is that factor times a number, which may be compared with 0 and 1.
ghost use Rattle.std.specs.Prelude.{◌≤◌};

use search_base::{Fuel, SearchStop, SignedTerm, TermId};
use search_rational::Rational;
use search_rows::LinearRow;
use search_state::Prover;
use search_terms::{TermKind, TermOp};
use std::collections::BTreeMap;

/// So many products are made in this way.
const MOST_FACTORED: usize = 6;

/// Where there are more equations, none is made.
const MOST_ROWS: usize = 200;

/// A factor that products of a row share, and the other factors, each with how many times it stands.
#[derive(Drop)]
struct Group {
    factor: SignedTerm,
    others: Vec<(TermId, i128)>,
}

/// Groups by the class of the factor that is shared.
type Groups = BTreeMap<SignedTerm, Group>;

/// A product that was not there: what products of an equation share, times the sum of what they do not.
pub fn factored_out(prover: &mut Prover, fuel: &mut Fuel) -> Result<Option<TermId>, SearchStop>
    ensures { fuel.new.left ≤ fuel.old.left }
{
    if prover.products.factors.len() < 2 || prover.products.factored.len() >= MOST_FACTORED {
        return Ok(None);
    }
    for row in &solved_for_others(prover, fuel)? {
        let found = factored_in(prover, row)?;
        if found.is_some() {
            return Ok(found);
        }
    }
    Ok(None)
}

/// A product that was not there, from one row.
fn factored_in(prover: &mut Prover, row: &LinearRow) -> Result<Option<TermId>, SearchStop> {
    for (_, group) in &shared_factors(prover, row)? {
        if group.others.len() > 1 {
            for sign in [1, -1] {
                let product = product_of(prover, group, sign)?;
                if prover.products.factored.insert(product)? {
                    return Ok(Some(product));
                }
            }
        }
    }
    Ok(None)
}

/// The factor of a group times the sum of the others, or times its negation.
fn product_of(prover: &mut Prover, group: &Group, sign: i128) -> Result<TermId, SearchStop> {
    let mut signed = Vec::with_capacity(prover.alloc, group.others.len())?;
    for (it, by) in &group.others {
        signed.push((*it, by.saturating_mul(sign)))?;
    }
    let sum = prover.terms.sum_of_times(&signed)?;
    prover.terms.make(TermOp::Mul, &[group.factor, sum])
}

/// The equations, each solved for a term that is no product where it has one: so products stand together.
fn solved_for_others(prover: &Prover, fuel: &mut Fuel) -> Result<Vec<LinearRow>, SearchStop>
    ensures { fuel.new.left ≤ fuel.old.left }
{
    let mut rows = Vec::new(prover.alloc);
    if prover.numbers.solved.count() > MOST_ROWS {
        return Ok(rows);
    }
    for row in prover.numbers.solved.rows() {
        rows.push(row.again()?)?;
    }
    for at in 0..rows.len() {
        fuel.take(rows.len())?;
        solve_at(prover, &mut rows, at)?;
    }
    Ok(rows)
}

/// Takes a term that is no product out of all rows but the one at a place, which has it.
fn solve_at(prover: &Prover, rows: &mut Vec<LinearRow>, at: usize) -> Result<(), SearchStop> {
    let Some(row) = rows.get(at) else {
        return Ok(());
    };
    let Some(pivot) = row
        .terms
        .iter()
        .find(|it| prover.terms.op(it.0) != TermOp::Mul)
        .copied()
    else {
        return Ok(());
    };
    let row = row.again()?;
    for place in 0..rows.len() {
        if place != at {
            if let Some(other) = rows.get_mut(place) {
                let by = other.factor(pivot.0);
                if !by.is_zero() {
                    other.add(&row, by.negated()?.over(pivot.1)?)?;
                }
            }
        }
    }
    Ok(())
}

/// The factors that products of a row share; where the row has one of these by itself, it is 1 times that.
fn shared_factors(prover: &mut Prover, row: &LinearRow) -> Result<Groups, SearchStop> {
    let one = prover.terms.number(Rational::ONE, TermKind::Int)?;
    let mut found = BTreeMap::new(prover.alloc);
    for (term, by) in &row.terms {
        if prover.terms.op(*term) == TermOp::Mul
            && prover.terms.kind(term.literal()) == TermKind::Int
            && by.is_whole()
        {
            let (a, b) = (prover.terms.part(*term, 0), prover.terms.part(*term, 1));
            put(prover, &mut found, a, b.term(), by.numerator())?;
            put(prover, &mut found, b, a.term(), by.numerator())?;
        }
    }
    for (term, by) in &row.terms {
        if let Some(group) = found.get_mut(&prover.classes.name(term.literal())) {
            if by.is_whole() {
                group.others.push((one, by.numerator()))?;
            }
        }
    }
    Ok(found)
}

/// Puts the other factor of a product to the group of a factor that has a class.
fn put(
    prover: &Prover,
    groups: &mut Groups,
    factor: SignedTerm,
    other: TermId,
    by: i128,
) -> Result<(), SearchStop> {
    let class = prover.classes.name(factor);
    if class.is_none() {
        return Ok(());
    }
    if let Some(group) = groups.get_mut(&class) {
        group.others.push((other, by))?;
        return Ok(());
    }
    let others = vec![in prover.alloc; (other, by)]?;
    groups.insert(class, Group { factor, others })?;
    Ok(())
}
