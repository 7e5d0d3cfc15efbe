// Comparisons of numbers as rows.
ghost use Rattle.std.specs.Prelude.{◌≤◌};

use search_base::{Fuel, SearchStop, SignedTerm, TermId};
use search_rational::Rational;
use search_rows::{LinearRow, RowSign, RowSource};
use search_state::Prover;
use search_terms::TermKind;

/// Adds so many times a number to a row.
pub fn add_number(
    prover: &mut Prover,
    row: &mut LinearRow,
    n: TermId,
    by: Rational,
    fuel: &mut Fuel,
) -> Result<(), SearchStop>
    ensures { fuel.new.left ≤ fuel.old.left }
{
    let form = prover.terms.form(n, fuel)?;
    fuel.take(form.len())?;
    match form {
        [(first, constant), rest @ ..] if first.is_none() => {
            row.number = row.number.plus(constant.times(by)?)?;
            row.add_terms(rest, by)
        }
        _ => row.add_terms(form, by),
    }
}

/// The row of a comparison that is true.
pub fn comparison(
    prover: &mut Prover,
    literal: SignedTerm,
    fuel: &mut Fuel,
) -> Result<LinearRow, SearchStop>
    ensures { fuel.new.left ≤ fuel.old.left }
{
    let n = literal.term();
    let (a, b) = (prover.terms.part(n, 0), prover.terms.part(n, 1));
    let (a, b) = if literal.is_negated() { (b, a) } else { (a, b) };
    let is_whole = prover.terms.kind(a) == TermKind::Int;
    let is_strict = literal.is_negated() && !is_whole;
    let mut row = LinearRow::new(
        prover.alloc,
        if is_strict {
            RowSign::Below
        } else {
            RowSign::NotAbove
        },
    );
    row.sources
        .push((RowSource::holds(literal), Rational::ONE))?;
    if literal.is_negated() && is_whole {
        row.number = Rational::ONE;
    }
    add_number(prover, &mut row, a.term(), Rational::ONE, fuel)?;
    add_number(prover, &mut row, b.term(), Rational::MINUS_ONE, fuel)?;
    Ok(row)
}

/// What one number is more than another one, as a row that is 0.
pub fn difference(
    prover: &mut Prover,
    a: SignedTerm,
    b: SignedTerm,
    fuel: &mut Fuel,
) -> Result<LinearRow, SearchStop>
    ensures { fuel.new.left ≤ fuel.old.left }
{
    let mut row = LinearRow::new(prover.alloc, RowSign::Zero);
    add_number(prover, &mut row, a.term(), Rational::ONE, fuel)?;
    add_number(prover, &mut row, b.term(), Rational::MINUS_ONE, fuel)?;
    Ok(row)
}
