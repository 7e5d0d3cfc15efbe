// Ways to change values of numbers, each by rows.
ghost use Rattle.std.specs.Prelude.{◌≤◌};

use crate::limits::{limit, put_zero};
use search_base::{Fuel, SearchStop, TermId};
use search_rational::Rational;
use search_rows::{LinearRow, RowSign};
use search_state::Prover;
use search_terms::{TermKind, TermOp};

/// A way to change values that do not do.
#[derive(Clone, Copy)]
pub(crate) enum Way {
    /// A number is not above a whole one.
    Down(TermId, i128),
    /// A number is not below a whole one.
    Up(TermId, i128),
    /// The row at a place, of what is not 0, is below 0.
    Below(usize),
    /// The row at a place, of what is not 0, is above 0.
    Above(usize),
    /// A factor of a product is a number, and so many times the other one is the product.
    Factor {
        product: TermId,
        factor: TermId,
        other: TermId,
        value: Rational,
    },
    /// The divisor of a quotient, or of a remainder by 0, is a number.
    Divisor {
        quotient: TermId,
        value: Rational,
    },
    /// The divisor of a remainder is a number, and so is the quotient.
    Remainder {
        rest: TermId,
        value: Rational,
        quotient: Rational,
    },
}

/// Puts the rows of a way.
pub(crate) fn put_rows(
    prover: &mut Prover,
    way: Way,
    rows: &mut Vec<LinearRow>,
    fuel: &mut Fuel,
) -> Result<(), SearchStop>
    ensures { fuel.new.left ≤ fuel.old.left }
{
    match way {
        Way::Down(n, end) => {
            let end = Rational::whole(end).negated()?;
            rows.push(limit(prover, &[(n, Rational::ONE)], end, Rational::ONE, fuel)?)?;
            Ok(())
        }
        Way::Up(n, end) => {
            let end = Rational::whole(end).negated()?;
            rows.push(limit(
                prover,
                &[(n, Rational::ONE)],
                end,
                Rational::MINUS_ONE,
                fuel,
            )?)?;
            Ok(())
        }
        Way::Below(at) => put_apart(prover, at, Rational::ONE, rows),
        Way::Above(at) => put_apart(prover, at, Rational::MINUS_ONE, rows),
        Way::Factor {
            product,
            factor,
            other,
            value,
        } => {
            let by = value.negated()?;
            put_zero(prover, &[(factor, Rational::ONE)], by, rows, fuel)?;
            put_zero(
                prover,
                &[(product, Rational::ONE), (other, by)],
                Rational::ZERO,
                rows,
                fuel,
            )
        }
        Way::Divisor { quotient, value } => put_divisor(prover, quotient, value, rows, fuel),
        Way::Remainder {
            rest,
            value,
            quotient,
        } => put_remainder(prover, rest, value, quotient, rows, fuel),
    }
}

/// Whether a row has whole values where its terms have.
fn is_whole(prover: &Prover, row: &LinearRow) -> bool {
    row.number.is_whole()
        && row.terms.iter().all(|it| it.1.is_whole()
            && prover.terms.kind(it.0.literal()) == TermKind::Int)
}

/// Puts the row that says that so many times the one at a place is below 0.
fn put_apart(
    prover: &Prover,
    at: usize,
    by: Rational,
    rows: &mut Vec<LinearRow>,
) -> Result<(), SearchStop> {
    let Some(row) = prover.numbers.rows.get(at) else {
        return Ok(());
    };
    let is_whole = is_whole(prover, row);
    let sign = if is_whole {
        RowSign::NotAbove
    } else {
        RowSign::Below
    };
    let mut found = LinearRow::new(prover.alloc, sign);
    found.add_terms(&row.terms, by)?;
    found.number = row.number.times(by)?;
    if is_whole {
        found.number = found.number.plus(Rational::ONE)?;
    }
    rows.push(found)?;
    Ok(())
}

/// Puts the rows of a quotient by a number: what is divided by 0 is 0.
fn put_divisor(
    prover: &mut Prover,
    n: TermId,
    value: Rational,
    rows: &mut Vec<LinearRow>,
    fuel: &mut Fuel,
) -> Result<(), SearchStop>
    ensures { fuel.new.left ≤ fuel.old.left }
{
    let divided = prover.terms.part(n, 0).term();
    let divisor = prover.terms.part(n, 1).term();
    let by = value.negated()?;
    put_zero(prover, &[(divisor, Rational::ONE)], by, rows, fuel)?;
    if value.is_zero() {
        return put_zero(prover, &[(n, Rational::ONE)], Rational::ZERO, rows, fuel);
    }
    let sum = [(n, value), (divided, Rational::MINUS_ONE)];
    if prover.terms.op(n) == TermOp::Div {
        return put_zero(prover, &sum, Rational::ZERO, rows, fuel);
    }
    // n * value <= divided <= n * value + |value| - 1
    let most = greatest_rest(value)?;
    rows.push(limit(prover, &sum, Rational::ZERO, Rational::ONE, fuel)?)?;
    rows.push(limit(prover, &sum, most, Rational::MINUS_ONE, fuel)?)?;
    Ok(())
}

/// The greatest remainder by a whole number that is not 0.
fn greatest_rest(value: Rational) -> Result<Rational, SearchStop> {
    let size = if value.is_negative() {
        value.negated()?
    } else {
        value
    };
    size.minus(Rational::ONE)
}

/// Puts the rows of a remainder by a number, of which the quotient is known.
fn put_remainder(
    prover: &mut Prover,
    n: TermId,
    value: Rational,
    quotient: Rational,
    rows: &mut Vec<LinearRow>,
    fuel: &mut Fuel,
) -> Result<(), SearchStop>
    ensures { fuel.new.left ≤ fuel.old.left }
{
    let divided = prover.terms.part(n, 0).term();
    let divisor = prover.terms.part(n, 1).term();
    put_zero(
        prover,
        &[(divisor, Rational::ONE)],
        value.negated()?,
        rows,
        fuel,
    )?;
    let start = quotient.times(value)?.negated()?;
    let sum = [(divided, Rational::ONE), (n, Rational::MINUS_ONE)];
    put_zero(prover, &sum, start, rows, fuel)?;
    let most = greatest_rest(value)?.negated()?;
    rows.push(limit(
        prover,
        &[(n, Rational::ONE)],
        Rational::ZERO,
        Rational::MINUS_ONE,
        fuel,
    )?)?;
    rows.push(limit(prover, &[(n, Rational::ONE)], most, Rational::ONE, fuel)?)?;
    Ok(())
}
