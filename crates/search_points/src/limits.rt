// Rows of sums of numbers.
ghost use Rattle.std.specs.Prelude.{◌≤◌};

use search_base::{Fuel, SearchStop, TermId};
use search_rational::Rational;
use search_rows::{LinearRow, RowSign};
use search_sides::add_number;
use search_state::Prover;

/// The row that says that so many times a sum of numbers and a constant is not above 0. Equations are solved in it.
pub(crate) fn limit(
    prover: &mut Prover,
    sum: &[(TermId, Rational)],
    constant: Rational,
    by: Rational,
    fuel: &mut Fuel,
) -> Result<LinearRow, SearchStop>
    ensures { fuel.new.left ≤ fuel.old.left }
{
    let mut row = LinearRow::new(prover.alloc, RowSign::NotAbove);
    row.number = constant.times(by)?;
    for (n, factor) in sum {
        add_number(prover, &mut row, *n, factor.times(by)?, fuel)?;
    }
    prover.numbers.solved.reduce(row, fuel)
}

/// Puts the two rows that say that a sum of numbers and a constant is 0.
pub(crate) fn put_zero(
    prover: &mut Prover,
    sum: &[(TermId, Rational)],
    constant: Rational,
    rows: &mut Vec<LinearRow>,
    fuel: &mut Fuel,
) -> Result<(), SearchStop>
    ensures { fuel.new.left ≤ fuel.old.left }
{
    rows.push(limit(prover, sum, constant, Rational::ONE, fuel)?)?;
    rows.push(limit(prover, sum, constant, Rational::MINUS_ONE, fuel)?)?;
    Ok(())
}
