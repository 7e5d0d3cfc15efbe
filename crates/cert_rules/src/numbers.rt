// The reasons about the order and division of numbers.
ghost use Rattle.std.specs.Prelude.{◌≡◌, [], ◌∷◌, IfOk, OnOk};
ghost use Rattle.boogie_tree.specs.declared.exprs.BOp.TheVariants as op;
ghost use Rattle.cert_terms.specs.Literals.{turned};
ghost use Rattle.cert_terms.specs.Lawful.{IsLawOf, terms_of, types_of};
ghost use Rattle.cert_rules.specs.Shapes.{IsTested, IsQuotient, IsEuclidean};

use crate::clauses::{one, three, two};
use crate::shapes::{
    Operands, check_bin, check_negation, check_zero, division_by, left_of, operands_of, right_of,
};
use boogie_tree::BOp;
use cert_terms::{ClauseLiteral, LineFault, TermTable};
use std::alloc::Global;

/// That two numbers are equal if neither is greater: `a == b`, or not `a <= b`, or not `b <= a`.
pub fn split(
    alloc: Global,
    table: &TermTable,
    equation: usize,
    low: usize,
    high: usize,
) -> Result<Vec<ClauseLiteral>, LineFault>
    ensures { IfOk result (λ c. IsLawOf table.now c.items) }
{
    let equation = ClauseLiteral::of(equation);
    let low = ClauseLiteral::of(low);
    let high = ClauseLiteral::of(high);
    check_split(table, equation, low, high)?;
    three(alloc, equation, low.turned(), high.turned())
}

fn check_split(
    table: &TermTable,
    equation: ClauseLiteral,
    low: ClauseLiteral,
    high: ClauseLiteral,
) -> Result<(), LineFault>
    ensures { OnOk result (IsLawOf table.now (equation ∷ turned low ∷ turned high ∷ [])) }
{
    table.truth(equation)?;
    table.truth(low)?;
    table.truth(high)?;
    let sides = operands_of(table, equation, BOp::Eq)?;
    check_bin(table, low, BOp::Le, sides)?;
    let exchanged = Operands {
        left: sides.right,
        right: sides.left,
    };
    check_bin(table, high, BOp::Le, exchanged)?;
    Ok(())
}

/// What is compared with 0 by the operator, where 0 stands on the right.
fn tested(table: &TermTable, test: ClauseLiteral, operator: BOp) -> Result<ClauseLiteral, LineFault>
    ensures { IfOk result (λ b. IsTested (terms_of table.now) (types_of table.now) test operator b) }
{
    table.truth(test)?;
    let sides = operands_of(table, test, operator)?;
    check_zero(table, sides.right)?;
    Ok(sides.left)
}

/// That a quotient times the divisor is the dividend, and with the remainder it is so for ints: `b == 0`, or
/// `(a / b) * b == a`, or `(b * (a div b)) + (a mod b) == a`.
pub fn over(
    alloc: Global,
    table: &TermTable,
    test: ClauseLiteral,
    equation: ClauseLiteral,
) -> Result<Vec<ClauseLiteral>, LineFault>
    ensures { IfOk result (λ c. IsLawOf table.now c.items) }
{
    check_over(table, test, equation)?;
    two(alloc, test, equation)
}

fn check_over(
    table: &TermTable,
    test: ClauseLiteral,
    equation: ClauseLiteral,
) -> Result<(), LineFault>
    ensures { OnOk result (IsLawOf table.now (test ∷ equation ∷ [])) }
{
    table.truth(equation)?;
    let divisor = tested(table, test, BOp::Eq)?;
    let sides = operands_of(table, equation, BOp::Eq)?;
    match check_quotient(table, sides.left, sides.right, divisor) {
        Ok(()) => Ok(()),
        Err(_) => {
            check_euclidean(table, sides.left, sides.right, divisor)?;
            Ok(())
        }
    }
}

/// Refuses what is not `(a / b) * b`.
fn check_quotient(
    table: &TermTable,
    literal: ClauseLiteral,
    dividend: ClauseLiteral,
    divisor: ClauseLiteral,
) -> Result<(), LineFault>
    ensures { OnOk result (IsQuotient (terms_of table.now) literal dividend divisor) }
{
    let of_both = Operands {
        left: dividend,
        right: divisor,
    };
    let quotient = left_of(table, literal, BOp::Mul, divisor)?;
    check_bin(table, quotient, BOp::Divide, of_both)?;
    Ok(())
}

/// Refuses what is not `(b * (a div b)) + (a mod b)`.
fn check_euclidean(
    table: &TermTable,
    literal: ClauseLiteral,
    dividend: ClauseLiteral,
    divisor: ClauseLiteral,
) -> Result<(), LineFault>
    ensures { OnOk result (IsEuclidean (terms_of table.now) literal dividend divisor) }
{
    let of_both = Operands {
        left: dividend,
        right: divisor,
    };
    let sum = operands_of(table, literal, BOp::Add)?;
    let quotient = right_of(table, sum.left, BOp::Mul, divisor)?;
    check_bin(table, quotient, BOp::IntDiv, of_both)?;
    check_bin(table, sum.right, BOp::IntMod, of_both)?;
    Ok(())
}

/// That quotients and remainders by 0 are 0: not `b == 0`, or `a / b == 0`, or the same of `div` and `mod`.
pub fn zero(
    alloc: Global,
    table: &TermTable,
    test: ClauseLiteral,
    equation: ClauseLiteral,
) -> Result<Vec<ClauseLiteral>, LineFault>
    ensures { IfOk result (λ c. IsLawOf table.now c.items) }
{
    check_zero_law(table, test, equation)?;
    two(alloc, test.turned(), equation)
}

fn check_zero_law(
    table: &TermTable,
    test: ClauseLiteral,
    equation: ClauseLiteral,
) -> Result<(), LineFault>
    ensures { OnOk result (IsLawOf table.now (turned test ∷ equation ∷ [])) }
{
    let divisor = tested(table, test, BOp::Eq)?;
    let result = tested(table, equation, BOp::Eq)?;
    division_by(table, result, divisor)?;
    Ok(())
}

/// That a remainder is not negative: `0 <= a mod b`.
pub fn rest(
    alloc: Global,
    table: &TermTable,
    comparison: usize,
) -> Result<Vec<ClauseLiteral>, LineFault>
    ensures { IfOk result (λ c. IsLawOf table.now c.items) }
{
    let comparison = ClauseLiteral::of(comparison);
    check_rest(table, comparison)?;
    one(alloc, comparison)
}

fn check_rest(table: &TermTable, comparison: ClauseLiteral) -> Result<(), LineFault>
    ensures { OnOk result (IsLawOf table.now (comparison ∷ [])) }
{
    table.truth(comparison)?;
    let sides = operands_of(table, comparison, BOp::Le)?;
    check_zero(table, sides.left)?;
    operands_of(table, sides.right, BOp::IntMod)?;
    Ok(())
}

/// That a remainder is below the divisor's size: `b <= 0`, or not `b <= a mod b`; or `0 <= b`, or not `- b <= a mod b`.
pub fn below(
    alloc: Global,
    table: &TermTable,
    test: usize,
    comparison: usize,
) -> Result<Vec<ClauseLiteral>, LineFault>
    ensures { IfOk result (λ c. IsLawOf table.now c.items) }
{
    let test = ClauseLiteral::of(test);
    let comparison = ClauseLiteral::of(comparison);
    check_below(table, test, comparison)?;
    two(alloc, test, comparison.turned())
}

fn check_below(
    table: &TermTable,
    test: ClauseLiteral,
    comparison: ClauseLiteral,
) -> Result<(), LineFault>
    ensures { OnOk result (IsLawOf table.now (test ∷ turned comparison ∷ [])) }
{
    table.truth(test)?;
    table.truth(comparison)?;
    let sides = operands_of(table, test, BOp::Le)?;
    match right_of(table, comparison, BOp::Le, sides.left) {
        Ok(remainder) => {
            check_zero(table, sides.right)?;
            left_of(table, remainder, BOp::IntMod, sides.left)?;
            Ok(())
        }
        Err(_) => {
            let compared = operands_of(table, comparison, BOp::Le)?;
            check_zero(table, sides.left)?;
            check_negation(table, compared.left, sides.right)?;
            left_of(table, compared.right, BOp::IntMod, sides.right)?;
            Ok(())
        }
    }
}
