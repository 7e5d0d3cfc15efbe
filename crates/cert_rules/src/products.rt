// The reasons about products of numbers.
ghost use Rattle.std.specs.Prelude.{◌≡◌, [], ◌∷◌, IfOk, OnOk};
ghost use Rattle.boogie_tree.specs.declared.exprs.BOp.TheVariants as op;
ghost use Rattle.cert_terms.specs.Literals.{turned};
ghost use Rattle.cert_terms.specs.declared.terms.CertificateTerm.TheVariants as term;
ghost use Rattle.cert_terms.specs.Lawful.{IsLawOf, terms_of};
ghost use Rattle.cert_rules.specs.Shapes.{IsTerm, IsBin, IsNested, IsOfReals, IsRing, AreCrossed};

use crate::clauses::{one, three};
use crate::shapes::{
    Operands, additive_of, check_bin, check_products, operands_of, right_of, term_of,
};
use boogie_tree::BOp;
use cert_terms::{CertificateTerm, ClauseLiteral, LineFault, LineRefusal, TermTable};
use std::alloc::Global;

/// Refuses what are not `(a * d) + (b * c)` and `(a * c) + (b * d)`.
fn check_crossed(
    table: &TermTable,
    less: ClauseLiteral,
    more: ClauseLiteral,
    first: Operands,
    second: Operands,
) -> Result<(), LineFault>
    ensures { OnOk result (AreCrossed (terms_of table.now) less more first.left first.right second.left second.right) }
{
    let outer = Operands {
        left: first.left,
        right: second.right,
    };
    let inner = Operands {
        left: first.right,
        right: second.left,
    };
    check_products(table, less, BOp::Add, outer, inner)?;
    let lower = Operands {
        left: first.left,
        right: second.left,
    };
    let upper = Operands {
        left: first.right,
        right: second.right,
    };
    check_products(table, more, BOp::Add, lower, upper)?;
    Ok(())
}

/// What a law of two factors speaks of: a comparison of each of them, and one of sums of their products.
#[derive(Clone, Copy)]
pub struct FactorLaw {
    pub first: ClauseLiteral,
    pub second: ClauseLiteral,
    pub comparison: ClauseLiteral,
}

/// That products are not negative where both factors are not: not `a <= b`, or not `c <= d`, or
/// `(a * d) + (b * c) <= (a * c) + (b * d)`.
pub fn times(
    alloc: Global,
    table: &TermTable,
    law: FactorLaw,
) -> Result<Vec<ClauseLiteral>, LineFault>
    ensures { IfOk result (λ c. IsLawOf table.now c.items) }
{
    check_times(table, law.first, law.second, law.comparison)?;
    three(
        alloc,
        law.first.turned(),
        law.second.turned(),
        law.comparison,
    )
}

fn check_times(
    table: &TermTable,
    first: ClauseLiteral,
    second: ClauseLiteral,
    comparison: ClauseLiteral,
) -> Result<(), LineFault>
    ensures { OnOk result (IsLawOf table.now (turned first ∷ turned second ∷ comparison ∷ [])) }
{
    table.truth(first)?;
    table.truth(second)?;
    table.truth(comparison)?;
    let one = operands_of(table, first, BOp::Le)?;
    let two = operands_of(table, second, BOp::Le)?;
    let sums = operands_of(table, comparison, BOp::Le)?;
    check_crossed(table, sums.left, sums.right, one, two)?;
    Ok(())
}

/// That products are above 0 where both factors are: `b <= a`, or `d <= c`, or not
/// `(a * c) + (b * d) <= (a * d) + (b * c)`.
pub fn above(
    alloc: Global,
    table: &TermTable,
    law: FactorLaw,
) -> Result<Vec<ClauseLiteral>, LineFault>
    ensures { IfOk result (λ c. IsLawOf table.now c.items) }
{
    check_above(table, law.first, law.second, law.comparison)?;
    three(alloc, law.first, law.second, law.comparison.turned())
}

fn check_above(
    table: &TermTable,
    first: ClauseLiteral,
    second: ClauseLiteral,
    comparison: ClauseLiteral,
) -> Result<(), LineFault>
    ensures { OnOk result (IsLawOf table.now (first ∷ second ∷ turned comparison ∷ [])) }
{
    table.truth(first)?;
    table.truth(second)?;
    table.truth(comparison)?;
    let one = operands_of(table, first, BOp::Le)?;
    let two = operands_of(table, second, BOp::Le)?;
    let sums = operands_of(table, comparison, BOp::Le)?;
    let one_exchanged = Operands {
        left: one.right,
        right: one.left,
    };
    let two_exchanged = Operands {
        left: two.right,
        right: two.left,
    };
    check_crossed(table, sums.right, sums.left, one_exchanged, two_exchanged)?;
    Ok(())
}

/// That two sides are equal by a law of products.
pub fn ring(
    alloc: Global,
    table: &TermTable,
    equation: usize,
) -> Result<Vec<ClauseLiteral>, LineFault>
    ensures { IfOk result (λ c. IsLawOf table.now c.items) }
{
    let equation = ClauseLiteral::of(equation);
    check_ring(table, equation)?;
    one(alloc, equation)
}

fn check_ring(table: &TermTable, equation: ClauseLiteral) -> Result<(), LineFault>
    ensures { OnOk result (IsLawOf table.now (equation ∷ [])) }
{
    table.truth(equation)?;
    let sides = operands_of(table, equation, BOp::Eq)?;
    check_sides(table, sides.left, sides.right)?;
    Ok(())
}

/// Refuses sides that are not equal by a law of products.
fn check_sides(
    table: &TermTable,
    left: ClauseLiteral,
    right: ClauseLiteral,
) -> Result<(), LineFault>
    ensures { OnOk result (IsRing (terms_of table.now) left right) }
{
    match term_of(table, left)? {
        CertificateTerm::ToReal(product) => check_whole(table, left, right, *product),
        _ => {
            let factors = operands_of(table, left, BOp::Mul)?;
            check_product(table, left, right, factors)
        }
    }
}

/// The law of `real(a * b)`.
fn check_whole(
    table: &TermTable,
    left: ClauseLiteral,
    right: ClauseLiteral,
    product: ClauseLiteral,
) -> Result<(), LineFault>
    requires { IsTerm (terms_of table.now) left (term.ToReal product) }
    ensures { OnOk result (IsRing (terms_of table.now) left right) }
{
    let parts = operands_of(table, product, BOp::Mul)?;
    let reals = operands_of(table, right, BOp::Mul)?;
    check_real(table, reals.left, parts.left)?;
    check_real(table, reals.right, parts.right)?;
    Ok(())
}

/// Refuses what is not `real(a)`.
fn check_real(
    table: &TermTable,
    literal: ClauseLiteral,
    part: ClauseLiteral,
) -> Result<(), LineFault>
    ensures { OnOk result (IsTerm (terms_of table.now) literal (term.ToReal part)) }
{
    match term_of(table, literal)? {
        CertificateTerm::ToReal(found) if *found == part => Ok(()),
        _ => Err(LineFault::Refused(LineRefusal::Shape)),
    }
}

/// The laws of a product.
fn check_product(
    table: &TermTable,
    left: ClauseLiteral,
    right: ClauseLiteral,
    factors: Operands,
) -> Result<(), LineFault>
    requires { IsBin (terms_of table.now) left op.Mul factors.left factors.right }
    ensures { OnOk result (IsRing (terms_of table.now) left right) }
{
    let exchanged = Operands {
        left: factors.right,
        right: factors.left,
    };
    match check_bin(table, right, BOp::Mul, exchanged) {
        Ok(()) => Ok(()),
        Err(_) => check_nested(table, left, right, factors),
    }
}

/// The laws of a product whose first factor is a product, a sum or a difference.
fn check_nested(
    table: &TermTable,
    left: ClauseLiteral,
    right: ClauseLiteral,
    factors: Operands,
) -> Result<(), LineFault>
    requires { IsBin (terms_of table.now) left op.Mul factors.left factors.right }
    ensures { OnOk result (IsRing (terms_of table.now) left right) }
{
    match operands_of(table, factors.left, BOp::Mul) {
        Ok(inner) => {
            check_associates(table, right, inner, factors.right)?;
            Ok(())
        }
        Err(_) => {
            let sum = additive_of(table, factors.left)?;
            let first = Operands {
                left: sum.left,
                right: factors.right,
            };
            let second = Operands {
                left: sum.right,
                right: factors.right,
            };
            check_products(table, right, sum.operator, first, second)?;
            Ok(())
        }
    }
}

/// Refuses what is not `a * (b * c)`.
fn check_associates(
    table: &TermTable,
    literal: ClauseLiteral,
    inner: Operands,
    last: ClauseLiteral,
) -> Result<(), LineFault>
    ensures { OnOk result (IsNested (terms_of table.now) literal inner.left inner.right last) }
{
    let second = right_of(table, literal, BOp::Mul, inner.left)?;
    let product = Operands {
        left: inner.right,
        right: last,
    };
    check_bin(table, second, BOp::Mul, product)?;
    Ok(())
}
