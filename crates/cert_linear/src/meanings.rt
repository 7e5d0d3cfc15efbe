// The rows of terms: what each is.
ghost use Rattle.std.specs.Prelude.{◌≡◌, pos, neg_ℤ, IfOk};
ghost use Rattle.boogie_tree.specs.declared.exprs.BOp.TheVariants as op;
ghost use Rattle.cert_terms.specs.declared.terms.CertificateTerm.TheVariants as term;
ghost use Rattle.cert_terms.specs.View.{terms_in, types_in};
ghost use Rattle.cert_linear.specs.declared.rows.SumSign.TheVariants as sign;
ghost use Rattle.cert_linear.specs.Rows.{named, times, two};
ghost use Rattle.cert_linear.specs.Numbers.{IsLawful, IsTermOf};

use crate::constants::{DEPTH, constant, minus};
use crate::names::{as_it_is, is_int, term};
use crate::rows::{LinearRow, pair, three, value};
use boogie_tree::BOp;
use cert_terms::{CertificateTerm, LineFault, LineRefusal, TypedTerm};
use vb_value::Frac;

/// A name that is k times another: its denominator times the one is its numerator times the other.
fn multiple(name: usize, k: Frac, other: usize) -> Result<LinearRow, LineFault>
    ensures { IfOk result (λ r. r ≡ two (times (pos k.den) name) (times (neg_ℤ k.num) other) (pos 0) sign.Equal) }
{
    let den = Frac::den(k);
    let num = Frac::num(k);
    let second = minus(num)?;
    Ok(pair(den, name, second, other))
}

/// A name that is another divided by k.
fn part(name: usize, k: Frac, other: usize) -> Result<LinearRow, LineFault>
    ensures { IfOk result (λ r. r ≡ two (times k.num name) (times (neg_ℤ (pos k.den)) other) (pos 0) sign.Equal) }
{
    let num = Frac::num(k);
    let den = Frac::den(k);
    let second = minus(den)?;
    Ok(pair(num, name, second, other))
}

/// What a product is of which one side is a constant.
fn product(names: &[TypedTerm], name: usize, a: usize, b: usize) -> Result<LinearRow, LineFault>
    ensures { IfOk result (λ r. IsTermOf (terms_in names.now) (types_in names.now) name (term.Bin op.Mul (named a) (named b)) → IsLawful (terms_in names.now) (types_in names.now) r) }
{
    match constant(names, a, DEPTH) {
        Ok(k) => {
            let left = multiple(name, k, b)?;
            Ok(left)
        }
        Err(_) => {
            let k = constant(names, b, DEPTH)?;
            let right = multiple(name, k, a)?;
            Ok(right)
        }
    }
}

/// What a quotient by a constant is.
fn quotient(names: &[TypedTerm], name: usize, a: usize, b: usize) -> Result<LinearRow, LineFault>
    ensures { IfOk result (λ r. IsTermOf (terms_in names.now) (types_in names.now) name (term.Bin op.Divide (named a) (named b)) → IsLawful (terms_in names.now) (types_in names.now) r) }
{
    let k = constant(names, b, DEPTH)?;
    if Frac::is_none(k) {
        return Ok(value(name, 0));
    }
    let row = part(name, k, a)?;
    Ok(row)
}

/// What a number is that an operator makes of two.
fn binary(
    names: &[TypedTerm],
    name: usize,
    op: BOp,
    a: usize,
    b: usize,
) -> Result<LinearRow, LineFault>
    ensures { IfOk result (λ r. IsTermOf (terms_in names.now) (types_in names.now) name (term.Bin op (named a) (named b)) → IsLawful (terms_in names.now) (types_in names.now) r) }
{
    match op {
        BOp::Add => Ok(three(name, a, -1, b)),
        BOp::Sub => Ok(three(name, a, 1, b)),
        BOp::Mul => {
            let row = product(names, name, a, b)?;
            Ok(row)
        }
        BOp::Divide => {
            let row = quotient(names, name, a, b)?;
            Ok(row)
        }
        _ => Err(LineFault::Refused(LineRefusal::Shape)),
    }
}

/// What the number of a name is.
pub(crate) fn meaning(names: &[TypedTerm], name: usize) -> Result<LinearRow, LineFault>
    ensures { IfOk result (IsLawful (terms_in names.now) (types_in names.now)) }
{
    let _is_int = is_int(names, name)?;
    match term(names, name) {
        Some(CertificateTerm::Int(n)) => {
            let number = minus(*n)?;
            Ok(value(name, number))
        }
        Some(CertificateTerm::Real(n)) => {
            let number = minus(*n)?;
            Ok(value(name, number))
        }
        Some(CertificateTerm::Neg(a)) => {
            as_it_is(*a)?;
            Ok(pair(1, name, 1, a.name))
        }
        Some(CertificateTerm::ToReal(a)) => {
            as_it_is(*a)?;
            Ok(pair(1, name, -1, a.name))
        }
        Some(CertificateTerm::Bin(op, a, b)) => {
            as_it_is(*a)?;
            as_it_is(*b)?;
            let row = binary(names, name, *op, a.name, b.name)?;
            Ok(row)
        }
        _ => Err(LineFault::Refused(LineRefusal::Shape)),
    }
}
