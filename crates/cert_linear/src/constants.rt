// The numbers of names that are constants.
ghost use Rattle.std.specs.Prelude.{◌≡◌, IfOk, neg_ℤ, if◌then◌else◌};
ghost use Rattle.vb_value.specs.Fraction.{whole, none, is_none, quotient as quotient_of};
ghost use Rattle.cert_terms.specs.View.{terms_in, types_in};
ghost use Rattle.cert_linear.specs.Numbers.{IsConstant};

use crate::names::{as_it_is, is_int, term};
use boogie_tree::BOp;
use cert_terms::{CertificateTerm, LineFault, LineRefusal, TypedTerm};
use vb_value::Frac;

/// How deep the operators of a constant may stand in each other.
pub(crate) const DEPTH: u32 = 8;

/// A whole number.
fn whole(n: i128) -> Result<Frac, LineFault>
    ensures { IfOk result (λ q. q ≡ whole n) }
{
    match Frac::make(n, 1) {
        Some(q) => Ok(q),
        None => Err(LineFault::Refused(LineRefusal::Large)),
    }
}

/// The other sign of a number that has one.
pub(crate) fn minus(n: i128) -> Result<i128, LineFault>
    ensures { IfOk result (λ z. z ≡ neg_ℤ n) }
{
    match n.checked_neg() {
        Some(m) => Ok(m),
        None => Err(LineFault::Refused(LineRefusal::Large)),
    }
}

/// The other sign of a fraction that has one.
fn negative(q: Frac) -> Result<Frac, LineFault>
    ensures { IfOk result (λ r. r ≡ record { num = neg_ℤ q.num; den = q.den }) }
{
    let num = minus(Frac::num(q))?;
    match Frac::make(num, Frac::den(q)) {
        Some(r) => Ok(r),
        None => Err(LineFault::Refused(LineRefusal::Large)),
    }
}

/// The quotient, which is 0 where the divisor is.
fn quotient(p: Frac, q: Frac) -> Result<Frac, LineFault>
    ensures { IfOk result (λ r. r ≡ (if is_none q then none else quotient_of p q)) }
{
    if Frac::is_none(q) {
        return Ok(Frac::none());
    }
    match Frac::div(p, q) {
        Ok(r) => Ok(r),
        Err(_) => Err(LineFault::Refused(LineRefusal::Large)),
    }
}

/// The number of a name that is a constant, which operators make that stand in each other no deeper than so.
pub(crate) fn constant(names: &[TypedTerm], name: usize, depth: u32) -> Result<Frac, LineFault>
    ensures { IfOk result (IsConstant (terms_in names.now) (types_in names.now) name) }
{
    if depth == 0 {
        return Err(LineFault::Refused(LineRefusal::Shape));
    }
    let _is_int = is_int(names, name)?;
    match term(names, name) {
        Some(CertificateTerm::Int(n)) => {
            let q = whole(*n)?;
            Ok(q)
        }
        Some(CertificateTerm::Real(n)) => {
            let q = whole(*n)?;
            Ok(q)
        }
        Some(CertificateTerm::Neg(a)) => {
            as_it_is(*a)?;
            let p = constant(names, a.name, depth - 1)?;
            let q = negative(p)?;
            Ok(q)
        }
        Some(CertificateTerm::ToReal(a)) => {
            as_it_is(*a)?;
            let q = constant(names, a.name, depth - 1)?;
            Ok(q)
        }
        Some(CertificateTerm::Bin(BOp::Divide, a, b)) => {
            as_it_is(*a)?;
            as_it_is(*b)?;
            let p = constant(names, a.name, depth - 1)?;
            let d = constant(names, b.name, depth - 1)?;
            let q = quotient(p, d)?;
            Ok(q)
        }
        _ => Err(LineFault::Refused(LineRefusal::Shape)),
    }
}
