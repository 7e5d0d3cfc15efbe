// The rows of literals.
ghost use Rattle.std.specs.Prelude.{◌≡◌, IfOk, OnOk};
ghost use Rattle.cert_terms.specs.Terms.{IsTruth};
ghost use Rattle.cert_terms.specs.View.{terms_in, types_in};
ghost use Rattle.cert_linear.specs.Numbers.{IsRowOf};

use crate::names::{as_it_is, is_int, is_truth, term};
use crate::rows::{LinearRow, equation, order};
use boogie_tree::BOp;
use cert_terms::{CertificateTerm, ClauseLiteral, LineFault, LineRefusal, TypedTerm};

/// What is known of numbers where the literal is false.
pub(crate) fn row(names: &[TypedTerm], literal: ClauseLiteral) -> Result<LinearRow, LineFault>
    ensures truth { OnOk result (IsTruth (types_in names.now) literal) }
    ensures holds { IfOk result (IsRowOf (terms_in names.now) (types_in names.now) literal) }
{
    is_truth(names, literal)?;
    match term(names, literal.name) {
        Some(CertificateTerm::Bin(op, a, b)) => {
            as_it_is(*a)?;
            as_it_is(*b)?;
            let is_int = is_int(names, a.name)?;
            match op {
                BOp::Eq => Ok(equation(a.name, b.name, literal.negated)),
                BOp::Le => Ok(order(a.name, b.name, is_int, literal.negated)),
                _ => Err(LineFault::Refused(LineRefusal::Shape)),
            }
        }
        _ => Err(LineFault::Refused(LineRefusal::Shape)),
    }
}
