// What names are, and numbers among them.
ghost use Rattle.std.specs.Prelude.{◌≡◌, Some, IfOk, OnOk, IfSome, slice_get};
ghost use Rattle.boogie_tree.specs.Values.{plain_type};
ghost use Rattle.boogie_meaning.specs.Types.{then_some, plain_base};
ghost use Rattle.cert_terms.specs.Terms.{IsTruth};
ghost use Rattle.cert_terms.specs.View.{terms_in, types_in};
ghost use Rattle.cert_linear.specs.Rows.{number_type, named};

use boogie_tree::BBase;
use cert_terms::{CertificateTerm, ClauseLiteral, LineFault, LineRefusal, TypedTerm};

/// What a name is.
pub(crate) fn term(names: &[TypedTerm], name: usize) -> Option<&CertificateTerm>
    ensures { IfSome result (λ t. slice_get (terms_in names.now) name ≡ Some t.now) }
{
    match names.get(name) {
        Some(named) => Some(&named.term),
        None => None,
    }
}

/// The type of a name that is no map.
fn base(names: &[TypedTerm], name: usize) -> Option<BBase>
    ensures { result ≡ then_some (slice_get (types_in names.now) name) (λ l. plain_base l.keys l.base) }
{
    let named = names.get(name)?;
    if named.ty.keys.is_empty() {
        Some(named.ty.base)
    } else {
        None
    }
}

/// Whether the number of this name is an int, and not a real. What is no number is refused.
pub(crate) fn is_int(names: &[TypedTerm], name: usize) -> Result<bool, LineFault>
    ensures { IfOk result (λ p. slice_get (types_in names.now) name ≡ Some (plain_type (number_type p))) }
{
    match base(names, name) {
        Some(BBase::Int) => Ok(true),
        Some(BBase::Real) => Ok(false),
        _ => Err(LineFault::Refused(LineRefusal::Type)),
    }
}

/// Refuses what is no truth value.
pub(crate) fn is_truth(names: &[TypedTerm], literal: ClauseLiteral) -> Result<(), LineFault>
    ensures { OnOk result (IsTruth (types_in names.now) literal) }
{
    match base(names, literal.name) {
        Some(BBase::Bool) => Ok(()),
        _ => Err(LineFault::Refused(LineRefusal::Type)),
    }
}

/// Refuses a negation.
pub(crate) fn as_it_is(literal: ClauseLiteral) -> Result<(), LineFault>
    ensures { OnOk result (literal ≡ named literal.name) }
{
    if literal.negated {
        return Err(LineFault::Refused(LineRefusal::Type));
    }
    Ok(())
}
