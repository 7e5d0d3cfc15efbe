// Definitions of conditions, and the literals that they are told to be.
ghost use Rattle.std.specs.Prelude.{◌≡◌, ◌+◌, Some, slice_get, length, IfOk};
ghost use Rattle.boogie_formula.specs.View.{fexpr_of, conditions_of};

use boogie_formula::{Conditions, FExpr};
use cert_terms::{ClauseLiteral, LineFault, LineRefusal};

/// The definition of this place.
pub(crate) fn definition_at(conditions: &Conditions, place: usize) -> Result<&FExpr, LineFault>
    ensures { IfOk result (λ e. slice_get (conditions_of conditions.now).lets place ≡ Some (fexpr_of e.now)) }
{
    match conditions.lets.get(place) {
        Some(definition) => Ok(definition),
        None => Err(LineFault::Refused(LineRefusal::Name)),
    }
}

/// The name of the definition of this place.
pub(crate) fn name_of(conditions: &Conditions, place: usize) -> Result<usize, LineFault>
    ensures { IfOk result (λ name. name ≡ length (conditions_of conditions.now).vars + place) }
{
    match conditions.vars.len().checked_add(place) {
        Some(name) => Ok(name),
        None => Err(LineFault::Refused(LineRefusal::Name)),
    }
}

/// The literal that a name is told to be.
pub(crate) fn alias_of(
    aliases: &[Option<ClauseLiteral>],
    name: usize,
) -> Result<ClauseLiteral, LineFault>
    ensures { IfOk result (λ alias. slice_get aliases.now name ≡ Some (Some alias)) }
{
    match aliases.get(name) {
        Some(Some(alias)) => Ok(*alias),
        _ => Err(LineFault::Refused(LineRefusal::Definition)),
    }
}
