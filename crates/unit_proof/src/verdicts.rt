// What a certificate shows of a unit.
ghost use Rattle.std.specs.Prelude.{◌≡◌, IfOk};
ghost use Rattle.boogie_formula.specs.Types.{IsTypedConditions};
ghost use Rattle.boogie_formula.specs.View.{conditions_of};
ghost use Rattle.cert_check.specs.Shown.{NoneCanFail};

use crate::answers::UnitVerdict;
use crate::certificates::Offer;
use crate::conditions::UnitConditions;
use cert_check::{Unshown, check};
use std::alloc::Global;
use vb_base::Memory;

/// What a certificate shows of the unit of these conditions.
///
/// `Memory` where there is no memory. A certificate that is refused shows nothing of the unit.
pub fn verdict(
    alloc: Global,
    unit: &UnitConditions,
    certificate: &[u8],
) -> Result<UnitVerdict, Memory>
    requires { IsTypedConditions (conditions_of unit.now.conditions) }
    ensures { IfOk result (λ v. v ≡ UnitVerdict.Proved → NoneCanFail (conditions_of unit.now.conditions)) }
{
    match check(alloc, unit.name.bytes(), &unit.conditions, certificate) {
        Ok(()) => Ok(UnitVerdict::Proved),
        Err(Unshown::Refused(line, reason)) => Ok(UnitVerdict::Refused(line, reason)),
        Err(Unshown::Memory) => Err(Memory),
    }
}

/// What an offer shows of the unit of these conditions.
///
/// `Memory` where there is no memory.
pub fn verdict_of_offer(
    alloc: Global,
    unit: &UnitConditions,
    offer: &Offer,
) -> Result<UnitVerdict, Memory>
    requires { IsTypedConditions (conditions_of unit.now.conditions) }
    ensures { IfOk result (λ v. v ≡ UnitVerdict.Proved → NoneCanFail (conditions_of unit.now.conditions)) }
{
    match offer {
        Offer::Certificate(certificate) => verdict(alloc, unit, certificate),
        Offer::Nothing(why) => Ok(UnitVerdict::Uncertified(*why)),
    }
}
