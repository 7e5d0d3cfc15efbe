// What certificates show of the units of a program.
ghost use Rattle.std.specs.Prelude.{◌≡◌, ◌<◌, ◌≤◌, IfOk, IsErrOf, Some, length, slice_get};
ghost use Rattle.vb_outer.specs.Faults.{Rose};
ghost use Rattle.viper_core.specs.Formed.{IsFormed};
ghost use Rattle.viper_core.specs.View.{program_of};
ghost use Rattle.viper_core.specs.declared.programs.Unit.{Unit as UnitOf};
ghost use Rattle.boogie_formula.specs.Types.{IsTypedConditions};
ghost use Rattle.boogie_formula.specs.View.{conditions_of};
ghost use Rattle.cert_check.specs.Shown.{NoneCanFail};
ghost use Rattle.unit_proof.specs.Shown.{IsProved};
ghost use Rattle.unit_proof.specs.declared.faults.CertificateFault.TheVariants as fault;
ghost use Rattle.viper_proof.specs.Shown.{AreShown, UnitNeverFails, name_of};

use crate::conditions::unit_conditions;
use enc_expr::add;
use enc_locals::{method_at, predicate_at, unit_at};
use std::alloc::Global;
use unit_proof::{
    CertificateFault, Certificates, Offer, UnitAnswer, UnitConditions, verdict_of_offer,
};
use vb_base::{Ident, Memory};
use vb_outer::Shelf;
use viper_core::{Program, Unit};

/// The name of a unit in the file.
fn name_of(program: &Program, of: Unit) -> Result<Ident, Memory>
    ensures { IfOk result (λ name. name ≡ name_of (program_of program.now) of) }
{
    match of {
        Unit::Method(number) => match method_at(program, number) {
            Some(method) => method.name.copy(),
            None => Ok(Ident::empty()),
        },
        Unit::Predicate(number) => match predicate_at(program, number) {
            Some(predicate) => predicate.name.copy(),
            None => Ok(Ident::empty()),
        },
    }
}

/// The name in the file of the unit of this number.
fn name_at(program: &Program, unit: u32) -> Result<Ident, Memory>
    requires { unit < length (program_of program.now).units }
    ensures { (x : UnitOf) → slice_get (program_of program.now).units unit ≡ Some x → IfOk result (λ name. name ≡ name_of (program_of program.now) x) }
{
    let of = unit_at(&program.units, unit as usize);
    name_of(program, of)
}

/// What an offer shows of the unit of this number, which has these conditions.
fn told(
    alloc: Global,
    program: &Program,
    unit: u32,
    of: &UnitConditions,
    offer: &Offer,
) -> Result<UnitAnswer, Memory>
    requires exists { unit < length (program_of program.now).units }
    requires typed { IsTypedConditions (conditions_of of.now.conditions) }
    ensures shown { IfOk result (λ a. IsProved a → NoneCanFail (conditions_of of.now.conditions)) }
    ensures named { (x : UnitOf) → slice_get (program_of program.now).units unit ≡ Some x → IfOk result (λ a. a.name ≡ name_of (program_of program.now) x) }
{
    let verdict = verdict_of_offer(alloc, of, offer)?;
    let name = name_at(program, unit)?;
    Ok(UnitAnswer { name, verdict })
}

/// What the next certificate shows of the unit of this number. What it is checked against is given up behind.
fn answer<H: Shelf, C: Certificates>(
    alloc: Global,
    program: &Program,
    unit: u32,
    shelf: &mut H,
    certificates: &mut C,
) -> Result<UnitAnswer, CertificateFault>
    requires formed { IsFormed (program_of program.now) }
    requires exists { unit < length (program_of program.now).units }
    ensures shown { IfOk result (λ a. IsProved a → UnitNeverFails (program_of program.now) unit) }
    ensures named { (x : UnitOf) → slice_get (program_of program.now).units unit ≡ Some x → IfOk result (λ a. a.name ≡ name_of (program_of program.now) x) }
    ensures read { IsErrOf result fault.Read → Rose (H.faults shelf.old) (H.faults shelf.new) }
    ensures later { H.faults shelf.old ≤ H.faults shelf.new }
    ensures files { H.files shelf.new ≡ H.files shelf.old }
{
    let Ok(of) = unit_conditions(alloc, program, unit) else {
        return Err(CertificateFault::Memory);
    };
    match certificates.next_certificate(alloc, shelf, &of) {
        Ok(offer) => match told(alloc, program, unit, &of, &offer) {
            Ok(answer) => Ok(answer),
            Err(_) => Err(CertificateFault::Memory),
        },
        Err(fault) => Err(fault),
    }
}

/// What certificates show of the units of a program, an answer for each, in order: no run of a unit that is proved fails, at any label.
/// The conditions and the certificate of one unit are held at a time.
///
/// `Read` only where the shelf failed, and `Memory` where there is no memory.
pub fn unit_answers<H: Shelf, C: Certificates>(
    alloc: Global,
    program: &Program,
    shelf: &mut H,
    certificates: &mut C,
) -> Result<Vec<UnitAnswer>, CertificateFault>
    requires { IsFormed (program_of program.now) }
    ensures as_many { IfOk result (λ answers. length answers.items ≡ length (program_of program.now).units) }
    ensures shown { IfOk result (λ answers. AreShown (program_of program.now) answers.items) }
    ensures read { IsErrOf result fault.Read → Rose (H.faults shelf.old) (H.faults shelf.new) }
    ensures later { H.faults shelf.old ≤ H.faults shelf.new }
    ensures files { H.files shelf.new ≡ H.files shelf.old }
{
    let mut answers = Vec::new(alloc);
    for number in 0..program.units.len() {
        let unit = number as u32;
        match answer(alloc, program, unit, shelf, certificates) {
            Ok(told) => match add(&mut answers, told) {
                Ok(()) => {}
                Err(_) => return Err(CertificateFault::Memory),
            },
            Err(fault) => return Err(fault),
        }
    }
    Ok(answers)
}
