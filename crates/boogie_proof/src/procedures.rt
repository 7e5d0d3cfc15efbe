// What certificates show of the procedures of a program.
ghost use Rattle.std.specs.Prelude.{◌≡◌, ◌<◌, ◌≤◌, IfOk, IsErrOf, Some, length, slice_get};
ghost use Rattle.vb_outer.specs.Faults.{Rose};
ghost use Rattle.boogie_tree.specs.Program as p;
ghost use Rattle.boogie_tree.specs.Whole.{program_of};
ghost use Rattle.boogie_meaning.specs.Programs.{IsTypedProgram};
ghost use Rattle.boogie_print.specs.Printable.{IsPrintable};
ghost use Rattle.boogie_formula.specs.Types.{IsTypedConditions};
ghost use Rattle.boogie_formula.specs.View.{conditions_of};
ghost use Rattle.cert_check.specs.Shown.{NoneCanFail};
ghost use Rattle.unit_proof.specs.Shown.{IsProved};
ghost use Rattle.unit_proof.specs.declared.faults.CertificateFault.TheVariants as fault;
ghost use Rattle.boogie_proof.specs.Shown.{AreShown, ProcedureNeverFails};

use crate::conditions::procedure_conditions;
use boogie_tree::BProgram;
use std::alloc::Global;
use unit_proof::{
    CertificateFault, Certificates, Offer, UnitAnswer, UnitConditions, verdict_of_offer,
};
use vb_base::Memory;
use vb_outer::Shelf;

/// What an offer shows of the procedure of this number, which has these conditions.
fn told(
    alloc: Global,
    program: &BProgram,
    number: usize,
    of: &UnitConditions,
    offer: &Offer,
) -> Result<UnitAnswer, Memory>
    requires exists { number < length (program_of program.now).procs }
    requires typed { IsTypedConditions (conditions_of of.now.conditions) }
    ensures shown { IfOk result (λ a. IsProved a → NoneCanFail (conditions_of of.now.conditions)) }
    ensures named { (d : p.Proc) → slice_get (program_of program.now).procs number ≡ Some d → IfOk result (λ a. a.name ≡ d.name) }
{
    let verdict = verdict_of_offer(alloc, of, offer)?;
    let name = program.procs[number].name.copy()?;
    Ok(UnitAnswer { name, verdict })
}

/// What the next certificate shows of the procedure of this number. What it is checked against is given up behind.
fn answer<H: Shelf, C: Certificates>(
    alloc: Global,
    program: &BProgram,
    number: usize,
    shelf: &mut H,
    certificates: &mut C,
) -> Result<UnitAnswer, CertificateFault>
    requires is_typed { IsTypedProgram (program_of program.now) }
    requires is_printable { IsPrintable (program_of program.now) }
    requires exists { number < length (program_of program.now).procs }
    ensures shown { IfOk result (λ a. IsProved a → ProcedureNeverFails (program_of program.now) number) }
    ensures named { (d : p.Proc) → slice_get (program_of program.now).procs number ≡ Some d → IfOk result (λ a. a.name ≡ d.name) }
    ensures read { IsErrOf result fault.Read → Rose (H.faults shelf.old) (H.faults shelf.new) }
    ensures later { H.faults shelf.old ≤ H.faults shelf.new }
    ensures files { H.files shelf.new ≡ H.files shelf.old }
{
    let Ok(of) = procedure_conditions(alloc, program, number) else {
        return Err(CertificateFault::Memory);
    };
    match certificates.next_certificate(alloc, shelf, &of) {
        Ok(offer) => match told(alloc, program, number, &of, &offer) {
            Ok(answer) => Ok(answer),
            Err(_) => Err(CertificateFault::Memory),
        },
        Err(fault) => Err(fault),
    }
}

/// What certificates show of the procedures of a program, an answer for each, in order: no run of a procedure that is proved fails, at
/// any label. The conditions and the certificate of one procedure are held at a time.
///
/// `Read` only where the shelf failed, and `Memory` where there is no memory.
pub fn procedure_answers<H: Shelf, C: Certificates>(
    alloc: Global,
    program: &BProgram,
    shelf: &mut H,
    certificates: &mut C,
) -> Result<Vec<UnitAnswer>, CertificateFault>
    requires is_typed { IsTypedProgram (program_of program.now) }
    requires is_printable { IsPrintable (program_of program.now) }
    ensures as_many { IfOk result (λ answers. length answers.items ≡ length (program_of program.now).procs) }
    ensures shown { IfOk result (λ answers. AreShown (program_of program.now) answers.items) }
    ensures read { IsErrOf result fault.Read → Rose (H.faults shelf.old) (H.faults shelf.new) }
    ensures later { H.faults shelf.old ≤ H.faults shelf.new }
    ensures files { H.files shelf.new ≡ H.files shelf.old }
{
    let mut answers = Vec::new(alloc);
    for number in 0..program.procs.len() {
        match answer(alloc, program, number, shelf, certificates) {
            Ok(told) => match answers.push(told) {
                Ok(()) => {}
                Err(_) => return Err(CertificateFault::Memory),
            },
            Err(fault) => return Err(fault),
        }
    }
    Ok(answers)
}
