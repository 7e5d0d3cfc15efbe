// From the bytes of a text to what is shown of its procedures.
ghost use Rattle.std.specs.Prelude.{◌≡◌, ◌≤◌, All, IfOk, IsErrOf};
ghost use Rattle.vb_outer.specs.Faults.{Rose};
ghost use Rattle.boogie_tree.specs.Whole.{program_of};
ghost use Rattle.boogie_file.specs.Accepted.{IsBoogie};
ghost use Rattle.unit_proof.specs.Shown.{IsProved};
ghost use Rattle.boogie_proof.specs.Parts.{trouble_of};
ghost use Rattle.boogie_proof.specs.Shown.{IsAnswered, IsRefusal, NothingFails};

use crate::procedures::procedure_answers;
use boogie_file::{BoogieRefusal, BoogieTrouble, boogie_program};
use boogie_tree::BProgram;
use std::alloc::Global;
use unit_proof::{CertificateFault, Certificates, UnitAnswer};
use vb_base::limits::MAX_BOOGIE_BYTES;
use vb_outer::Shelf;

/// The well-typed program of a text of any size.
fn accepted(alloc: Global, source: &[u8]) -> Result<BProgram, BoogieTrouble>
    ensures accepted { IfOk result (λ p. IsBoogie source.now (program_of p)) }
    ensures refused { (r : BoogieRefusal) → IsErrOf result (BoogieTrouble.Refused r) → IsRefusal source.now r }
    ensures read { IsErrOf result BoogieTrouble.Read → ⊥ }
{
    if source.len() > MAX_BOOGIE_BYTES {
        return Err(BoogieTrouble::Refused(BoogieRefusal::Size));
    }
    boogie_program(alloc, source)
}

/// Why nothing is told, where certificates cannot be gone on with.
fn of_certificates(fault: CertificateFault) -> BoogieTrouble
    ensures { result ≡ trouble_of fault }
{
    match fault {
        CertificateFault::Memory => BoogieTrouble::Memory,
        CertificateFault::Read => BoogieTrouble::Read,
    }
}

/// What certificates show of the procedures of a text of Boogie, an answer for each, in the order of the text.
///
/// No run of a procedure that is proved fails. Where all are, no procedure of the text has a failing run. It is a statement about these
/// bytes, and no certificate has to be believed.
///
/// A text that is refused is `Refused`, for the one reason that stands. `Read` only where the shelf failed, from which certificates may
/// be read, and `Memory` where there is no memory. What is held at a time is the program, and the conditions and the certificate of one
/// procedure.
pub fn proved<H: Shelf, C: Certificates>(
    alloc: Global,
    source: &[u8],
    shelf: &mut H,
    certificates: &mut C,
) -> Result<Vec<UnitAnswer>, BoogieTrouble>
    ensures procedures { IfOk result (λ answers. IsAnswered source.now answers.items) }
    ensures nothing_fails { IfOk result (λ answers. All IsProved answers.items → NothingFails source.now) }
    ensures refused { (r : BoogieRefusal) → IsErrOf result (BoogieTrouble.Refused r) → IsRefusal source.now r }
    ensures read { IsErrOf result BoogieTrouble.Read → Rose (H.faults shelf.old) (H.faults shelf.new) }
    ensures later { H.faults shelf.old ≤ H.faults shelf.new }
    ensures files { H.files shelf.new ≡ H.files shelf.old }
{
    let program = accepted(alloc, source)?;
    match procedure_answers(alloc, &program, shelf, certificates) {
        Ok(answers) => Ok(answers),
        Err(fault) => Err(of_certificates(fault)),
    }
}
