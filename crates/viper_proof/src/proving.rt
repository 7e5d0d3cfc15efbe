// From the bytes of a file to what is shown of its units.
ghost use Rattle.std.specs.Prelude.{◌≡◌, ◌≤◌, All, IfOk, IsErrOf};
ghost use Rattle.vb_outer.specs.Faults.{Rose};
ghost use Rattle.viper_core.specs.Formed.{IsFormed};
ghost use Rattle.viper_core.specs.View.{program_of};
ghost use Rattle.viper_file.specs.Accepted.{IsAccepted, IsRefusal};
ghost use Rattle.unit_proof.specs.Shown.{IsProved};
ghost use Rattle.viper_proof.specs.Shown.{IsAnswered, NothingFails};

use crate::faults::Unproved;
use crate::units::unit_answers;
use std::alloc::Global;
use unit_proof::{Certificates, UnitAnswer};
use vb_base::limits::MAX_VIPER_BYTES;
use vb_outer::Shelf;
use viper_core::Program;
use viper_file::{ViperRefusal, typed_program};

/// The typed program of a file of any size.
fn accepted(alloc: Global, source: &[u8]) -> Result<Program, Unproved>
    ensures accepted { IfOk result (λ p. IsAccepted source.now (program_of p)) }
    ensures formed { IfOk result (λ p. IsFormed (program_of p)) }
    ensures refused { (r : ViperRefusal) → IsErrOf result (Unproved.Refused r) → IsRefusal source.now r }
    ensures read { IsErrOf result Unproved.Read → ⊥ }
{
    if source.len() > MAX_VIPER_BYTES {
        return Err(Unproved::Refused(ViperRefusal::Size));
    }
    let program = typed_program(alloc, source)?;
    Ok(program)
}

/// What certificates show of the units of a file of Viper, an answer for each, in the order of the file.
///
/// No run of a unit that is proved fails. Where all are, nothing of the file fails: no unit, no method from a state that satisfies its
/// precondition, and no whole execution, if the file has none of the words `wildcard`, `inhale` and `assume`. It is a statement about
/// these bytes, and no certificate has to be believed.
///
/// A file that is refused is `Refused`, for the one reason that stands. `Read` only where the shelf failed, from which certificates may
/// be read, and `Memory` where there is no memory. What is held at a time is the program, and the conditions and the certificate of one unit.
pub fn proved<H: Shelf, C: Certificates>(
    alloc: Global,
    source: &[u8],
    shelf: &mut H,
    certificates: &mut C,
) -> Result<Vec<UnitAnswer>, Unproved>
    ensures units { IfOk result (λ answers. IsAnswered source.now answers.items) }
    ensures nothing_fails { IfOk result (λ answers. All IsProved answers.items → NothingFails source.now) }
    ensures refused { (r : ViperRefusal) → IsErrOf result (Unproved.Refused r) → IsRefusal source.now r }
    ensures read { IsErrOf result Unproved.Read → Rose (H.faults shelf.old) (H.faults shelf.new) }
    ensures later { H.faults shelf.old ≤ H.faults shelf.new }
    ensures files { H.files shelf.new ≡ H.files shelf.old }
{
    let program = accepted(alloc, source)?;
    let answers = unit_answers(alloc, &program, shelf, certificates)?;
    Ok(answers)
}
