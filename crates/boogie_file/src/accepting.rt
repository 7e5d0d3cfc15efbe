// From a file to its well-typed program, and to its procedure of a name.
ghost use Rattle.std.specs.Prelude.{◌≡◌, ◌⊎◌, ◌≤◌, length, Some, IfOk, IsErrOf, position};
ghost use Rattle.std.specs.Str.{bytes_eq};
ghost use Rattle.vb_base.specs.Limits.{max_boogie_bytes};
ghost use Rattle.vb_outer.specs.Faults.{Rose};
ghost use Rattle.vb_outer.specs.Shelf.{IsMissing, IsWhole};
ghost use Rattle.boogie_tree.specs.Whole.{program_of, proc_of};
ghost use Rattle.boogie_file.specs.Accepted.{IsBoogie, IsTextRefusal, IsRefusal, procedure_named};
ghost use Rattle.boogie_file.specs.Files.{Refuses, IsFound};

use crate::refusal::BoogieRefusal;
use crate::trouble::BoogieTrouble;
use boogie_text::read;
use boogie_tree::{BProgram, Proc};
use boogie_types::check_types;
use std::alloc::Global;
use vb_base::limits::MAX_BOOGIE_BYTES;
use vb_outer::{Shelf, read_file};

/// The well-typed program of a file.
///
/// A text that is refused is `Refused`, for the reason that the contract tells. `Memory` where there is no memory.
pub fn boogie_program(alloc: Global, bytes: &[u8]) -> Result<BProgram, BoogieTrouble>
    requires { length bytes.now ≤ max_boogie_bytes }
    ensures accepted { IfOk result (λ p. IsBoogie bytes.now (program_of p)) }
    ensures refused { (r : BoogieRefusal) → IsErrOf result (BoogieTrouble.Refused r) → IsTextRefusal bytes.now r }
    ensures read { IsErrOf result BoogieTrouble.Read → ⊥ }
{
    let program = read(alloc, bytes)?;
    match check_types(&program) {
        Ok(()) => Ok(program),
        Err(number) => Err(BoogieTrouble::Refused(BoogieRefusal::BoogieType(number))),
    }
}

/// The number of the procedure that has this name.
pub fn procedure_named(program: &BProgram, name: &[u8]) -> Option<usize>
    ensures { result ≡ procedure_named (program_of program.now) name.now }
{
    place_of(&program.procs, name)
}

/// Its place among the procedures.
fn place_of(procs: &[Proc], name: &[u8]) -> Option<usize>
    ensures { result ≡ position (λ d. bytes_eq (proc_of d).name name.now) procs.now }
{
    procs.iter().position(|proc| is_named(proc, name))
}

fn is_named(proc: &Proc, name: &[u8]) -> bool
    ensures { result ≡ bytes_eq (proc_of proc.now).name name.now }
{
    proc.name.bytes() == name
}

/// The well-typed program of a file, and the number of its procedure of this name.
///
/// A file that is refused is `Refused`, for the reason that the contract tells. `Memory` where there is no memory.
pub fn accepted(alloc: Global, bytes: &[u8], name: &str) -> Result<(BProgram, usize), BoogieTrouble>
    requires { length bytes.now ≤ max_boogie_bytes }
    ensures accepted { IfOk result (λ r. IsBoogie bytes.now (program_of r.0)) }
    ensures named { IfOk result (λ r. procedure_named (program_of r.0) name.now ≡ Some r.1) }
    ensures refused { (r : BoogieRefusal) → IsErrOf result (BoogieTrouble.Refused r) → IsRefusal bytes.now name.now r }
    ensures read { IsErrOf result BoogieTrouble.Read → ⊥ }
{
    let program = boogie_program(alloc, bytes)?;
    match procedure_named(&program, name.as_bytes()) {
        Some(number) => Ok((program, number)),
        None => Err(BoogieTrouble::Refused(BoogieRefusal::NoProcedure)),
    }
}

/// Reads a file of Boogie: its program, and the number of its procedure of this name.
///
/// `Read` where the shelf failed or has no file of that name; else as `accepted`.
pub fn found<H: Shelf>(
    alloc: Global,
    shelf: &mut H,
    file: &str,
    name: &str,
) -> Result<(BProgram, usize), BoogieTrouble>
    ensures found { IfOk result (λ r. IsFound (IsWhole (H.files shelf.old)) file.now name.now (program_of r.0) r.1) }
    ensures refused { (r : BoogieRefusal) → IsErrOf result (BoogieTrouble.Refused r) → Refuses (IsWhole (H.files shelf.old)) file.now name.now r }
    ensures read { IsErrOf result BoogieTrouble.Read → IsMissing (H.files shelf.old) file.now ⊎ Rose (H.faults shelf.old) (H.faults shelf.new) }
    ensures later { H.faults shelf.old ≤ H.faults shelf.new }
    ensures files { H.files shelf.new ≡ H.files shelf.old }
{
    let bytes = read_file(alloc, shelf, file, MAX_BOOGIE_BYTES)?;
    accepted(alloc, &bytes, name)
}
