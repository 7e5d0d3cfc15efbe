// Programs of Boogie with loops and calls, and what is written for them.
ghost use Rattle.std.specs.Prelude.{◌≡◌, ◌≤◌, length, IfOk, IsErrOf};
ghost use Rattle.vb_base.specs.Limits.{max_boogie_bytes};
ghost use Rattle.boogie_loops.specs.View.{wprogram_of};
ghost use Rattle.vb_tool.specs.AcceptedCut.{AcceptsCut, IsWideRefusal, IsCutRefusal};
ghost use Rattle.vb_tool.specs.Parts.{CutOf};

use crate::outcome::Ending;
use crate::status::{Refusal, Status};
use crate::trouble::Trouble;
use boogie_cut_text::cut_with_text;
use boogie_loops::WProgram;
use boogie_loops_text::read_wide;
use boogie_loops_types::first_ill_typed_wide;
use boogie_text::print;
use std::alloc::Global;

/// The well-typed program of a file.
fn wide_program(alloc: Global, bytes: &[u8]) -> Result<WProgram, Trouble>
    requires { length bytes.now ≤ max_boogie_bytes }
    ensures accepted { IfOk result (λ p. AcceptsCut bytes.now (wprogram_of p)) }
    ensures refused { (r : Refusal) → IsErrOf result (Trouble.Refused r) → IsWideRefusal bytes.now r }
    ensures read { IsErrOf result Trouble.Read → ⊥ }
{
    let program = read_wide(alloc, bytes)?;
    let first = first_ill_typed_wide(alloc, &program)?;
    match first {
        None => Ok(program),
        Some(number) => Err(Trouble::Refused(Refusal::BoogieType(number))),
    }
}

/// The text of the program without loops and calls that is written for the program of a file.
pub fn without_loops(alloc: Global, bytes: &[u8]) -> Result<Ending, Trouble>
    requires { length bytes.now ≤ max_boogie_bytes }
    ensures told { IfOk result (λ t. CutOf bytes.now t.status t.text.items) }
    ensures refused { (r : Refusal) → IsErrOf result (Trouble.Refused r) → IsCutRefusal bytes.now r }
    ensures read { IsErrOf result Trouble.Read → ⊥ }
{
    let program = wide_program(alloc, bytes)?;
    let written = cut_with_text(alloc, &program)?;
    let text = print(alloc, &written)?;
    Ok(Ending {
        status: Status::Done,
        text,
    })
}
