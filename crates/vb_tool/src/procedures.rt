// A run of a procedure of a program of Boogie.
ghost use Rattle.std.specs.Prelude.{◌≤◌, length, IfOk, IsErrOf};
ghost use Rattle.vb_base.specs.Limits.{max_boogie_bytes};
ghost use Rattle.vb_tool.specs.AcceptedReplay.{IsReplayRefusal};
ghost use Rattle.vb_tool.specs.Parts.{ReplayOf};

use crate::outcome::Ending;
use crate::replay_outcome::told;
use crate::status::Refusal;
use crate::trouble::Trouble;
use boogie_file::{boogie_program, procedure_named};
use boogie_run::replay;
use run_file::{boogie_run_name, read_boogie_run};
use std::alloc::Global;
use tool_procedure::replayed_alone;

/// The outcome of the procedure that a run file names, of the program of a file, on the run of the run file.
///
/// Where all is accepted, one statement at a time is held. Where it is not, the whole program is read for the reason.
pub fn replayed(alloc: Global, bytes: &[u8], run_bytes: &[u8]) -> Result<Ending, Trouble>
    requires bytes_within { length bytes.now ≤ max_boogie_bytes }
    requires run_within { length run_bytes.now ≤ max_boogie_bytes }
    ensures told { IfOk result (λ t. ReplayOf bytes.now run_bytes.now t.status t.text.items) }
    ensures refused { (r : Refusal) → IsErrOf result (Trouble.Refused r) → IsReplayRefusal bytes.now run_bytes.now r }
    ensures read { IsErrOf result Trouble.Read → ⊥ }
{
    match replayed_alone(alloc, bytes, run_bytes)? {
        Some(outcome) => Ok(told(alloc, outcome)?),
        None => replayed_in_whole(alloc, bytes, run_bytes),
    }
}

/// The same with the whole program in memory.
fn replayed_in_whole(alloc: Global, bytes: &[u8], run_bytes: &[u8]) -> Result<Ending, Trouble>
    requires bytes_within { length bytes.now ≤ max_boogie_bytes }
    requires run_within { length run_bytes.now ≤ max_boogie_bytes }
    ensures told { IfOk result (λ t. ReplayOf bytes.now run_bytes.now t.status t.text.items) }
    ensures refused { (r : Refusal) → IsErrOf result (Trouble.Refused r) → IsReplayRefusal bytes.now run_bytes.now r }
    ensures read { IsErrOf result Trouble.Read → ⊥ }
{
    let program = boogie_program(alloc, bytes)?;
    let name = boogie_run_name(alloc, run_bytes)?;
    let Some(number) = procedure_named(&program, name.bytes()) else {
        return Err(Trouble::Refused(Refusal::NoProcedure));
    };
    let run = read_boogie_run(alloc, run_bytes, &program.procs[number])?;
    let outcome = replay(alloc, &program, number, &run)?;
    Ok(told(alloc, outcome)?)
}
