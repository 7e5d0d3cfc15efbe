// The stages of a command, over the bytes of its files. Each may refuse them.
ghost use Rattle.std.specs.Prelude.{◌≡◌, ◌<◌, ◌≤◌, All, length, map, slice_get, IfOk, IsErrOf, Some};
ghost use Rattle.vb_base.specs.Limits.{max_viper_bytes};
ghost use Rattle.vb_base.specs.declared.labels.Label.{Label};
ghost use Rattle.viper_core.specs.Formed.{IsFormed};
ghost use Rattle.viper_core.specs.View.{program_of};
ghost use Rattle.viper_core.specs.declared.programs.Unit.{Unit as UnitOf};
ghost use Rattle.viper_meaning.specs.Units.{Opens};
ghost use Rattle.viper_state.specs.View.{event_of, opening_of};
ghost use Rattle.moves.specs.Moves.{moves};
ghost use Rattle.moves.specs.Printable.{IsNamedMove};
ghost use Rattle.enc_locals.specs.Opened.{start_settings, IsNamedSetting};
ghost use Rattle.viper_file.specs.Accepted.{IsAccepted};
ghost use Rattle.vb_tool.specs.Accepted.{IsTextRefusal, IsRunRefusal};
ghost use Rattle.viper_file.specs.Framed.{IsFramed};
ghost use Rattle.vb_tool.specs.AcceptedExecution.{IsUnframedRefusal};
ghost use Rattle.vb_tool.specs.Moved.{moved_text};
ghost use Rattle.vb_tool.specs.Outcome.{status_of, with_moved};
ghost use Rattle.vb_tool.specs.Parts.{OutcomeOf};

use crate::moved::moved_text;
use crate::outcome::{Ending, told};
use crate::status::Refusal;
use crate::trouble::Trouble;
use crate::units::unit_named;
use run_from_file::run_on_file;
use std::alloc::Global;
use vb_base::Memory;
use viper_core::Program;
use viper_file::program_and_word;
use viper_run::Run;
use viper_state::{Opening, Outcome};

/// The typed program of a file.
pub fn typed_program(alloc: Global, bytes: &[u8]) -> Result<Program, Trouble>
    requires { length bytes.now ≤ max_viper_bytes }
    ensures accepted { IfOk result (λ p. IsAccepted bytes.now (program_of p)) }
    ensures formed { IfOk result (λ p. IsFormed (program_of p)) }
    ensures refused { (r : Refusal) → IsErrOf result (Trouble.Refused r) → IsTextRefusal bytes.now r }
    ensures read { IsErrOf result Trouble.Read → ⊥ }
{
    let program = viper_file::typed_program(alloc, bytes)?;
    Ok(program)
}

/// The same of a file that has none of the words `wildcard`, `inhale` and `assume`.
pub fn framed_program(alloc: Global, bytes: &[u8]) -> Result<Program, Trouble>
    requires { length bytes.now ≤ max_viper_bytes }
    ensures framed { IfOk result (λ p. IsFramed bytes.now (program_of p)) }
    ensures formed { IfOk result (λ p. IsFormed (program_of p)) }
    ensures refused { (r : Refusal) → IsErrOf result (Trouble.Refused r) → IsUnframedRefusal bytes.now r }
    ensures read { IsErrOf result Trouble.Read → ⊥ }
{
    let found = program_and_word(alloc, bytes)?;
    let (program, word) = found;
    match word {
        Some(at) => Err(Trouble::Refused(Refusal::Unframed(at))),
        None => Ok(program),
    }
}

/// What is told of a run of a unit that ended so: two lines, and where it failed the run of Boogie that it turns into.
fn told_of(
    alloc: Global,
    program: &Program,
    number: u32,
    opening: &Opening,
    end: &Run,
) -> Result<Ending, Memory>
    requires exists { number < length (program_of program.now).units }
    requires opens { Opens (program_of program.now) number (opening_of opening.now) }
    ensures status { IfOk result (λ t. t.status ≡ status_of end.now.outcome) }
    ensures text { (w : UnitOf) → slice_get (program_of program.now).units number ≡ Some w
        → IfOk result (λ t. t.text.items ≡ with_moved end.now.outcome end.now.unused (moved_text (program_of program.now) w (opening_of opening.now) (map event_of end.now.events.items))) }
    ensures named { IfOk result (λ t. (label : Label) → end.now.outcome ≡ Outcome.Failed label
        → All IsNamedMove (moves (map event_of end.now.events.items)) × All IsNamedSetting (start_settings (opening_of opening.now))) }
{
    let ending = told(alloc, end.outcome, end.unused)?;
    match end.outcome {
        Outcome::Failed(_) => {
            let unit = program.units[number as usize];
            let moved = moved_text(alloc, program, number, unit, opening, &end.events)?;
            ending.with_text(&moved)
        }
        Outcome::Done | Outcome::Blocked | Outcome::Short | Outcome::Over(_) => Ok(ending),
    }
}

/// The outcome of the unit of this name, of the program of a file, on the run of a run file.
pub fn outcome(alloc: Global, bytes: &[u8], name: &str, run_bytes: &[u8]) -> Result<Ending, Trouble>
    requires bytes_within { length bytes.now ≤ max_viper_bytes }
    requires run_within { length run_bytes.now ≤ max_viper_bytes }
    ensures told { IfOk result (λ t. OutcomeOf bytes.now name.now run_bytes.now t.status t.text.items) }
    ensures refused { (r : Refusal) → IsErrOf result (Trouble.Refused r) → IsRunRefusal bytes.now name.now run_bytes.now r }
    ensures read { IsErrOf result Trouble.Read → ⊥ }
{
    let program = typed_program(alloc, bytes)?;
    let Some(unit) = unit_named(&program, name) else {
        return Err(Trouble::Refused(Refusal::NoUnit));
    };
    let ended = run_on_file(alloc, &program, unit, run_bytes)?;
    Ok(told_of(alloc, &program, unit, &ended.opening, &ended.end)?)
}
