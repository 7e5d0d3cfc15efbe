// Runs of units on the runs of run files.
ghost use Rattle.std.specs.Prelude.{ℕ, ◌≡◌, ◌≤◌, ◌<◌, ◌-◌, ◌↔◌, List, IfErr, IfOk, IfSome, IsTrue, length, take};
ghost use Rattle.vb_base.specs.Limits.{max_boogie_bytes};
ghost use Rattle.viper_core.specs.Formed.{IsFormed};
ghost use Rattle.viper_core.specs.View.{program_of};
ghost use Rattle.viper_meaning.specs.Run as m;
ghost use Rattle.viper_meaning.specs.Run.{on};
ghost use Rattle.viper_meaning.specs.Units.{Opens};
ghost use Rattle.viper_run.specs.Outcome.{Ends};
ghost use Rattle.viper_state.specs.Choice as c;
ghost use Rattle.viper_state.specs.State as s;
ghost use Rattle.viper_state.specs.View.{opening_of};
ghost use Rattle.viper_state.specs.declared.runs.Outcome.TheVariants as ends;
ghost use Rattle.run_file_words.specs.Answers.{UnlessMemory};
ghost use Rattle.run_file.specs.Run as r;
ghost use Rattle.run_file.specs.Run.{SpellsViperRun, GoesWrongAt};
ghost use Rattle.run_from_file.specs.Ends.{EndsRun};

use crate::fronts::{first_front, twice};
use run_file::{RunFileFault, ViperFront, ViperRun, read_viper_front};
use std::alloc::Global;
use vb_base::Memory;
use viper_core::Program;
use viper_run::{Run, run_unit};
use viper_state::{Opening, Outcome};

/// How a run of a unit ended, and where it began.
#[derive(Drop)]
pub struct EndedRun {
    pub opening: Opening,
    pub end: Run,
}

/// Whether a choice was missing.
fn is_short(outcome: Outcome) -> bool
    ensures { IsTrue result ↔ (outcome ≡ ends.Short) }
{
    matches!(outcome, Outcome::Short)
}

/// How a run ended, where this is how it ended on a prefix behind which there are so many choices. None where the prefix is short of
/// choices.
fn whole_end(mut end: Run, more: usize) -> Result<Option<Run>, Memory>
    ensures { (r : m.Run s.State) (many : ℕ) (choices : List c.Choice) → Ends (on r (take many choices)) end → more ≡ length choices - many
        → IfOk result (λ o. IfSome o (Ends (on r choices))) }
{
    if more == 0 {
        return Ok(Some(end));
    }
    if is_short(end.outcome) {
        return Ok(None);
    }
    match end.unused.checked_add(more) {
        Some(unused) => {
            end.unused = unused;
            Ok(Some(end))
        }
        None => Err(Memory),
    }
}

/// Runs a unit on the run that the bytes of a run file spell, of which so many choices are built. None where these are too few.
fn run_on_front(
    alloc: Global,
    program: &Program,
    unit: u32,
    bytes: &[u8],
    many: usize,
) -> Result<Option<EndedRun>, RunFileFault>
    requires few { length bytes.now ≤ max_boogie_bytes }
    requires formed { IsFormed (program_of program.now) }
    requires unit { unit < length (program_of program.now).units }
    requires opens { (run : r.ViperRun) → SpellsViperRun bytes.now (program_of program.now) unit run → Opens (program_of program.now) unit run.opening }
    ensures ends { IfOk result (λ o. IfSome o (λ x. EndsRun bytes.now (program_of program.now) unit (opening_of x.opening) x.end)) }
    ensures fault { IfErr result (UnlessMemory (GoesWrongAt bytes.now (program_of program.now) unit)) }
{
    let front = read_viper_front(alloc, bytes, program, unit, many)?;
    let ViperFront { run, more } = front;
    let ViperRun { opening, choices } = run;
    let end = run_unit(alloc, program, unit, &opening, choices)?;
    match whole_end(end, more)? {
        Some(end) => Ok(Some(EndedRun { opening, end })),
        None => Ok(None),
    }
}

/// Runs a unit on the run that the bytes of a run file spell. More and more of its choices are built, until they are enough.
/// Where the bytes spell no run, the fault is that of `read_viper_run`.
pub fn run_on_file(
    alloc: Global,
    program: &Program,
    unit: u32,
    bytes: &[u8],
) -> Result<EndedRun, RunFileFault>
    requires few { length bytes.now ≤ max_boogie_bytes }
    requires formed { IsFormed (program_of program.now) }
    requires unit { unit < length (program_of program.now).units }
    requires opens { (run : r.ViperRun) → SpellsViperRun bytes.now (program_of program.now) unit run → Opens (program_of program.now) unit run.opening }
    ensures ends { IfOk result (λ x. EndsRun bytes.now (program_of program.now) unit (opening_of x.opening) x.end) }
    ensures fault { IfErr result (UnlessMemory (GoesWrongAt bytes.now (program_of program.now) unit)) }
{
    let mut many = first_front(program);
    'growing: loop {
        if let Some(ended) = run_on_front(alloc, program, unit, bytes, many)? {
            return Ok(ended);
        }
        many = twice(many)?;
    }
}
