// Executions of methods on the runs of run files.
ghost use Rattle.std.specs.Prelude.{ℕ, ◌≡◌, ◌≤◌, ◌<◌, ◌-◌, ◌↔◌, List, IfErr, IfOk, IfSome, IsTrue, length, take};
ghost use Rattle.vb_base.specs.Limits.{max_boogie_bytes};
ghost use Rattle.viper_core.specs.Formed.{IsFormed};
ghost use Rattle.viper_core.specs.View.{program_of};
ghost use Rattle.viper_meaning.specs.Run as m;
ghost use Rattle.viper_meaning.specs.Run.{on};
ghost use Rattle.viper_state.specs.Choice as c;
ghost use Rattle.viper_state.specs.State as s;
ghost use Rattle.viper_exec_meaning.specs.Execution.{CanExecute, Went};
ghost use Rattle.viper_exec.specs.declared.executions.ExecEnd.TheVariants as ends;
ghost use Rattle.run_file_words.specs.Answers.{UnlessMemory};
ghost use Rattle.run_file.specs.Run as r;
ghost use Rattle.run_file.specs.Run.{SpellsViperRun, GoesWrongAt};
ghost use Rattle.run_from_file.specs.Ends.{EndsSo, EndsExecution};

use crate::fronts::{first_front, twice};
use run_file::{RunFileFault, ViperFront, ViperRun, read_viper_front};
use std::alloc::Global;
use vb_base::Memory;
use viper_core::Program;
use viper_exec::{ExecEnd, exec_method};

/// How an execution ended, and how many choices were left.
#[derive(Clone, Copy)]
pub struct EndedExecution {
    pub end: ExecEnd,
    pub unused: usize,
}

/// Whether a choice was missing.
fn is_short(end: ExecEnd) -> bool
    ensures { IsTrue result ↔ (end ≡ ends.Short) }
{
    matches!(end, ExecEnd::Short)
}

/// How an execution ended, where this is how it ended on a prefix behind which there are so many choices. None where the prefix is
/// short of choices.
fn whole_end(ended: EndedExecution, more: usize) -> Result<Option<EndedExecution>, Memory>
    ensures { (r : m.Run (Went s.State)) (many : ℕ) (choices : List c.Choice) → EndsSo (on r (take many choices)) ended → more ≡ length choices - many
        → IfOk result (λ o. IfSome o (EndsSo (on r choices))) }
{
    if more == 0 {
        return Ok(Some(ended));
    }
    if is_short(ended.end) {
        return Ok(None);
    }
    match ended.unused.checked_add(more) {
        Some(unused) => Ok(Some(EndedExecution {
            end: ended.end,
            unused,
        })),
        None => Err(Memory),
    }
}

/// A method that is executed: its number, the number of its unit, and the budget.
#[derive(Clone, Copy)]
pub struct ExecutionTask {
    pub unit: u32,
    pub method: u32,
    pub budget: u32,
}

/// Executes a method on the run that the bytes of a run file spell for its unit, of which so many choices are built. None where
/// these are too few.
fn exec_on_front(
    alloc: Global,
    program: &Program,
    task: ExecutionTask,
    bytes: &[u8],
    many: usize,
) -> Result<Option<EndedExecution>, RunFileFault>
    requires few { length bytes.now ≤ max_boogie_bytes }
    requires formed { IsFormed (program_of program.now) }
    requires unit { task.unit < length (program_of program.now).units }
    requires opens { (run : r.ViperRun) → SpellsViperRun bytes.now (program_of program.now) task.unit run → CanExecute (program_of program.now) task.method run.opening }
    ensures ends { IfOk result (λ o. IfSome o (EndsExecution bytes.now (program_of program.now) task)) }
    ensures fault { IfErr result (UnlessMemory (GoesWrongAt bytes.now (program_of program.now) task.unit)) }
{
    let front = read_viper_front(alloc, bytes, program, task.unit, many)?;
    let ViperFront { run, more } = front;
    let ViperRun { opening, choices } = run;
    let end = exec_method(
        alloc,
        program,
        task.method,
        &opening,
        choices,
        task.budget as u64,
    )?;
    let ended = EndedExecution {
        end: end.end,
        unused: end.unused,
    };
    Ok(whole_end(ended, more)?)
}

/// Executes a method on the run that the bytes of a run file spell for its unit. More and more of its choices are built, until
/// they are enough. Where the bytes spell no run, the fault is that of `read_viper_run`.
pub fn exec_on_file(
    alloc: Global,
    program: &Program,
    task: ExecutionTask,
    bytes: &[u8],
) -> Result<EndedExecution, RunFileFault>
    requires few { length bytes.now ≤ max_boogie_bytes }
    requires formed { IsFormed (program_of program.now) }
    requires unit { task.unit < length (program_of program.now).units }
    requires opens { (run : r.ViperRun) → SpellsViperRun bytes.now (program_of program.now) task.unit run → CanExecute (program_of program.now) task.method run.opening }
    ensures ends { IfOk result (EndsExecution bytes.now (program_of program.now) task) }
    ensures fault { IfErr result (UnlessMemory (GoesWrongAt bytes.now (program_of program.now) task.unit)) }
{
    let mut many = first_front(program);
    'growing: loop {
        if let Some(ended) = exec_on_front(alloc, program, task, bytes, many)? {
            return Ok(ended);
        }
        many = twice(many)?;
    }
}
