// Runs of procedures.
ghost use Rattle.std.specs.Prelude.{◌≡◌, ◌<◌, List, map, length, slice_get, IfOk, OnOk, Err, Some};
ghost use Rattle.vb_value.specs.Bound.{Bounded};
ghost use Rattle.boogie_tree.specs.Program as p;
ghost use Rattle.boogie_tree.specs.Value as v;
ghost use Rattle.boogie_tree.specs.Whole.{choice_of, proc_of, program_of, run_of, setting_of, type_of, value_of};
ghost use Rattle.boogie_meaning.specs.Programs.{IsTypedProc, IsTypedProgram, brun_proc, types_of, default_value};
ghost use Rattle.boogie_meaning.specs.Run.{Run, Stops};
ghost use Rattle.boogie_run.specs.Runs.{Runs, why};
ghost use Rattle.boogie_run.specs.Start.{with_settings, start_of, CanRun, IsWithinProgram, outcome_of};
ghost use Rattle.boogie_types.specs.Typed.{types_in};
ghost use Rattle.boogie_run.specs.View.{environment_of, left_in};
ghost use Rattle.boogie_eval.specs.Within.{AreWithinStmts};

use crate::replay_choices::{BoogieFeed, empty_map};
use crate::replay_ends::{ReplayHalt, ReplayStop, stop_of};
use crate::replay_runs::run_block;
use crate::replay_values::{Environment, copied_value};
use boogie_tree::{BChoice, BProgram, BRun, BSetting, BType, BValue, Local, Proc, default_of};
use std::alloc::Global;
use vb_base::{Label, Memory};

/// How a run of a procedure ends.
#[derive(Clone, Copy, Debug, PartialEq, Eq)]
pub enum BOutcome {
    Done,
    /// An `assert` is false.
    Failed(Label),
    /// An `assume` is false, or a choice is of another kind or type than the step takes.
    Blocked,
    /// A choice is missing.
    Short,
    /// A number or a content leaves the bound.
    Over,
}

/// The value of a variable that was never given one.
fn default_value(alloc: Global, ty: &BType) -> Result<BValue, Memory>
    ensures { IfOk result (λ x. value_of x ≡ default_value (type_of ty.now)) }
{
    if ty.keys.is_empty() {
        Ok(BValue::One(default_of(ty.base)))
    } else {
        Ok(BValue::Map(empty_map(alloc, ty.base)?))
    }
}

/// The defaults of variables.
fn defaults(alloc: Global, locals: &[Local]) -> Result<Environment, Memory>
    ensures { IfOk result (λ env. environment_of env ≡ map default_value (types_in locals.now)) }
{
    let mut values = Vec::with_capacity(alloc, locals.len())?;
    for local in locals {
        values.push(default_value(alloc, &local.ty)?)?;
    }
    Ok(Environment { values })
}

/// Gives variables values, one after the other.
fn set_all(settings: &[BSetting], env: &mut Environment) -> Result<(), Memory>
    ensures { OnOk result (environment_of env.new ≡ with_settings (environment_of env.old) (map setting_of settings.now)) }
{
    for setting in settings {
        env.set(setting.var, copied_value(&setting.value)?);
    }
    Ok(())
}

/// The values of the variables where a run begins.
pub(crate) fn start(
    alloc: Global,
    locals: &[Local],
    settings: &[BSetting],
) -> Result<Environment, Memory>
    ensures { IfOk result (λ env. environment_of env ≡ start_of (types_in locals.now) (map setting_of settings.now)) }
{
    let mut env = defaults(alloc, locals)?;
    set_all(settings, &mut env)?;
    Ok(env)
}

/// The choices of a run from the first on.
pub(crate) fn feed_of(choices: &[BChoice]) -> BoogieFeed<'_>
    ensures { left_in result ≡ map choice_of choices.entry.now }
{
    BoogieFeed { choices, next: 0 }
}

/// How a run ended that was stopped, and is not Wrong.
pub(crate) fn outcome_at(stop: ReplayStop) -> BOutcome
    requires { stop ≡ ReplayStop.Wrong → ⊥ }
    ensures { (left : List v.BChoice) → outcome_of (Stops (why stop) left) ≡ Some result }
{
    match stop {
        ReplayStop::Failed(label) => BOutcome::Failed(label),
        ReplayStop::Blocked => BOutcome::Blocked,
        ReplayStop::Short => BOutcome::Short,
        ReplayStop::Over => BOutcome::Over,
        ReplayStop::Wrong => unreachable!(),
    }
}

/// How a run ended that is not Wrong.
fn outcome(ended: Result<(), ReplayHalt>) -> Result<BOutcome, Memory>
    requires { ended ≡ Err (ReplayHalt.Stops ReplayStop.Wrong) → ⊥ }
    ensures { (r : Run) (env : List v.BValue) (left : List v.BChoice) → Runs r env left ended → IfOk result (λ o. outcome_of r ≡ Some o) }
{
    match ended {
        Ok(()) => Ok(BOutcome::Done),
        Err(halt) => Ok(outcome_at(stop_of(halt)?)),
    }
}

/// Runs a procedure.
fn replay_proc(alloc: Global, proc: &Proc, run: &BRun) -> Result<BOutcome, Memory>
    requires typed { IsTypedProc (proc_of proc.now) }
    requires within { AreWithinStmts (proc_of proc.now).body }
    requires can_run { CanRun (proc_of proc.now) (run_of run.now) }
    ensures { IfOk result (λ o. outcome_of (brun_proc Bounded (proc_of proc.now)
        (start_of (types_of (proc_of proc.now)) (run_of run.now).settings) (run_of run.now).choices) ≡ Some o) }
{
    let mut env = start(alloc, &proc.locals, &run.settings)?;
    let mut feed = feed_of(&run.choices);
    outcome(run_block(alloc, &proc.locals, &proc.body, &mut env, &mut feed))
}

/// Runs the procedure of this number, from 0 on, of a well-typed program on the settings and choices of a run. Every number is
/// within the bound of runs, and a run that leaves the bound is `Over`. `Memory` where there is no memory.
pub fn replay(
    alloc: Global,
    program: &BProgram,
    proc: usize,
    run: &BRun,
) -> Result<BOutcome, Memory>
    requires typed { IsTypedProgram (program_of program.now) }
    requires within { IsWithinProgram (program_of program.now) }
    requires exists { proc < length (program_of program.now).procs }
    requires can_run { (d : p.Proc) → slice_get (program_of program.now).procs proc ≡ Some d → CanRun d (run_of run.now) }
    ensures { (d : p.Proc) → slice_get (program_of program.now).procs proc ≡ Some d
        → IfOk result (λ o. outcome_of (brun_proc Bounded d (start_of (types_of d) (run_of run.now).settings) (run_of run.now).choices) ≡ Some o) }
{
    replay_proc(alloc, &program.procs[proc], run)
}
