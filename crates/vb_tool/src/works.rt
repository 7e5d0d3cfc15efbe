// The work of a command: its files are read from the shelf, in their order.
ghost use Rattle.std.specs.Prelude.{◌≡◌, ◌⊎◌, ◌≤◌, IfOk, IsErrOf, length};
ghost use Rattle.vb_outer.specs.Faults.{Rose};
ghost use Rattle.vb_outer.specs.Shelf.{IsMissing, IsWhole, IsLonger};
ghost use Rattle.vb_tool.specs.Budget.{max_execution_budget};
ghost use Rattle.vb_tool.specs.Call.{Misses, NamesFile, Refuses, Does, Promises};
ghost use Rattle.vb_tool.specs.Command.{Translate, Run, Replay, Make, Execute, Cut, Condition};
ghost use Rattle.vb_tool.specs.Parts.{command_of, work_status, work_text, CanBeWritten};
ghost use Rattle.vb_tool.specs.Works.{Works, told_of};
ghost use Rattle.vb_tool.specs.declared.status.Refusal.TheVariants as refusal;

use crate::budget::MAX_EXECUTION_BUDGET;
use crate::conditions::stated;
use crate::cuts::without_loops;
use crate::executions::executed;
use crate::making::summary;
use crate::outcome::{Ending, Work};
use crate::procedures::replayed;
use crate::stages::{outcome, typed_program};
use crate::status::Refusal;
use crate::trouble::Trouble;
use crate::words::Command;
use std::alloc::Global;
use vb_base::Label;
use vb_base::limits::{MAX_BOOGIE_BYTES, MAX_VIPER_BYTES};
use vb_outer::{FileFault, Shelf, read_file};

/// Does what a command asks for, but for writing it.
pub fn work<H: Shelf>(alloc: Global, shelf: &mut H, command: Command) -> Result<Work, Trouble>
    ensures work { IfOk result (λ w. Does (IsWhole (H.files shelf.old)) (command_of command.entry) (work_status w) (work_text w)) }
    ensures promises { IfOk result (λ w. Promises (IsWhole (H.files shelf.old)) (command_of command.entry) (work_status w) (work_text w)) }
    ensures can_be_written { IfOk result (λ w. CanBeWritten w) }
    ensures refused { (r : Refusal) → IsErrOf result (Trouble.Refused r) → Refuses (IsWhole (H.files shelf.old)) (command_of command.entry) r }
    ensures read { IsErrOf result Trouble.Read → Misses (H.files shelf.old) (command_of command.entry) ⊎ Rose (H.faults shelf.old) (H.faults shelf.new) }
    ensures names { IsErrOf result Trouble.Read → NamesFile (command_of command.entry) }
    ensures files { H.files shelf.new ≡ H.files shelf.old }
{
    match command {
        Command::Translate(file) => translate(alloc, shelf, file),
        Command::Run(file, unit, run_file) => run(alloc, shelf, file, unit, run_file),
        Command::Replay(file, run_file) => replay(alloc, shelf, file, run_file),
        Command::Make(count) => tell(summary(alloc, count)),
        Command::Execute(file, method, run_file, budget) => {
            execute(alloc, shelf, file, method, run_file, budget)
        }
        Command::Cut(file) => cut(alloc, shelf, file),
        Command::Condition(file, procedure, label) => {
            condition(alloc, shelf, file, procedure, label)
        }
    }
}

/// What is told, as a work.
fn tell(told: Result<Ending, Trouble>) -> Result<Work, Trouble>
    ensures { result ≡ told_of told }
{
    match told {
        Ok(told) => Ok(Work::Tell(told)),
        Err(trouble) => Err(trouble),
    }
}

/// Reads a file, whose program is to be translated.
fn translate<H: Shelf>(alloc: Global, shelf: &mut H, file: &str) -> Result<Work, Trouble>
    ensures { Works (H.files shelf.old) (H.files shelf.new) (H.faults shelf.old) (H.faults shelf.new)
        (Translate file.now) result }
{
    let source = read_file(alloc, shelf, file, MAX_VIPER_BYTES)?;
    let program = typed_program(alloc, &source)?;
    Ok(Work::Translate(program))
}

/// Reads a file and then a run file, and runs a unit.
fn run<H: Shelf>(
    alloc: Global,
    shelf: &mut H,
    file: &str,
    unit: &str,
    run_file: &str,
) -> Result<Work, Trouble>
    ensures { Works (H.files shelf.old) (H.files shelf.new) (H.faults shelf.old) (H.faults shelf.new)
        (Run file.now unit.now run_file.now) result }
{
    let bytes = read_file(alloc, shelf, file, MAX_VIPER_BYTES)?;
    let run_bytes = read_run_file(alloc, shelf, run_file, MAX_VIPER_BYTES)?;
    tell(outcome(alloc, &bytes, unit, &run_bytes))
}

/// Reads a file of Boogie and then a run file, and runs a procedure.
fn replay<H: Shelf>(
    alloc: Global,
    shelf: &mut H,
    file: &str,
    run_file: &str,
) -> Result<Work, Trouble>
    ensures { Works (H.files shelf.old) (H.files shelf.new) (H.faults shelf.old) (H.faults shelf.new)
        (Replay file.now run_file.now) result }
{
    let bytes = read_file(alloc, shelf, file, MAX_BOOGIE_BYTES)?;
    let run_bytes = read_run_file(alloc, shelf, run_file, MAX_BOOGIE_BYTES)?;
    tell(replayed(alloc, &bytes, &run_bytes))
}

/// Reads a file and then a run file, and executes a method with a budget; where that is too great, nothing is read.
fn execute<H: Shelf>(
    alloc: Global,
    shelf: &mut H,
    file: &str,
    method: &str,
    run_file: &str,
    budget: u32,
) -> Result<Work, Trouble>
    ensures { Works (H.files shelf.old) (H.files shelf.new) (H.faults shelf.old) (H.faults shelf.new)
        (Execute file.now method.now run_file.now budget) result }
{
    if budget > MAX_EXECUTION_BUDGET {
        return Err(Trouble::Refused(Refusal::Range));
    }
    execute_within(alloc, shelf, file, method, run_file, budget)
}

/// The same with a budget that is not too great.
fn execute_within<H: Shelf>(
    alloc: Global,
    shelf: &mut H,
    file: &str,
    method: &str,
    run_file: &str,
    budget: u32,
) -> Result<Work, Trouble>
    requires { budget ≤ max_execution_budget }
    ensures { Works (H.files shelf.old) (H.files shelf.new) (H.faults shelf.old) (H.faults shelf.new)
        (Execute file.now method.now run_file.now budget) result }
{
    let text = read_file(alloc, shelf, file, MAX_VIPER_BYTES)?;
    let run_text = read_run_file(alloc, shelf, run_file, MAX_VIPER_BYTES)?;
    tell(executed(alloc, &text, method, &run_text, budget))
}

/// Reads a file of Boogie with loops and calls, and writes it without them.
fn cut<H: Shelf>(alloc: Global, shelf: &mut H, file: &str) -> Result<Work, Trouble>
    ensures { Works (H.files shelf.old) (H.files shelf.new) (H.faults shelf.old) (H.faults shelf.new)
        (Cut file.now) result }
{
    let bytes = read_file(alloc, shelf, file, MAX_BOOGIE_BYTES)?;
    tell(without_loops(alloc, &bytes))
}

/// Reads a file of Boogie, and states the formula of one of its procedures and a label.
fn condition<H: Shelf>(
    alloc: Global,
    shelf: &mut H,
    file: &str,
    procedure: &str,
    label: Label,
) -> Result<Work, Trouble>
    ensures { Works (H.files shelf.old) (H.files shelf.new) (H.faults shelf.old) (H.faults shelf.new)
        (Condition file.now procedure.now label) result }
{
    let bytes = read_file(alloc, shelf, file, MAX_BOOGIE_BYTES)?;
    tell(stated(alloc, &bytes, procedure, label))
}

/// Reads a run file, which may have so many bytes.
fn read_run_file<H: Shelf>(
    alloc: Global,
    shelf: &mut H,
    name: &str,
    limit: usize,
) -> Result<Vec<u8>, Trouble>
    ensures whole { IfOk result (λ bytes. IsWhole (H.files shelf.old) name.now bytes.items) }
    ensures within { IfOk result (λ bytes. length bytes.items ≤ limit) }
    ensures refused { (r : Refusal) → IsErrOf result (Trouble.Refused r) → (r ≡ refusal.RunSize) × IsLonger (H.files shelf.old) name.now limit }
    ensures read { IsErrOf result Trouble.Read → IsMissing (H.files shelf.old) name.now ⊎ Rose (H.faults shelf.old) (H.faults shelf.new) }
    ensures later { H.faults shelf.old ≤ H.faults shelf.new }
    ensures files { H.files shelf.new ≡ H.files shelf.old }
{
    match read_file(alloc, shelf, name, limit) {
        Ok(bytes) => Ok(bytes),
        Err(FileFault::Memory) => Err(Trouble::Memory),
        Err(FileFault::Failed) => Err(Trouble::Read),
        Err(FileFault::Long) => Err(Trouble::Refused(Refusal::RunSize)),
    }
}
