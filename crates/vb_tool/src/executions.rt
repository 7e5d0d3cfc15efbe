// Executions of methods, and what is told of them.
ghost use Rattle.std.specs.Prelude.{◌≡◌, ◌≤◌, length, IfOk, IsErrOf, Some};
ghost use Rattle.std.specs.String.{string_bytes};
ghost use Rattle.vb_base.specs.Limits.{max_viper_bytes};
ghost use Rattle.vb_tool.specs.AcceptedExecution.{IsExecutionRefusal};
ghost use Rattle.vb_tool.specs.Executions.{status_of, ended_text};
ghost use Rattle.vb_tool.specs.Parts.{ExecutionOf};

use crate::outcome::Ending;
use crate::stages::framed_program;
use crate::status::{Refusal, Status};
use crate::trouble::Trouble;
use crate::units::body_named;
use run_from_file::{ExecutionTask, exec_on_file};
use std::alloc::{AllocError, Global};
use std::fmt;
use vb_base::Memory;
use viper_core::Unit;
use viper_exec::ExecEnd;

/// The status of a call whose execution ended so.
fn status_of(end: ExecEnd) -> Status
    ensures { result ≡ status_of end }
{
    match end {
        ExecEnd::Done => Status::Done,
        ExecEnd::Failed(label) => Status::Failed(label),
        ExecEnd::Blocked => Status::Blocked,
        ExecEnd::Short => Status::Short,
        ExecEnd::Over(_) => Status::Over,
        ExecEnd::Spent => Status::Spent,
    }
}

/// The line of an end.
#[derive(Clone, Copy)]
struct ExecutionLine(ExecEnd);

impl fmt::Display for ExecutionLine {
    ghost use Rattle.vb_tool.specs.Executions.{end_line};

    ghost output = { λ l. Some (end_line l.0) };

    fn fmt<W: fmt::Write>(&self, f: &mut fmt::Formatter<W>) -> fmt::Result {
        match self.0 {
            ExecEnd::Done => f.write_str("// done\n"),
            ExecEnd::Failed(label) => writeln!(f, "// failed {label}"),
            ExecEnd::Blocked => f.write_str("// blocked\n"),
            ExecEnd::Short => f.write_str("// short\n"),
            ExecEnd::Over(at) => writeln!(f, "// over {at}"),
            ExecEnd::Spent => f.write_str("// spent\n"),
        }
    }
}

/// The two lines that tell how an execution ended, and how many of its choices it did not take.
fn ended_text(alloc: Global, end: ExecEnd, unused: usize) -> Result<String, AllocError>
    ensures { IfOk result (λ text. string_bytes text ≡ ended_text end unused) }
{
    let line = ExecutionLine(end);
    format!(in alloc; "{line}// unused {unused}\n")
}

/// What is told of an execution that ended so, and left over so many choices.
fn told(alloc: Global, end: ExecEnd, unused: usize) -> Result<Ending, Memory>
    ensures status { IfOk result (λ t. t.status ≡ status_of end) }
    ensures text { IfOk result (λ t. t.text.items ≡ ended_text end unused) }
{
    let text = ended_text(alloc, end, unused)?;
    Ok(Ending {
        status: status_of(end),
        text: text.into_bytes(),
    })
}

/// The end of the execution, with a budget, of the method of this name, of the program of a file, on the run of a run file.
pub fn executed(
    alloc: Global,
    bytes: &[u8],
    name: &str,
    run_bytes: &[u8],
    budget: u32,
) -> Result<Ending, Trouble>
    requires bytes_within { length bytes.now ≤ max_viper_bytes }
    requires run_within { length run_bytes.now ≤ max_viper_bytes }
    ensures told { IfOk result (λ t. ExecutionOf bytes.now name.now run_bytes.now budget t.status t.text.items) }
    ensures refused { (r : Refusal) → IsErrOf result (Trouble.Refused r) → IsExecutionRefusal bytes.now name.now run_bytes.now r }
    ensures read { IsErrOf result Trouble.Read → ⊥ }
{
    let program = framed_program(alloc, bytes)?;
    let Some(unit) = body_named(&program, name) else {
        return Err(Trouble::Refused(Refusal::NoUnit));
    };
    let Unit::Method(method) = program.units[unit as usize] else {
        return Err(Trouble::Refused(Refusal::NoUnit));
    };
    let task = ExecutionTask {
        unit,
        method,
        budget,
    };
    let end = exec_on_file(alloc, &program, task, run_bytes)?;
    Ok(told(alloc, end.end, end.unused)?)
}
