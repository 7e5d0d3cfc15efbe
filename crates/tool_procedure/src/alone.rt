// The one procedure that is asked for, of a program that is read part by part.
ghost use Rattle.std.specs.Prelude.{◌≡◌, ◌≤◌, length, IfOk, IfSome};
ghost use Rattle.std.specs.Str.{bytes_eq};
ghost use Rattle.vb_base.specs.Limits.{max_boogie_bytes};
ghost use Rattle.vb_base.specs.Names.{NamesDiffer};
ghost use Rattle.boogie_grammar.specs.Grammar.{local_names};
ghost use Rattle.boogie_tree.specs.Whole.{proc_of, program_of};
ghost use Rattle.tool_procedure.specs.Alone.{IsAlone, Replays};
ghost use Rattle.tool_procedure.specs.Parts.{FitsTask, IsDone, IsMade, IsMadeAlone, IsPassed, first_of};
ghost use Rattle.tool_procedure.specs.declared.alone.ProcedureTask.TheVariants as task;

use crate::begun::{Begun, begun_of};
use crate::bodies::{body, passed, run_body};
use boogie_grammar::scopes::BoogieNames;
use boogie_grammar::{PlacedLexeme, after_prelude};
use boogie_run::BOutcome;
use boogie_text::{Outside, next_outside};
use boogie_tree::BProgram;
use run_file_boogie::{boogie_run_name, read_boogie_run};
use std::alloc::Global;
use symbol_table::{Digest, NameKey};
use vb_base::{Ident, Memory, pushed};

/// The outcome of the procedure that a run file names, of the program of a file, on the run of the run file, where both
/// files are accepted. Each statement is run as it is read, and none is kept.
///
/// `None` where something is not accepted, or so far as one part of the text tells; the program as a whole tells what.
pub fn replayed_alone(
    alloc: Global,
    bytes: &[u8],
    run_bytes: &[u8],
) -> Result<Option<BOutcome>, Memory>
    requires bytes_within { length bytes.now ≤ max_boogie_bytes }
    requires run_within { length run_bytes.now ≤ max_boogie_bytes }
    ensures { IfOk result (λ o. IfSome o (λ outcome. Replays bytes.now run_bytes.now outcome)) }
{
    let Ok(name) = boogie_run_name(alloc, run_bytes) else {
        return Ok(None);
    };
    let Ok(rest) = after_prelude(bytes) else {
        return Ok(None);
    };
    match made_alone(alloc, rest, name.bytes(), ProcedureTask::Run(run_bytes))? {
        Some(ProcedureResult::Outcome(outcome)) => Ok(Some(outcome)),
        _ => Ok(None),
    }
}

/// The procedure of this name as a program of its own, of the program of a file, where the file is accepted. No other
/// procedure is kept.
///
/// `None` where something is not accepted, or so far as one part of the text tells; the program as a whole tells what.
pub fn procedure_alone(alloc: Global, bytes: &[u8], name: &[u8]) -> Result<Option<BProgram>, Memory>
    requires { length bytes.now ≤ max_boogie_bytes }
    ensures { IfOk result (λ o. IfSome o (λ b. IsAlone bytes.now name.now (program_of b))) }
{
    let Ok(rest) = after_prelude(bytes) else {
        return Ok(None);
    };
    match made_alone(alloc, rest, name, ProcedureTask::Keep)? {
        Some(ProcedureResult::Program(program)) => Ok(Some(program)),
        _ => Ok(None),
    }
}

/// What is to be made of a procedure.
#[derive(Clone, Copy)]
enum ProcedureTask<'a> {
    /// A program of its own.
    Keep,
    /// The outcome of a run, which the bytes of a run file spell.
    Run(&'a [u8]),
}

/// What was made of a procedure.
#[derive(Drop)]
enum ProcedureResult {
    Program(BProgram),
    Outcome(BOutcome),
}

/// What is made of the procedure of this name, where a text behind the prelude is a well-typed program.
fn made_alone(
    alloc: Global,
    text: &[u8],
    name: &[u8],
    task: ProcedureTask<'_>,
) -> Result<Option<ProcedureResult>, Memory>
    requires { FitsTask task }
    ensures { IfOk result (λ o. IfSome o (IsMadeAlone text.now name.now task.entry)) }
{
    let key = key_of(text);
    let mut names = BoogieNames::new(alloc, key);
    let mut tokens = Vec::new(alloc);
    let mut kept = None;
    let mut rest = text;
    loop {
        match next_outside(alloc, &names, rest, &mut tokens)? {
            Outside::End => return Ok(kept),
            Outside::Unread => return Ok(None),
            Outside::Procedure(found, inside) => {
                names.add(found.copy()?)?;
                let wanted = is_this(&found, name);
                let Some((made, after)) = made_of(
                    alloc,
                    key,
                    task,
                    wanted,
                    found,
                    inside,
                    &mut tokens,
                )?
                else {
                    return Ok(None);
                };
                kept = first_of(kept, made);
                rest = after;
            }
        }
    }
}

/// A key that comes of a text.
fn key_of(text: &[u8]) -> NameKey {
    let mut digest = Digest::new();
    digest.add(text);
    digest.key()
}

/// Whether a name is this one.
fn is_this(found: &Ident, name: &[u8]) -> bool
    ensures { result ≡ bytes_eq found.now name.now }
{
    found.bytes() == name
}

/// The first of two that is there.
fn first_of(kept: Option<ProcedureResult>, made: Option<ProcedureResult>) -> Option<ProcedureResult>
    ensures { result ≡ first_of kept made }
{
    match kept {
        Some(first) => Some(first),
        None => made,
    }
}

/// What is made of a procedure whose head has this name, if it is wanted, and the text behind it, if it is one and well-typed.
fn made_of<'a>(
    alloc: Global,
    key: NameKey,
    task: ProcedureTask<'_>,
    wanted: bool,
    name: Ident,
    text: &'a [u8],
    tokens: &mut Vec<PlacedLexeme>,
) -> Result<Option<(Option<ProcedureResult>, &'a [u8])>, Memory>
    requires { FitsTask task }
    ensures { IfOk result (λ o. IfSome o (λ r. IsPassed (IsMade task.entry) wanted name text.now r.0 r.1.now)) }
{
    let Some(begun) = begun_of(alloc, key, name, text, tokens)? else {
        return Ok(None);
    };
    if !wanted {
        let Some(rest) = passed(alloc, &begun, tokens)? else {
            return Ok(None);
        };
        return Ok(Some((None, rest)));
    }
    let Some((made, rest)) = made_by(alloc, task, begun, tokens)? else {
        return Ok(None);
    };
    Ok(Some((Some(made), rest)))
}

/// What is made of the procedure that is begun, and the text behind it, if its statements are well-typed.
fn made_by<'a>(
    alloc: Global,
    task: ProcedureTask<'_>,
    begun: Begun<'a>,
    tokens: &mut Vec<PlacedLexeme>,
) -> Result<Option<(ProcedureResult, &'a [u8])>, Memory>
    requires fits { FitsTask task }
    requires named { local_names (proc_of begun.proc).locals ≡ begun.names }
    requires differ { NamesDiffer begun.names }
    ensures { IfOk result (λ o. IfSome o (λ r. IsDone (IsMade task.entry) (proc_of begun.entry.proc) begun.entry.rest.now r.0 r.1.now)) }
{
    match task {
        ProcedureTask::Keep => kept(alloc, begun, tokens),
        ProcedureTask::Run(run_bytes) => ended(alloc, &begun, run_bytes, tokens),
    }
}

/// The procedure that is begun as a program of its own, and the text behind it, if its statements are well-typed.
fn kept<'a>(
    alloc: Global,
    begun: Begun<'a>,
    tokens: &mut Vec<PlacedLexeme>,
) -> Result<Option<(ProcedureResult, &'a [u8])>, Memory>
    requires { local_names (proc_of begun.proc).locals ≡ begun.names }
    ensures { IfOk result (λ o. IfSome o (λ r. IsDone (IsMade task.Keep) (proc_of begun.entry.proc) begun.entry.rest.now r.0 r.1.now)) }
{
    let Some((body, rest)) = body(alloc, &begun, tokens)? else {
        return Ok(None);
    };
    let mut proc = begun.proc;
    proc.body = body;
    let procs = pushed(Vec::new(alloc), proc)?;
    Ok(Some((ProcedureResult::Program(BProgram { procs }), rest)))
}

/// How the procedure that is begun ends on the run of a run file, and the text behind it, if its statements are well-typed.
fn ended<'a>(
    alloc: Global,
    begun: &Begun<'a>,
    run_bytes: &[u8],
    tokens: &mut Vec<PlacedLexeme>,
) -> Result<Option<(ProcedureResult, &'a [u8])>, Memory>
    requires few { length run_bytes.now ≤ max_boogie_bytes }
    requires named { local_names (proc_of begun.now.proc).locals ≡ begun.now.names }
    requires differ { NamesDiffer begun.now.names }
    ensures { IfOk result (λ o. IfSome o (λ r. IsDone (IsMade (task.Run run_bytes.entry)) (proc_of begun.now.proc) begun.now.rest.now r.0 r.1.now)) }
{
    let Ok(run) = read_boogie_run(alloc, run_bytes, &begun.proc) else {
        return Ok(None);
    };
    match run_body(alloc, begun, &run, tokens)? {
        Some((outcome, rest)) => Ok(Some((ProcedureResult::Outcome(outcome), rest))),
        None => Ok(None),
    }
}
