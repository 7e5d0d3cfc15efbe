// A procedure that is read part by part: its statements.
ghost use Rattle.std.specs.Prelude.{◌≡◌, map, IfOk, IfSome};
ghost use Rattle.boogie_tree.specs.Whole.{proc_of, run_of, stmt_of};
ghost use Rattle.boogie_grammar.specs.Grammar.{local_names};
ghost use Rattle.boogie_run.specs.Start.{CanRun};
ghost use Rattle.tool_procedure.specs.Parts.{HasBody, IsBody, RunsBody};

use crate::begun::Begun;
use boogie_grammar::PlacedLexeme;
use boogie_run::{BOutcome, Running, is_typed_stmt};
use boogie_text::{NextInside, next_statement};
use boogie_tree::{BRun, BStmt};
use std::alloc::Global;
use vb_base::{Memory, pushed};

/// The text behind a procedure that is begun, if its statements are well-typed.
pub(crate) fn passed<'a>(
    alloc: Global,
    begun: &Begun<'a>,
    tokens: &mut Vec<PlacedLexeme>,
) -> Result<Option<&'a [u8]>, Memory>
    requires { local_names (proc_of begun.now.proc).locals ≡ begun.now.names }
    ensures { IfOk result (λ o. IfSome o (λ rest. HasBody (proc_of begun.now.proc).locals begun.now.rest.now rest.now)) }
{
    let locals = begun.proc.locals.as_slice();
    let mut rest = begun.rest;
    loop {
        match next_statement(alloc, &begun.names, rest, tokens)? {
            NextInside::End(after) => return Ok(Some(after)),
            NextInside::Statement(stmt, after) if is_typed_stmt(locals, &stmt) => {
                rest = after;
            }
            _ => return Ok(None),
        }
    }
}

/// The statements of a procedure that is begun, and the text behind it, if they are well-typed.
pub(crate) fn body<'a>(
    alloc: Global,
    begun: &Begun<'a>,
    tokens: &mut Vec<PlacedLexeme>,
) -> Result<Option<(Vec<BStmt>, &'a [u8])>, Memory>
    requires { local_names (proc_of begun.now.proc).locals ≡ begun.now.names }
    ensures { IfOk result (λ o. IfSome o (λ r. IsBody (proc_of begun.now.proc).locals begun.now.rest.now (map stmt_of r.0.items) r.1.now)) }
{
    let locals = begun.proc.locals.as_slice();
    let mut stmts = Vec::new(alloc);
    let mut rest = begun.rest;
    loop {
        match next_statement(alloc, &begun.names, rest, tokens)? {
            NextInside::End(after) => return Ok(Some((stmts, after))),
            NextInside::Statement(stmt, after) if is_typed_stmt(locals, &stmt) => {
                stmts = pushed(stmts, stmt)?;
                rest = after;
            }
            _ => return Ok(None),
        }
    }
}

/// How a run of a procedure that is begun ends, and the text behind it, if its statements are well-typed. Each is run as
/// it is read, and none is kept.
pub(crate) fn run_body<'a>(
    alloc: Global,
    begun: &Begun<'a>,
    run: &BRun,
    tokens: &mut Vec<PlacedLexeme>,
) -> Result<Option<(BOutcome, &'a [u8])>, Memory>
    requires named { local_names (proc_of begun.now.proc).locals ≡ begun.now.names }
    requires begins { CanRun (proc_of begun.now.proc) (run_of run.now) }
    ensures { IfOk result (λ o. IfSome o (λ r. RunsBody (proc_of begun.now.proc) begun.now.rest.now r.1.now (run_of run.now) r.0)) }
{
    let locals = begun.proc.locals.as_slice();
    let mut running = Running::begin(alloc, locals, run)?;
    let mut rest = begun.rest;
    loop {
        match next_statement(alloc, &begun.names, rest, tokens)? {
            NextInside::End(after) => return Ok(Some((running.outcome(), after))),
            NextInside::Statement(stmt, after) if is_typed_stmt(locals, &stmt) => {
                running.step(alloc, locals, &stmt)?;
                rest = after;
            }
            _ => return Ok(None),
        }
    }
}
