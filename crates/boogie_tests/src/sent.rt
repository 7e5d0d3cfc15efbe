// Procedures that are sent piece by piece. A row is the text of a procedure with a bar between its lines, as it is printed: it is
// read, and what is sent of it and what is printed of it are the same text again.
ghost use Rattle.boogie_print.specs.Printable.{IsPrintable};
ghost use Rattle.boogie_tree.specs.Whole as boogie;

use boogie_fixtures::procedures::boogie_program;
use boogie_text::{print, write_code, write_else, write_end, write_head, write_if, write_prelude};
use boogie_tree::{BExpr, BProgram, BStmt, Local, PRELUDE, Proc};
use row_columns::{bytes_of, first_other, other_lines};
use std::alloc::Global;
use std::test::Fail;
use vb_outer::MemSink;

/// Procedures whose body is one `if`, or has none.
const PROCEDURES: &str = "\
procedure nothing() { | }
procedure M$m() { | var v$x: Ref; | var v$n: int; | var m$f: [Ref]real; | var c$Q: [int, Ref]Snap; | assume (v$x != null); | assert {:msg \"1:20 1:27 false\"} (v$n < 3); | m$f[v$x] := (m$f[v$x] + 1.0); | havoc c$Q; | assume (forall q0: int, q1: Ref :: (c$Q[q0, q1] == sUnit)); | }
procedure P$P() { | var b: bool; | var q0: real; | var a: [Ref]real; | if ((b ==> (q0 > 0.0))) { | q0 := (if b then 1.0 else (- q0)); | assume (forall q1: Ref :: (a[q1] != q0)); | } else { | if (*) { | havoc q0; | } else { | } | b := false; | } | }
procedure go() { | var i: int; | var s: Snap; | if (*) { | i := (i + 1); | havoc i; | } else { | assume (s == sPair(sInt((i div 2)), sRef(null))); | } | }";

/// Sends two blocks, of which one counts.
fn send_blocks(
    alloc: Global,
    locals: &Vec<Local>,
    condition: Option<&BExpr>,
    first: &Vec<BStmt>,
    second: &Vec<BStmt>,
    sink: &mut MemSink,
) -> Result<(), Fail> {
    write_if(alloc, locals, condition, sink)?;
    write_code(alloc, locals, first, sink)?;
    write_else(sink)?;
    write_code(alloc, locals, second, sink)?;
    write_end(sink)?;
    Ok(())
}

/// Sends the statements of a body, or the `if` that is its first one.
fn send_body(
    alloc: Global,
    locals: &Vec<Local>,
    body: &Vec<BStmt>,
    sink: &mut MemSink,
) -> Result<(), Fail> {
    match body.first() {
        Some(BStmt::If(condition, first, second)) => {
            send_blocks(alloc, locals, Some(condition), first, second, sink)
        }
        Some(BStmt::Either(first, second)) => {
            send_blocks(alloc, locals, None, first, second, sink)
        }
        _ => Ok(write_code(alloc, locals, body, sink)?),
    }
}

/// Sends a program of one procedure.
fn send(alloc: Global, proc: &Proc, sink: &mut MemSink) -> Result<(), Fail> {
    write_prelude(sink)?;
    write_head(alloc, &proc.name, &proc.locals, sink)?;
    send_body(alloc, &proc.locals, &proc.body, sink)?;
    write_end(sink)?;
    Ok(())
}

/// What is sent of a program of one procedure, where it is also what is printed.
fn sent(alloc: Global, program: &BProgram) -> Result<MemSink, Fail>
    requires { IsPrintable (boogie.program_of program.now) }
{
    let mut sink = MemSink::make(alloc, Vec::new(alloc), 7)?;
    send(
        alloc,
        program.procs.first().ok_or("no procedure")?,
        &mut sink,
    )?;
    if *sink.written() != *print(alloc, program)? {
        return Err("another text")?;
    }
    Ok(sink)
}

/// What came of a row, where the row says otherwise.
fn wrong_row(alloc: Global, row: &str) -> Result<Option<String>, Fail> {
    let program = boogie_program(alloc, &bytes_of(alloc, row)?)?;
    let sink = sent(alloc, &program)?;
    let came = sink.written().strip_prefix(PRELUDE).ok_or("no prelude")?;
    other_lines(alloc, row, came)
}

/// Each procedure is sent as it is printed.
#[test]
fn procedures_are_sent_as_they_are_printed(rt: HostRuntime) -> Result<(), Fail> {
    let alloc = rt.alloc();
    let other = first_other(alloc, PROCEDURES, |row| wrong_row(alloc, row))?;
    if let Some(told) = other {
        panic!(rt; "{told}");
    }
    Ok(())
}
