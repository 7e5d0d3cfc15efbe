//! Procedures of Boogie: those that are read, and one around code that was written, whether it is well-typed, and what is sent of it
//! and read back.
ghost use Rattle.std.specs.Prelude.{◌≤◌, length, IfOk, IfSome};
ghost use Rattle.boogie_tree.specs.Whole as boogie;
ghost use Rattle.boogie_print.specs.Printable.{IsPrintable, FitsProc};

use boogie_grammar::BoogieFault;
use boogie_text::{print, read, write_code, write_end, write_head, write_prelude};
use boogie_tree::{BProgram, BStmt, Local, PRELUDE, Proc};
use boogie_types::check_types;
use row_columns::{parts, small};
use std::alloc::Global;
use std::str;
use std::test::Fail;
use vb_base::Ident;
use vb_outer::MemSink;

/// A program of Boogie that is read can be printed.
fn boogie_read(alloc: Global, bytes: &[u8]) -> Result<BProgram, BoogieFault>
    requires { length bytes.now ≤ 33554432 }
    ensures { IfOk result (λ p. IsPrintable (boogie.program_of p)) }
{
    read(alloc, bytes)
}

/// The program of Boogie that stands behind the prelude.
pub fn boogie_program(alloc: Global, text: &[u8]) -> Result<Box<BProgram>, Fail>
    ensures { IfOk result (λ p. IsPrintable (boogie.program_of p.value)) }
{
    let mut bytes = PRELUDE.to_vec(alloc)?;
    bytes.extend_from_slice(text)?;
    match boogie_read(alloc, small(&bytes)?) {
        Ok(program) => Ok(Box::new(alloc, program)?),
        Err(_) => Err("no program")?,
    }
}

/// The last procedure of a program.
pub fn last_procedure(program: Box<BProgram>) -> Option<Proc>
    requires { IsPrintable (boogie.program_of program.value) }
    ensures { IfSome result (λ d. FitsProc (boogie.proc_of d)) }
{
    let BProgram { mut procs } = Box::into_inner(program);
    procs.pop()
}

/// The locals of the procedure that the text spells.
pub fn locals_of(alloc: Global, text: &str) -> Result<Vec<Local>, Fail> {
    let program = boogie_program(alloc, text.as_bytes())?;
    let Proc {
        name: _,
        locals,
        body: _,
    } = last_procedure(program).ok_or("no procedure")?;
    Ok(locals)
}

fn sink(alloc: Global) -> Result<MemSink, Fail> {
    Ok(MemSink::make(alloc, Vec::new(alloc), 4096)?)
}

/// The text of a procedure `t` up to the last of the locals.
pub fn head_text(alloc: Global, locals: &Vec<Local>) -> Result<Vec<u8>, Fail> {
    let name = Ident::new(alloc, b"t")?;
    let mut sink = sink(alloc)?;
    write_head(alloc, &name, locals, &mut sink)?;
    Ok(sink.written().to_vec(alloc)?)
}

/// A program of a procedure `t` alone.
fn alone(alloc: Global, locals: Vec<Local>, body: Vec<BStmt>) -> Result<Box<BProgram>, Fail> {
    let name = Ident::new(alloc, b"t")?;
    let procs = vec![in alloc; Proc { name, locals, body }]?;
    Ok(Box::new(alloc, BProgram { procs })?)
}

/// Sends a program of one procedure.
fn send(alloc: Global, proc: &Proc, sink: &mut MemSink) -> Result<(), Fail> {
    write_prelude(sink)?;
    write_head(alloc, &proc.name, &proc.locals, sink)?;
    write_code(alloc, &proc.locals, &proc.body, sink)?;
    write_end(sink)?;
    Ok(())
}

/// What is printed of the program that a text spells.
fn printed_again(alloc: Global, text: &[u8]) -> Result<Vec<u8>, Fail> {
    let front = text.strip_prefix(PRELUDE).ok_or("no prelude")?;
    let program = boogie_program(alloc, front)?;
    Ok(print(alloc, &program)?)
}

/// The statements in the text of a procedure.
fn statements(alloc: Global, text: &[u8]) -> Result<String, Fail> {
    let text = str::from_utf8(text).ok().ok_or("no text")?;
    let (_, lines) = parts(text, "procedure t() {\n")?;
    let lines = lines.strip_suffix("}\n").ok_or("no end")?;
    let mut all = "".to_string(alloc)?;
    for line in lines.lines() {
        if !line.starts_with("var ") {
            all.push_str(if all.as_str() == "" { "" } else { " | " })?;
            all.push_str(line)?;
        }
    }
    Ok(all)
}

/// The statements of a text that is printed again as it stands, or else what is wrong.
fn told_text(alloc: Global, text: &[u8]) -> Result<String, Fail> {
    if *printed_again(alloc, text)? != *text {
        return Ok("another text".to_string(alloc)?);
    }
    statements(alloc, text)
}

/// The same of the text that is sent of a procedure.
fn told_sent(alloc: Global, proc: &Proc) -> Result<String, Fail> {
    let mut sink = sink(alloc)?;
    send(alloc, proc, &mut sink)?;
    told_text(alloc, sink.written())
}

/// The statements of a well-typed procedure of the locals and the code, which is sent, read back and printed as it was sent; or else
/// what is wrong.
pub fn told(alloc: Global, locals: Vec<Local>, code: Vec<BStmt>) -> Result<String, Fail> {
    let program = alone(alloc, locals, code)?;
    if check_types(&program).is_err() {
        return Ok("ill-typed".to_string(alloc)?);
    }
    told_sent(alloc, program.procs.first().ok_or("no procedure")?)
}
