// The procedure of a unit: its locals, and its text.
ghost use Rattle.std.specs.Prelude.{◌≡◌, ◌++◌, ◌≤◌, ◌^◌, ℕ, Some, length, map, drop, slice_get, All, IfOk, OnOk, OnErr, IsErrOf};
ghost use Rattle.vb_outer.specs.Faults.{HasCause, Rose};
ghost use Rattle.vb_outer.specs.Sink.{Appends, AppendsPrefix};
ghost use Rattle.viper_core.specs.Formed.{IsFormed};
ghost use Rattle.viper_core.specs.View.{program_of};
ghost use Rattle.boogie_grammar.specs.Printed.{proc_text};
ghost use Rattle.boogie_print.specs.Asserts.{asserts_in};
ghost use Rattle.boogie_print.specs.Names.{names_of};
ghost use Rattle.boogie_print.specs.Pieces.{head_text, end_text};
ghost use Rattle.boogie_print.specs.declared.pieces.EmitFault.TheVariants as fault;
ghost use Rattle.boogie_tree.specs.Whole.{locals_of};
ghost use Rattle.enc_expr.specs.Emits.{temporaries};
ghost use Rattle.enc_stream.specs.Counts.{Leaves, counts};
ghost use Rattle.enc_units.specs.Rows.{row_types, row_text, row_asserts, laid_locals, laid_names, names_with, named_text, laid_text};
ghost use Rattle.enc_units.specs.Steps as steps;
ghost use Rattle.enc_units.specs.Units.{unit_procedure};
ghost use Rattle.enc_units.specs.View.{coder_of, step_of};
ghost use Rattle.enc_units.specs.Written.{IsStep};

use crate::counts::Written;
use crate::heads::write_lines;
use crate::holding::{FIRST_ROOM, HeldText, emit_behind, hold, plenty};
use crate::passes::row_locals;
use crate::writing::{Printer, write_row};
use boogie_print::{EmitFault, PrintedNames, put_end, put_head};
use boogie_tree::Local;
use enc_expr::Emit;
use enc_locals::{fixed_locals, unit_name};
use enc_units::{RowStep, Writer, unit_home, unit_steps, unit_writer};
use std::alloc::Global;
use vb_base::{Ident, Memory};
use vb_outer::{Failed, Sink, write_all};
use viper_core::{Program, Unit};

// ---- its locals

/// The fixed locals, and then those that the steps declare.
fn locals_in(alloc: Global, writer: Writer, row: &[RowStep<'_>]) -> Result<Vec<Local>, Memory>
    requires { All IsStep (map step_of row.now) }
    ensures { IfOk result (λ locals. locals_of locals.items
        ≡ steps.fixed_locals (program_of writer.entry.program.now) writer.entry.unit
        ++ temporaries (length (steps.fixed_locals (program_of writer.entry.program.now) writer.entry.unit))
        (row_types (coder_of writer.entry) (map step_of row.now) (length (steps.fixed_locals (program_of writer.entry.program.now) writer.entry.unit)))) }
{
    let locals = fixed_locals(alloc, writer.program, writer.unit)?;
    let code = Vec::new(alloc);
    let mut out = Emit { locals, code };
    row_locals(alloc, writer, row, &mut out)?;
    Ok(out.locals)
}

/// All locals of a unit, by what its steps are written by.
fn locals_over(alloc: Global, writer: Writer) -> Result<Vec<Local>, Memory>
    requires formed { IsFormed (program_of writer.program.now) }
    requires code { coder_of writer ≡ steps.unit_step (program_of writer.program.now) writer.unit }
    ensures { IfOk result (λ locals. locals_of locals.items ≡ (unit_procedure (program_of writer.entry.program.now) writer.entry.unit).locals) }
{
    let row = unit_steps(alloc, writer.program, writer.unit)?;
    locals_in(alloc, writer, &row)
}

/// All locals of the procedure of a unit.
pub fn locals_of_unit(alloc: Global, program: &Program, unit: Unit) -> Result<Vec<Local>, Memory>
    requires { IsFormed (program_of program.now) }
    ensures { IfOk result (λ locals. locals_of locals.items ≡ (unit_procedure (program_of program.now) unit).locals) }
{
    let home = unit_home(alloc, program, unit)?;
    locals_over(alloc, unit_writer(program, unit, &home))
}

// ---- its text

/// Writes and counts a text without statements.
pub(crate) fn write_text<S: Sink>(
    text: &[u8],
    written: &mut Written,
    sink: &mut S,
) -> Result<(), Failed>
    ensures ok { OnOk result (Appends (S.written sink.old) (S.written sink.new) text.now) }
    ensures counts { OnOk result (written.new ≡ counts written.old (length text.now) 0) }
    ensures front { OnErr result (AppendsPrefix (S.written sink.old) (S.written sink.new) text.now) }
    ensures cause { HasCause (S.faults sink.old) (S.faults sink.new) result }
{
    write_all(sink, text)?;
    *written = written.with_text(text);
    Ok(())
}

fn text_of_head(alloc: Global, name: &Ident, locals: &[Local]) -> Result<Vec<u8>, Memory>
    ensures { IfOk result (λ text. text.items ≡ head_text name.now (locals_of locals.now)) }
{
    let mut text = Vec::with_capacity(alloc, FIRST_ROOM)?;
    put_head(&mut text, name, locals)?;
    Ok(text)
}

fn text_of_end(alloc: Global) -> Result<Vec<u8>, Memory>
    ensures { IfOk result (λ text. text.items ≡ end_text) }
{
    let mut text = Vec::new(alloc);
    put_end(&mut text)?;
    Ok(text)
}

/// Writes a procedure of this name up to its last local, and holds the text of its first steps.
fn write_head<S: Sink>(
    alloc: Global,
    printer: Printer,
    name: &Ident,
    fixed: &[Local],
    row: &[RowStep<'_>],
    written: &mut Written,
    sink: &mut S,
) -> Result<HeldText, EmitFault>
    requires { All IsStep (map step_of row.now) }
    ensures within { IfOk result (λ held. held.steps ≤ length row.now) }
    ensures held { IfOk result (λ held. Leaves (coder_of printer.entry.writer) (names_of printer.entry.names.now) (map step_of row.now) (length (locals_of fixed.now)) (map step_of (drop held.steps row.now)) held.locals
        (length (head_text name.now (laid_locals (coder_of printer.entry.writer) (locals_of fixed.now) (map step_of row.now)))) held.text.items written.old written.new) }
    ensures ok { OnOk result (Appends (S.written sink.old) (S.written sink.new) (head_text name.now (laid_locals (coder_of printer.entry.writer) (locals_of fixed.now) (map step_of row.now)))) }
    ensures front { OnErr result (AppendsPrefix (S.written sink.old) (S.written sink.new) (head_text name.now (laid_locals (coder_of printer.entry.writer) (locals_of fixed.now) (map step_of row.now)))) }
    ensures failed { IsErrOf result fault.Failed → Rose (S.faults sink.old) (S.faults sink.new) }
    ensures later { S.faults sink.old ≤ S.faults sink.new }
{
    let mut lines = text_of_head(alloc, name, fixed)?;
    let held = hold(alloc, printer, fixed.len(), row, written, &mut lines)?;
    write_text(&lines, written, sink)?;
    let mut out = emit_behind(alloc, held.locals)?;
    write_lines(
        alloc,
        printer.writer,
        &row[held.steps..],
        &mut out,
        written,
        sink,
    )?;
    Ok(held)
}

/// Writes the text that is held, and the steps behind it.
fn write_steps<S: Sink>(
    alloc: Global,
    printer: Printer,
    held: &HeldText,
    row: &[RowStep<'_>],
    written: &mut Written,
    sink: &mut S,
) -> Result<(), EmitFault>
    requires steps { All IsStep (map step_of row.now) }
    requires within { held.now.steps ≤ length row.now }
    ensures ok { OnOk result (Appends (S.written sink.old) (S.written sink.new)
        (held.now.text.items ++ row_text (coder_of printer.entry.writer) (names_of printer.entry.names.now) (map step_of (drop held.now.steps row.now)) held.now.locals)) }
    ensures counts { OnOk result (written.new ≡ counts written.old
        (length (held.now.text.items ++ row_text (coder_of printer.entry.writer) (names_of printer.entry.names.now) (map step_of (drop held.now.steps row.now)) held.now.locals))
        (row_asserts (coder_of printer.entry.writer) (map step_of (drop held.now.steps row.now)) held.now.locals)) }
    ensures front { OnErr result (AppendsPrefix (S.written sink.old) (S.written sink.new)
        (held.now.text.items ++ row_text (coder_of printer.entry.writer) (names_of printer.entry.names.now) (map step_of (drop held.now.steps row.now)) held.now.locals)) }
    ensures failed { IsErrOf result fault.Failed → Rose (S.faults sink.old) (S.faults sink.new) }
    ensures later { S.faults sink.old ≤ S.faults sink.new }
{
    write_text(&held.text, written, sink)?;
    let mut out = emit_behind(alloc, held.locals)?;
    write_row(alloc, printer, &row[held.steps..], &mut out, written, sink)
}

/// Writes a procedure of this name, with these names of locals.
fn write_named<S: Sink>(
    alloc: Global,
    printer: Printer,
    name: &Ident,
    fixed: &[Local],
    row: &[RowStep<'_>],
    written: &mut Written,
    sink: &mut S,
) -> Result<(), EmitFault>
    requires { All IsStep (map step_of row.now) }
    ensures ok { OnOk result (Appends (S.written sink.old) (S.written sink.new)
        (named_text (coder_of printer.entry.writer) (names_of printer.entry.names.now) name.now (locals_of fixed.now) (map step_of row.now))) }
    ensures counts { OnOk result (written.new ≡ counts written.old
        (length (named_text (coder_of printer.entry.writer) (names_of printer.entry.names.now) name.now (locals_of fixed.now) (map step_of row.now)))
        (row_asserts (coder_of printer.entry.writer) (map step_of row.now) (length (locals_of fixed.now)))) }
    ensures front { OnErr result (AppendsPrefix (S.written sink.old) (S.written sink.new)
        (named_text (coder_of printer.entry.writer) (names_of printer.entry.names.now) name.now (locals_of fixed.now) (map step_of row.now))) }
    ensures failed { IsErrOf result fault.Failed → Rose (S.faults sink.old) (S.faults sink.new) }
    ensures later { S.faults sink.old ≤ S.faults sink.new }
{
    let held = write_head(alloc, printer, name, fixed, row, written, sink)?;
    write_steps(alloc, printer, &held, row, written, sink)?;
    let end = text_of_end(alloc)?;
    write_text(&end, written, sink)?;
    Ok(())
}

/// Writes a procedure of this name. Names of more temporaries than it has change nothing.
fn write_laid<S: Sink>(
    alloc: Global,
    writer: Writer,
    name: &Ident,
    row: &[RowStep<'_>],
    written: &mut Written,
    sink: &mut S,
) -> Result<(), EmitFault>
    requires steps { All IsStep (map step_of row.now) }
    requires names { (many : ℕ) → 2 ^ 60 ≤ many
        → row_text (coder_of writer) (names_with (steps.fixed_locals (program_of writer.program.now) writer.unit) many) (map step_of row.now) (length (steps.fixed_locals (program_of writer.program.now) writer.unit))
        ≡ row_text (coder_of writer) (laid_names (coder_of writer) (steps.fixed_locals (program_of writer.program.now) writer.unit) (map step_of row.now)) (map step_of row.now) (length (steps.fixed_locals (program_of writer.program.now) writer.unit)) }
    ensures ok { OnOk result (Appends (S.written sink.old) (S.written sink.new)
        (laid_text (coder_of writer.entry) name.now (steps.fixed_locals (program_of writer.entry.program.now) writer.entry.unit) (map step_of row.now))) }
    ensures counts { OnOk result (written.new ≡ counts written.old
        (length (laid_text (coder_of writer.entry) name.now (steps.fixed_locals (program_of writer.entry.program.now) writer.entry.unit) (map step_of row.now)))
        (row_asserts (coder_of writer.entry) (map step_of row.now) (length (steps.fixed_locals (program_of writer.entry.program.now) writer.entry.unit)))) }
    ensures front { OnErr result (AppendsPrefix (S.written sink.old) (S.written sink.new)
        (laid_text (coder_of writer.entry) name.now (steps.fixed_locals (program_of writer.entry.program.now) writer.entry.unit) (map step_of row.now))) }
    ensures failed { IsErrOf result fault.Failed → Rose (S.faults sink.old) (S.faults sink.new) }
    ensures later { S.faults sink.old ≤ S.faults sink.new }
{
    let fixed = fixed_locals(alloc, writer.program, writer.unit)?;
    let names = PrintedNames::with_temporaries(alloc, &fixed, plenty())?;
    let printer = Printer {
        writer,
        names: &names,
    };
    write_named(alloc, printer, name, &fixed, row, written, sink)
}

/// Writes the procedure of a unit, by what its steps are written by.
fn write_over<S: Sink>(
    alloc: Global,
    writer: Writer,
    written: &mut Written,
    sink: &mut S,
) -> Result<(), EmitFault>
    requires formed { IsFormed (program_of writer.program.now) }
    requires code { coder_of writer ≡ steps.unit_step (program_of writer.program.now) writer.unit }
    requires exists { (n : ℕ) × (slice_get (program_of writer.program.now).units n ≡ Some writer.unit) }
    ensures ok { OnOk result (Appends (S.written sink.old) (S.written sink.new) (proc_text (unit_procedure (program_of writer.entry.program.now) writer.entry.unit))) }
    ensures counts { OnOk result (written.new ≡ counts written.old (length (proc_text (unit_procedure (program_of writer.entry.program.now) writer.entry.unit)))
        (asserts_in (unit_procedure (program_of writer.entry.program.now) writer.entry.unit).body)) }
    ensures front { OnErr result (AppendsPrefix (S.written sink.old) (S.written sink.new) (proc_text (unit_procedure (program_of writer.entry.program.now) writer.entry.unit))) }
    ensures failed { IsErrOf result fault.Failed → Rose (S.faults sink.old) (S.faults sink.new) }
    ensures later { S.faults sink.old ≤ S.faults sink.new }
{
    let row = unit_steps(alloc, writer.program, writer.unit)?;
    let name = unit_name(alloc, writer.program, writer.unit)?;
    write_laid(alloc, writer, &name, &row, written, sink)
}

/// Writes the procedure of a unit.
pub fn write_unit<S: Sink>(
    alloc: Global,
    program: &Program,
    unit: Unit,
    written: &mut Written,
    sink: &mut S,
) -> Result<(), EmitFault>
    requires formed { IsFormed (program_of program.now) }
    requires exists { (n : ℕ) × (slice_get (program_of program.now).units n ≡ Some unit) }
    ensures ok { OnOk result (Appends (S.written sink.old) (S.written sink.new) (proc_text (unit_procedure (program_of program.now) unit))) }
    ensures counts { OnOk result (written.new ≡ counts written.old (length (proc_text (unit_procedure (program_of program.now) unit)))
        (asserts_in (unit_procedure (program_of program.now) unit).body)) }
    ensures front { OnErr result (AppendsPrefix (S.written sink.old) (S.written sink.new) (proc_text (unit_procedure (program_of program.now) unit))) }
    ensures failed { IsErrOf result fault.Failed → Rose (S.faults sink.old) (S.faults sink.new) }
    ensures later { S.faults sink.old ≤ S.faults sink.new }
{
    let home = unit_home(alloc, program, unit)?;
    let writer = unit_writer(program, unit, &home);
    write_over(alloc, writer, written, sink)
}
