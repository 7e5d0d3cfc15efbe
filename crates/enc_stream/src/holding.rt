// The first steps of a unit, whose lines of locals and whose text are made at once and held.
ghost use Rattle.std.specs.Prelude.{◌≡◌, ◌≤◌, ◌^◌, [], length, map, drop, All, IfOk, OnOk};
ghost use Rattle.boogie_print.specs.Names.{names_of};
ghost use Rattle.enc_expr.specs.Emits.{emit_of};
ghost use Rattle.enc_stream.specs.Counts.{Adds, Holds};
ghost use Rattle.enc_units.specs.View.{coder_of, step_of};
ghost use Rattle.enc_units.specs.Written.{IsStep};

use crate::counts::Written;
use crate::light::{light_locals, lighten};
use crate::writing::{Printer, put_bracket};
use boogie_print::{put_code, put_locals};
use enc_expr::Emit;
use enc_units::RowStep;
use std::alloc::Global;
use vb_base::Memory;

/// Another step of a procedure is held as long as there are fewer bytes of lines and text than these.
const MOST_HELD: usize = 4_194_304;

/// For how many bytes of text a procedure has room from the first on. Most need no more.
pub const FIRST_ROOM: usize = 4_096;

/// The text of the first steps of a row, how many these are, and how many locals stand before the next.
#[derive(Drop)]
pub struct HeldText {
    pub text: Vec<u8>,
    pub steps: usize,
    pub locals: usize,
}

/// More temporaries than any procedure has.
pub fn plenty() -> usize
    ensures { 2 ^ 60 ≤ result }
{
    usize::MAX
}

/// Appends the lines of the locals that a step declares, and its text. Its code stays in `out` until the next one, and of its
/// locals no more than how many they are.
fn hold_step(
    alloc: Global,
    printer: Printer,
    step: &RowStep<'_>,
    out: &mut Emit,
    written: &mut Written,
    lines: &mut Vec<u8>,
    text: &mut Vec<u8>,
) -> Result<(), Memory>
    requires { IsStep (step_of step.now) }
    ensures { OnOk result (Adds (coder_of printer.entry.writer) (names_of printer.entry.names.now) (step_of step.now)
        (length (emit_of out.old).locals) (length (emit_of out.new).locals) lines.old.items lines.new.items text.old.items text.new.items written.old written.new) }
{
    out.code.clear();
    let before = out.locals.as_slice().len();
    let bracket = printer.writer.code(alloc, step, out)?;
    put_locals(lines, &out.locals[before..])?;
    lighten(alloc, before, &mut out.locals);
    put_code(alloc, printer.names, &out.code, text)?;
    put_bracket(alloc, printer.names, &bracket, text)?;
    *written = written.with_code(b"", &out.code);
    Ok(())
}

/// Appends what the first steps of a row write, and tells how many these are.
fn hold_row(
    alloc: Global,
    printer: Printer,
    row: &[RowStep<'_>],
    out: &mut Emit,
    written: &mut Written,
    lines: &mut Vec<u8>,
    text: &mut Vec<u8>,
) -> Result<usize, Memory>
    requires { All IsStep (map step_of row.now) }
    ensures within { IfOk result (λ steps. steps ≤ length row.now) }
    ensures holds { IfOk result (λ steps. Holds (coder_of printer.entry.writer) (names_of printer.entry.names.now) (map step_of row.now) (length (emit_of out.old).locals)
        (map step_of (drop steps row.now)) (length (emit_of out.new).locals) lines.old.items lines.new.items text.old.items text.new.items written.old written.new) }
{
    let _start = *written;
    for number in 0..row.len() {
        if lines.len() + text.len() >= MOST_HELD {
            return Ok(number);
        }
        hold_step(alloc, printer, &row[number], out, written, lines, text)?;
    }
    Ok(row.len())
}

/// So many locals, and no code.
pub fn emit_behind(alloc: Global, locals: usize) -> Result<Emit, Memory>
    ensures { IfOk result (λ out. length (emit_of out).locals ≡ locals) }
{
    let locals = light_locals(alloc, locals)?;
    let code = Vec::new(alloc);
    Ok(Emit { locals, code })
}

/// Appends the lines of the locals that the first steps of a row declare behind so many others, and makes the text of these steps.
pub fn hold(
    alloc: Global,
    printer: Printer,
    fixed: usize,
    row: &[RowStep<'_>],
    written: &mut Written,
    lines: &mut Vec<u8>,
) -> Result<HeldText, Memory>
    requires { All IsStep (map step_of row.now) }
    ensures within { IfOk result (λ held. held.steps ≤ length row.now) }
    ensures holds { IfOk result (λ held. Holds (coder_of printer.entry.writer) (names_of printer.entry.names.now) (map step_of row.now) fixed
        (map step_of (drop held.steps row.now)) held.locals lines.old.items lines.new.items [] held.text.items written.old written.new) }
{
    let mut out = emit_behind(alloc, fixed)?;
    let mut text = Vec::with_capacity(alloc, FIRST_ROOM)?;
    let steps = hold_row(alloc, printer, row, &mut out, written, lines, &mut text)?;
    Ok(HeldText {
        text,
        steps,
        locals: out.locals.len(),
    })
}
