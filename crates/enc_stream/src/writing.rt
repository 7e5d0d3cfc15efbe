// The last pass over the steps of a unit that are not held, which writes them.
ghost use Rattle.std.specs.Prelude.{◌≡◌, ◌++◌, ◌≤◌, length, map, All, OnOk, OnErr, IsErrOf};
ghost use Rattle.vb_outer.specs.Faults.{Rose};
ghost use Rattle.vb_outer.specs.Sink.{Appends, AppendsPrefix};
ghost use Rattle.boogie_print.specs.Names.{names_of};
ghost use Rattle.boogie_print.specs.Pieces.{pieces_text};
ghost use Rattle.boogie_print.specs.declared.pieces.EmitFault.TheVariants as fault;
ghost use Rattle.enc_expr.specs.Emits.{emit_of};
ghost use Rattle.enc_stream.specs.Counts.{Puts, counts};
ghost use Rattle.enc_units.specs.Rows.{bracket_pieces, row_text, row_asserts};
ghost use Rattle.enc_units.specs.View.{bracket_of, coder_of, step_of};
ghost use Rattle.enc_units.specs.Written.{IsStep};

use crate::counts::Written;
use crate::light::lighten;
use boogie_print::{EmitFault, PrintedNames, put_code, put_else, put_end, put_if};
use boogie_tree::BExpr;
use enc_expr::Emit;
use enc_units::{Bracket, RowStep, Writer};
use std::alloc::Global;
use vb_base::Memory;
use vb_outer::{Sink, write_all};

/// What the steps of a unit are printed by: what writes their code, and the names of its locals.
#[derive(Clone, Copy)]
pub struct Printer<'a> {
    pub writer: Writer<'a>,
    pub names: &'a PrintedNames<'a>,
}

/// Appends a bracket, if there is one.
pub(crate) fn put_bracket(
    alloc: Global,
    names: &PrintedNames<'_>,
    bracket: &Bracket,
    out: &mut Vec<u8>,
) -> Result<(), Memory>
    ensures { OnOk result (out.new.items ≡ out.old.items ++ pieces_text (names_of names.now) (bracket_pieces (bracket_of bracket.now))) }
{
    match bracket {
        Bracket::Nothing => Ok(()),
        Bracket::If(condition) => {
            let condition: &BExpr = condition;
            put_if(alloc, names, Some(condition), out)
        }
        Bracket::Either => put_if(alloc, names, None, out),
        Bracket::Else => put_else(out),
        Bracket::End => put_end(out),
    }
}

/// Makes the text of a step, in the place of what is in `text`. Its code stays in `out` until the next one, and of its
/// locals no more than how many they are.
fn step_text(
    alloc: Global,
    printer: Printer,
    step: &RowStep<'_>,
    out: &mut Emit,
    written: &mut Written,
    text: &mut Vec<u8>,
) -> Result<(), Memory>
    requires { IsStep (step_of step.now) }
    ensures { OnOk result (Puts (coder_of printer.entry.writer) (names_of printer.entry.names.now) (step_of step.now)
        (length (emit_of out.old).locals) (length (emit_of out.new).locals) written.old written.new text.new.items) }
{
    out.code.clear();
    text.clear();
    let before = out.locals.len();
    let bracket = printer.writer.code(alloc, step, out)?;
    lighten(alloc, before, &mut out.locals);
    put_code(alloc, printer.names, &out.code, text)?;
    put_bracket(alloc, printer.names, &bracket, text)?;
    *written = written.with_code(text, &out.code);
    Ok(())
}

/// Writes the steps of a row.
pub fn write_row<S: Sink>(
    alloc: Global,
    printer: Printer,
    row: &[RowStep<'_>],
    out: &mut Emit,
    written: &mut Written,
    sink: &mut S,
) -> Result<(), EmitFault>
    requires { All IsStep (map step_of row.now) }
    ensures ok { OnOk result (Appends (S.written sink.old) (S.written sink.new)
        (row_text (coder_of printer.entry.writer) (names_of printer.entry.names.now) (map step_of row.now) (length (emit_of out.old).locals))) }
    ensures counts { OnOk result (written.new ≡ counts written.old
        (length (row_text (coder_of printer.entry.writer) (names_of printer.entry.names.now) (map step_of row.now) (length (emit_of out.old).locals)))
        (row_asserts (coder_of printer.entry.writer) (map step_of row.now) (length (emit_of out.old).locals))) }
    ensures front { OnErr result (AppendsPrefix (S.written sink.old) (S.written sink.new)
        (row_text (coder_of printer.entry.writer) (names_of printer.entry.names.now) (map step_of row.now) (length (emit_of out.old).locals))) }
    ensures failed { IsErrOf result fault.Failed → Rose (S.faults sink.old) (S.faults sink.new) }
    ensures later { S.faults sink.old ≤ S.faults sink.new }
{
    let _start = *written;
    let mut text = Vec::new(alloc);
    for step in row {
        step_text(alloc, printer, step, out, written, &mut text)?;
        write_all(sink, &text)?;
    }
    Ok(())
}
