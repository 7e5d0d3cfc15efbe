// A pass over the steps of a unit that are not held, which writes the lines of the locals that they declare.
ghost use Rattle.std.specs.Prelude.{◌≡◌, ◌≤◌, length, map, All, OnOk, OnErr, IsErrOf};
ghost use Rattle.vb_outer.specs.Faults.{Rose};
ghost use Rattle.vb_outer.specs.Sink.{Appends, AppendsPrefix};
ghost use Rattle.boogie_print.specs.declared.pieces.EmitFault.TheVariants as fault;
ghost use Rattle.enc_expr.specs.Emits.{emit_of};
ghost use Rattle.enc_stream.specs.Counts.{Lists, counts};
ghost use Rattle.enc_units.specs.Rows.{row_lines};
ghost use Rattle.enc_units.specs.View.{coder_of, step_of};
ghost use Rattle.enc_units.specs.Written.{IsStep};

use crate::counts::Written;
use crate::light::lighten;
use boogie_print::{EmitFault, put_locals};
use enc_expr::Emit;
use enc_units::{RowStep, Writer};
use std::alloc::Global;
use vb_base::Memory;
use vb_outer::{Sink, write_all};

/// Makes the lines of the locals that a step declares, in the place of what is in `text`. `out` keeps no more of them than
/// how many they are.
fn step_lines(
    alloc: Global,
    writer: Writer,
    step: &RowStep<'_>,
    out: &mut Emit,
    text: &mut Vec<u8>,
) -> Result<(), Memory>
    requires { IsStep (step_of step.now) }
    ensures { OnOk result (Lists (coder_of writer.entry) (step_of step.now)
        (length (emit_of out.old).locals) (length (emit_of out.new).locals) text.new.items) }
{
    let before = out.locals.as_slice().len();
    writer.code(alloc, step, out)?;
    out.code.clear();
    text.clear();
    put_locals(text, &out.locals[before..])?;
    lighten(alloc, before, &mut out.locals);
    Ok(())
}

/// Writes the lines of the locals that the steps of a row declare.
pub fn write_lines<S: Sink>(
    alloc: Global,
    writer: Writer,
    row: &[RowStep<'_>],
    out: &mut Emit,
    written: &mut Written,
    sink: &mut S,
) -> Result<(), EmitFault>
    requires { All IsStep (map step_of row.now) }
    ensures ok { OnOk result (Appends (S.written sink.old) (S.written sink.new)
        (row_lines (coder_of writer.entry) (map step_of row.now) (length (emit_of out.old).locals))) }
    ensures counts { OnOk result (written.new ≡ counts written.old
        (length (row_lines (coder_of writer.entry) (map step_of row.now) (length (emit_of out.old).locals))) 0) }
    ensures front { OnErr result (AppendsPrefix (S.written sink.old) (S.written sink.new)
        (row_lines (coder_of writer.entry) (map step_of row.now) (length (emit_of out.old).locals))) }
    ensures failed { IsErrOf result fault.Failed → Rose (S.faults sink.old) (S.faults sink.new) }
    ensures later { S.faults sink.old ≤ S.faults sink.new }
{
    let _start = *written;
    let mut text = Vec::new(alloc);
    for step in row {
        step_lines(alloc, writer, step, out, &mut text)?;
        write_all(sink, &text)?;
        *written = written.with_text(&text);
    }
    Ok(())
}
