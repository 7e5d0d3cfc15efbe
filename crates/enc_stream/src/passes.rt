// A pass over the steps of a unit that gathers their locals.
ghost use Rattle.std.specs.Prelude.{◌≡◌, ◌++◌, length, map, All, OnOk};
ghost use Rattle.enc_expr.specs.Emits.{emit_of, temporaries};
ghost use Rattle.enc_units.specs.Rows.{row_types};
ghost use Rattle.enc_units.specs.View.{coder_of, step_of};
ghost use Rattle.enc_units.specs.Written.{IsStep};

use enc_expr::Emit;
use enc_units::{RowStep, Writer};
use std::alloc::Global;
use vb_base::Memory;

/// Gathers the locals that the steps declare, and drops the code of each before the next.
pub fn row_locals(
    alloc: Global,
    writer: Writer,
    row: &[RowStep<'_>],
    out: &mut Emit,
) -> Result<(), Memory>
    requires { All IsStep (map step_of row.now) }
    ensures { OnOk result ((emit_of out.new).locals ≡ (emit_of out.old).locals ++ temporaries (length (emit_of out.old).locals)
        (row_types (coder_of writer.entry) (map step_of row.now) (length (emit_of out.old).locals))) }
{
    for step in row {
        writer.code(alloc, step, out)?;
        out.code.clear();
    }
    Ok(())
}
