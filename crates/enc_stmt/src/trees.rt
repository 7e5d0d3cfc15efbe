// The translation of a program as a tree.
ghost use Rattle.std.specs.Prelude.{◌≡◌, ◌<◌, ◌++◌, ◌↔◌, [], length, map, slice_get, All, IfOk, Some};
ghost use Rattle.vb_base.specs.declared.labels.Label.{Label};
ghost use Rattle.viper_core.specs.Formed.{IsFormed};
ghost use Rattle.viper_core.specs.View.{program_of};
ghost use Rattle.viper_core.specs.declared.programs.Unit.{Unit as UnitOf};
ghost use Rattle.viper_meaning.specs.Units.{ViperFails};
ghost use Rattle.boogie_meaning.specs.Programs.{IsTypedProc, ProcFails};
ghost use Rattle.boogie_grammar.specs.Printed.{program_text};
ghost use Rattle.boogie_print.specs.Printable.{IsPrintable};
ghost use Rattle.boogie_tree.specs.Whole as boogie;
ghost use Rattle.enc_expr.specs.Emits.{emit_of, temporaries};
ghost use Rattle.enc_stmt.specs.Built.{built_of, with_pieces};
ghost use Rattle.enc_units.specs.Rows.{row_pieces, row_types};
ghost use Rattle.enc_units.specs.Steps as steps;
ghost use Rattle.enc_units.specs.Translates.{program_code, Translates};
ghost use Rattle.enc_units.specs.Units.{unit_procedure};
ghost use Rattle.enc_units.specs.View.{coder_of, step_of};
ghost use Rattle.enc_units.specs.Written.{IsStep};

use crate::building::build_row;
use boogie_tree::{BProgram, Proc};
use enc_expr::{Emit, add};
use enc_locals::{fixed_locals, unit_at, unit_name};
use enc_units::{RowStep, Writer, unit_home, unit_steps, unit_writer};
use std::alloc::Global;
use vb_base::Memory;
use viper_core::{Program, Unit};

/// The fixed locals and those that the steps declare, and the statements of the steps.
fn row_emit(alloc: Global, writer: Writer, row: &[RowStep<'_>]) -> Result<Emit, Memory>
    requires { All IsStep (map step_of row.now) }
    ensures locals { IfOk result (λ out. (emit_of out).locals
        ≡ steps.fixed_locals (program_of writer.entry.program.now) writer.entry.unit
        ++ temporaries (length (steps.fixed_locals (program_of writer.entry.program.now) writer.entry.unit))
        (row_types (coder_of writer.entry) (map step_of row.now) (length (steps.fixed_locals (program_of writer.entry.program.now) writer.entry.unit)))) }
    ensures code { IfOk result (λ out. (emit_of out).stmts
        ≡ (with_pieces (row_pieces (coder_of writer.entry) (map step_of row.now) (length (steps.fixed_locals (program_of writer.entry.program.now) writer.entry.unit))) (built_of [] [])).block) }
{
    let locals = fixed_locals(alloc, writer.program, writer.unit)?;
    let code = Vec::new(alloc);
    let mut out = Emit { locals, code };
    build_row(alloc, writer, row, &mut out)?;
    Ok(out)
}

/// The procedure of a unit, by what its steps are written by.
fn procedure_over(alloc: Global, writer: Writer) -> Result<Proc, Memory>
    requires formed { IsFormed (program_of writer.program.now) }
    requires code { coder_of writer ≡ steps.unit_step (program_of writer.program.now) writer.unit }
    ensures { IfOk result (λ proc. boogie.proc_of proc ≡ unit_procedure (program_of writer.entry.program.now) writer.entry.unit) }
{
    let row = unit_steps(alloc, writer.program, writer.unit)?;
    let name = unit_name(alloc, writer.program, writer.unit)?;
    let out = row_emit(alloc, writer, &row)?;
    Ok(Proc {
        name,
        locals: out.locals,
        body: out.code,
    })
}

/// The procedure of a unit.
fn procedure_of(alloc: Global, program: &Program, unit: Unit) -> Result<Proc, Memory>
    requires { IsFormed (program_of program.now) }
    ensures { IfOk result (λ proc. boogie.proc_of proc ≡ unit_procedure (program_of program.now) unit) }
{
    let home = unit_home(alloc, program, unit)?;
    procedure_over(alloc, unit_writer(program, unit, &home))
}

/// The procedure of the unit of this number, from 0 on: it is well-typed, and some run of it fails at a label exactly when some run of
/// the unit does. `Memory` where there is no memory.
pub fn procedure_at(alloc: Global, program: &Program, unit: u32) -> Result<Proc, Memory>
    requires formed { IsFormed (program_of program.now) }
    requires exists { unit < length (program_of program.now).units }
    ensures procedure { (x : UnitOf) → slice_get (program_of program.now).units unit ≡ Some x
        → IfOk result (λ proc. boogie.proc_of proc ≡ unit_procedure (program_of program.now) x) }
    ensures typed { IfOk result (λ proc. IsTypedProc (boogie.proc_of proc)) }
    ensures exact { IfOk result (λ proc. (label : Label) → ProcFails (boogie.proc_of proc) label ↔ ViperFails (program_of program.now) unit label) }
{
    let of = unit_at(&program.units, unit as usize);
    procedure_of(alloc, program, of)
}

/// The procedures of units.
fn procedures_of(alloc: Global, program: &Program, units: &[Unit]) -> Result<Vec<Proc>, Memory>
    requires { IsFormed (program_of program.now) }
    ensures { IfOk result (λ procs. map boogie.proc_of procs.items ≡ map (unit_procedure (program_of program.now)) units.now) }
{
    let mut procs = Vec::new(alloc);
    for unit in units {
        let proc = procedure_of(alloc, program, *unit)?;
        add(&mut procs, proc)?;
    }
    Ok(procs)
}

/// The translation of a program as a tree, of which `encode_to` sends the text. It holds all code at once.
///
/// An Err only where there is no memory for more.
pub fn encode(alloc: Global, program: &Program) -> Result<BProgram, Memory>
    requires { IsFormed (program_of program.now) }
    ensures program { IfOk result (λ tree. boogie.program_of tree ≡ program_code (program_of program.now)) }
    ensures translates { IfOk result (λ tree. Translates (program_of program.now) (program_text (boogie.program_of tree))) }
    ensures printable { IfOk result (λ tree. IsPrintable (boogie.program_of tree)) }
{
    let procs = procedures_of(alloc, program, &program.units)?;
    Ok(BProgram { procs })
}
