// What there is to show of a procedure.
ghost use Rattle.std.specs.Prelude.{◌≡◌, ◌<◌, ◌↔◌, IfOk, Some, length, slice_get};
ghost use Rattle.vb_base.specs.declared.labels.Label.{Label};
ghost use Rattle.boogie_tree.specs.Program as p;
ghost use Rattle.boogie_tree.specs.Whole.{program_of};
ghost use Rattle.boogie_meaning.specs.Programs.{IsTypedProgram};
ghost use Rattle.boogie_print.specs.Printable.{IsFreeName, IsPrintable};
ghost use Rattle.boogie_formula.specs.Follows.{ConditionsFollow};
ghost use Rattle.boogie_formula.specs.Printable.{IsPrintableConditions};
ghost use Rattle.boogie_formula.specs.Types.{IsTypedConditions};
ghost use Rattle.boogie_formula.specs.Value.{CanFail};
ghost use Rattle.boogie_formula.specs.View.{conditions_of};
ghost use Rattle.boogie_wp.specs.Build.{conditions_for};
ghost use Rattle.boogie_proof.specs.Shown.{ProcedureFails};

use boogie_tree::BProgram;
use boogie_wp::conditions;
use std::alloc::Global;
use unit_proof::UnitConditions;
use vb_base::Memory;

/// The conditions of the procedure of this number, from 0 on: an assertion of them with a label can fail exactly where some run of the
/// procedure fails at the label. They can be printed. `Memory` where there is no memory.
pub fn procedure_conditions(
    alloc: Global,
    program: &BProgram,
    number: usize,
) -> Result<UnitConditions, Memory>
    requires is_typed { IsTypedProgram (program_of program.now) }
    requires is_printable { IsPrintable (program_of program.now) }
    requires exists { number < length (program_of program.now).procs }
    ensures named { (d : p.Proc) → slice_get (program_of program.now).procs number ≡ Some d → IfOk result (λ made. made.name ≡ d.name) }
    ensures built { (d : p.Proc) → slice_get (program_of program.now).procs number ≡ Some d → IfOk result (λ made. conditions_of made.conditions ≡ conditions_for d) }
    ensures follows { (d : p.Proc) → slice_get (program_of program.now).procs number ≡ Some d → IfOk result (λ made. ConditionsFollow d (conditions_of made.conditions)) }
    ensures typed { IfOk result (λ made. IsTypedConditions (conditions_of made.conditions)) }
    ensures free { IfOk result (λ made. IsFreeName made.name) }
    ensures printable { IfOk result (λ made. IsPrintableConditions (conditions_of made.conditions)) }
    ensures exact { IfOk result (λ made. (label : Label) → ProcedureFails (program_of program.now) number label ↔ CanFail (conditions_of made.conditions) label) }
{
    let name = program.procs[number].name.copy()?;
    let conditions = conditions(alloc, program, number)?;
    Ok(UnitConditions { name, conditions })
}
