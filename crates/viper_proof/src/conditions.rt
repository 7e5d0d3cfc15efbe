// What there is to show of a unit.
ghost use Rattle.std.specs.Prelude.{◌≡◌, ◌<◌, ◌↔◌, IfOk, Some, length, slice_get};
ghost use Rattle.vb_base.specs.declared.labels.Label.{Label};
ghost use Rattle.viper_core.specs.Formed.{IsFormed};
ghost use Rattle.viper_core.specs.View.{program_of};
ghost use Rattle.viper_core.specs.declared.programs.Unit.{Unit};
ghost use Rattle.viper_meaning.specs.Units.{ViperFails};
ghost use Rattle.boogie_print.specs.Printable.{IsFreeName};
ghost use Rattle.boogie_formula.specs.Printable.{IsPrintableConditions};
ghost use Rattle.boogie_formula.specs.Types.{IsTypedConditions};
ghost use Rattle.boogie_formula.specs.Value.{CanFail};
ghost use Rattle.boogie_formula.specs.View.{conditions_of};
ghost use Rattle.enc_locals.specs.Procedure.{unit_name};

use boogie_tree::Proc;
use boogie_wp::conditions_of_procedure;
use enc_stmt::procedure_at;
use std::alloc::Global;
use unit_proof::UnitConditions;
use vb_base::Memory;
use viper_core::Program;

/// The conditions of the unit of this number, from 0 on: an assertion of them with a label can fail exactly where some run of the unit
/// fails at the label. They can be printed. They are made from the unit's procedure, whose name has the unit's kind in front, and which
/// is given up behind. `Memory` where there is no memory.
pub fn unit_conditions(
    alloc: Global,
    program: &Program,
    unit: u32,
) -> Result<UnitConditions, Memory>
    requires formed { IsFormed (program_of program.now) }
    requires exists { unit < length (program_of program.now).units }
    ensures named { (x : Unit) → slice_get (program_of program.now).units unit ≡ Some x
        → IfOk result (λ made. made.name ≡ unit_name (program_of program.now) x) }
    ensures typed { IfOk result (λ made. IsTypedConditions (conditions_of made.conditions)) }
    ensures free { IfOk result (λ made. IsFreeName made.name) }
    ensures printable { IfOk result (λ made. IsPrintableConditions (conditions_of made.conditions)) }
    ensures exact { IfOk result (λ made. (label : Label) → ViperFails (program_of program.now) unit label ↔ CanFail (conditions_of made.conditions) label) }
{
    let procedure = procedure_at(alloc, program, unit)?;
    let conditions = conditions_of_procedure(alloc, &procedure)?;
    let Proc {
        name,
        locals: _,
        body: _,
    } = procedure;
    Ok(UnitConditions { name, conditions })
}
