// Verification conditions of procedures, and what is told of them.
ghost use Rattle.std.specs.Prelude.{◌≡◌, ◌≤◌, length, IfOk, IfSome, IsErrOf};
ghost use Rattle.vb_base.specs.Limits.{max_boogie_bytes};
ghost use Rattle.vb_tool.specs.AcceptedCondition.{IsConditionRefusal};
ghost use Rattle.vb_tool.specs.Parts.{ConditionOf};

use crate::outcome::Ending;
use crate::status::{Refusal, Status};
use crate::trouble::Trouble;
use boogie_file::accepted;
use boogie_formula_text::print_formula;
use boogie_wp::formula;
use std::alloc::Global;
use tool_procedure::procedure_alone;
use vb_base::{Label, Memory};

/// The formula of the procedure of this name, of the program of a file, and a label.
///
/// Only that procedure is held, where the file is accepted. Where it is not, the whole program is read for the reason.
pub fn stated(alloc: Global, bytes: &[u8], name: &str, label: Label) -> Result<Ending, Trouble>
    requires { length bytes.now ≤ max_boogie_bytes }
    ensures told { IfOk result (λ t. ConditionOf bytes.now name.now label t.status t.text.items) }
    ensures refused { (r : Refusal) → IsErrOf result (Trouble.Refused r) → IsConditionRefusal bytes.now name.now r }
    ensures read { IsErrOf result Trouble.Read → ⊥ }
{
    match stated_alone(alloc, bytes, name, label)? {
        Some(told) => Ok(told),
        None => stated_in_whole(alloc, bytes, name, label),
    }
}

/// The same where the file is accepted, with no other procedure in memory.
fn stated_alone(
    alloc: Global,
    bytes: &[u8],
    name: &str,
    label: Label,
) -> Result<Option<Ending>, Memory>
    requires { length bytes.now ≤ max_boogie_bytes }
    ensures { IfOk result (λ o. IfSome o (λ t. ConditionOf bytes.now name.now label t.status t.text.items)) }
{
    let Some(program) = procedure_alone(alloc, bytes, name.as_bytes())? else {
        return Ok(None);
    };
    let condition = formula(alloc, &program, 0, &label)?;
    let text = print_formula(alloc, &program.procs[0].name, &label, &condition)?;
    Ok(Some(Ending {
        status: Status::Done,
        text,
    }))
}

/// The same with the whole program in memory.
fn stated_in_whole(alloc: Global, bytes: &[u8], name: &str, label: Label) -> Result<Ending, Trouble>
    requires { length bytes.now ≤ max_boogie_bytes }
    ensures told { IfOk result (λ t. ConditionOf bytes.now name.now label t.status t.text.items) }
    ensures refused { (r : Refusal) → IsErrOf result (Trouble.Refused r) → IsConditionRefusal bytes.now name.now r }
    ensures read { IsErrOf result Trouble.Read → ⊥ }
{
    let (program, number) = accepted(alloc, bytes, name)?;
    let condition = formula(alloc, &program, number, &label)?;
    let text = print_formula(alloc, &program.procs[number].name, &label, &condition)?;
    Ok(Ending {
        status: Status::Done,
        text,
    })
}
