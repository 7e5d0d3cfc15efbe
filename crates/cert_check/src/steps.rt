// The clauses of steps.
ghost use Rattle.std.specs.Prelude.{IfOk};
ghost use Rattle.boogie_formula.specs.View.{conditions_of};
ghost use Rattle.cert_terms.specs.Lawful.{terms_of, types_of};
ghost use Rattle.cert_definitions.specs.Told.{AreTold};
ghost use Rattle.cert_rules.specs.Refutes.{FollowsFrom};
ghost use Rattle.cert_check.specs.Shown.{IsShown, IsRight};

use crate::laws::{StepContext, law};
use crate::names::step;
use crate::progress::Progress;
use crate::words::Reason;
use boogie_formula::Conditions;
use cert_definitions::inst;
use cert_rules::rup;
use cert_terms::{ClauseLiteral, LineFault, LineRefusal};

/// The clause of the numbers before a 0, which follows from the steps behind it.
fn of_rup(
    scope: StepContext,
    clauses: &[Vec<ClauseLiteral>],
    numbers: &[i128],
) -> Result<Vec<ClauseLiteral>, LineFault>
    ensures { IfOk result (λ c. FollowsFrom (types_of scope.entry.table.now) clauses.now c.items) }
{
    let end = numbers.iter().take_while(|number| **number != 0).count();
    let (literals, behind) = numbers.split_at(end);
    let clause = scope.names.literals(scope.alloc, literals)?;
    let mut hints = Vec::new(scope.alloc);
    match behind {
        [_, rest @ ..] => {
            for number in rest {
                hints.push(step(*number)?)?;
            }
        }
        [] => return Err(LineFault::Refused(LineRefusal::Count)),
    }
    rup(scope.alloc, scope.table, clauses, clause, &hints)
}

/// The clause that a definition, a `forall`, is false, or its body at keys is true.
fn of_inst(
    scope: StepContext,
    conditions: &Conditions,
    aliases: &[Option<ClauseLiteral>],
    numbers: &[i128],
) -> Result<Vec<ClauseLiteral>, LineFault>
    requires { AreTold (conditions_of conditions.now) (terms_of scope.table.now) (types_of scope.table.now) aliases.now }
    ensures { IfOk result (λ c. IsShown (conditions_of conditions.now) (terms_of scope.entry.table.now) (types_of scope.entry.table.now) c.items) }
{
    match numbers {
        [number, literal, rest @ ..] => {
            let place = scope.names.definition(*number)?;
            let literal = scope.names.literal(*literal)?;
            let keys = scope.names.literals(scope.alloc, rest)?;
            inst(
                scope.alloc,
                scope.table,
                conditions,
                aliases,
                place,
                literal,
                &keys,
            )
        }
        _ => Err(LineFault::Refused(LineRefusal::Count)),
    }
}

/// The clause of a step.
pub(crate) fn clause_of(
    scope: StepContext,
    conditions: &Conditions,
    shown: &Progress,
    reason: Reason,
    numbers: &[i128],
) -> Result<Vec<ClauseLiteral>, LineFault>
    requires { IsRight (conditions_of conditions.now) (terms_of scope.table.now) (types_of scope.table.now) shown.now }
    ensures { IfOk result (λ c. IsShown (conditions_of conditions.now) (terms_of scope.entry.table.now) (types_of scope.entry.table.now) c.items) }
{
    match reason {
        Reason::Rup => of_rup(scope, &shown.clauses, numbers),
        Reason::Inst => of_inst(scope, conditions, &shown.aliases, numbers),
        _ => law(scope, reason, numbers),
    }
}
