// The variables that take values.
ghost use Rattle.std.specs.Prelude.{◌≡◌, [], IfOk, map, not};
ghost use Rattle.viper_scope.specs.Answers.{Answers};
ghost use Rattle.viper_scope.specs.declared.rules.Rule.TheVariants as rule;
ghost use Rattle.viper_types.specs.Answers.{target_of, targets_of};
ghost use Rattle.viper_scope.specs.Outcome.{Found, obeys};
ghost use Rattle.viper_types.specs.Stepping as s;

use crate::frames::AssignedVariable;
use crate::listed::list_new;
use indexmap::IndexSet;
use std::alloc::Global;
use vb_base::{Memory, Pos};
use vb_value::Ty;
use viper_scope::{Rule, RuleFault, Variable, VariableScope};
use viper_syntax::Named;

/// A visible variable that is no parameter.
pub fn target(scope: &VariableScope, x: &Named) -> Result<AssignedVariable, RuleFault>
    ensures { Answers target_of (s.target scope.now x.now) result }
{
    let Some(variable) = scope.find(&x.name) else {
        return Err(RuleFault::Broken(x.pos, Rule::UnknownName));
    };
    assigned(variable, x.pos)
}

/// The same, of type Ref.
pub fn ref_target(scope: &VariableScope, x: &Named) -> Result<AssignedVariable, RuleFault>
    ensures { Answers target_of (s.ref_target scope.now x.now) result }
{
    let Some(variable) = scope.find(&x.name) else {
        return Err(RuleFault::Broken(x.pos, Rule::UnknownName));
    };
    if variable.ty != Ty::Ref {
        return Err(RuleFault::Broken(x.pos, Rule::WrongType));
    }
    assigned(variable, x.pos)
}

fn assigned(variable: Variable, at: Pos) -> Result<AssignedVariable, RuleFault>
    ensures { Answers target_of (obeys (not variable.is_parameter) at rule.ParameterAsTarget (Found (record { number = variable.number; ty = variable.ty; at = at }))) result }
{
    if variable.is_parameter {
        return Err(RuleFault::Broken(at, Rule::ParameterAsTarget));
    }
    let Variable { number, ty, .. } = variable;
    Ok(AssignedVariable { number, ty, at })
}

/// The targets of a call, none of them twice.
pub fn call_targets(
    alloc: Global,
    scope: &VariableScope,
    names: &[Named],
) -> Result<Vec<AssignedVariable>, RuleFault>
    ensures { Answers targets_of (s.call_targets scope.now [] names.now) result }
{
    let mut seen = IndexSet::new(alloc);
    let mut targets = Vec::new(alloc);
    for x in names {
        let target = target(scope, x)?;
        if !list_new(&mut seen, target.number)? {
            return Err(RuleFault::Broken(x.pos, Rule::TargetTwice));
        }
        targets.push(target)?;
    }
    Ok(targets)
}

/// The name of the first target that is not of its return's type.
pub fn mistarget(targets: &[AssignedVariable], returns: &[Ty]) -> Option<Pos>
    ensures { result ≡ s.mistarget (map target_of targets.now) returns.now }
{
    for (i, target) in targets.iter().enumerate() {
        if target.ty != *returns.get(i)? {
            return Some(target.at);
        }
    }
    None
}

/// The numbers of some targets.
pub fn numbers_in(alloc: Global, targets: &[AssignedVariable]) -> Result<Vec<u32>, Memory>
    ensures { IfOk result (λ v. v.items ≡ s.numbers_in (map target_of targets.now)) }
{
    let mut numbers = Vec::with_capacity(alloc, targets.len())?;
    for target in targets {
        numbers.push(target.number)?;
    }
    Ok(numbers)
}
