// Calls of methods.
ghost use Rattle.std.specs.Prelude.{◌≡◌, map};
ghost use Rattle.viper_core.specs.View.{stmt_of};
ghost use Rattle.viper_syntax.specs.Term as t;
ghost use Rattle.viper_syntax.specs.View.{call_of};
ghost use Rattle.viper_scope.specs.Answers.{Answers, argument_exprs_of, context_of, typing_of, typings_of};
ghost use Rattle.viper_types.specs.Answers.{target_of};
ghost use Rattle.viper_scope.specs.Arguments as a;
ghost use Rattle.viper_types.specs.Stepping as s;
ghost use Rattle.viper_types.specs.Typing as j;

use crate::assigned::{mistarget, numbers_in};
use crate::expressions::{arguments, typings};
use crate::frames::AssignedVariable;
use std::alloc::Global;
use vb_base::Pos;
use vb_value::Ty;
use viper_core::{Expr, Stmt};
use viper_scope::{
    Context, MethodTypes, Rule, RuleFault, VariableScope, as_many, exprs_in, misfit,
};
use viper_syntax::SCall;

/// The arguments of a call, with their types.
fn typed_arguments(
    alloc: Global,
    context: &Context,
    scope: &VariableScope,
    call: &SCall,
) -> Result<Vec<(Expr, Ty)>, RuleFault>
    ensures { Answers typings_of (j.typing_all (context_of context.now) scope.now (t.terms (call_of call.now).args)) result }
{
    typings(alloc, context, scope, &call.args)
}

/// The start of the first argument of a call that is not of its parameter's type.
fn first_misfit(call: &SCall, typed: &[(Expr, Ty)], params: &[Ty]) -> Option<Pos>
    ensures { result ≡ a.misfit (t.terms (call_of call.now).args) (map typing_of typed.now) params.now }
{
    misfit(&call.args, typed, params)
}

/// A call of the method of this number with typed arguments.
#[tactic(auto, using(crate::proofs::CallLaws::as_many_map))]
fn called(
    alloc: Global,
    at: Pos,
    targets: &[AssignedVariable],
    call: &SCall,
    number: u32,
    method: &MethodTypes,
    typed: Vec<(Expr, Ty)>,
) -> Result<Stmt, RuleFault>
    ensures { Answers stmt_of (s.called at (map target_of targets.now) (call_of call.now) number method.now.params.items method.now.returns.items (typings_of typed)) result }
{
    let name_at = call.name.pos;
    if !as_many(&typed, &method.params) {
        return Err(RuleFault::Broken(name_at, Rule::ArgumentCount));
    }
    if !as_many(targets, &method.returns) {
        return Err(RuleFault::Broken(name_at, Rule::TargetCount));
    }
    if let Some(place) = mistarget(targets, &method.returns) {
        return Err(RuleFault::Broken(place, Rule::WrongType));
    }
    if let Some(place) = first_misfit(call, &typed, &method.params) {
        return Err(RuleFault::Broken(place, Rule::WrongType));
    }
    let numbers = numbers_in(alloc, targets)?;
    Ok(Stmt::Call(at, numbers, number, exprs_in(alloc, typed)?))
}

/// A call into these targets.
pub fn calling(
    alloc: Global,
    context: &Context,
    scope: &VariableScope,
    at: Pos,
    targets: &[AssignedVariable],
    call: &SCall,
) -> Result<Stmt, RuleFault>
    ensures { Answers stmt_of (s.calling (context_of context.now) scope.now at (map target_of targets.now) (call_of call.now)) result }
{
    let Some((number, method)) = context.world.method(&call.name.name) else {
        return Err(RuleFault::Broken(call.name.pos, Rule::UnknownName));
    };
    let typed = typed_arguments(alloc, context, scope, call)?;
    called(alloc, at, targets, call, number, method, typed)
}

/// The arguments of an instance, at its name.
pub fn call_arguments(
    alloc: Global,
    context: &Context,
    scope: &VariableScope,
    call: &SCall,
    params: &[Ty],
) -> Result<Vec<Expr>, RuleFault>
    ensures { Answers argument_exprs_of (j.arguments (context_of context.now) scope.now (t.terms (call_of call.now).args) params.now call.now.name.pos) result }
{
    arguments(alloc, context, scope, &call.args, params, call.name.pos)
}

/// A call whose target is a field, which no call may have: the first rule that it breaks.
#[tactic(auto, using(crate::proofs::CallLaws::as_many_map))]
pub fn calling_into_field(
    alloc: Global,
    context: &Context,
    scope: &VariableScope,
    call: &SCall,
) -> Result<Stmt, RuleFault>
    ensures { Answers stmt_of (s.calling_into_field (context_of context.now) scope.now (call_of call.now)) result }
{
    let name_at = call.name.pos;
    let Some((_, method)) = context.world.method(&call.name.name) else {
        return Err(RuleFault::Broken(name_at, Rule::UnknownName));
    };
    let typed = typed_arguments(alloc, context, scope, call)?;
    if !as_many(&typed, &method.params) {
        return Err(RuleFault::Broken(name_at, Rule::ArgumentCount));
    }
    Err(RuleFault::Broken(name_at, Rule::TargetCount))
}
