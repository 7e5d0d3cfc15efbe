// The statements that hold no block.
ghost use Rattle.std.specs.Prelude.{◌≡◌, OnOk, false};
ghost use Rattle.viper_core.specs.Expr as e;
ghost use Rattle.viper_core.specs.View.{expr_of, fold_of as core_fold_of, stmt_of};
ghost use Rattle.viper_syntax.specs.View.{fold_of, rhs_of, term_of};
ghost use Rattle.viper_scope.specs.Answers.{Answers, context_of, typing_of, world_of};
ghost use Rattle.viper_types.specs.Answers.{frame_of, place_of, target_of, lent_rhs_of};
ghost use Rattle.viper_types.specs.Frame as f;
ghost use Rattle.viper_scope.specs.Types as types;
ghost use Rattle.viper_scope.specs.Outcome.{then_typed};
ghost use Rattle.viper_types.specs.Stepping as s;
ghost use Rattle.viper_types.specs.Typing as j;

use crate::assertions::assertion;
use crate::assigned::{ref_target, target};
use crate::calls::{call_arguments, calling, calling_into_field};
use crate::creations::creating;
use crate::expressions::{TypedField, expected, located, nowhere, permission, with_body};
use crate::frames::{AssignedVariable, MethodVariables};
use std::alloc::Global;
use std::slice;
use vb_base::{Pos, kept};
use vb_value::Ty;
use viper_core::{Assertion, Expr, FoldStmt, Stmt};
use viper_scope::{Context, Rule, RuleFault, VariableScope, World, start};
use viper_syntax::{Formal, Named, SFold, SRhs, Term, Word};

/// A field of what stands at a place.
fn further(
    alloc: Global,
    world: &World,
    place: TypedField,
    at: Pos,
    field: &Named,
) -> Result<TypedField, RuleFault>
    ensures { Answers place_of (j.located (world_of world.now) field.now.name field.now.pos (e.Field (expr_of place.receiver) place.field at, place.ty)) result }
{
    let receiver = Box::new(alloc, place.receiver)?;
    let typed = (Expr::Field(receiver, place.field, at), place.ty);
    located(world, &field.name, field.pos, typed)
}

/// The place `x.f.g` of a typed `x`.
fn dotted(
    alloc: Global,
    world: &World,
    receiver: (Expr, Ty),
    first: &Named,
    rest: &[Named],
) -> Result<TypedField, RuleFault>
    ensures { Answers place_of (s.dotted (world_of world.now) (typing_of receiver) first.now rest.now) result }
{
    let mut place = located(world, &first.name, first.pos, receiver)?;
    let mut at = first.pos;
    for field in rest {
        place = further(alloc, world, place, at, field)?;
        at = field.pos;
    }
    Ok(place)
}

/// The place that is written.
fn target_place(
    alloc: Global,
    context: &Context,
    scope: &VariableScope,
    x: &Named,
    first: &Named,
    rest: &[Named],
) -> Result<TypedField, RuleFault>
    ensures { Answers place_of (s.target_place (context_of context.now) scope.now x.now first.now rest.now) result }
{
    let Some(variable) = scope.find(&x.name) else {
        return Err(RuleFault::Broken(x.pos, Rule::UnknownName));
    };
    let receiver = (Expr::Var(variable.number), variable.ty);
    dotted(alloc, context.world, receiver, first, rest)
}

/// The place of the last name.
fn last_place(x: &Named, fields: &[Named]) -> Pos
    ensures { result ≡ s.last_place x.now fields.now }
{
    match fields.last() {
        Some(field) => field.pos,
        None => x.pos,
    }
}

/// What a declaration gives its variable.
pub fn declaring(
    alloc: Global,
    context: &Context,
    frame: &MethodVariables,
    at: Pos,
    target: AssignedVariable,
    rhs: Option<&SRhs>,
) -> Result<Stmt, RuleFault>
    ensures { Answers stmt_of (s.declaring context.now.lists (context_of context.now) (frame_of frame.now) at (target_of target) (lent_rhs_of rhs.entry)) result }
{
    let scope = &frame.scope;
    match rhs {
        None => Ok(Stmt::Var(at, target.number, None)),
        Some(SRhs::Term(term)) => {
            let value = expected(alloc, context, scope, target.ty, term)?;
            Ok(Stmt::Var(at, target.number, Some(value)))
        }
        Some(SRhs::Call(call)) => {
            calling(alloc, context, scope, at, slice::from_ref(&target), call)
        }
        Some(SRhs::New(new)) => {
            if target.ty != Ty::Ref {
                return Err(RuleFault::Broken(target.at, Rule::WrongType));
            }
            creating(alloc, context, scope, at, target.number, new)
        }
    }
}

/// A declaration of a variable.
pub fn variable(
    alloc: Global,
    context: &Context,
    frame: &mut MethodVariables,
    at: Pos,
    formal: &Formal,
    rhs: Option<&SRhs>,
) -> Result<Stmt, RuleFault>
    ensures after { OnOk result (frame_of frame.new ≡ f.with_variable (frame_of frame.old) formal.now.name.name (types.declared_type formal.now) false) }
    ensures answers { Answers stmt_of (then_typed (s.fresh (frame_of frame.old) formal.now) (λ v. s.declaring context.now.lists (context_of context.now) (frame_of frame.old) at v (lent_rhs_of rhs.entry))) result }
{
    let target = frame.fresh(formal)?;
    let stmt = declaring(alloc, context, frame, at, target, rhs)?;
    let declared = frame.declare(&formal.name.name, target.ty, false);
    let ((), stmt) = kept(declared, stmt)?;
    Ok(stmt)
}

/// An assignment to a variable.
fn assigning(
    alloc: Global,
    context: &Context,
    scope: &VariableScope,
    x: &Named,
    rhs: &SRhs,
) -> Result<Stmt, RuleFault>
    ensures { Answers stmt_of (s.assigning context.now.lists (context_of context.now) scope.now x.now (rhs_of rhs.now)) result }
{
    match rhs {
        SRhs::Term(term) => {
            let target = target(scope, x)?;
            let value = expected(alloc, context, scope, target.ty, term)?;
            Ok(Stmt::Assign(x.pos, target.number, value))
        }
        SRhs::Call(call) => {
            let target = target(scope, x)?;
            calling(alloc, context, scope, x.pos, slice::from_ref(&target), call)
        }
        SRhs::New(new) => {
            let target = ref_target(scope, x)?;
            creating(alloc, context, scope, x.pos, target.number, new)
        }
    }
}

/// An assignment to a field.
fn writing(
    alloc: Global,
    context: &Context,
    scope: &VariableScope,
    x: &Named,
    first: &Named,
    rest: &[Named],
    rhs: &SRhs,
) -> Result<Stmt, RuleFault>
    ensures { Answers stmt_of (s.writing (context_of context.now) scope.now x.now first.now rest.now (rhs_of rhs.now)) result }
{
    let place = target_place(alloc, context, scope, x, first, rest)?;
    match rhs {
        SRhs::Term(term) => {
            let value = expected(alloc, context, scope, place.ty, term)?;
            let at = last_place(first, rest);
            Ok(Stmt::Write(x.pos, place.receiver, place.field, at, value))
        }
        SRhs::Call(call) => calling_into_field(alloc, context, scope, call),
        SRhs::New(new) => Err(RuleFault::Broken(new.at, Rule::TargetCount)),
    }
}

/// An assignment to a name with its fields.
pub fn setting(
    alloc: Global,
    context: &Context,
    scope: &VariableScope,
    names: &[Named],
    rhs: &SRhs,
) -> Result<Stmt, RuleFault>
    ensures { Answers stmt_of (s.setting context.now.lists (context_of context.now) scope.now names.now (rhs_of rhs.now)) result }
{
    match names {
        [] => Err(RuleFault::Broken(nowhere(), Rule::WrongType)),
        [x] => assigning(alloc, context, scope, x, rhs),
        [x, first, rest @ ..] => writing(alloc, context, scope, x, first, rest, rhs),
    }
}

/// `inhale`, `exhale`, `assert` and `assume`.
pub fn checking(
    alloc: Global,
    context: &Context,
    scope: &VariableScope,
    word: Word,
    at: Pos,
    term: &Term,
) -> Result<Stmt, RuleFault>
    ensures { Answers stmt_of (s.checking (context_of context.now) scope.now word at (term_of term.now)) result }
{
    match word {
        Word::Inhale => Ok(Stmt::Inhale(at, assertion(alloc, context, scope, term)?)),
        Word::Exhale => Ok(Stmt::Exhale(at, assertion(alloc, context, scope, term)?)),
        Word::Assert => Ok(Stmt::Assert(at, assertion(alloc, context, scope, term)?)),
        Word::Assume => {
            let condition = expected(alloc, context, scope, Ty::Bool, term)?;
            Ok(Stmt::Inhale(at, Assertion::Fact(condition, start(term))))
        }
        _ => Err(RuleFault::Broken(at, Rule::WrongType)),
    }
}

/// The instance of a `fold` or `unfold`.
pub fn folding(
    alloc: Global,
    context: &Context,
    scope: &VariableScope,
    fold: &SFold,
) -> Result<FoldStmt, RuleFault>
    ensures { Answers core_fold_of (s.folding (context_of context.now) scope.now (fold_of fold.now)) result }
{
    let name = &fold.call.name;
    let (predicate, signature) = with_body(context.world, &name.name, name.pos)?;
    let args = call_arguments(alloc, context, scope, &fold.call, &signature.params)?;
    let amount = permission(alloc, context, scope, fold.amount.as_ref())?;
    Ok(FoldStmt {
        at: fold.at,
        predicate,
        args,
        amount,
        place: name.pos,
    })
}
