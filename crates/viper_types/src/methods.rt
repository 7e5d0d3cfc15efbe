// The typing of methods.
ghost use Rattle.std.specs.Prelude.{◌≡◌, ◌++◌, IfOk, OnOk, false, length, map, true};
ghost use Rattle.std.specs.Option.{option_map};
ghost use Rattle.viper_core.specs.View as core;
ghost use Rattle.viper_syntax.specs.View.{block_of, clause_of, method_of, term_of};
ghost use Rattle.viper_scope.specs.Answers.{Answers, context_of, world_of};
ghost use Rattle.viper_scope.specs.Outcome.{Found, then_typed};
ghost use Rattle.viper_scope.specs.declared.context.UnitPart.TheVariants as part;
ghost use Rattle.viper_types.specs.Answers.{clause_typing_of, clause_typings_of, frame_of, optional_bodies_of};
ghost use Rattle.viper_types.specs.Declaring as j;
ghost use Rattle.viper_types.specs.Frame as f;

use crate::assertions::assertion;
use crate::formals::{add_names, formals};
use crate::frames::MethodVariables;
use crate::statements::blocking;
use std::alloc::Global;
use std::mem;
use vb_base::{Ident, Memory};
use viper_core::{Assertion, Body, Method};
use viper_scope::{
    Context, Rule, RuleFault, UnitPart, VariableScope, World, next_number, seen, start,
};
use viper_syntax::{SBlock, SClause, SMethod};

/// A clause, with whether it is a precondition, which sees the parameters alone.
fn clause(
    alloc: Global,
    world: &World,
    bodies: &[Option<Assertion>],
    params: &VariableScope,
    all: &VariableScope,
    clause: &SClause,
) -> Result<(bool, Assertion), RuleFault>
    ensures { Answers clause_typing_of (j.clause_of (world_of world.now) (optional_bodies_of bodies.now) params.now all.now clause.now.word (term_of clause.now.term)) result }
{
    let term = &clause.term;
    let Some((part, scope)) = seen(clause.word, params, all) else {
        return Err(RuleFault::Broken(start(term), Rule::WrongType));
    };
    let context = Context {
        world,
        bodies,
        part,
        lists: false,
    };
    let condition = assertion(alloc, &context, scope, term)?;
    Ok((part.is_precondition(), condition))
}

/// Clauses in order, each with whether it is a precondition.
fn clauses(
    alloc: Global,
    world: &World,
    bodies: &[Option<Assertion>],
    params: &VariableScope,
    all: &VariableScope,
    clauses: &[SClause],
) -> Result<Vec<(bool, Assertion)>, RuleFault>
    ensures { Answers clause_typings_of (j.clauses (world_of world.now) (optional_bodies_of bodies.now) params.now all.now (map clause_of clauses.now)) result }
{
    let mut typed = Vec::with_capacity(alloc, clauses.len())?;
    for next in clauses {
        let condition = clause(alloc, world, bodies, params, all, next)?;
        typed.push(condition)?;
    }
    Ok(typed)
}

/// The preconditions and the postconditions.
#[derive(Drop)]
struct MethodConditions {
    before: Vec<Assertion>,
    after: Vec<Assertion>,
}

/// The preconditions and the postconditions among clauses, each in order.
fn split_clauses(alloc: Global, clauses: Vec<(bool, Assertion)>) -> Result<MethodConditions, Memory>
    ensures before { IfOk result (λ v. core.assertions_of v.before.items ≡ j.conditions true (clause_typings_of clauses)) }
    ensures after { IfOk result (λ v. core.assertions_of v.after.items ≡ j.conditions false (clause_typings_of clauses)) }
{
    let mut before = Vec::new(alloc);
    let mut after = Vec::new(alloc);
    for (is_precondition, condition) in clauses {
        if is_precondition {
            before.push(condition)?;
        } else {
            after.push(condition)?;
        }
    }
    Ok(MethodConditions { before, after })
}

/// The body of a method, if it has one.
fn method_body(
    alloc: Global,
    context: &Context,
    frame: &mut MethodVariables,
    block: &Option<SBlock>,
) -> Result<Option<Body>, RuleFault>
    ensures after { OnOk result (frame.new.vars.items ≡ frame.old.vars.items ++ j.locals (option_map block_of block.now)) }
    ensures answers { Answers (option_map core.body_of) (j.method_body context.now.lists (context_of context.now) (frame_of frame.old) (option_map block_of block.now)) result }
{
    match block {
        Some(block) => {
            let stmts = blocking(alloc, context, 1, frame, block)?;
            let turn = block.at;
            Ok(Some(Body { turn, stmts }))
        }
        None => Ok(None),
    }
}

/// What a method is called, and the names and numbers of its formals.
#[derive(Drop)]
struct MethodHeading {
    name: Ident,
    names: Vec<Ident>,
    params: u32,
    returns: u32,
}

/// The heading of a method, copied.
fn heading_of(alloc: Global, method: &SMethod) -> Result<MethodHeading, Memory>
    ensures name { IfOk result (λ h. h.name ≡ method.now.name.name) }
    ensures names { IfOk result (λ h. h.names.items ≡ map j.name_of method.now.params.items ++ map j.name_of method.now.returns.items) }
    ensures params { IfOk result (λ h. h.params ≡ length method.now.params.items) }
    ensures returns { IfOk result (λ h. h.returns ≡ length method.now.returns.items) }
{
    let params = next_number(method.params.len())?;
    let returns = next_number(method.returns.len())?;
    let mut names = Vec::new(alloc);
    add_names(&mut names, &method.params)?;
    add_names(&mut names, &method.returns)?;
    let name = method.name.name.copy()?;
    Ok(MethodHeading {
        name,
        names,
        params,
        returns,
    })
}

/// Declares the formals of a method. The parameters stand also in a frame of their own.
fn declare_formals(
    params: &mut MethodVariables,
    frame: &mut MethodVariables,
    method: &SMethod,
) -> Result<(), RuleFault>
    requires params { frame_of params.old ≡ j.no_frame }
    requires frame { frame_of frame.old ≡ j.no_frame }
    ensures { Answers {X = f.MethodVariables × f.MethodVariables} (λ _. (frame_of params.new, frame_of frame.new)) (then_typed (j.formals true true j.no_frame method.now.params.items) (λ ps.
        then_typed (j.formals true false ps method.now.returns.items) (λ fr. Found (ps, fr)))) result }
{
    formals(params, true, true, &method.params)?;
    formals(frame, true, true, &method.params)?;
    formals(frame, true, false, &method.returns)
}

/// A method whose variables these frames take.
fn method_in(
    alloc: Global,
    context: &Context,
    params: &mut MethodVariables,
    frame: &mut MethodVariables,
    method: &SMethod,
) -> Result<Method, RuleFault>
    requires part { context.now.part ≡ part.Elsewhere }
    requires params { frame_of params.old ≡ j.no_frame }
    requires frame { frame_of frame.old ≡ j.no_frame }
    ensures { Answers core.method_of (j.method_typing context.now.lists (world_of context.now.world.now) (optional_bodies_of context.now.bodies.now) (method_of method.now)) result }
{
    declare_formals(params, frame, method)?;
    let clauses = clauses(
        alloc,
        context.world,
        context.bodies,
        &params.scope,
        &frame.scope,
        &method.clauses,
    )?;
    let conditions = split_clauses(alloc, clauses)?;
    let heading = heading_of(alloc, method)?;
    let body = method_body(alloc, context, frame, &method.body)?;
    Ok(Method {
        name: heading.name,
        at: method.at,
        name_at: method.name.pos,
        names: heading.names,
        params: heading.params,
        returns: heading.returns,
        vars: mem::replace(&mut frame.vars, Vec::new(alloc)),
        preconditions: conditions.before,
        postconditions: conditions.after,
        body,
    })
}

/// A method. The parameters stand also in a scope of their own, which its preconditions see.
pub fn method(
    alloc: Global,
    world: &World,
    bodies: &[Option<Assertion>],
    lists: bool,
    method: &SMethod,
) -> Result<Method, RuleFault>
    ensures { Answers core.method_of (j.method_typing lists (world_of world.now) (optional_bodies_of bodies.now) (method_of method.now)) result }
{
    let part = UnitPart::Elsewhere;
    let context = Context {
        world,
        bodies,
        part,
        lists,
    };
    let mut params = MethodVariables::new(alloc, world);
    let mut frame = MethodVariables::new(alloc, world);
    method_in(alloc, &context, &mut params, &mut frame, method)
}
