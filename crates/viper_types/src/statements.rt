// Statements and blocks.
ghost use Rattle.std.specs.Prelude.{◌≡◌, ◌+◌, ◌++◌, ◌≤◌, OnOk, length, map, take};
ghost use Rattle.vb_base.specs.Limits.{max_block_depth};
ghost use Rattle.viper_core.specs.Stmt as c;
ghost use Rattle.viper_core.specs.View as core;
ghost use Rattle.viper_syntax.specs.View.{arm_of, arms_of, block_of, else_of, stmt_of, stmts_of, term_of};
ghost use Rattle.viper_scope.specs.Answers.{Answers, context_of};
ghost use Rattle.viper_types.specs.Answers.{block_stmts_of, branch_of, branches_of, frame_of, loop_terms_of, stmt_list_of};
ghost use Rattle.viper_scope.specs.Context.{nowhere};
ghost use Rattle.viper_types.specs.Frame as f;
ghost use Rattle.viper_scope.specs.Outcome.{Found, known, then_typed};
ghost use Rattle.viper_scope.specs.declared.rules.Rule.TheVariants as rule;
ghost use Rattle.viper_types.specs.Stepping as s;
ghost use Rattle.viper_scope.specs.Target as v;
ghost use Rattle.viper_types.specs.Typing as j;
ghost use Rattle.vb_value.specs.declared.values.Ty.TheVariants as ty;

use crate::assertions::assertions;
use crate::assigned::call_targets;
use crate::calls::calling;
use crate::expressions::{expected, nowhere};
use crate::frames::MethodVariables;
use crate::simple::{checking, folding, setting, variable};
use std::alloc::Global;
use vb_base::Pos;
use vb_base::limits::MAX_BLOCK_DEPTH;
use vb_value::Ty;
use viper_core::{Assertion, Expr, Loop, Stmt};
use viper_scope::{Context, Rule, RuleFault, VariableScope, targets};
use viper_syntax::{Named, SArm, SBlock, SStmt, Term};

/// An arm of an `if`, typed.
#[derive(Drop)]
pub struct TypedArm {
    pub at: Pos,
    pub condition: Expr,
    pub body: Vec<Stmt>,
}

/// The place of the first of some names.
fn first_place(names: &[Named]) -> Pos
    ensures { result ≡ s.first_place names.now }
{
    match names.first() {
        Some(name) => name.pos,
        None => nowhere(),
    }
}

/// An `if` with this arm.
fn if_statement(arm: TypedArm, second: Vec<Stmt>) -> Stmt
    ensures { core.stmt_of result ≡ c.If arm.at (core.expr_of arm.condition) (core.stmts_of arm.body.items) (core.stmts_of second.items) }
{
    Stmt::If(arm.at, arm.condition, arm.body, second)
}

fn loop_statement(turns: Loop) -> Stmt
    ensures { core.stmt_of result ≡ c.While (core.loop_of turns) }
{
    Stmt::While(turns)
}

/// An `if` for all arms, each further one alone in the second block of the one before.
fn nested(alloc: Global, branches: Vec<TypedArm>, other: Vec<Stmt>) -> Result<Stmt, RuleFault>
    ensures { Answers core.stmt_of (known (s.nested (branches_of branches) (block_stmts_of other)) nowhere rule.WrongType Found) result }
{
    let mut branches = branches;
    let Some(last) = branches.pop() else {
        return Err(RuleFault::Broken(nowhere(), Rule::WrongType));
    };
    let mut stmt = if_statement(last, other);
    while let Some(branch) = branches.pop() {
        stmt = if_statement(branch, vec![in alloc; stmt]?);
    }
    Ok(stmt)
}

/// A statement in a block of this depth.
#[cycle(statements)]
fn stepping(
    alloc: Global,
    context: &Context,
    depth: usize,
    frame: &mut MethodVariables,
    stmt: &SStmt,
) -> Result<Stmt, RuleFault>
    requires { depth ≤ max_block_depth }
    ensures after { OnOk result (frame_of frame.new ≡ f.frame_after (frame_of frame.old) (stmt_of stmt.now)) }
    ensures answers { Answers core.stmt_of (s.stepping context.now.lists (context_of context.now) depth (frame_of frame.old) (stmt_of stmt.now)) result }
{
    match stmt {
        SStmt::Var(at, formal, rhs) => {
            variable(alloc, context, frame, *at, formal, rhs.as_ref())
        }
        SStmt::Assign(names, rhs) => setting(alloc, context, &frame.scope, names, rhs),
        SStmt::CallTo(names, call) => {
            let targets = call_targets(alloc, &frame.scope, names)?;
            let at = first_place(names);
            calling(alloc, context, &frame.scope, at, &targets, call)
        }
        SStmt::Call(call) => { calling(alloc, context, &frame.scope, call.name.pos, &[], call) }
        SStmt::Check(word, at, term) => { checking(alloc, context, &frame.scope, *word, *at, term) }
        SStmt::Fold(fold) => Ok(Stmt::Fold(folding(alloc, context, &frame.scope, fold)?)),
        SStmt::Unfold(fold) => Ok(Stmt::Unfold(folding(alloc, context, &frame.scope, fold)?)),
        SStmt::If(arms, other) => {
            let branches = branches(alloc, context, depth + 1, frame, arms)?;
            let other = otherwise(alloc, context, depth + arms.len(), frame, other)?;
            nested(alloc, branches, other)
        }
        SStmt::While(at, guard, invariants, body) => {
            let terms = loop_terms(alloc, context, &frame.scope, guard, invariants)?;
            iteration(alloc, context, depth, frame, body, *at, terms)
        }
    }
}

/// The guard and the invariants of a loop.
fn loop_terms(
    alloc: Global,
    context: &Context,
    scope: &VariableScope,
    guard: &Term,
    invariants: &[Term],
) -> Result<(Expr, Vec<Assertion>), RuleFault>
    ensures { Answers loop_terms_of (then_typed (j.expected (context_of context.now) scope.now ty.Bool (term_of guard.now)) (λ x.
        then_typed (s.asserting_all (context_of context.now) scope.now (map term_of invariants.now)) (λ xs. Found (x, xs)))) result }
{
    let guard = expected(alloc, context, scope, Ty::Bool, guard)?;
    let invariants = assertions(alloc, context, scope, invariants)?;
    Ok((guard, invariants))
}

/// A loop, once its guard and invariants are typed.
#[cycle(statements)]
fn iteration(
    alloc: Global,
    context: &Context,
    depth: usize,
    frame: &mut MethodVariables,
    body: &SBlock,
    at: Pos,
    terms: (Expr, Vec<Assertion>),
) -> Result<Stmt, RuleFault>
    requires { depth ≤ max_block_depth }
    ensures after { OnOk result (frame_of frame.new ≡ f.with_hidden (frame_of frame.old) (f.declared_in_block (block_of body.now))) }
    ensures answers { Answers core.stmt_of (then_typed (s.blocking context.now.lists (context_of context.now) (depth + 1) (frame_of frame.old) (block_of body.now)) (λ ss.
        Found (c.While (c.loop at (core.expr_of terms.0) (core.assertions_of terms.1.items) ss body.now.at (v.listed context.now.lists (v.targets (length frame.old.vars.items) ss)))))) result }
{
    let (guard, invariants) = terms;
    let below = frame.next_number()?;
    let stmts = blocking(alloc, context, depth + 1, frame, body)?;
    let targets = targets(alloc, context.lists, below, &stmts)?;
    Ok(loop_statement(Loop {
        at,
        guard,
        invariants,
        body: stmts,
        turn: body.at,
        targets,
    }))
}

/// A block of this depth.
#[cycle(statements)]
pub fn blocking(
    alloc: Global,
    context: &Context,
    depth: usize,
    frame: &mut MethodVariables,
    block: &SBlock,
) -> Result<Vec<Stmt>, RuleFault>
    ensures shallow { OnOk result (depth ≤ max_block_depth) }
    ensures after { OnOk result (frame_of frame.new ≡ f.with_hidden (frame_of frame.old) (f.declared_in_block (block_of block.now))) }
    ensures answers { Answers block_stmts_of (s.blocking context.now.lists (context_of context.now) depth (frame_of frame.old) (block_of block.now)) result }
{
    if depth > MAX_BLOCK_DEPTH {
        return Err(RuleFault::Broken(block.at, Rule::TooDeep));
    }
    let visible = frame.scope.extent();
    let stmts = stepping_all(alloc, context, depth, frame, &block.stmts)?;
    frame.scope.truncate(visible);
    Ok(stmts)
}

/// The statements of a block of this depth. The variables that they declare stay visible.
#[cycle(statements)]
fn stepping_all(
    alloc: Global,
    context: &Context,
    depth: usize,
    frame: &mut MethodVariables,
    stmts: &[SStmt],
) -> Result<Vec<Stmt>, RuleFault>
    requires { depth ≤ max_block_depth }
    ensures vars { OnOk result (frame.new.vars.items ≡ frame.old.vars.items ++ f.declared_in (stmts_of stmts.now)) }
    ensures visible { OnOk result (take (length frame.old.scope) frame.new.scope ≡ frame.old.scope) }
    ensures answers { Answers stmt_list_of (s.stepping_all context.now.lists (context_of context.now) depth (frame_of frame.old) (stmts_of stmts.now)) result }
{
    let mut typed = Vec::with_capacity(alloc, stmts.len())?;
    for stmt in stmts {
        let next = stepping(alloc, context, depth, frame, stmt)?;
        typed.push(next)?;
    }
    Ok(typed)
}

/// The arms of an `if`, the block of the first having this depth and each further one being deeper by one.
#[cycle(statements)]
fn branches(
    alloc: Global,
    context: &Context,
    depth: usize,
    frame: &mut MethodVariables,
    arms: &[SArm],
) -> Result<Vec<TypedArm>, RuleFault>
    requires { depth ≤ max_block_depth + 1 }
    ensures shallow { OnOk result (depth + length arms.now ≤ max_block_depth + 1) }
    ensures after { OnOk result (frame_of frame.new ≡ f.with_hidden (frame_of frame.old) (f.declared_in_arms (arms_of arms.now))) }
    ensures answers { Answers branches_of (s.branches context.now.lists (context_of context.now) depth (frame_of frame.old) (arms_of arms.now)) result }
{
    let mut typed = Vec::with_capacity(alloc, arms.len())?;
    for (i, arm) in arms.iter().enumerate() {
        let next = branch(alloc, context, depth + i, frame, arm)?;
        typed.push(next)?;
    }
    Ok(typed)
}

#[cycle(statements)]
fn branch(
    alloc: Global,
    context: &Context,
    depth: usize,
    frame: &mut MethodVariables,
    arm: &SArm,
) -> Result<TypedArm, RuleFault>
    ensures shallow { OnOk result (depth ≤ max_block_depth) }
    ensures after { OnOk result (frame_of frame.new ≡ f.with_hidden (frame_of frame.old) (f.declared_in_arm (arm_of arm.now))) }
    ensures answers { Answers branch_of (s.branch context.now.lists (context_of context.now) depth (frame_of frame.old) (arm_of arm.now)) result }
{
    let condition = expected(alloc, context, &frame.scope, Ty::Bool, &arm.condition)?;
    let body = blocking(alloc, context, depth, frame, &arm.block)?;
    Ok(TypedArm {
        at: arm.at,
        condition,
        body,
    })
}

/// The `else` of an `if`, or no statements.
#[cycle(statements)]
fn otherwise(
    alloc: Global,
    context: &Context,
    depth: usize,
    frame: &mut MethodVariables,
    other: &Option<SBlock>,
) -> Result<Vec<Stmt>, RuleFault>
    ensures after { OnOk result (frame_of frame.new ≡ f.with_hidden (frame_of frame.old) (f.declared_in_else (else_of other.now))) }
    ensures answers { Answers block_stmts_of (s.otherwise context.now.lists (context_of context.now) depth (frame_of frame.old) (else_of other.now)) result }
{
    match other {
        Some(block) => blocking(alloc, context, depth, frame, block),
        None => Ok(Vec::new(alloc)),
    }
}
