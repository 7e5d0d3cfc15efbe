// What a program weighs.
ghost use Rattle.std.specs.Prelude.{◌≡◌, ◌-◌, slice_get, map};
ghost use Rattle.viper_core.specs.View.{fold_of, method_of, predicate_of, program_of, stmt_of, stmts_of, loop_of};
ghost use Rattle.viper_core.specs.Weight.{base_of, predicate_size, clauses_size, callee_size, fold_weight, stmt_weight, stmts_weight, predicate_weight, predicates_weight, method_weight, methods_weight, told_weight};
ghost use Rattle.viper_core.specs.Stmt as s;

use crate::sizes::{after_assertion, after_assertions, after_expr, after_exprs};
use crate::{FoldStmt, Loop, Method, Predicate, Program, Stmt};
use vb_base::limits::TOO_HEAVY;

/// The weight of a program, or `TOO_HEAVY` where it is more than `MAX_WEIGHT`.
///
/// It stops soon after the weight is more, and recurses as deep as the program is nested.
pub fn weight(program: &Program) -> u64
    ensures { result ≡ told_weight (program_of program.now) }
{
    let left = after_predicates(TOO_HEAVY as u128, program, &program.predicates);
    let left = after_methods(left, program, &program.methods);
    TOO_HEAVY - left as u64
}

/// What each part of a program counts at least.
fn base_of(program: &Program) -> u128
    ensures { result ≡ base_of (program_of program.now) }
{
    1 + program.fields.len() as u128 + program.predicates.len() as u128
}

fn after_predicates(room: u128, program: &Program, predicates: &[Predicate]) -> u128
    ensures { result ≡ room - predicates_weight (program_of program.now) (map predicate_of predicates.now) }
{
    let mut left = room;
    for predicate in predicates {
        left = after_predicate(left, program, predicate);
    }
    left
}

fn after_predicate(room: u128, program: &Program, predicate: &Predicate) -> u128
    ensures { result ≡ room - predicate_weight (program_of program.now) (predicate_of predicate.now) }
{
    let base = base_of(program);
    match &predicate.body {
        Some(body) => after_assertion(room.saturating_sub(base), base, body),
        None => room,
    }
}

fn after_methods(room: u128, program: &Program, methods: &[Method]) -> u128
    ensures { result ≡ room - methods_weight (program_of program.now) (map method_of methods.now) }
{
    let mut left = room;
    for method in methods {
        left = after_method(left, program, method);
    }
    left
}

fn after_method(room: u128, program: &Program, method: &Method) -> u128
    ensures { result ≡ room - method_weight (program_of program.now) (method_of method.now) }
{
    let base = base_of(program);
    let left = after_clauses(room.saturating_sub(base), base, method);
    match &method.body {
        Some(body) => after_stmts(left, base, program, &body.stmts),
        None => left,
    }
}

/// The clauses of a method, which each call of it counts too.
fn after_clauses(room: u128, base: u128, method: &Method) -> u128
    ensures { result ≡ room - clauses_size base (method_of method.now) }
{
    let left = after_assertions(room, base, &method.preconditions);
    after_assertions(left, base, &method.postconditions)
}

fn after_callee(room: u128, base: u128, program: &Program, method: u32) -> u128
    ensures { result ≡ room - callee_size base (slice_get (map method_of program.now.methods.items) method) }
{
    match program.methods.get(method as usize) {
        Some(callee) => after_clauses(room, base, callee),
        None => room,
    }
}

fn after_opened_body(room: u128, base: u128, program: &Program, predicate: u32) -> u128
    ensures { result ≡ room - predicate_size base (slice_get (map predicate_of program.now.predicates.items) predicate) }
{
    match program.predicates.get(predicate as usize) {
        Some(
            Predicate {
                body: Some(body),
                ..
            },
        ) => after_assertion(room, base, body),
        _ => room,
    }
}

fn after_fold(room: u128, base: u128, program: &Program, fold: &FoldStmt) -> u128
    requires { base ≡ base_of (program_of program.now) }
    ensures { result ≡ room - fold_weight (program_of program.now) (fold_of fold.now) }
{
    let left = after_exprs(room.saturating_sub(base), base, &fold.args);
    let left = after_expr(left, base, &fold.amount);
    after_opened_body(left, base, program, fold.predicate)
}

#[cycle(statements)]
fn after_stmts(room: u128, base: u128, program: &Program, stmts: &[Stmt]) -> u128
    requires { base ≡ base_of (program_of program.now) }
    ensures { result ≡ room - stmts_weight (program_of program.now) (stmts_of stmts.now) }
{
    let mut left = room;
    for stmt in stmts {
        left = after_stmt(left, base, program, stmt);
    }
    left
}

#[cycle(statements)]
fn after_stmt(room: u128, base: u128, program: &Program, stmt: &Stmt) -> u128
    requires { base ≡ base_of (program_of program.now) }
    ensures { result ≡ room - stmt_weight (program_of program.now) (stmt_of stmt.now) }
{
    if room == 0 {
        return 0;
    }
    let left = room.saturating_sub(base);
    match stmt {
        Stmt::Var(_, _, None) => left,
        Stmt::Var(_, _, Some(e)) | Stmt::Assign(_, _, e) => after_expr(left, base, e),
        Stmt::Write(_, receiver, _, _, e) => {
            let left = after_expr(left, base, receiver);
            after_expr(left, base, e)
        }
        Stmt::New(_, _, fields, refs) => {
            let left = left.saturating_sub(refs.len() as u128);
            left.saturating_sub(fields.len() as u128)
        }
        Stmt::Call(_, _, method, args) => {
            let left = after_exprs(left, base, args);
            after_callee(left, base, program, *method)
        }
        Stmt::Inhale(_, a) | Stmt::Exhale(_, a) | Stmt::Assert(_, a) => {
            after_assertion(left, base, a)
        }
        Stmt::Fold(fold) | Stmt::Unfold(fold) => after_fold(room, base, program, fold),
        Stmt::If(_, condition, a, b) => {
            let left = after_expr(left, base, condition);
            let left = after_stmts(left, base, program, a);
            after_stmts(left, base, program, b)
        }
        Stmt::While(turns) => after_loop(room, base, program, turns),
    }
}

#[cycle(statements)]
fn after_loop(room: u128, base: u128, program: &Program, turns: &Loop) -> u128
    requires { base ≡ base_of (program_of program.now) }
    ensures { result ≡ room - stmt_weight (program_of program.now) (s.While (loop_of turns.now)) }
{
    let left = after_expr(room.saturating_sub(base), base, &turns.guard);
    let left = after_assertions(left, base, &turns.invariants);
    let left = left.saturating_sub(turns.targets.len() as u128);
    after_stmts(left, base, program, &turns.body)
}
