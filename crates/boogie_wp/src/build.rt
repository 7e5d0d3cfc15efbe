// Statements as definitions.
ghost use Rattle.std.specs.Prelude.{◌≡◌, ◌+◌, ◌<◌, ◌≤◌, ◌^◌, IfOk, OnOk};
ghost use Rattle.boogie_tree.specs.Whole.{expr_of, exprs_of, stmt_of, stmts_of};
ghost use Rattle.boogie_formula.specs.Choices.{slots, slots_stmt};
ghost use Rattle.boogie_formula.specs.Formula as f;
ghost use Rattle.boogie_formula.specs.View.{fexpr_of};
ghost use Rattle.boogie_wp.specs.Build as b;
ghost use Rattle.boogie_wp.specs.Lifted.{lifted, lifted_all};
ghost use Rattle.boogie_wp.specs.View.{begun_of, builder_of};

use crate::builder::ConditionsBuilder;
use crate::lift::{lift, lift_all, name_of};
use boogie_formula::FExpr;
use boogie_tree::{BExpr, BStmt};
use std::alloc::Global;
use vb_base::{Label, Memory, boxed};

fn assign(
    alloc: Global,
    n: usize,
    local: usize,
    e: &BExpr,
    to: &mut ConditionsBuilder,
) -> Result<(), Memory>
    requires { n < 2 ^ 63 }
    ensures goes { OnOk result (builder_of to.new ≡ b.store n local (lifted (b.named (builder_of to.old)) (expr_of e.now)) (builder_of to.old)) }
    ensures begun { OnOk result (begun_of to.new ≡ begun_of to.old) }
{
    let value = lift(alloc, &to.names.versions, e)?;
    to.store(n, local, Box::into_inner(value))
}

/// The map with another value at these indices.
fn updated(
    alloc: Global,
    names: &[usize],
    map: usize,
    index: &[BExpr],
    e: &BExpr,
) -> Result<FExpr, Memory>
    ensures { IfOk result (λ x. fexpr_of x ≡ f.With (f.Var (b.number_at names.now map)) (lifted_all (b.number_at names.now) (exprs_of index.now))
        (lifted (b.number_at names.now) (expr_of e.now))) }
{
    let old = boxed(alloc, FExpr::Var(name_of(names, map)))?;
    let keys = lift_all(alloc, names, index)?;
    Ok(FExpr::With(old, keys, lift(alloc, names, e)?))
}

fn put(
    alloc: Global,
    n: usize,
    map: usize,
    index: &[BExpr],
    e: &BExpr,
    to: &mut ConditionsBuilder,
) -> Result<(), Memory>
    requires { n < 2 ^ 63 }
    ensures goes { OnOk result (builder_of to.new ≡ b.store n map (f.With (f.Var (b.named (builder_of to.old) map))
        (lifted_all (b.named (builder_of to.old)) (exprs_of index.now)) (lifted (b.named (builder_of to.old)) (expr_of e.now))) (builder_of to.old)) }
    ensures begun { OnOk result (begun_of to.new ≡ begun_of to.old) }
{
    let value = updated(alloc, &to.names.versions, map, index, e)?;
    to.store(n, map, value)
}

/// A definition of the condition. What is given back is its name.
fn condition(
    alloc: Global,
    n: usize,
    e: &BExpr,
    to: &mut ConditionsBuilder,
) -> Result<usize, Memory>
    requires { n < 2 ^ 63 }
    ensures name { IfOk result (λ c. c ≡ b.fresh n (builder_of to.old)) }
    ensures goes { OnOk result (builder_of to.new ≡ b.define (lifted (b.named (builder_of to.old)) (expr_of e.now)) (builder_of to.old)) }
    ensures begun { OnOk result (begun_of to.new ≡ begun_of to.old) }
{
    let name = to.fresh(n);
    let value = lift(alloc, &to.names.versions, e)?;
    to.define(Box::into_inner(value))?;
    Ok(name)
}

fn assume(alloc: Global, n: usize, e: &BExpr, to: &mut ConditionsBuilder) -> Result<(), Memory>
    requires { n < 2 ^ 63 }
    ensures goes { OnOk result (builder_of to.new ≡ b.assume n (lifted (b.named (builder_of to.old)) (expr_of e.now)) (builder_of to.old)) }
    ensures begun { OnOk result (begun_of to.new ≡ begun_of to.old) }
{
    let name = condition(alloc, n, e, to)?;
    to.go_where_true(alloc, n, name)
}

fn assertion(
    alloc: Global,
    n: usize,
    label: &Label,
    e: &BExpr,
    to: &mut ConditionsBuilder,
) -> Result<(), Memory>
    requires { n < 2 ^ 63 }
    ensures goes { OnOk result (builder_of to.new ≡ b.check n label.now (lifted (b.named (builder_of to.old)) (expr_of e.now)) (builder_of to.old)) }
    ensures begun { OnOk result (begun_of to.new ≡ begun_of to.old) }
{
    let holds = condition(alloc, n, e, to)?;
    to.failing(alloc, n, label, holds)?;
    to.go_where_true(alloc, n, holds)
}

/// The statement, where there are n variables.
#[cycle(building)]
fn build_stmt(
    alloc: Global,
    n: usize,
    stmt: &BStmt,
    to: &mut ConditionsBuilder,
) -> Result<(), Memory>
    requires names { n < 2 ^ 63 }
    requires room { (builder_of to.old).next + slots_stmt (stmt_of stmt.now) ≤ n }
    ensures goes { OnOk result (builder_of to.new ≡ b.built_stmt n (stmt_of stmt.now) (builder_of to.old)) }
    ensures begun { OnOk result (begun_of to.new ≡ begun_of to.old) }
{
    match stmt {
        BStmt::Assign(local, e) => assign(alloc, n, *local, e, to),
        BStmt::Put(map, index, e) => put(alloc, n, *map, index, e, to),
        BStmt::Havoc(local) => to.choose(*local),
        BStmt::Assume(e) => assume(alloc, n, e, to),
        BStmt::Assert(label, e) => assertion(alloc, n, label, e, to),
        BStmt::If(e, then, other) => {
            let name = condition(alloc, n, e, to)?;
            let start = to.enter(alloc, n, name)?;
            build(alloc, n, then, to)?;
            let first = to.back(alloc, n, name, start.path)?;
            build(alloc, n, other, to)?;
            to.join(alloc, n, name, start.changes, first)
        }
        BStmt::Either(then, other) => {
            let name = to.pass();
            let start = to.enter(alloc, n, name)?;
            build(alloc, n, then, to)?;
            let first = to.back(alloc, n, name, start.path)?;
            build(alloc, n, other, to)?;
            to.join(alloc, n, name, start.changes, first)
        }
    }
}

/// The statements of a block, one after the other.
#[cycle(building)]
pub(crate) fn build(
    alloc: Global,
    n: usize,
    stmts: &[BStmt],
    to: &mut ConditionsBuilder,
) -> Result<(), Memory>
    requires names { n < 2 ^ 63 }
    requires room { (builder_of to.old).next + slots (stmts_of stmts.now) ≤ n }
    ensures goes { OnOk result (builder_of to.new ≡ b.built n (stmts_of stmts.now) (builder_of to.old)) }
    ensures begun { OnOk result (begun_of to.new ≡ begun_of to.old) }
{
    for stmt in stmts {
        build_stmt(alloc, n, stmt, to)?;
    }
    Ok(())
}
