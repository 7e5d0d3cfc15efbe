// The value of an expression.
#![tactic(auto, using(crate::specs::Answers::is, crate::specs::Answers::over, crate::specs::Answers::wrong, crate::specs::Answers::no_memory))]

ghost use Rattle.std.specs.Prelude.{◌≡◌, ◌∷◌, [], All, Bool, IfOk};
ghost use Rattle.vb_value.specs.Bound.{Bounded};
ghost use Rattle.sparse.specs.Map.{borrowed};
ghost use Rattle.boogie_tree.specs.Expr as t;
ghost use Rattle.boogie_tree.specs.Value as v;
ghost use Rattle.boogie_tree.specs.Whole.{expr_of, exprs_of, scalar_of};
ghost use Rattle.boogie_meaning.specs.Ends.{End, then_with};
ghost use Rattle.boogie_meaning.specs.Decided as d;
ghost use Rattle.boogie_meaning.specs.Marked.{marked};
ghost use Rattle.boogie_meaning.specs.Operators as o;
ghost use Rattle.boogie_meaning.specs.Quantified as q;
ghost use Rattle.boogie_meaning.specs.Value as m;
ghost use Rattle.boogie_eval.specs.Answers.{Answers};
ghost use Rattle.boogie_eval.specs.Columns.{AreColumns, FitsScope, keys_of_columns};
ghost use Rattle.boogie_eval.specs.Unary.{unary_of};
ghost use Rattle.boogie_eval.specs.Searched.{end_elsewhere, with_key, with_keys};
ghost use Rattle.boogie_eval.specs.View.{values_of, scope_of};
ghost use Rattle.boogie_eval.specs.Within.{IsWithinScalar, IsWithinValue, IsWithinExpr, AreWithinExprs};

use crate::eval_columns::{Column, columns_of, keys_of_all, pass};
use crate::eval_ends::{Answer, Miss};
use crate::eval_keys::{has_other, worse};
use crate::eval_marked::mark;
use crate::eval_operators::{is_lazy, opposite, plain_truth, plain_with, settled, truth, truth_of};
use crate::eval_unary::{Unary, applied, fraction, paired};
use crate::eval_values::{
    ForallRow, ForallScope, part_of, place, value_at, value_at_bound, variable,
};
use boogie_tree::{BBase, BExpr, BOp, BScalar, BValue, fits_key};
use std::alloc::Global;
use vb_base::Memory;
use vb_value::{Content, Key};

/// The columns of the maps that an expression indexes by the bound names.
fn columns_in<'a>(alloc: Global, e: &BExpr, env: &'a [BValue]) -> Result<Vec<Column<'a>>, Memory>
    ensures columns { IfOk result (λ cs. AreColumns (values_of env.now) cs.items) }
    ensures marked { IfOk result (λ cs. (k : v.Key) → d.is_listed (keys_of_columns cs.items) k ≡ d.is_listed (marked (expr_of e.now) (values_of env.now)) k) }
{
    let mut numbers = Vec::new(alloc);
    mark(e, &mut numbers)?;
    numbers.sort()?;
    columns_of(alloc, &numbers, env)
}

/// The value of an expression.
#[cycle(evaluation)]
pub fn eval(alloc: Global, e: &BExpr, env: &[BValue], scope: ForallScope) -> Answer
    requires e_within { IsWithinExpr (expr_of e.now) }
    requires env_within { All IsWithinValue (values_of env.now) }
    requires scope_fits { FitsScope (values_of env.now) scope }
    ensures { Answers scalar_of (m.value Bounded (scope_of (values_of env.now) scope.entry) (expr_of e.now) (values_of env.now)) result }
{
    match e {
        BExpr::Var(number) => variable(env, *number),
        BExpr::Int(number) => Ok(BScalar::Int(*number)),
        BExpr::Real(number) => Ok(BScalar::Real(fraction(*number))),
        BExpr::Bool(truth) => Ok(BScalar::Bool(*truth)),
        BExpr::Null => Ok(BScalar::Ref(0)),
        BExpr::Unit => Ok(BScalar::Snap(Content::Unit)),
        BExpr::Neg(a) => unary(alloc, Unary::Neg, a, env, scope),
        BExpr::Not(a) => unary(alloc, Unary::Not, a, env, scope),
        BExpr::Bin(op, x, y) => binary(alloc, *op, x, y, env, scope),
        BExpr::If(c, x, y) => match holds(alloc, c, env, scope) {
            Ok(true) => eval(alloc, x, env, scope),
            Ok(false) => eval(alloc, y, env, scope),
            Err(miss) => Err(miss),
        },
        BExpr::Forall(bases, a) => forall_in(alloc, bases, a, env, scope),
        BExpr::ToReal(a) => unary(alloc, Unary::ToReal, a, env, scope),
        BExpr::SInt(a) => unary(alloc, Unary::SInt, a, env, scope),
        BExpr::SBool(a) => unary(alloc, Unary::SBool, a, env, scope),
        BExpr::SRef(a) => unary(alloc, Unary::SRef, a, env, scope),
        BExpr::SPerm(a) => unary(alloc, Unary::SPerm, a, env, scope),
        BExpr::Pair(x, y) => pair(alloc, x, y, env, scope),
        BExpr::At(number, es) => value_at(env, *number, key_of(alloc, es, env, scope)),
        BExpr::AtBound(number) => value_at_bound(env, *number, scope),
    }
}

/// The value of an operator of one side.
#[cycle(evaluation)]
fn unary(alloc: Global, op: Unary, a: &BExpr, env: &[BValue], scope: ForallScope) -> Answer
    requires a_within { IsWithinExpr (expr_of a.now) }
    requires env_within { All IsWithinValue (values_of env.now) }
    requires scope_fits { FitsScope (values_of env.now) scope }
    ensures { Answers scalar_of (then_with
        (m.value Bounded (scope_of (values_of env.now) scope.entry) (expr_of a.now) (values_of env.now)) (unary_of op)) result }
{
    applied(op, eval(alloc, a, env, scope))
}

/// The value of a pair.
#[cycle(evaluation)]
fn pair(alloc: Global, x: &BExpr, y: &BExpr, env: &[BValue], scope: ForallScope) -> Answer
    requires x_within { IsWithinExpr (expr_of x.now) }
    requires y_within { IsWithinExpr (expr_of y.now) }
    requires env_within { All IsWithinValue (values_of env.now) }
    requires scope_fits { FitsScope (values_of env.now) scope }
    ensures { Answers scalar_of (then_with
        (m.value Bounded (scope_of (values_of env.now) scope.entry) (expr_of x.now) (values_of env.now))
        (λ v. then_with (m.value Bounded (scope_of (values_of env.now) scope.entry) (expr_of y.now) (values_of env.now))
        (λ w. o.pair_of Bounded v w))) result }
{
    match eval(alloc, x, env, scope) {
        Ok(left) => paired(alloc, left, eval(alloc, y, env, scope)),
        Err(miss) => Err(miss),
    }
}

/// The value of an operator of two sides.
#[cycle(evaluation)]
fn binary(
    alloc: Global,
    op: BOp,
    x: &BExpr,
    y: &BExpr,
    env: &[BValue],
    scope: ForallScope,
) -> Answer
    requires x_within { IsWithinExpr (expr_of x.now) }
    requires y_within { IsWithinExpr (expr_of y.now) }
    requires env_within { All IsWithinValue (values_of env.now) }
    requires scope_fits { FitsScope (values_of env.now) scope }
    ensures { Answers scalar_of (o.binary Bounded op
        (m.value Bounded (scope_of (values_of env.now) scope.entry) (expr_of x.now) (values_of env.now))
        (m.value Bounded (scope_of (values_of env.now) scope.entry) (expr_of y.now) (values_of env.now))) result }
{
    if is_lazy(op) {
        return truth(relates(alloc, op, x, y, env, scope));
    }
    match eval(alloc, x, env, scope) {
        Ok(left) => plain_with(op, &left, eval(alloc, y, env, scope)),
        Err(miss) => Err(miss),
    }
}

/// The value of an expression that is to be a truth.
#[cycle(evaluation)]
pub fn holds(alloc: Global, e: &BExpr, env: &[BValue], scope: ForallScope) -> Result<bool, Miss>
    requires e_within { IsWithinExpr (expr_of e.now) }
    requires env_within { All IsWithinValue (values_of env.now) }
    requires scope_fits { FitsScope (values_of env.now) scope }
    ensures { Answers (λ p. p) (o.as_truth
        (m.value Bounded (scope_of (values_of env.now) scope.entry) (expr_of e.now) (values_of env.now))) result }
{
    match e {
        BExpr::Not(a) => opposite(holds(alloc, a, env, scope)),
        BExpr::Bin(op, x, y) => relates(alloc, *op, x, y, env, scope),
        _ => truth_of(eval(alloc, e, env, scope)),
    }
}

/// The value of an operator of two sides that is to be a truth. A place is not copied.
#[cycle(evaluation)]
fn relates(
    alloc: Global,
    op: BOp,
    x: &BExpr,
    y: &BExpr,
    env: &[BValue],
    scope: ForallScope,
) -> Result<bool, Miss>
    requires x_within { IsWithinExpr (expr_of x.now) }
    requires y_within { IsWithinExpr (expr_of y.now) }
    requires env_within { All IsWithinValue (values_of env.now) }
    requires scope_fits { FitsScope (values_of env.now) scope }
    ensures { Answers (λ p. p) (o.as_truth (o.binary Bounded op
        (m.value Bounded (scope_of (values_of env.now) scope.entry) (expr_of x.now) (values_of env.now))
        (m.value Bounded (scope_of (values_of env.now) scope.entry) (expr_of y.now) (values_of env.now)))) result }
{
    if is_lazy(op) {
        return match settled(op, holds(alloc, x, env, scope)?) {
            Some(truth) => Ok(truth),
            None => holds(alloc, y, env, scope),
        };
    }
    if let Some(left) = place(x, env, scope) {
        return relates_to(alloc, op, left, y, env, scope);
    }
    match &eval(alloc, x, env, scope) {
        Ok(left) => relates_to(alloc, op, left, y, env, scope),
        Err(miss) => Err(*miss),
    }
}

/// The same of an operator that looks at both sides, of which the left one has this value.
#[cycle(evaluation)]
fn relates_to(
    alloc: Global,
    op: BOp,
    left: &BScalar,
    y: &BExpr,
    env: &[BValue],
    scope: ForallScope,
) -> Result<bool, Miss>
    requires left_within { IsWithinScalar (scalar_of left.now) }
    requires y_within { IsWithinExpr (expr_of y.now) }
    requires env_within { All IsWithinValue (values_of env.now) }
    requires scope_fits { FitsScope (values_of env.now) scope }
    ensures { Answers (λ p. p) (then_with
        (m.value Bounded (scope_of (values_of env.now) scope.entry) (expr_of y.now) (values_of env.now))
        (λ w. o.as_truth (o.plain Bounded op (scalar_of left.now) w))) result }
{
    if let Some(right) = place(y, env, scope) {
        return plain_truth(op, left, right);
    }
    match &eval(alloc, y, env, scope) {
        Ok(right) => plain_truth(op, left, right),
        Err(miss) => Err(*miss),
    }
}

/// The key that indices make, from left to right.
#[cycle(evaluation)]
pub fn key_of(alloc: Global, es: &[BExpr], env: &[BValue], scope: ForallScope) -> Result<Key, Miss>
    requires es_within { AreWithinExprs (exprs_of es.now) }
    requires env_within { All IsWithinValue (values_of env.now) }
    requires scope_fits { FitsScope (values_of env.now) scope }
    ensures { Answers (λ k. k) (m.values Bounded (scope_of (values_of env.now) scope.entry) (exprs_of es.now) (values_of env.now)) result }
{
    if let [index] = es {
        return key_of_one(alloc, index, env, scope);
    }
    let mut parts = Vec::with_capacity(alloc, es.len())?;
    for e in es {
        parts.push(part_of(eval(alloc, e, env, scope))?)?;
    }
    Ok(Key::new(parts))
}

/// The key that one index makes.
#[cycle(evaluation)]
fn key_of_one(alloc: Global, index: &BExpr, env: &[BValue], scope: ForallScope) -> Result<Key, Miss>
    requires index_within { IsWithinExpr (expr_of index.now) }
    requires env_within { All IsWithinValue (values_of env.now) }
    requires scope_fits { FitsScope (values_of env.now) scope }
    ensures { Answers (λ k. k) (m.values Bounded (scope_of (values_of env.now) scope.entry) (exprs_of (index.now ∷ [])) (values_of env.now)) result }
{
    Ok(Key::of_one(part_of(eval(alloc, index, env, scope))?))
}

/// The value of a quantifier. None stands under another.
#[cycle(evaluation)]
fn forall_in(
    alloc: Global,
    bases: &[BBase],
    a: &BExpr,
    env: &[BValue],
    scope: ForallScope,
) -> Answer
    requires a_within { IsWithinExpr (expr_of a.now) }
    requires env_within { All IsWithinValue (values_of env.now) }
    ensures { Answers scalar_of ((scope_of (values_of env.now) scope.entry).all bases.now (expr_of a.now)) result }
{
    match scope {
        ForallScope::Outside => truth(quantified(alloc, bases, a, env)),
        ForallScope::At(_) => Err(Miss::Wrong),
        ForallScope::Elsewhere => Err(Miss::Wrong),
    }
}

/// Whether a body is true at each list of keys of these types.
#[cycle(evaluation)]
fn quantified(alloc: Global, bases: &[BBase], a: &BExpr, env: &[BValue]) -> Result<bool, Miss>
    requires a_within { IsWithinExpr (expr_of a.now) }
    requires env_within { All IsWithinValue (values_of env.now) }
    ensures { Answers (λ p. p) (q.quantified Bounded bases.now (expr_of a.now) (values_of env.now)).0 result }
{
    let columns = columns_in(alloc, a, env)?;
    let keys = keys_of_all(alloc, &columns)?;
    let rest = elsewhere(alloc, bases, a, env, &keys);
    at_keys(alloc, bases, a, env, &keys, &columns, rest)
}

/// The end of a body at the lists of keys that are not marked, where there are some.
#[cycle(evaluation)]
fn elsewhere(
    alloc: Global,
    bases: &[BBase],
    a: &BExpr,
    env: &[BValue],
    list: &[&Key],
) -> Result<bool, Miss>
    requires a_within { IsWithinExpr (expr_of a.now) }
    requires env_within { All IsWithinValue (values_of env.now) }
    ensures { Answers (λ p. p) (end_elsewhere bases.now (expr_of a.now) (values_of env.now) (borrowed list.now)) result }
{
    if has_other(alloc, bases, list)? {
        holds(alloc, a, env, ForallScope::Elsewhere)
    } else {
        Ok(true)
    }
}

/// The worst end of a body at these keys, and the rest.
#[cycle(evaluation)]
fn at_keys<'a>(
    alloc: Global,
    bases: &[BBase],
    a: &BExpr,
    env: &[BValue],
    list: &[&'a Key],
    columns: &[Column<'a>],
    rest: Result<bool, Miss>,
) -> Result<bool, Miss>
    requires a_within { IsWithinExpr (expr_of a.now) }
    requires env_within { All IsWithinValue (values_of env.now) }
    requires columns { AreColumns (values_of env.now) columns.now }
    ensures { (e : End Bool) → Answers (λ p. p) e rest → Answers (λ p. p)
        (with_keys bases.now (m.body_at Bounded (expr_of a.now) (values_of env.now)) (borrowed list.now) e) result }
{
    let mut end = rest;
    let mut nexts = vec![in alloc; 0usize; columns.len()]?;
    for key in list {
        let row = ForallRow {
            key: *key,
            columns,
            nexts: &nexts,
        };
        end = at_key(alloc, bases, a, env, row, end);
        pass(columns, &mut nexts, key);
    }
    end
}

/// The same with one more key.
#[cycle(evaluation)]
fn at_key(
    alloc: Global,
    bases: &[BBase],
    a: &BExpr,
    env: &[BValue],
    row: ForallRow,
    end: Result<bool, Miss>,
) -> Result<bool, Miss>
    requires a_within { IsWithinExpr (expr_of a.now) }
    requires env_within { All IsWithinValue (values_of env.now) }
    requires columns { AreColumns (values_of env.now) row.columns.now }
    ensures { (e : End Bool) → Answers (λ p. p) e end → Answers (λ p. p)
        (with_key bases.now (m.body_at Bounded (expr_of a.now) (values_of env.now)) row.entry.key.now e) result }
{
    let key = row.key;
    if !fits_key(bases, key.parts()) {
        return end;
    }
    worse(holds(alloc, a, env, ForallScope::At(row)), end)
}
