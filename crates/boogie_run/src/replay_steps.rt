// The steps of a run.
#![tactic(auto, using(crate::specs::Runs::done, crate::specs::Runs::stops, crate::specs::Runs::no_memory))]

ghost use Rattle.std.specs.Prelude.{All, List, slice_get, slice_set, Ok};
ghost use Rattle.sparse.specs.Map.{Map};
ghost use Rattle.vb_value.specs.Bound.{Bounded};
ghost use Rattle.boogie_tree.specs.Value as v;
ghost use Rattle.boogie_tree.specs.Whole.{expr_of, exprs_of, scalar_of, type_of, value_of};
ghost use Rattle.boogie_meaning.specs.Ends.{End, found};
ghost use Rattle.boogie_meaning.specs.Operators.{as_truth};
ghost use Rattle.boogie_meaning.specs.Quantified as q;
ghost use Rattle.boogie_meaning.specs.Run as m;
ghost use Rattle.boogie_meaning.specs.Run.{Done, with_end, with_truth, with_choice};
ghost use Rattle.boogie_meaning.specs.Value as w;
ghost use Rattle.boogie_eval.specs.Answers.{Answers};
ghost use Rattle.boogie_run.specs.Runs.{Runs};
ghost use Rattle.boogie_types.specs.Typed.{types_in};
ghost use Rattle.boogie_eval.specs.View.{map_of, values_of};
ghost use Rattle.boogie_run.specs.View.{environment_of, left_in};
ghost use Rattle.boogie_eval.specs.Within.{IsWithinValue, IsWithinExpr, AreWithinExprs};

use crate::replay_choices::{BoogieFeed, take_value};
use crate::replay_ends::{ReplayHalt, ReplayStop};
use crate::replay_values::{Environment, copied_map, set_at, whole};
use boogie_eval::{Answer, ForallScope, Miss, eval, holds, key_of, the_map};
use boogie_tree::{BExpr, BScalar, BType, BValue, Local};
use sparse::Sparse;
use std::alloc::Global;
use vb_base::Label;
use vb_value::Key;

/// A value that is no map.
#[tactic(auto, using(boogie_eval::specs::Answers::is, boogie_eval::specs::Answers::over, boogie_eval::specs::Answers::wrong, boogie_eval::specs::Answers::no_memory))]
fn one_of(value: Answer) -> Result<BValue, Miss>
    ensures { (e : End v.BScalar) → Answers scalar_of e value → Answers value_of (q.one_of e) result }
{
    Ok(BValue::One(value?))
}

/// The value of the right side of an assignment, which may be a whole map.
fn side(alloc: Global, e: &BExpr, env: &[BValue]) -> Result<BValue, Miss>
    requires e_within { IsWithinExpr (expr_of e.now) }
    requires env_within { All IsWithinValue (values_of env.now) }
    ensures { Answers value_of (q.side Bounded (expr_of e.now) (values_of env.now)) result }
{
    match e {
        BExpr::Var(number) => whole(env, *number),
        _ => one_of(eval(alloc, e, env, ForallScope::Outside)),
    }
}

/// Gives a variable a value.
pub(crate) fn assign(
    alloc: Global,
    number: usize,
    e: &BExpr,
    env: &mut Environment,
) -> Result<(), ReplayHalt>
    requires e_within { IsWithinExpr (expr_of e.now) }
    requires env_within { All IsWithinValue (environment_of env.old) }
    ensures { (cs : List v.BChoice) → Runs (with_end (q.side Bounded (expr_of e.now) (environment_of env.old)) cs
        (λ x. Done (slice_set (environment_of env.old) number x) cs)) (environment_of env.new) cs result }
{
    let value = side(alloc, e, &env.values)?;
    env.set(number, value);
    Ok(())
}

/// A copy of the map of this number.
#[tactic(auto, using(boogie_eval::specs::Answers::is, boogie_eval::specs::Answers::over, boogie_eval::specs::Answers::wrong, boogie_eval::specs::Answers::no_memory))]
fn map_copy(env: &[BValue], number: usize) -> Result<Sparse<Key, BScalar>, Miss>
    ensures { Answers map_of (w.the_map (values_of env.now) number) result }
{
    copy_of(the_map(env, number)?)
}

#[tactic(auto, using(boogie_eval::specs::Answers::is, boogie_eval::specs::Answers::over, boogie_eval::specs::Answers::wrong, boogie_eval::specs::Answers::no_memory))]
fn copy_of(map: &Sparse<Key, BScalar>) -> Result<Sparse<Key, BScalar>, Miss>
    ensures { (e : End (Map v.Key v.BScalar)) → Answers (λ n. n) e (Ok (map_of map.now)) → Answers map_of e result }
{
    Ok(copied_map(map)?)
}

/// Gives the map of this number a value at a key.
fn put_value(
    number: usize,
    key: Key,
    value: BScalar,
    env: &mut Environment,
) -> Result<(), ReplayHalt>
    ensures { (cs : List v.BChoice) → Runs (with_end (w.the_map (environment_of env.old) number) cs
        (m.put_value number key (scalar_of value) (environment_of env.old) cs)) (environment_of env.new) cs result }
{
    let mut map = map_copy(&env.values, number)?;
    set_at(&mut map, key, value)?;
    env.set(number, BValue::Map(map));
    Ok(())
}

/// Gives the map of this number a value at a key.
fn put_at(
    alloc: Global,
    number: usize,
    key: Key,
    e: &BExpr,
    env: &mut Environment,
) -> Result<(), ReplayHalt>
    requires e_within { IsWithinExpr (expr_of e.now) }
    requires env_within { All IsWithinValue (environment_of env.old) }
    ensures { (cs : List v.BChoice) → Runs (with_end (q.bvalue Bounded (expr_of e.now) (environment_of env.old)) cs
        (λ x. with_end (w.the_map (environment_of env.old) number) cs (m.put_value number key x (environment_of env.old) cs)))
        (environment_of env.new) cs result }
{
    match eval(alloc, e, &env.values, ForallScope::Outside) {
        Ok(value) => put_value(number, key, value, env),
        Err(miss) => Err(ReplayHalt::from(miss)),
    }
}

/// Gives the map of this number a value at the key that indices make.
pub(crate) fn put(
    alloc: Global,
    number: usize,
    es: &[BExpr],
    e: &BExpr,
    env: &mut Environment,
) -> Result<(), ReplayHalt>
    requires es_within { AreWithinExprs (exprs_of es.now) }
    requires e_within { IsWithinExpr (expr_of e.now) }
    requires env_within { All IsWithinValue (environment_of env.old) }
    ensures { (cs : List v.BChoice) → Runs (with_end (q.bkey Bounded (exprs_of es.now) (environment_of env.old)) cs
        (λ k. with_end (q.bvalue Bounded (expr_of e.now) (environment_of env.old)) cs
        (λ x. with_end (w.the_map (environment_of env.old) number) cs (m.put_value number k x (environment_of env.old) cs))))
        (environment_of env.new) cs result }
{
    match key_of(alloc, es, &env.values, ForallScope::Outside) {
        Ok(key) => put_at(alloc, number, key, e, env),
        Err(miss) => Err(ReplayHalt::from(miss)),
    }
}

/// Gives a variable of this type the value of the next choice.
fn havoc_as(
    alloc: Global,
    ty: &BType,
    number: usize,
    env: &mut Environment,
    feed: &mut BoogieFeed,
) -> Result<(), ReplayHalt>
    ensures { Runs (with_choice (left_in feed.old) (m.chosen (type_of ty.now)) (λ x rest. Done (slice_set (environment_of env.old) number x) rest))
        (environment_of env.new) (left_in feed.new) result }
{
    let value = take_value(alloc, ty, feed)?;
    env.set(number, value);
    Ok(())
}

/// Gives a variable a value from outside.
pub(crate) fn havoc(
    alloc: Global,
    locals: &[Local],
    number: usize,
    env: &mut Environment,
    feed: &mut BoogieFeed,
) -> Result<(), ReplayHalt>
    ensures { Runs (with_end (found (slice_get (types_in locals.now) number)) (left_in feed.old)
        (λ u. with_choice (left_in feed.old) (m.chosen u) (λ x rest. Done (slice_set (environment_of env.old) number x) rest)))
        (environment_of env.new) (left_in feed.new) result }
{
    match locals.get(number) {
        Some(local) => havoc_as(alloc, &local.ty, number, env, feed),
        None => Err(ReplayHalt::Stops(ReplayStop::Wrong)),
    }
}

/// Whether a condition is true.
pub(crate) fn condition(alloc: Global, e: &BExpr, env: &[BValue]) -> Result<bool, Miss>
    requires e_within { IsWithinExpr (expr_of e.now) }
    requires env_within { All IsWithinValue (values_of env.now) }
    ensures { Answers (λ p. p) (as_truth (q.bvalue Bounded (expr_of e.now) (values_of env.now))) result }
{
    holds(alloc, e, env, ForallScope::Outside)
}

/// Goes on where the expression is true, and is blocked where it is false.
pub(crate) fn assume(alloc: Global, e: &BExpr, env: &[BValue]) -> Result<(), ReplayHalt>
    requires e_within { IsWithinExpr (expr_of e.now) }
    requires env_within { All IsWithinValue (values_of env.now) }
    ensures { (cs : List v.BChoice) → Runs (with_truth (q.bvalue Bounded (expr_of e.now) (values_of env.now)) cs (m.assumed (values_of env.now) cs))
        (values_of env.now) cs result }
{
    match condition(alloc, e, env) {
        Ok(true) => Ok(()),
        Ok(false) => Err(ReplayHalt::Stops(ReplayStop::Blocked)),
        Err(miss) => Err(ReplayHalt::from(miss)),
    }
}

/// Goes on where the expression is true, and fails where it is false.
pub(crate) fn check(
    alloc: Global,
    label: Label,
    e: &BExpr,
    env: &[BValue],
) -> Result<(), ReplayHalt>
    requires e_within { IsWithinExpr (expr_of e.now) }
    requires env_within { All IsWithinValue (values_of env.now) }
    ensures { (cs : List v.BChoice) → Runs (with_truth (q.bvalue Bounded (expr_of e.now) (values_of env.now)) cs (m.asserted label (values_of env.now) cs))
        (values_of env.now) cs result }
{
    match condition(alloc, e, env) {
        Ok(true) => Ok(()),
        Ok(false) => Err(ReplayHalt::Stops(ReplayStop::Failed(label))),
        Err(miss) => Err(ReplayHalt::from(miss)),
    }
}
