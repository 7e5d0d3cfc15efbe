// The values of variables, and of maps at keys.
#![tactic(auto, using(crate::specs::Answers::is, crate::specs::Answers::over, crate::specs::Answers::wrong, crate::specs::Answers::no_memory))]

ghost use Rattle.std.specs.Prelude.{◌≡◌, IfOk, IfSome, Some, slice_get};
ghost use Rattle.sparse.specs.Map.{get};
ghost use Rattle.vb_value.specs.Bound.{Bounded};
ghost use Rattle.vb_value.specs.Key.{key_cmp};
ghost use Rattle.boogie_tree.specs.Value as v;
ghost use Rattle.boogie_tree.specs.Whole.{expr_of, scalar_of, value_of};
ghost use Rattle.boogie_meaning.specs.Ends.{End, Is, Wrong, then_with, found};
ghost use Rattle.boogie_meaning.specs.Operators.{part_of};
ghost use Rattle.boogie_meaning.specs.Value as m;
ghost use Rattle.boogie_eval.specs.Answers.{Answers};
ghost use Rattle.boogie_eval.specs.Columns.{AreColumns, FitsScope, StandsIn, entries_in};
ghost use Rattle.boogie_eval.specs.View.{map_of, values_of, scope_of};
ghost use Rattle.boogie_eval.specs.Within.{IsWithinScalar};

use crate::eval_columns::Column;
use crate::eval_ends::{Answer, Miss};
use boogie_tree::{BExpr, BScalar, BValue};
use sparse::Sparse;
use vb_value::{Key, KeyPart};

/// The values of the names of a `forall`, and the maps that its body indexes by them, each with the index in its column at which
/// the entry of these values is looked for first.
#[derive(Clone, Copy)]
pub struct ForallRow<'a, 'b, 'c> {
    pub(crate) key: &'a Key,
    pub(crate) columns: &'b [Column<'a>],
    pub(crate) nexts: &'c [usize],
}

/// Where an expression stands.
#[derive(Clone, Copy)]
pub enum ForallScope<'a, 'b, 'c> {
    /// Under no `forall`.
    Outside,
    /// Under one whose names have these values.
    At(ForallRow<'a, 'b, 'c>),
    /// Under one whose names have values that are not marked: each map has its default there.
    Elsewhere,
}

/// An equal value of its own.
fn copied(value: &BScalar) -> Answer
    ensures { Answers scalar_of (Is (scalar_of value.now)) result }
{
    Ok(value.clone()?)
}

fn scalar_in(value: &BValue) -> Answer
    ensures { Answers scalar_of (m.scalar_in (value_of value.now)) result }
{
    match value {
        BValue::One(value) => copied(value),
        BValue::Map(_) => Err(Miss::Wrong),
    }
}

/// The value of a variable that is no map, where it stands.
fn one_at(env: &[BValue], number: usize) -> Option<&BScalar>
    ensures { IfSome result (λ x. then_with (found (slice_get (values_of env.now) number)) m.scalar_in ≡ Is (scalar_of x.now)) }
{
    match env.get(number)? {
        BValue::One(value) => Some(value),
        BValue::Map(_) => None,
    }
}

/// The value of a variable that is no map.
pub(crate) fn variable(env: &[BValue], number: usize) -> Answer
    ensures { Answers scalar_of (then_with (found (slice_get (values_of env.now) number)) m.scalar_in) result }
{
    match env.get(number) {
        Some(value) => scalar_in(value),
        None => Err(Miss::Wrong),
    }
}

fn map_in(value: &BValue) -> Result<&Sparse<Key, BScalar>, Miss>
    ensures { Answers (λ n. map_of n.now) (m.map_in (value_of value.now)) result }
{
    match value {
        BValue::One(_) => Err(Miss::Wrong),
        BValue::Map(map) => Ok(map),
    }
}

/// The map of this number.
pub fn the_map(env: &[BValue], number: usize) -> Result<&Sparse<Key, BScalar>, Miss>
    ensures { Answers (λ n. map_of n.now) (m.the_map (values_of env.now) number) result }
{
    match env.get(number) {
        Some(value) => map_in(value),
        None => Err(Miss::Wrong),
    }
}

fn value_in(map: &Sparse<Key, BScalar>, key: &Key) -> Answer
    ensures { Answers scalar_of (Is (get key_cmp (map_of map.now) key.now)) result }
{
    copied(map.get(key))
}

fn default_in(map: &Sparse<Key, BScalar>) -> Answer
    ensures { Answers scalar_of (Is (map_of map.now).default) result }
{
    copied(map.default())
}

fn value_at_key(env: &[BValue], number: usize, key: &Key) -> Answer
    ensures { Answers scalar_of (then_with (m.the_map (values_of env.now) number) (λ n. Is (get key_cmp n key.now))) result }
{
    value_in(the_map(env, number)?, key)
}

fn default_at(env: &[BValue], number: usize) -> Answer
    ensures { Answers scalar_of (then_with (m.the_map (values_of env.now) number) (λ n. Is n.default)) result }
{
    default_in(the_map(env, number)?)
}

/// The value of a column's entry at an index, if it has this key.
fn value_here<'a>(column: &Column<'a>, at: usize, key: &Key) -> Option<&'a BScalar>
    ensures { IfSome result (λ x. slice_get (entries_in column.now) at ≡ Some (key.now, x.now)) }
{
    let entry = column.entries.get(at)?;
    if entry.0 == *key {
        Some(&entry.1)
    } else {
        None
    }
}

/// The value of the map of a number at the values of the bound names, where its column stands there.
fn value_in_row<'a>(row: ForallRow<'a, '_, '_>, number: usize) -> Option<&'a BScalar>
    ensures { IfSome result (λ x. StandsIn row.entry.columns.now number row.entry.key.now x.now) }
{
    let at = row.columns.partition_point(|column| column.number < number);
    let column = row.columns.get(at)?;
    let next = row.nexts.get(at)?;
    if column.number == number {
        value_here(column, *next, row.key)
    } else {
        None
    }
}

fn value_at_row(env: &[BValue], number: usize, row: ForallRow) -> Answer
    requires { AreColumns (values_of env.now) row.columns.now }
    ensures { Answers scalar_of (then_with (m.the_map (values_of env.now) number) (λ n. Is (get key_cmp n row.entry.key.now))) result }
{
    match value_in_row(row, number) {
        Some(value) => copied(value),
        None => value_at_key(env, number, row.key),
    }
}

/// The value of a map at the key that indices make.
pub(crate) fn value_at(env: &[BValue], number: usize, key: Result<Key, Miss>) -> Answer
    ensures { (e : End v.Key) → Answers (λ k. k) e key
        → Answers scalar_of (then_with e (λ k. then_with (m.the_map (values_of env.now) number) (λ n. Is (get key_cmp n k)))) result }
{
    value_at_key(env, number, &key?)
}

/// The value of a map at the bound names.
pub(crate) fn value_at_bound(env: &[BValue], number: usize, scope: ForallScope) -> Answer
    requires { FitsScope (values_of env.now) scope }
    ensures { Answers scalar_of (then_with (m.the_map (values_of env.now) number) (scope_of (values_of env.now) scope.entry).bound) result }
{
    match scope {
        ForallScope::Outside => outside_at(env, number),
        ForallScope::At(row) => value_at_row(env, number, row),
        ForallScope::Elsewhere => default_at(env, number),
    }
}

/// The value of an expression, where it stands in the environment.
pub(crate) fn place<'a>(
    e: &BExpr,
    env: &'a [BValue],
    scope: ForallScope<'a, '_, '_>,
) -> Option<&'a BScalar>
    requires { FitsScope (values_of env.now) scope }
    ensures { IfSome result (λ x. m.value Bounded (scope_of (values_of env.now) scope.entry) (expr_of e.now) (values_of env.now) ≡ Is (scalar_of x.now)) }
{
    match e {
        BExpr::Var(number) => one_at(env, *number),
        BExpr::AtBound(number) => match scope {
            ForallScope::At(row) => value_in_row(row, *number),
            _ => None,
        },
        _ => None,
    }
}

/// There are no bound names under no `forall`.
fn outside_at(env: &[BValue], number: usize) -> Answer
    ensures { Answers scalar_of (then_with (m.the_map (values_of env.now) number) (λ n. Wrong)) result }
{
    the_map(env, number)?;
    Err(Miss::Wrong)
}

fn part_in(value: &BScalar) -> Result<KeyPart, Miss>
    requires { IsWithinScalar (scalar_of value.now) }
    ensures { Answers (λ p. p) (part_of (scalar_of value.now)) result }
{
    match value {
        BScalar::Int(number) => Ok(KeyPart::Int(*number)),
        BScalar::Bool(truth) => Ok(KeyPart::Bool(*truth)),
        BScalar::Ref(reference) => Ok(KeyPart::Ref(*reference)),
        _ => Err(Miss::Wrong),
    }
}

/// An index as a part of a key.
pub(crate) fn part_of(value: Answer) -> Result<KeyPart, Miss>
    requires { IfOk value (λ w. IsWithinScalar (scalar_of w)) }
    ensures { (e : End v.BScalar) → Answers scalar_of e value → Answers (λ p. p) (then_with e part_of) result }
{
    part_in(&value?)
}
