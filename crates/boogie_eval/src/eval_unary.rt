// The values of operators of one side, and of pairs.
#![tactic(auto, using(crate::specs::Answers::is, crate::specs::Answers::over, crate::specs::Answers::wrong, crate::specs::Answers::no_memory))]

ghost use Rattle.std.specs.Prelude.{◌≡◌, neg_ℤ, IfOk};
ghost use Rattle.vb_value.specs.Bound.{Bounded, IsWithin};
ghost use Rattle.vb_value.specs.Fraction.{whole};
ghost use Rattle.vb_value.specs.View.{content_of};
ghost use Rattle.boogie_tree.specs.Value as v;
ghost use Rattle.boogie_tree.specs.Whole.{scalar_of};
ghost use Rattle.boogie_meaning.specs.Ends.{End, then_with};
ghost use Rattle.boogie_meaning.specs.Operators as o;
ghost use Rattle.boogie_eval.specs.Answers.{Answers};
ghost use Rattle.boogie_eval.specs.Unary.{unary_of, pair_in};
ghost use Rattle.boogie_eval.specs.Within.{IsWithinScalar};

use crate::eval_ends::{Answer, Miss};
use boogie_tree::BScalar;
use std::alloc::Global;
use vb_value::{Content, Frac, PairFault, Value};

/// An operator of one side.
#[derive(Clone, Copy)]
pub(crate) enum Unary {
    Neg,
    Not,
    ToReal,
    SInt,
    SBool,
    SRef,
    SPerm,
}

/// A whole number as a fraction.
pub(crate) fn fraction(number: i128) -> Frac
    requires { IsWithin number }
    ensures { result ≡ whole number }
{
    Frac::make(number, 1).unwrap()
}

fn opposite(amount: Frac) -> Frac
    ensures { result ≡ record { num = neg_ℤ amount.num; den = amount.den } }
{
    Frac::make(-Frac::num(amount), Frac::den(amount)).unwrap()
}

fn negative(value: BScalar) -> Answer
    requires { IsWithinScalar (scalar_of value) }
    ensures { Answers scalar_of (o.negative (scalar_of value)) result }
{
    match value {
        BScalar::Int(number) => Ok(BScalar::Int(-number)),
        BScalar::Real(amount) => Ok(BScalar::Real(opposite(amount))),
        _ => Err(Miss::Wrong),
    }
}

fn real_from(value: BScalar) -> Answer
    requires { IsWithinScalar (scalar_of value) }
    ensures { Answers scalar_of (o.real_from (scalar_of value)) result }
{
    match value {
        BScalar::Int(number) => Ok(BScalar::Real(fraction(number))),
        _ => Err(Miss::Wrong),
    }
}

fn negation(value: BScalar) -> Answer
    ensures { Answers scalar_of (o.negation (scalar_of value)) result }
{
    match value {
        BScalar::Bool(truth) => Ok(BScalar::Bool(!truth)),
        _ => Err(Miss::Wrong),
    }
}

fn leaf_int(value: BScalar) -> Answer
    ensures { Answers scalar_of (o.leaf_int (scalar_of value)) result }
{
    match value {
        BScalar::Int(number) => Ok(BScalar::Snap(Content::Leaf(Value::Int(number)))),
        _ => Err(Miss::Wrong),
    }
}

fn leaf_bool(value: BScalar) -> Answer
    ensures { Answers scalar_of (o.leaf_bool (scalar_of value)) result }
{
    match value {
        BScalar::Bool(truth) => Ok(BScalar::Snap(Content::Leaf(Value::Bool(truth)))),
        _ => Err(Miss::Wrong),
    }
}

fn leaf_ref(value: BScalar) -> Answer
    ensures { Answers scalar_of (o.leaf_ref (scalar_of value)) result }
{
    match value {
        BScalar::Ref(reference) => Ok(BScalar::Snap(Content::Leaf(Value::Ref(reference)))),
        _ => Err(Miss::Wrong),
    }
}

fn leaf_perm(value: BScalar) -> Answer
    ensures { Answers scalar_of (o.leaf_perm (scalar_of value)) result }
{
    match value {
        BScalar::Real(amount) => Ok(BScalar::Snap(Content::Leaf(Value::Perm(amount)))),
        _ => Err(Miss::Wrong),
    }
}

fn value_of(op: Unary, value: BScalar) -> Answer
    requires { IsWithinScalar (scalar_of value) }
    ensures { Answers scalar_of (unary_of op (scalar_of value)) result }
{
    match op {
        Unary::Neg => negative(value),
        Unary::Not => negation(value),
        Unary::ToReal => real_from(value),
        Unary::SInt => leaf_int(value),
        Unary::SBool => leaf_bool(value),
        Unary::SRef => leaf_ref(value),
        Unary::SPerm => leaf_perm(value),
    }
}

/// The value of an operator of one side.
pub(crate) fn applied(op: Unary, value: Answer) -> Answer
    requires { IfOk value (λ w. IsWithinScalar (scalar_of w)) }
    ensures { (e : End v.BScalar) → Answers scalar_of e value → Answers scalar_of (then_with e (unary_of op)) result }
{
    value_of(op, value?)
}

fn snap(value: BScalar) -> Result<Content, Miss>
    ensures { Answers content_of (o.snap_of (scalar_of value)) result }
{
    match value {
        BScalar::Snap(content) => Ok(content),
        _ => Err(Miss::Wrong),
    }
}

fn pair(alloc: Global, left: Content, right: Content) -> Answer
    ensures { Answers scalar_of (pair_in (content_of left) (content_of right)) result }
{
    match Content::pair(alloc, left, right) {
        Ok(content) => Ok(BScalar::Snap(content)),
        Err(PairFault::Over) => Err(Miss::Over),
        Err(PairFault::Memory) => Err(Miss::Memory),
    }
}

/// The pair of two contents, of which the right one is still a value.
fn pair_with(alloc: Global, left: Content, right: BScalar) -> Answer
    ensures { Answers scalar_of (then_with (o.snap_of (scalar_of right)) (λ d. pair_in (content_of left) d)) result }
{
    pair(alloc, left, snap(right)?)
}

fn pair_of(alloc: Global, left: BScalar, right: BScalar) -> Answer
    ensures { Answers scalar_of (o.pair_of Bounded (scalar_of left) (scalar_of right)) result }
{
    pair_with(alloc, snap(left)?, right)
}

/// The value of a pair.
pub(crate) fn paired(alloc: Global, left: BScalar, right: Answer) -> Answer
    ensures { (e : End v.BScalar) → Answers scalar_of e right
        → Answers scalar_of (then_with e (λ w. o.pair_of Bounded (scalar_of left) w)) result }
{
    pair_of(alloc, left, right?)
}
