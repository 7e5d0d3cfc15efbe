// The values of operators.
#![tactic(auto, using(crate::specs::Answers::is, crate::specs::Answers::over, crate::specs::Answers::wrong, crate::specs::Answers::no_memory))]

ghost use Rattle.std.specs.Prelude.{◌≡◌, ℤ, Bool, pos, not, IfOk, if◌then◌else◌};
ghost use Rattle.std.specs.Ordering.{int_eq};
ghost use Rattle.std.specs.Int.{int_div_euclid, int_rem_euclid};
ghost use Rattle.vb_value.specs.Bound.{Bounded, IsWithin, value_if};
ghost use Rattle.vb_value.specs.Fraction.{Fraction};
ghost use Rattle.boogie_tree.specs.Value as v;
ghost use Rattle.boogie_tree.specs.Whole.{scalar_of};
ghost use Rattle.boogie_meaning.specs.Ends.{End, Is, then_with, fitting};
ghost use Rattle.boogie_meaning.specs.Operators as o;
ghost use Rattle.boogie_eval.specs.Answers.{Answers};
ghost use Rattle.boogie_eval.specs.Tests as test;
ghost use Rattle.boogie_eval.specs.Within.{IsWithinScalar};

use crate::eval_ends::{Answer, Miss};
use boogie_tree::{BOp, BScalar, base_of_scalar, same_base};
use std::cmp::Ordering;
use vb_value::{Frac, Over, int_add, int_div, int_mod, int_mul, int_sub};

/// An Int, where its computation fits.
fn whole(number: Result<i128, Over>) -> Answer
    requires { IfOk number IsWithin }
    ensures { (fits : Bool) (n : ℤ) → number ≡ value_if fits n → Answers scalar_of (fitting Bounded fits (v.Int n)) result }
{
    match number {
        Ok(number) => Ok(BScalar::Int(number)),
        Err(_) => Err(Miss::Over),
    }
}

/// A Real, where its computation fits.
fn real(number: Result<Frac, Over>) -> Answer
    ensures { (fits : Bool) (q : Fraction) → number ≡ value_if fits q → Answers scalar_of (fitting Bounded fits (v.Real q)) result }
{
    match number {
        Ok(number) => Ok(BScalar::Real(number)),
        Err(_) => Err(Miss::Over),
    }
}

/// `+`
fn sum(left: &BScalar, right: &BScalar) -> Answer
    ensures { Answers scalar_of (o.sum_of Bounded (scalar_of left.now) (scalar_of right.now)) result }
{
    match (left, right) {
        (BScalar::Int(x), BScalar::Int(y)) => whole(int_add(*x, *y)),
        (BScalar::Real(p), BScalar::Real(q)) => real(Frac::add(*p, *q)),
        _ => Err(Miss::Wrong),
    }
}

/// `-`
fn difference(left: &BScalar, right: &BScalar) -> Answer
    ensures { Answers scalar_of (o.difference_of Bounded (scalar_of left.now) (scalar_of right.now)) result }
{
    match (left, right) {
        (BScalar::Int(x), BScalar::Int(y)) => whole(int_sub(*x, *y)),
        (BScalar::Real(p), BScalar::Real(q)) => real(Frac::sub(*p, *q)),
        _ => Err(Miss::Wrong),
    }
}

/// `*`
fn product(left: &BScalar, right: &BScalar) -> Answer
    ensures { Answers scalar_of (o.product_of Bounded (scalar_of left.now) (scalar_of right.now)) result }
{
    match (left, right) {
        (BScalar::Int(x), BScalar::Int(y)) => whole(int_mul(*x, *y)),
        (BScalar::Real(p), BScalar::Real(q)) => real(Frac::mul(*p, *q)),
        _ => Err(Miss::Wrong),
    }
}

/// A quotient by 0 is 0.
fn real_quotient(p: Frac, q: Frac) -> Answer
    ensures { Answers scalar_of (o.quotient_of Bounded (v.Real p) (v.Real q)) result }
{
    if Frac::is_none(q) {
        return Ok(BScalar::Real(Frac::none()));
    }
    real(Frac::div(p, q))
}

/// `/`
fn quotient(left: &BScalar, right: &BScalar) -> Answer
    ensures { Answers scalar_of (o.quotient_of Bounded (scalar_of left.now) (scalar_of right.now)) result }
{
    match (left, right) {
        (BScalar::Real(p), BScalar::Real(q)) => real_quotient(*p, *q),
        _ => Err(Miss::Wrong),
    }
}

/// A quotient by 0 is 0.
fn whole_quotient(x: i128, d: i128) -> i128
    requires x_within { IsWithin x }
    requires d_within { IsWithin d }
    ensures within { IsWithin result }
    ensures value { result ≡ (if int_eq d (pos 0) then pos 0 else int_div_euclid x d) }
{
    if d == 0 { 0 } else { int_div(x, d) }
}

/// A remainder by 0 is 0.
fn whole_remainder(x: i128, d: i128) -> i128
    requires x_within { IsWithin x }
    requires d_within { IsWithin d }
    ensures within { IsWithin result }
    ensures value { result ≡ (if int_eq d (pos 0) then pos 0 else int_rem_euclid x d) }
{
    if d == 0 { 0 } else { int_mod(x, d) }
}

/// `div`
fn euclidean_quotient(left: &BScalar, right: &BScalar) -> Answer
    requires left_within { IsWithinScalar (scalar_of left.now) }
    requires right_within { IsWithinScalar (scalar_of right.now) }
    ensures { Answers scalar_of (o.euclidean int_div_euclid (scalar_of left.now) (scalar_of right.now)) result }
{
    match (left, right) {
        (BScalar::Int(x), BScalar::Int(d)) => Ok(BScalar::Int(whole_quotient(*x, *d))),
        _ => Err(Miss::Wrong),
    }
}

/// `mod`
fn euclidean_remainder(left: &BScalar, right: &BScalar) -> Answer
    requires left_within { IsWithinScalar (scalar_of left.now) }
    requires right_within { IsWithinScalar (scalar_of right.now) }
    ensures { Answers scalar_of (o.euclidean int_rem_euclid (scalar_of left.now) (scalar_of right.now)) result }
{
    match (left, right) {
        (BScalar::Int(x), BScalar::Int(d)) => Ok(BScalar::Int(whole_remainder(*x, *d))),
        _ => Err(Miss::Wrong),
    }
}

/// Whether the order is the one that a comparison looks for.
fn tests(op: BOp, order: Ordering) -> bool
    ensures { result ≡ test.tests op order }
{
    match op {
        BOp::Lt => order.is_lt(),
        BOp::Le => order.is_le(),
        BOp::Gt => order.is_gt(),
        _ => order.is_ge(),
    }
}

/// Whether two numbers compare so, where the computation fits.
fn tested(op: BOp, order: Result<Ordering, Over>) -> Answer
    ensures { (fits : Bool) (n : Ordering) → order ≡ value_if fits n → Answers scalar_of (fitting Bounded fits (v.Bool (test.tests op n))) result }
{
    match order {
        Ok(order) => Ok(BScalar::Bool(tests(op, order))),
        Err(_) => Err(Miss::Over),
    }
}

/// `<`, `<=`, `>`, `>=`
fn comparison(op: BOp, left: &BScalar, right: &BScalar) -> Answer
    ensures { Answers scalar_of (o.compared Bounded (test.tests op) (scalar_of left.now) (scalar_of right.now)) result }
{
    match (left, right) {
        (BScalar::Int(x), BScalar::Int(y)) => Ok(BScalar::Bool(tests(op, x.cmp(y)))),
        (BScalar::Real(p), BScalar::Real(q)) => tested(op, Frac::cmp(*p, *q)),
        _ => Err(Miss::Wrong),
    }
}

/// `==` of two values of one type.
fn same(left: &BScalar, right: &BScalar) -> Result<bool, Miss>
    ensures { Answers (λ p. p) (o.as_truth (o.equal (λ p. p) (scalar_of left.now) (scalar_of right.now))) result }
{
    if same_base(base_of_scalar(left), base_of_scalar(right)) {
        Ok(left.same(right))
    } else {
        Err(Miss::Wrong)
    }
}

/// `<==>`
fn same_truth(left: &BScalar, right: &BScalar) -> Answer
    ensures { Answers scalar_of (o.same_truth (scalar_of left.now) (scalar_of right.now)) result }
{
    match (left, right) {
        (BScalar::Bool(p), BScalar::Bool(q)) => Ok(BScalar::Bool(*p == *q)),
        _ => Err(Miss::Wrong),
    }
}

/// The value of a Bool.
pub(crate) fn truth_of(value: Answer) -> Result<bool, Miss>
    ensures { (e : End v.BScalar) → Answers scalar_of e value → Answers (λ p. p) (o.as_truth e) result }
{
    truth_in(&value?)
}

fn truth_in(value: &BScalar) -> Result<bool, Miss>
    ensures { Answers (λ p. p) (o.truth_of (scalar_of value.now)) result }
{
    match value {
        BScalar::Bool(truth) => Ok(*truth),
        _ => Err(Miss::Wrong),
    }
}

/// A truth as a value.
pub(crate) fn truth(flag: Result<bool, Miss>) -> Answer
    ensures { (e : End Bool) → Answers (λ p. p) e flag → Answers scalar_of (o.as_bool e) result }
{
    Ok(BScalar::Bool(flag?))
}

/// The opposite of a truth.
pub(crate) fn opposite(flag: Result<bool, Miss>) -> Result<bool, Miss>
    ensures { (e : End Bool) → Answers (λ p. p) e flag → Answers (λ p. p) (then_with e (λ p. Is (not p))) result }
{
    Ok(!flag?)
}

/// The value of an operator that looks at both sides.
fn plain(op: BOp, left: &BScalar, right: &BScalar) -> Answer
    requires left_within { IsWithinScalar (scalar_of left.now) }
    requires right_within { IsWithinScalar (scalar_of right.now) }
    ensures { Answers scalar_of (o.plain Bounded op (scalar_of left.now) (scalar_of right.now)) result }
{
    match op {
        BOp::Iff => same_truth(left, right),
        BOp::Eq => truth(same(left, right)),
        BOp::Ne => truth(opposite(same(left, right))),
        BOp::Lt => comparison(op, left, right),
        BOp::Le => comparison(op, left, right),
        BOp::Gt => comparison(op, left, right),
        BOp::Ge => comparison(op, left, right),
        BOp::Add => sum(left, right),
        BOp::Sub => difference(left, right),
        BOp::Mul => product(left, right),
        BOp::Divide => quotient(left, right),
        BOp::IntDiv => euclidean_quotient(left, right),
        BOp::IntMod => euclidean_remainder(left, right),
        BOp::Implies | BOp::Or | BOp::And => Err(Miss::Wrong),
    }
}

/// The same of a right side that was evaluated.
pub(crate) fn plain_with(op: BOp, left: &BScalar, right: Answer) -> Answer
    requires left_within { IsWithinScalar (scalar_of left.now) }
    requires right_within { IfOk right (λ w. IsWithinScalar (scalar_of w)) }
    ensures { (e : End v.BScalar) → Answers scalar_of e right
        → Answers scalar_of (then_with e (λ w. o.plain Bounded op (scalar_of left.now) w)) result }
{
    plain(op, left, &right?)
}

/// The value of an operator that looks at both sides and is to be a truth.
pub(crate) fn plain_truth(op: BOp, left: &BScalar, right: &BScalar) -> Result<bool, Miss>
    requires left_within { IsWithinScalar (scalar_of left.now) }
    requires right_within { IsWithinScalar (scalar_of right.now) }
    ensures { Answers (λ p. p) (o.as_truth (o.plain Bounded op (scalar_of left.now) (scalar_of right.now))) result }
{
    match op {
        BOp::Eq => same(left, right),
        BOp::Ne => opposite(same(left, right)),
        _ => truth_of(plain(op, left, right)),
    }
}

pub(crate) fn is_lazy(op: BOp) -> bool
    ensures { result ≡ o.is_lazy op }
{
    matches!(op, BOp::Implies | BOp::Or | BOp::And)
}

/// What a left side that is true or false tells of the value.
pub(crate) fn settled(op: BOp, left: bool) -> Option<bool>
    ensures { result ≡ o.settled op left }
{
    match op {
        BOp::And => if left { None } else { Some(false) },
        BOp::Or => if left { Some(true) } else { None },
        BOp::Implies => if left { None } else { Some(true) },
        _ => None,
    }
}
