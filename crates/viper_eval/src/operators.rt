// The values of operators.
ghost use Rattle.std.specs.Prelude.{◌≡◌, ℤ, Bool, Option, pos, neg_ℤ};
ghost use Rattle.std.specs.Ordering.{int_eq};
ghost use Rattle.std.specs.Int.{int_div_euclid, int_rem_euclid};
ghost use Rattle.vb_value.specs.Bound.{IsWithin, is_within, value_if};
ghost use Rattle.vb_value.specs.Fraction.{Fraction, whole, product};
ghost use Rattle.vb_value.specs.Value.{IsWithinValue};
ghost use Rattle.vb_value.specs.declared.values.Value.TheVariants as value;
ghost use Rattle.vb_value.specs.Bound.{Bounded};
ghost use Rattle.viper_meaning.specs.Ends.{found, fitting};
ghost use Rattle.viper_meaning.specs.Operators as o;
ghost use Rattle.viper_eval.specs.Answers.{ended, compares};
ghost use Rattle.viper_meaning.specs.Operators.{class_of};
ghost use Rattle.viper_eval.specs.Lazy.{settled_by, combined};
ghost use Rattle.viper_eval.specs.Steps.{assumed};
ghost use Rattle.viper_eval.specs.View.{lent};

use crate::answers::EvalStop;
use crate::scenes::SceneRef;
use std::cmp::Ordering;
use vb_base::{Kind, Label, Pos};
use vb_value::{Frac, Over, Value, int_add, int_div, int_mod, int_mul, int_sub};
use viper_core::Op;

/// A failure of this kind in the step that is running, for the part at this place.
pub fn failure(scene: SceneRef, part: Pos, kind: Kind) -> EvalStop
    ensures { result ≡ EvalStop.Fails (record { at = scene.entry.at; part = part; kind = kind }) }
{
    EvalStop::Fails(Label {
        at: scene.at,
        part,
        kind,
    })
}

/// The number, where its computation fits, or an end at this place.
pub fn fitted<T>(answer: Result<T, Over>, at: Pos) -> Result<T, EvalStop>
    ensures { (fits : Bool) (x : T) → answer ≡ value_if fits x → ended result ≡ fitting Bounded fits at x }
{
    match answer {
        Ok(number) => Ok(number),
        Err(_) => Err(EvalStop::Over(at)),
    }
}

/// What there is, which in a typed program is never nothing.
pub fn found<T>(there: Option<T>) -> Result<T, EvalStop>
    ensures { ended result ≡ found there }
{
    match there {
        Some(found) => Ok(found),
        None => Err(EvalStop::Blocked),
    }
}

/// The value of a Bool.
pub(crate) fn truth(value: Value) -> Result<bool, EvalStop>
    ensures { ended result ≡ o.truth_of value }
{
    match value {
        Value::Bool(truth) => Ok(truth),
        _ => Err(EvalStop::Blocked),
    }
}

/// Goes on where an assumption holds, and else is blocked.
pub fn assumed(holds: bool) -> Result<(), EvalStop>
    ensures { ended result ≡ assumed holds }
{
    if holds {
        Ok(())
    } else {
        Err(EvalStop::Blocked)
    }
}

/// The value of a Perm.
pub(crate) fn permission(value: Value) -> Result<Frac, EvalStop>
    ensures { ended result ≡ o.perm_of value }
{
    match value {
        Value::Perm(amount) => Ok(amount),
        _ => Err(EvalStop::Blocked),
    }
}

/// The value of a Ref.
pub(crate) fn reference(value: Value) -> Result<u64, EvalStop>
    ensures { ended result ≡ o.ref_of value }
{
    match value {
        Value::Ref(reference) => Ok(reference),
        _ => Err(EvalStop::Blocked),
    }
}

fn is_zero(number: i128) -> bool
    ensures { result ≡ int_eq number (pos 0) }
{
    number == 0
}

/// A whole number as a fraction.
fn fraction(number: i128) -> Frac
    requires { IsWithin number }
    ensures { result ≡ whole number }
{
    Frac::make(number, 1).unwrap()
}

fn opposite(amount: Frac) -> Frac
    ensures { result ≡ record { num = neg_ℤ amount.num; den = amount.den } }
{
    Frac::make(-Frac::num(amount), Frac::den(amount)).unwrap()
}

pub(crate) fn negative(value: Value) -> Result<Value, EvalStop>
    requires { IsWithinValue value }
    ensures { ended result ≡ o.negative value }
{
    match value {
        Value::Int(number) => Ok(Value::Int(-number)),
        Value::Perm(amount) => Ok(Value::Perm(opposite(amount))),
        _ => Err(EvalStop::Blocked),
    }
}

pub(crate) fn negation(value: Value) -> Result<Value, EvalStop>
    ensures { ended result ≡ o.negation value }
{
    Ok(Value::Bool(!truth(value)?))
}

/// An Int, where its computation fits.
fn int_value(answer: Result<i128, Over>, at: Pos) -> Result<Value, EvalStop>
    ensures { (n : ℤ) → answer ≡ value_if (is_within n) n → ended result ≡ fitting Bounded (is_within n) at (value.Int n) }
{
    Ok(Value::Int(fitted(answer, at)?))
}

/// A Perm, where its computation fits.
fn perm_value(answer: Result<Frac, Over>, at: Pos) -> Result<Value, EvalStop>
    ensures { (fits : Bool) (q : Fraction) → answer ≡ value_if fits q → ended result ≡ fitting Bounded fits at (value.Perm q) }
{
    Ok(Value::Perm(fitted(answer, at)?))
}

fn sum(left: Value, right: Value, at: Pos) -> Result<Value, EvalStop>
    ensures { ended result ≡ o.sum_of Bounded left right at }
{
    match left {
        Value::Int(x) => match right {
            Value::Int(y) => int_value(int_add(x, y), at),
            _ => Err(EvalStop::Blocked),
        },
        Value::Perm(p) => match right {
            Value::Perm(q) => perm_value(Frac::add(p, q), at),
            _ => Err(EvalStop::Blocked),
        },
        _ => Err(EvalStop::Blocked),
    }
}

fn difference(left: Value, right: Value, at: Pos) -> Result<Value, EvalStop>
    ensures { ended result ≡ o.difference_of Bounded left right at }
{
    match left {
        Value::Int(x) => match right {
            Value::Int(y) => int_value(int_sub(x, y), at),
            _ => Err(EvalStop::Blocked),
        },
        Value::Perm(p) => match right {
            Value::Perm(q) => perm_value(Frac::sub(p, q), at),
            _ => Err(EvalStop::Blocked),
        },
        _ => Err(EvalStop::Blocked),
    }
}

fn fraction_product(p: Frac, q: Frac, at: Pos) -> Result<Value, EvalStop>
    ensures { ended result ≡ o.fraction_product Bounded p q at }
{
    perm_value(Frac::mul(p, q), at)
}

/// A product. An Int `n` counts as `n/1` beside a Perm.
fn product(left: Value, right: Value, at: Pos) -> Result<Value, EvalStop>
    requires left_within { IsWithinValue left }
    requires right_within { IsWithinValue right }
    ensures { ended result ≡ o.product_of Bounded left right at }
{
    match left {
        Value::Int(x) => match right {
            Value::Int(y) => int_value(int_mul(x, y), at),
            Value::Perm(q) => fraction_product(fraction(x), q, at),
            _ => Err(EvalStop::Blocked),
        },
        Value::Perm(p) => match right {
            Value::Int(y) => fraction_product(p, fraction(y), at),
            Value::Perm(q) => fraction_product(p, q, at),
            _ => Err(EvalStop::Blocked),
        },
        _ => Err(EvalStop::Blocked),
    }
}

fn same_truth(left: Value, right: Value) -> Result<Value, EvalStop>
    ensures { ended result ≡ o.same_truth left right }
{
    match (left, right) {
        (Value::Bool(a), Value::Bool(b)) => Ok(Value::Bool(a == b)),
        _ => Err(EvalStop::Blocked),
    }
}

/// The order of two Ints or two Perms.
fn ordered(left: Value, right: Value, at: Pos) -> Result<Ordering, EvalStop>
    ensures { (test : Ordering → Bool) → compares test result ≡ o.compared Bounded test left right at }
{
    match left {
        Value::Int(x) => match right {
            Value::Int(y) => Ok(x.cmp(&y)),
            _ => Err(EvalStop::Blocked),
        },
        Value::Perm(p) => match right {
            Value::Perm(q) => fitted(Frac::cmp(p, q), at),
            _ => Err(EvalStop::Blocked),
        },
        _ => Err(EvalStop::Blocked),
    }
}

/// `/` by a whole number.
fn divided_by(scene: SceneRef, amount: Frac, number: i128, at: Pos) -> Result<Value, EvalStop>
    requires { IsWithin number }
    ensures { ended result ≡ o.fraction_by Bounded (lent scene.entry) amount number at }
{
    if is_zero(number) {
        return Err(failure(scene, at, Kind::Div));
    }
    perm_value(Frac::div_int(amount, number), at)
}

fn quotient(scene: SceneRef, left: Value, right: Value, at: Pos) -> Result<Value, EvalStop>
    requires left_within { IsWithinValue left }
    requires right_within { IsWithinValue right }
    ensures { ended result ≡ o.quotient_of Bounded (lent scene.entry) left right at }
{
    let Value::Int(number) = right else {
        return Err(EvalStop::Blocked);
    };
    match left {
        Value::Int(x) => divided_by(scene, fraction(x), number, at),
        Value::Perm(p) => divided_by(scene, p, number, at),
        _ => Err(EvalStop::Blocked),
    }
}

/// `\`
fn int_quotient(scene: SceneRef, left: Value, right: Value, at: Pos) -> Result<Value, EvalStop>
    requires left_within { IsWithinValue left }
    requires right_within { IsWithinValue right }
    ensures { ended result ≡ o.euclidean (lent scene.entry) int_div_euclid left right at }
{
    match left {
        Value::Int(x) => match right {
            Value::Int(d) => {
                if is_zero(d) {
                    return Err(failure(scene, at, Kind::Div));
                }
                Ok(Value::Int(int_div(x, d)))
            }
            _ => Err(EvalStop::Blocked),
        },
        _ => Err(EvalStop::Blocked),
    }
}

/// `%`
fn int_remainder(scene: SceneRef, left: Value, right: Value, at: Pos) -> Result<Value, EvalStop>
    requires left_within { IsWithinValue left }
    requires right_within { IsWithinValue right }
    ensures { ended result ≡ o.euclidean (lent scene.entry) int_rem_euclid left right at }
{
    match left {
        Value::Int(x) => match right {
            Value::Int(d) => {
                if is_zero(d) {
                    return Err(failure(scene, at, Kind::Div));
                }
                Ok(Value::Int(int_mod(x, d)))
            }
            _ => Err(EvalStop::Blocked),
        },
        _ => Err(EvalStop::Blocked),
    }
}

/// The value of an operator that looks at both sides and never fails.
fn plain(op: Op, left: Value, right: Value, at: Pos) -> Result<Value, EvalStop>
    requires left_within { IsWithinValue left }
    requires right_within { IsWithinValue right }
    ensures { ended result ≡ o.plain Bounded op left right at }
{
    match op {
        Op::Iff => same_truth(left, right),
        Op::Eq => Ok(Value::Bool(left == right)),
        Op::Ne => Ok(Value::Bool(left != right)),
        Op::Lt => Ok(Value::Bool(ordered(left, right, at)?.is_lt())),
        Op::Le => Ok(Value::Bool(ordered(left, right, at)?.is_le())),
        Op::Gt => Ok(Value::Bool(ordered(left, right, at)?.is_gt())),
        Op::Ge => Ok(Value::Bool(ordered(left, right, at)?.is_ge())),
        Op::Add => sum(left, right, at),
        Op::Sub => difference(left, right, at),
        Op::Mul => product(left, right, at),
        Op::Implies | Op::Or | Op::And => Err(EvalStop::Blocked),
        Op::Divide | Op::IntDiv | Op::IntMod => Err(EvalStop::Blocked),
    }
}

/// The value of a division.
fn divided(scene: SceneRef, op: Op, left: Value, right: Value, at: Pos) -> Result<Value, EvalStop>
    requires left_within { IsWithinValue left }
    requires right_within { IsWithinValue right }
    ensures { ended result ≡ o.divided Bounded (lent scene.entry) op left right at }
{
    match op {
        Op::Divide => quotient(scene, left, right, at),
        Op::IntDiv => int_quotient(scene, left, right, at),
        Op::IntMod => int_remainder(scene, left, right, at),
        _ => Err(EvalStop::Blocked),
    }
}

/// What the left side alone tells of the value.
pub(crate) fn settled(op: Op, left: Value) -> Result<Option<bool>, EvalStop>
    ensures { ended result ≡ settled_by (class_of op) op left }
{
    match op {
        Op::And => Ok(if truth(left)? { None } else { Some(false) }),
        Op::Or => Ok(if truth(left)? { Some(true) } else { None }),
        Op::Implies => Ok(if truth(left)? { None } else { Some(true) }),
        _ => Ok(None),
    }
}

/// The value where the left side leaves it open: of a lazy operator that of the right side.
pub(crate) fn combined(
    scene: SceneRef,
    op: Op,
    left: Value,
    right: Value,
    at: Pos,
) -> Result<Value, EvalStop>
    requires left_within { IsWithinValue left }
    requires right_within { IsWithinValue right }
    ensures { ended result ≡ combined (class_of op) (lent scene.entry) op left right at }
{
    match op {
        Op::Implies | Op::Or | Op::And => Ok(right),
        Op::Divide | Op::IntDiv | Op::IntMod => divided(scene, op, left, right, at),
        _ => plain(op, left, right, at),
    }
}
