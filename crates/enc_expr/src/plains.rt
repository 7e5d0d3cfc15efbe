// The value of an expression, and what an assertion contains, as one expression of Boogie each, without any checks.
ghost use Rattle.std.specs.Prelude.{◌≡◌, IfOk};
ghost use Rattle.viper_core.specs.View as viper;
ghost use Rattle.viper_meaning.specs.Operators as meaning;
ghost use Rattle.boogie_tree.specs.Expr as t;
ghost use Rattle.boogie_tree.specs.Whole.{expr_of, exprs_of};
ghost use Rattle.enc_expr.specs.Encoding as encoding;
ghost use Rattle.enc_expr.specs.Kinds.{type_at};
ghost use Rattle.enc_expr.specs.Pieces as piece;
ghost use Rattle.enc_expr.specs.Place as p;
ghost use Rattle.enc_expr.specs.Plain as code;
ghost use Rattle.enc_expr.specs.View.{seen, kinds_of, place_in};
ghost use Rattle.moves.specs.Scalars as s;

use crate::operands::{Operand, int_operand, part_operand};
use crate::operators::{Class, class_of, denied, negative, op_of, quotient, value_of};
use crate::readings::{Reading, base_for, number};
use crate::terms::{binary, leaf};
use boogie_tree::{BBase, BExpr, BOp};
use std::alloc::Global;
use vb_base::{Memory, boxed, boxed_pair};
use viper_core::{Amt, Assertion, Expr, Op};

// ---- values

/// An operator at two operands. A lazy operator of Viper is one of Boogie.
fn plain_by(alloc: Global, op: Op, left: Operand, right: Operand) -> Result<Operand, Memory>
    ensures { IfOk result (λ x. seen x ≡ code.plain_by (meaning.class_of op) op (seen left) (seen right)) }
{
    match class_of(op) {
        Class::Lazy => {
            let both = BExpr::Bin(op_of(op), left.expr, right.expr);
            Operand::of(alloc, both, BBase::Bool)
        }
        Class::Division => quotient(alloc, op, left, Box::into_inner(right.expr)),
        Class::Plain => value_of(alloc, op, left, right),
    }
}

/// One of two operands, by a condition.
fn plain_choice(
    alloc: Global,
    condition: Operand,
    left: Operand,
    right: Operand,
) -> Result<Operand, Memory>
    ensures { IfOk result (λ x. seen x ≡ record { expr = t.If (seen condition).expr (seen left).expr (seen right).expr; base = left.base }) }
{
    let choice = BExpr::If(condition.expr, left.expr, right.expr);
    Operand::of(alloc, choice, left.base)
}

/// A heap at a reference.
fn heap_at(alloc: Global, field: u32, receiver: Operand, reading: Reading) -> Result<BExpr, Memory>
    ensures { IfOk result (λ x. expr_of x ≡ piece.at_one (p.number (place_in reading.entry).now.heap field) (seen receiver).expr) }
{
    let index = vec![in alloc; Box::into_inner(receiver.expr)]?;
    Ok(BExpr::At(number(&reading.now.heap, field), index))
}

/// The value of a field.
fn plain_field(
    alloc: Global,
    field: u32,
    receiver: Operand,
    reading: Reading,
) -> Result<Operand, Memory>
    ensures { IfOk result (λ x. seen x ≡ record {
      expr = piece.at_one (p.number (place_in reading.entry).now.heap field) (seen receiver).expr;
      base = s.base_for (type_at (kinds_of reading.entry.kinds).layout.fields field);
    }) }
{
    let value = heap_at(alloc, field, receiver, reading)?;
    Operand::of(alloc, value, base_for(reading.kinds.field(field)))
}

/// The value of an expression as one expression of Boogie, without any checks.
pub fn plain(alloc: Global, e: &Expr, reading: Reading) -> Result<Operand, Memory>
    ensures { IfOk result (λ x. seen x ≡ code.plain (kinds_of reading.entry.kinds) (place_in reading.entry) (viper.expr_of e.now)) }
{
    match e {
        Expr::Var(x) => {
            let local = BExpr::Var(number(reading.vars, *x));
            Operand::of(alloc, local, reading.kinds.variable(*x))
        }
        Expr::Int(n) => int_operand(alloc, n),
        Expr::Bool(b) => Operand::of(alloc, BExpr::Bool(*b), BBase::Bool),
        Expr::Null => Operand::of(alloc, BExpr::Null, BBase::Ref),
        Expr::Part(q) => part_operand(alloc, q),
        Expr::Neg(a) => negative(alloc, plain(alloc, a, reading)?),
        Expr::Not(a) => denied(alloc, plain(alloc, a, reading)?),
        Expr::Bin(op, a, b, _) => {
            let left = plain(alloc, a, reading)?;
            let right = plain(alloc, b, reading)?;
            plain_by(alloc, *op, left, right)
        }
        Expr::Choose(a, b, c) => {
            let condition = plain(alloc, a, reading)?;
            let left = plain(alloc, b, reading)?;
            let right = plain(alloc, c, reading)?;
            plain_choice(alloc, condition, left, right)
        }
        Expr::Field(a, field, _) => {
            let receiver = plain(alloc, a, reading)?;
            plain_field(alloc, *field, receiver, reading)
        }
        Expr::Old(a) => plain(alloc, a, reading.with_now(reading.old)),
        Expr::Unfolding(opened) => plain(alloc, &opened.inner, reading),
    }
}

/// The arguments of an instance as the index of its map, which is 0 where there are none.
fn plain_index(alloc: Global, args: &[Expr], reading: Reading) -> Result<Vec<BExpr>, Memory>
    ensures { IfOk result (λ xs. exprs_of xs.items ≡ code.plain_index (kinds_of reading.entry.kinds) (place_in reading.entry) (viper.exprs_of args.now)) }
{
    if args.is_empty() {
        return Ok(vec![in alloc; BExpr::Int(0)]?);
    }
    plain_all(alloc, args, reading)
}

fn plain_all(alloc: Global, args: &[Expr], reading: Reading) -> Result<Vec<BExpr>, Memory>
    ensures { IfOk result (λ xs. exprs_of xs.items ≡ code.plain_more (kinds_of reading.entry.kinds) (place_in reading.entry) (viper.exprs_of args.now)) }
{
    let mut values = Vec::with_capacity(alloc, args.len())?;
    for a in args {
        let value = plain(alloc, a, reading)?;
        values.push(Box::into_inner(value.expr))?;
    }
    Ok(values)
}

// ---- contents

/// The literal 1.
fn is_one(e: &BExpr) -> bool
    ensures { result ≡ piece.is_one (expr_of e.now) }
{
    match e {
        BExpr::Real(n) => *n == 1,
        _ => false,
    }
}

/// One of two expressions, by a condition.
fn choice(alloc: Global, condition: BExpr, left: BExpr, right: BExpr) -> Result<BExpr, Memory>
    ensures { IfOk result (λ x. expr_of x ≡ t.If (expr_of condition) (expr_of left) (expr_of right)) }
{
    let condition = boxed(alloc, condition)?;
    let (left, right) = boxed_pair(alloc, left, right)?;
    Ok(BExpr::If(condition, left, right))
}

/// What is held by no positive amount contains nothing.
fn contained_by(alloc: Global, amount: BExpr, content: BExpr) -> Result<BExpr, Memory>
    ensures { IfOk result (λ x. expr_of x ≡ code.contained_by (expr_of amount) (expr_of content)) }
{
    if is_one(&amount) {
        return Ok(content);
    }
    let positive = binary(alloc, BOp::Gt, amount, BExpr::Real(0))?;
    choice(alloc, positive, content, BExpr::Unit)
}

/// The amount of an accessibility predicate. No body of a predicate has `wildcard`.
fn plain_amount(alloc: Global, amount: &Amt, reading: Reading) -> Result<BExpr, Memory>
    ensures { IfOk result (λ x. expr_of x ≡ code.plain_amount (kinds_of reading.entry.kinds) (place_in reading.entry) (viper.amt_of amount.now)) }
{
    match amount {
        Amt::Is(e) => {
            let value = plain(alloc, e, reading)?;
            Ok(Box::into_inner(value.expr))
        }
        Amt::Wildcard => Ok(BExpr::Real(0)),
    }
}

/// What a place contains, by an amount.
fn content_of_place(
    alloc: Global,
    field: u32,
    receiver: &Expr,
    amount: &Amt,
    reading: Reading,
) -> Result<BExpr, Memory>
    ensures { IfOk result (λ x. expr_of x ≡ code.contained_by (code.plain_amount (kinds_of reading.entry.kinds) (place_in reading.entry) (viper.amt_of amount.now))
        (encoding.leaf (type_at (kinds_of reading.entry.kinds).layout.fields field) (piece.at_one (p.number (place_in reading.entry).now.heap field)
        (code.plain (kinds_of reading.entry.kinds) (place_in reading.entry) (viper.expr_of receiver.now)).expr))) }
{
    let amount = plain_amount(alloc, amount, reading)?;
    let receiver = plain(alloc, receiver, reading)?;
    let value = heap_at(alloc, field, receiver, reading)?;
    let content = leaf(alloc, reading.kinds.field(field), value)?;
    contained_by(alloc, amount, content)
}

/// What an instance contains, by an amount.
fn content_of_part(
    alloc: Global,
    predicate: u32,
    args: &[Expr],
    amount: &Amt,
    reading: Reading,
) -> Result<BExpr, Memory>
    ensures { IfOk result (λ x. expr_of x ≡ code.contained_by (code.plain_amount (kinds_of reading.entry.kinds) (place_in reading.entry) (viper.amt_of amount.now))
        (t.At (p.number (place_in reading.entry).now.content predicate) (code.plain_index (kinds_of reading.entry.kinds) (place_in reading.entry) (viper.exprs_of args.now)))) }
{
    let amount = plain_amount(alloc, amount, reading)?;
    let index = plain_index(alloc, args, reading)?;
    let content = BExpr::At(number(&reading.now.content, predicate), index);
    contained_by(alloc, amount, content)
}

/// The value of a condition.
fn plain_condition(alloc: Global, e: &Expr, reading: Reading) -> Result<BExpr, Memory>
    ensures { IfOk result (λ x. expr_of x ≡ (code.plain (kinds_of reading.entry.kinds) (place_in reading.entry) (viper.expr_of e.now)).expr) }
{
    let value = plain(alloc, e, reading)?;
    Ok(Box::into_inner(value.expr))
}

/// What an assertion contains, as one expression of Boogie without any checks.
pub fn content_of(alloc: Global, a: &Assertion, reading: Reading) -> Result<BExpr, Memory>
    ensures { IfOk result (λ x. expr_of x ≡ code.content_expr (kinds_of reading.entry.kinds) (place_in reading.entry) (viper.assertion_of a.now)) }
{
    match a {
        Assertion::Fact(_, _) => Ok(BExpr::Unit),
        Assertion::Acc(e, field, amount, _) => content_of_place(alloc, *field, e, amount, reading),
        Assertion::Inst(predicate, args, amount, _) => {
            content_of_part(alloc, *predicate, args, amount, reading)
        }
        Assertion::And(a, b) => {
            let left = content_of(alloc, a, reading)?;
            let right = content_of(alloc, b, reading)?;
            let (left, right) = boxed_pair(alloc, left, right)?;
            Ok(BExpr::Pair(left, right))
        }
        Assertion::Implies(e, a) => {
            let condition = plain_condition(alloc, e, reading)?;
            let content = content_of(alloc, a, reading)?;
            choice(alloc, condition, content, BExpr::Unit)
        }
        Assertion::Choose(e, a, b) => {
            let condition = plain_condition(alloc, e, reading)?;
            let left = content_of(alloc, a, reading)?;
            let right = content_of(alloc, b, reading)?;
            choice(alloc, condition, left, right)
        }
    }
}
