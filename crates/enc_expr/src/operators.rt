// Operators of two operands, negations, and choices between two values.
ghost use Rattle.std.specs.Prelude.{◌≡◌, length, IfOk, OnOk};
ghost use Rattle.viper_meaning.specs.Operators as meaning;
ghost use Rattle.boogie_tree.specs.Expr as t;
ghost use Rattle.boogie_tree.specs.Whole.{expr_of, stmts_of};
ghost use Rattle.boogie_tree.specs.declared.exprs.BBase.TheVariants as base;
ghost use Rattle.enc_expr.specs.Code.{join, guards};
ghost use Rattle.enc_expr.specs.Emits.{emit_of, Emits, Sides};
ghost use Rattle.enc_expr.specs.Operators as code;
ghost use Rattle.enc_expr.specs.Pieces as piece;
ghost use Rattle.enc_expr.specs.View.{class_in, seen, atom_of, place_in};

use crate::emits::Emit;
use crate::operands::{Atom, Operand, atomic};
use crate::readings::Reading;
use crate::terms::{binary, negation, real};
use boogie_tree::{BBase, BExpr, BOp, BStmt};
use enc_asserts::add_assert;
use std::alloc::Global;
use vb_base::{Kind, Label, Memory, Pos, boxed};
use viper_core::Op;

/// How an operator reads its operands.
pub(crate) enum Class {
    /// The right one only where the left one does not settle the value.
    Lazy,
    /// Both, and the right one is not 0.
    Division,
    /// Both.
    Plain,
}

pub(crate) fn class_of(op: Op) -> Class
    ensures { class_in result ≡ meaning.class_of op }
{
    match op {
        Op::Implies | Op::Or | Op::And => Class::Lazy,
        Op::Divide | Op::IntDiv | Op::IntMod => Class::Division,
        Op::Iff | Op::Eq | Op::Ne | Op::Lt | Op::Le | Op::Gt | Op::Ge => Class::Plain,
        Op::Add | Op::Sub | Op::Mul => Class::Plain,
    }
}

/// The operator of Boogie.
pub(crate) fn op_of(op: Op) -> BOp
    ensures { result ≡ code.op_of op }
{
    match op {
        Op::Iff => BOp::Iff,
        Op::Implies => BOp::Implies,
        Op::Or => BOp::Or,
        Op::And => BOp::And,
        Op::Eq => BOp::Eq,
        Op::Ne => BOp::Ne,
        Op::Lt => BOp::Lt,
        Op::Le => BOp::Le,
        Op::Gt => BOp::Gt,
        Op::Ge => BOp::Ge,
        Op::Add => BOp::Add,
        Op::Sub => BOp::Sub,
        Op::Mul => BOp::Mul,
        Op::Divide => BOp::Divide,
        Op::IntDiv => BOp::IntDiv,
        Op::IntMod => BOp::IntMod,
    }
}

// ---- plain operators

fn plain_base(op: Op, base: BBase) -> BBase
    ensures { result ≡ code.plain_base op base }
{
    match op {
        Op::Add | Op::Sub | Op::Mul => base,
        _ => BBase::Bool,
    }
}

fn plain(alloc: Global, op: Op, left: Operand, right: Operand) -> Result<Operand, Memory>
    ensures { IfOk result (λ x. seen x ≡ code.plain_operand op (seen left) (seen right)) }
{
    let base = plain_base(op, left.base);
    Operand::of(alloc, BExpr::Bin(op_of(op), left.expr, right.expr), base)
}

/// An operand as a real.
fn as_real(alloc: Global, x: Operand) -> Result<Operand, Memory>
    ensures { IfOk result (λ y. seen y ≡ code.as_real (seen x)) }
{
    if x.base == BBase::Int {
        let expr = real(alloc, Box::into_inner(x.expr))?;
        Operand::of(alloc, expr, BBase::Real)
    } else {
        Ok(x)
    }
}

/// Of an Int and a Perm the Int counts as a real.
fn product(alloc: Global, left: Operand, right: Operand) -> Result<Operand, Memory>
    ensures { IfOk result (λ x. seen x ≡ code.product_operand (seen left) (seen right)) }
{
    if left.base == right.base {
        plain(alloc, Op::Mul, left, right)
    } else {
        let left = as_real(alloc, left)?;
        let right = as_real(alloc, right)?;
        plain(alloc, Op::Mul, left, right)
    }
}

/// The value of a plain operator.
pub(crate) fn value_of(
    alloc: Global,
    op: Op,
    left: Operand,
    right: Operand,
) -> Result<Operand, Memory>
    ensures { IfOk result (λ x. seen x ≡ code.operand_of op (seen left) (seen right)) }
{
    match op {
        Op::Mul => product(alloc, left, right),
        _ => plain(alloc, op, left, right),
    }
}

// ---- divisions

/// The quotient or remainder by an expression.
pub(crate) fn quotient(
    alloc: Global,
    op: Op,
    left: Operand,
    divisor: BExpr,
) -> Result<Operand, Memory>
    ensures { IfOk result (λ x. seen x ≡ code.quotient_operand op (seen left) (expr_of divisor)) }
{
    match op {
        Op::Divide => {
            let left = as_real(alloc, left)?;
            let right = boxed(alloc, real(alloc, divisor)?)?;
            Operand::of(
                alloc,
                BExpr::Bin(BOp::Divide, left.expr, right),
                BBase::Real,
            )
        }
        _ => {
            let right = boxed(alloc, divisor)?;
            Operand::of(alloc, BExpr::Bin(op_of(op), left.expr, right), BBase::Int)
        }
    }
}

/// The divisor is not 0.
fn check_divisor(
    alloc: Global,
    label: Label,
    divisor: Atom,
    block: &mut Vec<BStmt>,
) -> Result<(), Memory>
    ensures { OnOk result (stmts_of block.new.items ≡ join (stmts_of block.old.items)
        (piece.check_divisor label (atom_of divisor))) }
{
    if divisor.is_divisor() {
        return Ok(());
    }
    let divides = binary(alloc, BOp::Ne, divisor.expr(), BExpr::Int(0))?;
    add_assert(block, label, divides)
}

/// The divisor as one that may be written twice, once it is known not to be 0.
fn tested_divisor(
    alloc: Global,
    at: Pos,
    right: Operand,
    reading: Reading,
    out: &mut Emit,
) -> Result<Atom, Memory>
    ensures { IfOk result (λ d. Emits (code.divisor (place_in reading.entry) reading.entry.guard at (seen right)
        (length (emit_of out.old).locals)) (emit_of out.old) (emit_of out.new) (atom_of d)) }
{
    let divisor = atomic(alloc, right, out)?;
    let atom = divisor.atom;
    let mut block = divisor.sets;
    check_divisor(alloc, reading.label(at, Kind::Div), atom, &mut block)?;
    out.put(alloc, reading.guard, block)?;
    Ok(atom)
}

/// The value of a division. The divisor is written twice: it is not 0, and it divides.
pub(crate) fn division(
    alloc: Global,
    op: Op,
    at: Pos,
    left: Operand,
    right: Operand,
    reading: Reading,
    out: &mut Emit,
) -> Result<Operand, Memory>
    ensures { IfOk result (λ x. Emits (code.division (place_in reading.entry) reading.entry.guard op at (seen left) (seen right)
        (length (emit_of out.old).locals)) (emit_of out.old) (emit_of out.new) (seen x)) }
{
    let divisor = tested_divisor(alloc, at, right, reading, out)?;
    quotient(alloc, op, left, divisor.expr())
}

// ---- lazy operators

/// Where the right side counts: of `||` where the left side is false.
pub(crate) fn right_counts(alloc: Global, op: Op, left: BExpr) -> Result<BExpr, Memory>
    ensures { IfOk result (λ x. expr_of x ≡ code.right_counts op (expr_of left)) }
{
    match op {
        Op::Or => negation(alloc, left),
        _ => Ok(left),
    }
}

/// The value by the guard of the right side. Of `a || b` the guard is the negation of a.
pub(crate) fn lazy_value(
    alloc: Global,
    op: Op,
    guard: usize,
    right: Operand,
) -> Result<Operand, Memory>
    ensures { IfOk result (λ x. seen x ≡ code.lazy_operand op guard (seen right)) }
{
    let guard = boxed(alloc, BExpr::Var(guard))?;
    let op = match op {
        Op::And => BOp::And,
        _ => BOp::Implies,
    };
    Operand::of(alloc, BExpr::Bin(op, guard, right.expr), BBase::Bool)
}

// ---- negations and choices

pub(crate) fn negative(alloc: Global, x: Operand) -> Result<Operand, Memory>
    ensures { IfOk result (λ y. seen y ≡ record { expr = t.Neg (expr_of x.expr.value); base = x.base }) }
{
    Operand::of(alloc, BExpr::Neg(x.expr), x.base)
}

pub(crate) fn denied(alloc: Global, x: Operand) -> Result<Operand, Memory>
    ensures { IfOk result (λ y. seen y ≡ record { expr = t.Not (expr_of x.expr.value); base = base.Bool }) }
{
    Operand::of(alloc, BExpr::Not(x.expr), BBase::Bool)
}

/// The guard of the other side of a choice. It names the guard of the whole too, which it could not do without.
fn other_side(
    alloc: Global,
    guard: Option<usize>,
    one: usize,
    out: &mut Emit,
) -> Result<usize, Memory>
    ensures { IfOk result (λ h. Emits (guards guard (t.Not (t.Var one)) (length (emit_of out.old).locals))
        (emit_of out.old) (emit_of out.new) h) }
{
    let condition = negation(alloc, BExpr::Var(one))?;
    out.guard(alloc, guard, condition)
}

/// The guards of both sides of a choice.
pub fn sides(
    alloc: Global,
    guard: Option<usize>,
    condition: Operand,
    out: &mut Emit,
) -> Result<(usize, usize), Memory>
    ensures { IfOk result (λ r. Sides guard (seen condition).expr (emit_of out.old) (emit_of out.new) r.0 r.1) }
{
    let so = out.guard(alloc, guard, Box::into_inner(condition.expr))?;
    let otherwise = other_side(alloc, guard, so, out)?;
    Ok((so, otherwise))
}

pub(crate) fn chosen(
    alloc: Global,
    guard: usize,
    left: Operand,
    right: Operand,
) -> Result<Operand, Memory>
    ensures { IfOk result (λ x. seen x ≡ code.chosen_operand guard (seen left) (seen right)) }
{
    let guard = boxed(alloc, BExpr::Var(guard))?;
    Operand::of(alloc, BExpr::If(guard, left.expr, right.expr), left.base)
}
