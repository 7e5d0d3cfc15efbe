// The code of an expression, and of producing the body of a predicate from a content.
ghost use Rattle.std.specs.Prelude.{◌≡◌, length, IfOk, OnOk};
ghost use Rattle.viper_core.specs.View.{expr_of, exprs_of, opened_of, amt_of, assertion_of};
ghost use Rattle.boogie_tree.specs.Whole.{stmts_of};
ghost use Rattle.enc_expr.specs.Code.{join, gives};
ghost use Rattle.enc_expr.specs.Emits.{emit_of, Emits};
ghost use Rattle.enc_expr.specs.Encoding as code;
ghost use Rattle.enc_expr.specs.Operators.{binary_code, lazily};
ghost use Rattle.enc_expr.specs.Place.{maps_of};
ghost use Rattle.enc_expr.specs.View.{seen, all_seen, atom_of, held_of, located_of, kinds_of, place_in};

use crate::blocks::{add, add_all};
use crate::emits::Emit;
use crate::fillings::{
    PlacedNumber, Source, fill_access, fill_fact, fill_nothing, fill_part, split,
};
use crate::openings::{InstanceAmount, fresh_state, take_copy};
use crate::operands::{
    Atom, HeldAtom, Located, Operand, atomic, in_locals, int_operand, part_operand,
};
use crate::operators::{
    Class, chosen, class_of, denied, division, lazy_value, negative, right_counts, sides, value_of,
};
use crate::places::Maps;
use crate::readings::{Reading, base_for, number};
use crate::terms::{Index, at, binary};
use boogie_tree::{BBase, BExpr, BOp, BStmt};
use enc_asserts::add_assert;
use std::alloc::Global;
use vb_base::{Kind, Memory, Pos};
use viper_core::{Amt, Assertion, Expr, Op, Opened};

/// The expression is checked, and the operand has its value.
#[cycle(codes)]
pub fn check(alloc: Global, e: &Expr, reading: Reading, out: &mut Emit) -> Result<Operand, Memory>
    ensures { IfOk result (λ x. Emits (code.code (kinds_of reading.entry.kinds) (place_in reading.entry) reading.entry.guard
        (expr_of e.now) (length (emit_of out.old).locals)) (emit_of out.old) (emit_of out.new) (seen x)) }
{
    match e {
        Expr::Var(x) => {
            let local = BExpr::Var(number(reading.vars, *x));
            Operand::of(alloc, local, reading.kinds.variable(*x))
        }
        Expr::Int(n) => int_operand(alloc, n),
        Expr::Bool(b) => Operand::of(alloc, BExpr::Bool(*b), BBase::Bool),
        Expr::Null => Operand::of(alloc, BExpr::Null, BBase::Ref),
        Expr::Part(q) => part_operand(alloc, q),
        Expr::Neg(a) => negative(alloc, check(alloc, a, reading, out)?),
        Expr::Not(a) => denied(alloc, check(alloc, a, reading, out)?),
        Expr::Bin(op, a, b, at) => {
            let left = check(alloc, a, reading, out)?;
            check_binary(alloc, *op, *at, left, b, reading, out)
        }
        Expr::Choose(a, b, c) => {
            let condition = check(alloc, a, reading, out)?;
            let (so, otherwise) = sides(alloc, reading.guard, condition, out)?;
            let left = check(alloc, b, reading.under(so), out)?;
            let right = check(alloc, c, reading.under(otherwise), out)?;
            chosen(alloc, so, left, right)
        }
        Expr::Field(a, field, at) => {
            let receiver = check(alloc, a, reading, out)?;
            read_field(alloc, *field, *at, receiver, reading, out)
        }
        Expr::Old(a) => check(alloc, a, reading.with_now(reading.old), out),
        Expr::Unfolding(opened) => unfold(alloc, opened, reading, out),
    }
}

/// An operator whose left side is checked.
#[cycle(codes)]
fn check_binary(
    alloc: Global,
    op: Op,
    at: Pos,
    left: Operand,
    b: &Expr,
    reading: Reading,
    out: &mut Emit,
) -> Result<Operand, Memory>
    ensures { IfOk result (λ x. Emits (binary_code (place_in reading.entry) reading.entry.guard op at (gives (seen left))
        (λ h. code.code (kinds_of reading.entry.kinds) (place_in reading.entry) h (expr_of b.now)) (length (emit_of out.old).locals))
        (emit_of out.old) (emit_of out.new) (seen x)) }
{
    match class_of(op) {
        Class::Lazy => check_lazily(alloc, op, left, b, reading, out),
        Class::Division => {
            let right = check(alloc, b, reading, out)?;
            division(alloc, op, at, left, right, reading, out)
        }
        Class::Plain => {
            let right = check(alloc, b, reading, out)?;
            value_of(alloc, op, left, right)
        }
    }
}

/// The right side is read under a guard of its own.
#[cycle(codes)]
fn check_lazily(
    alloc: Global,
    op: Op,
    left: Operand,
    b: &Expr,
    reading: Reading,
    out: &mut Emit,
) -> Result<Operand, Memory>
    ensures { IfOk result (λ x. Emits (lazily reading.entry.guard op (seen left)
        (λ h. code.code (kinds_of reading.entry.kinds) (place_in reading.entry) h (expr_of b.now)) (length (emit_of out.old).locals))
        (emit_of out.old) (emit_of out.new) (seen x)) }
{
    let condition = right_counts(alloc, op, Box::into_inner(left.expr))?;
    let guard = out.guard(alloc, reading.guard, condition)?;
    let right = check(alloc, b, reading.under(guard), out)?;
    lazy_value(alloc, op, guard, right)
}

/// Null has no fields, and some permission is needed. Null is tested first.
fn read_checks(
    alloc: Global,
    field: u32,
    place: Pos,
    receiver: Atom,
    reading: Reading,
    block: &mut Vec<BStmt>,
) -> Result<(), Memory>
    ensures { OnOk result (stmts_of block.new.items ≡ join (stmts_of block.old.items)
        (code.read_checks (place_in reading.entry) field place (atom_of receiver))) }
{
    let is_some = binary(alloc, BOp::Ne, receiver.expr(), BExpr::Null)?;
    add_assert(block, reading.label(place, Kind::Null), is_some)?;
    let mask = number(&reading.now.mask, field);
    let held = at(alloc, mask, Index::Reference(receiver))?;
    let readable = binary(alloc, BOp::Ne, held, BExpr::Real(0))?;
    add_assert(block, reading.label(place, Kind::Perm), readable)
}

/// The value of a field.
pub(crate) fn read_field(
    alloc: Global,
    field: u32,
    place: Pos,
    receiver: Operand,
    reading: Reading,
    out: &mut Emit,
) -> Result<Operand, Memory>
    ensures { IfOk result (λ x. Emits (code.read_code (kinds_of reading.entry.kinds) (place_in reading.entry) reading.entry.guard field place
        (seen receiver) (length (emit_of out.old).locals)) (emit_of out.old) (emit_of out.new) (seen x)) }
{
    let receiver = atomic(alloc, receiver, out)?;
    let atom = receiver.atom;
    let mut block = receiver.sets;
    read_checks(alloc, field, place, atom, reading, &mut block)?;
    out.put(alloc, reading.guard, block)?;
    let heap = number(&reading.now.heap, field);
    let value = at(alloc, heap, Index::Reference(atom))?;
    Operand::of(alloc, value, base_for(reading.kinds.field(field)))
}

/// The expressions are checked, from left to right.
#[cycle(codes)]
pub fn check_all(
    alloc: Global,
    es: &[Expr],
    reading: Reading,
    out: &mut Emit,
) -> Result<Vec<Operand>, Memory>
    ensures { IfOk result (λ xs. Emits (code.codes (kinds_of reading.entry.kinds) (place_in reading.entry) reading.entry.guard
        (exprs_of es.now) (length (emit_of out.old).locals)) (emit_of out.old) (emit_of out.new) (all_seen xs.items)) }
{
    let mut operands = Vec::with_capacity(alloc, es.len())?;
    for e in es {
        add(&mut operands, check(alloc, e, reading, out)?)?;
    }
    Ok(operands)
}

/// The code of the amount of an accessibility predicate, with its value as an operand, which is none for `wildcard`.
#[cycle(codes)]
pub fn check_amount(
    alloc: Global,
    amount: &Amt,
    reading: Reading,
    out: &mut Emit,
) -> Result<Operand, Memory>
    ensures { IfOk result (λ x. Emits (code.amount_code (kinds_of reading.entry.kinds) (place_in reading.entry) reading.entry.guard
        (amt_of amount.now) (length (emit_of out.old).locals)) (emit_of out.old) (emit_of out.new) (seen x)) }
{
    match amount {
        Amt::Is(e) => check(alloc, e, reading, out),
        Amt::Wildcard => Operand::of(alloc, BExpr::Real(0), BBase::Real),
    }
}

/// The inner expression is read in maps of its own, in which the instance is opened.
#[cycle(codes)]
fn unfold(
    alloc: Global,
    opened: &Opened,
    reading: Reading,
    out: &mut Emit,
) -> Result<Operand, Memory>
    ensures { IfOk result (λ x. Emits (code.unfolding_code (kinds_of reading.entry.kinds) (place_in reading.entry) reading.entry.guard
        (opened_of opened.now) (length (emit_of out.old).locals)) (emit_of out.old) (emit_of out.new) (seen x)) }
{
    let args = check_all(alloc, &opened.args, reading, out)?;
    let amount = check(alloc, &opened.amount, reading, out)?;
    let args = in_locals(alloc, args, out)?;
    let amount = atomic(alloc, amount, out)?;
    unfold_at(alloc, opened, args, amount, reading, out)
}

/// The same once the arguments are in locals.
#[cycle(codes)]
fn unfold_at(
    alloc: Global,
    opened: &Opened,
    args: Located,
    amount: HeldAtom,
    reading: Reading,
    out: &mut Emit,
) -> Result<Operand, Memory>
    ensures { IfOk result (λ x. Emits (code.unfolding_at (kinds_of reading.entry.kinds) (place_in reading.entry) reading.entry.guard
        (opened_of opened.now) (located_of args) (held_of amount) (length (emit_of out.old).locals)) (emit_of out.old) (emit_of out.new) (seen x)) }
{
    let own = fresh_state(alloc, reading.kinds.layout, out)?;
    let content = out.fresh_scalar(alloc, BBase::Snap)?;
    let locals = args.locals;
    let part = InstanceAmount {
        predicate: opened.predicate,
        args: &locals,
        amount: amount.atom,
        at: opened.place,
    };
    let mut block = args.sets;
    add_all(&mut block, amount.sets)?;
    take_copy(alloc, part, &own, content, reading, block, out)?;
    let source = Source {
        content,
        scale: part.amount,
    };
    read_inside(alloc, opened, &locals, &own, source, reading, out)
}

/// The body is produced in these maps, and the inner expression is read there.
#[cycle(codes)]
fn read_inside(
    alloc: Global,
    opened: &Opened,
    args: &[usize],
    own: &Maps,
    source: Source,
    reading: Reading,
    out: &mut Emit,
) -> Result<Operand, Memory>
    ensures { IfOk result (λ x. Emits (code.inside_code (kinds_of reading.entry.kinds) (place_in reading.entry) reading.entry.guard
        (opened_of opened.now) args.now (maps_of own.entry.now) (atom_of source.scale) source.content (length (emit_of out.old).locals))
        (emit_of out.old) (emit_of out.new) (seen x)) }
{
    let inside = reading.with_now(own);
    let body = inside.in_body(opened.predicate, args);
    fill(alloc, &opened.body, source, body, out)?;
    check(alloc, &opened.inner, inside, out)
}

/// An assertion, the body of a predicate, is produced from a content.
#[cycle(codes)]
pub fn fill(
    alloc: Global,
    body: &Assertion,
    source: Source,
    reading: Reading,
    out: &mut Emit,
) -> Result<(), Memory>
    ensures { OnOk result (Emits (code.body_code (kinds_of reading.entry.kinds) (place_in reading.entry) reading.entry.guard
        (atom_of source.scale) (assertion_of body.now) source.content (length (emit_of out.old).locals)) (emit_of out.old) (emit_of out.new) tt) }
{
    match body {
        Assertion::Fact(e, _) => {
            let fact = check(alloc, e, reading, out)?;
            fill_fact(alloc, fact, source, reading, out)
        }
        Assertion::Acc(e, field, amount, at) => {
            let receiver = check(alloc, e, reading, out)?;
            let amount = check_amount(alloc, amount, reading, out)?;
            let field = PlacedNumber::of(*field, *at);
            fill_access(alloc, field, receiver, amount, source, reading, out)
        }
        Assertion::Inst(predicate, args, amount, at) => {
            let args = check_all(alloc, args, reading, out)?;
            let amount = check_amount(alloc, amount, reading, out)?;
            let predicate = PlacedNumber::of(*predicate, *at);
            fill_part(alloc, predicate, args, amount, source, reading, out)
        }
        Assertion::And(a, b) => {
            let (left, right) = split(alloc, source, reading, out)?;
            fill(alloc, a, left, reading, out)?;
            fill(alloc, b, right, reading, out)
        }
        Assertion::Implies(e, a) => {
            let condition = check(alloc, e, reading, out)?;
            let (so, otherwise) = sides(alloc, reading.guard, condition, out)?;
            fill(alloc, a, source, reading.under(so), out)?;
            fill_nothing(alloc, source, reading.under(otherwise), out)
        }
        Assertion::Choose(e, a, b) => {
            let condition = check(alloc, e, reading, out)?;
            let (so, otherwise) = sides(alloc, reading.guard, condition, out)?;
            fill(alloc, a, source, reading.under(so), out)?;
            fill(alloc, b, source, reading.under(otherwise), out)
        }
    }
}
