// The code of consuming an assertion.
ghost use Rattle.std.specs.Prelude.{◌≡◌, length, IfOk, OnOk};
ghost use Rattle.viper_core.specs.View.{amt_of, assertion_of};
ghost use Rattle.boogie_tree.specs.Expr as t;
ghost use Rattle.boogie_tree.specs.Stmt as s;
ghost use Rattle.boogie_tree.specs.Whole.{expr_of, stmt_of, stmts_of};
ghost use Rattle.boogie_tree.specs.declared.exprs.BOp.TheVariants as op;
ghost use Rattle.enc_expr.specs.Code.{join, puts};
ghost use Rattle.enc_expr.specs.Emits.{emit_of, Emits};
ghost use Rattle.enc_expr.specs.Encoding.{held_check, taken_amount};
ghost use Rattle.enc_expr.specs.Pieces as piece;
ghost use Rattle.enc_expr.specs.Place.{maps_of};
ghost use Rattle.enc_expr.specs.View.{atom_of, index_in, kinds_of, place_in};
ghost use Rattle.enc_assert.specs.Access.{puts_written, puts_chosen, target_of, access_of};
ghost use Rattle.enc_assert.specs.Encoding as code;

use crate::amounts::some_amount;
use crate::targets::{Access, AccessTarget, read_part, read_place};
use boogie_tree::{BBase, BExpr, BOp, BStmt};
use enc_asserts::add_assert;
use enc_expr::{
    Atom, Emit, Index, Maps, Operand, Reading, add, add_all, at, atomic, binary, check,
    check_nonnegative, scaled, sides,
};
use std::alloc::Global;
use vb_base::{Kind, Label, Memory, Pos};
use viper_core::{Amt, Assertion};

/// How permission is taken.
#[derive(Clone, Copy)]
pub struct Taking<'a> {
    /// The maps from which it is taken, and which hold what is left.
    pub left: &'a Maps,
    /// By what the amounts are scaled, which is positive.
    pub scale: Atom,
}

// ---- statements

/// A map at an index compares so with an expression, or the run fails.
fn assert_amount(
    alloc: Global,
    label: Label,
    held: usize,
    index: Index,
    op: BOp,
    amount: BExpr,
    block: &mut Vec<BStmt>,
) -> Result<(), Memory>
    ensures { OnOk result (stmts_of block.new.items ≡ join (stmts_of block.old.items)
        (piece.one (s.Assert label (t.Bin op (t.At held (index_in index.entry)) (expr_of amount))))) }
{
    let held = at(alloc, held, index)?;
    let holds = binary(alloc, op, held, amount)?;
    add_assert(block, label, holds)
}

/// So much less is held.
fn take(alloc: Global, held: usize, index: Index, amount: BExpr) -> Result<BStmt, Memory>
    ensures { IfOk result (λ x. stmt_of x ≡
        s.Put held (index_in index.entry) (t.Bin op.Sub (t.At held (index_in index.entry)) (expr_of amount))) }
{
    let key = index.exprs(alloc)?;
    let before = at(alloc, held, index)?;
    let left = binary(alloc, BOp::Sub, before, amount)?;
    Ok(BStmt::Put(held, key, left))
}

/// A local is less than a map at an index.
fn assume_less(alloc: Global, amount: usize, held: usize, index: Index) -> Result<BStmt, Memory>
    ensures { IfOk result (λ x. stmt_of x ≡ s.Assume (t.Bin op.Lt (t.Var amount) (t.At held (index_in index.entry)))) }
{
    let held = at(alloc, held, index)?;
    let less = binary(alloc, BOp::Lt, BExpr::Var(amount), held)?;
    Ok(BStmt::Assume(less))
}

/// An amount, times the scale, is taken where so much is held.
fn take_held(
    alloc: Global,
    label: Label,
    held: usize,
    index: Index,
    scale: Atom,
    amount: Atom,
    block: &mut Vec<BStmt>,
) -> Result<(), Memory>
    ensures { OnOk result (stmts_of block.new.items ≡ join (stmts_of block.old.items)
        (join (held_check label held (index_in index.entry) (piece.scaled (atom_of scale) (atom_of amount)))
        (taken_amount held (index_in index.entry) (piece.scaled (atom_of scale) (atom_of amount))))) }
{
    let needed = scaled(alloc, scale, amount)?;
    assert_amount(alloc, label, held, index, BOp::Ge, needed, block)?;
    let taken = scaled(alloc, scale, amount)?;
    add(block, take(alloc, held, index, taken)?)
}

/// An amount that is written is consumed.
fn take_written(
    alloc: Global,
    taking: Taking,
    place: Pos,
    target: &AccessTarget,
    amount: Atom,
    reading: Reading,
    block: &mut Vec<BStmt>,
) -> Result<(), Memory>
    ensures { OnOk result (stmts_of block.new.items ≡ join (stmts_of block.old.items)
        (code.takes_code (place_in reading.entry) (maps_of taking.entry.left.now) (atom_of taking.entry.scale) place
        (target_of target.now) (atom_of amount))) }
{
    let label = reading.label(place, Kind::Negative);
    check_nonnegative(alloc, label, amount, block)?;
    let label = reading.label(place, Kind::Perm);
    let held = target.held_in(taking.left);
    let index = target.index();
    take_held(alloc, label, held, index, taking.scale, amount, block)
}

/// An amount that is chosen is consumed: something of what is held, but not all.
fn take_chosen(
    alloc: Global,
    left: &Maps,
    place: Pos,
    target: &AccessTarget,
    amount: usize,
    reading: Reading,
    block: &mut Vec<BStmt>,
) -> Result<(), Memory>
    ensures { OnOk result (stmts_of block.new.items ≡ join (stmts_of block.old.items)
        (code.takes_some (place_in reading.entry) (maps_of left.now) place (target_of target.now) amount)) }
{
    let label = reading.label(place, Kind::Perm);
    let held = target.held_in(left);
    let index = target.index();
    assert_amount(alloc, label, held, index, BOp::Ne, BExpr::Real(0), block)?;
    some_amount(alloc, amount, block)?;
    add(block, assume_less(alloc, amount, held, index)?)?;
    add(block, take(alloc, held, index, BExpr::Var(amount))?)
}

// ---- rows

/// The expression is true, or the run fails.
fn consume_fact(
    alloc: Global,
    fact: Operand,
    label: Label,
    reading: Reading,
    out: &mut Emit,
) -> Result<(), Memory>
    ensures { OnOk result (Emits (puts reading.entry.guard (piece.one (s.Assert label (expr_of fact.expr.value)))
        (length (emit_of out.old).locals)) (emit_of out.old) (emit_of out.new) tt) }
{
    let mut block = Vec::new(alloc);
    add_assert(&mut block, label, Box::into_inner(fact.expr))?;
    out.put(alloc, reading.guard, block)
}

/// Permission by an amount that is written.
fn consume_written(
    alloc: Global,
    access: Access,
    place: Pos,
    taking: Taking,
    reading: Reading,
    out: &mut Emit,
) -> Result<(), Memory>
    ensures { OnOk result (Emits (puts_written reading.entry.guard (access_of access)
        (code.takes_code (place_in reading.entry) (maps_of taking.entry.left.now) (atom_of taking.entry.scale) place
        (target_of access.target)) (length (emit_of out.old).locals)) (emit_of out.old) (emit_of out.new) tt) }
{
    let amount = atomic(alloc, access.amount, out)?;
    let atom = amount.atom;
    let mut block = access.sets;
    add_all(&mut block, amount.sets)?;
    take_written(
        alloc,
        taking,
        place,
        &access.target,
        atom,
        reading,
        &mut block,
    )?;
    out.put(alloc, reading.guard, block)
}

/// Permission by an amount that is chosen.
fn consume_chosen(
    alloc: Global,
    access: Access,
    place: Pos,
    left: &Maps,
    reading: Reading,
    out: &mut Emit,
) -> Result<(), Memory>
    ensures { OnOk result (Emits (puts_chosen reading.entry.guard (access_of access)
        (code.takes_some (place_in reading.entry) (maps_of left.now) place (target_of access.target))
        (length (emit_of out.old).locals)) (emit_of out.old) (emit_of out.new) tt) }
{
    let amount = out.fresh_scalar(alloc, BBase::Real)?;
    let mut block = access.sets;
    take_chosen(
        alloc,
        left,
        place,
        &access.target,
        amount,
        reading,
        &mut block,
    )?;
    out.put(alloc, reading.guard, block)
}

/// An accessibility predicate.
fn consume_access(
    alloc: Global,
    access: Access,
    amount: &Amt,
    place: Pos,
    taking: Taking,
    reading: Reading,
    out: &mut Emit,
) -> Result<(), Memory>
    ensures { OnOk result (Emits (code.consume_amount (place_in reading.entry) (maps_of taking.entry.left.now) reading.entry.guard
        (atom_of taking.entry.scale) place (amt_of amount.now) (access_of access).amount (access_of access).aimed
        (length (emit_of out.old).locals)) (emit_of out.old) (emit_of out.new) tt) }
{
    match amount {
        Amt::Is(_) => consume_written(alloc, access, place, taking, reading, out),
        Amt::Wildcard => consume_chosen(alloc, access, place, taking.left, reading, out),
    }
}

// ---- assertions

/// Writes the code that consumes an assertion: its expressions are read in the present state, and permission is taken from
/// other maps, by amounts that are scaled, but for those of `wildcard`.
pub fn consume(
    alloc: Global,
    assertion: &Assertion,
    taking: Taking,
    reading: Reading,
    out: &mut Emit,
) -> Result<(), Memory>
    ensures { OnOk result (Emits (code.consume_code (kinds_of reading.entry.kinds) (place_in reading.entry)
        (maps_of taking.entry.left.now) reading.entry.guard (atom_of taking.entry.scale) (assertion_of assertion.now)
        (length (emit_of out.old).locals)) (emit_of out.old) (emit_of out.new) tt) }
{
    match assertion {
        Assertion::Fact(e, at) => {
            let fact = check(alloc, e, reading, out)?;
            consume_fact(alloc, fact, reading.label(*at, Kind::Fact), reading, out)
        }
        Assertion::Acc(e, field, amount, at) => {
            let access = read_place(alloc, *field, e, amount, reading, out)?;
            consume_access(alloc, access, amount, *at, taking, reading, out)
        }
        Assertion::Inst(predicate, args, amount, at) => {
            let access = read_part(alloc, *predicate, args, amount, reading, out)?;
            consume_access(alloc, access, amount, *at, taking, reading, out)
        }
        Assertion::And(a, b) => {
            consume(alloc, a, taking, reading, out)?;
            consume(alloc, b, taking, reading, out)
        }
        Assertion::Implies(e, a) => {
            let condition = check(alloc, e, reading, out)?;
            let so = out.guard(alloc, reading.guard, Box::into_inner(condition.expr))?;
            consume(alloc, a, taking, reading.under(so), out)
        }
        Assertion::Choose(e, a, b) => {
            let condition = check(alloc, e, reading, out)?;
            let (so, otherwise) = sides(alloc, reading.guard, condition, out)?;
            consume(alloc, a, taking, reading.under(so), out)?;
            consume(alloc, b, taking, reading.under(otherwise), out)
        }
    }
}
