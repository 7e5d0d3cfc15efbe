// The code of producing an assertion.
ghost use Rattle.std.specs.Prelude.{◌≡◌, length, IfOk, OnOk};
ghost use Rattle.viper_core.specs.View.{amt_of, assertion_of};
ghost use Rattle.boogie_tree.specs.Expr as t;
ghost use Rattle.boogie_tree.specs.Stmt as s;
ghost use Rattle.boogie_tree.specs.Whole.{expr_of, stmt_of, stmts_of};
ghost use Rattle.boogie_tree.specs.declared.exprs.BOp.TheVariants as op;
ghost use Rattle.enc_expr.specs.Code.{join, puts};
ghost use Rattle.enc_expr.specs.Emits.{emit_of, Emits};
ghost use Rattle.enc_expr.specs.Pieces as piece;
ghost use Rattle.enc_expr.specs.Place.{maps_of};
ghost use Rattle.enc_expr.specs.View.{atom_of, kinds_of, place_in};
ghost use Rattle.enc_assert.specs.Access.{puts_written, puts_chosen, target_of, access_of};
ghost use Rattle.enc_assert.specs.Encoding as code;

use crate::amounts::{some_amount, where_positive};
use crate::targets::{Access, AccessTarget, read_part, read_place};
use boogie_tree::{BBase, BExpr, BOp, BStmt};
use enc_expr::{
    Atom, Emit, Index, Maps, Operand, Reading, add, add_all, add_to, at, atomic, binary, check,
    check_nonnegative, sides,
};
use std::alloc::Global;
use vb_base::{Kind, Memory, Pos};
use viper_core::{Amt, Assertion};

// ---- statements

/// Nothing is held of null.
fn assume_some(alloc: Global, receiver: Atom, amount: Atom) -> Result<BStmt, Memory>
    ensures { IfOk result (λ x. stmt_of x ≡ s.Assume (code.where_positive (atom_of amount) (t.Bin op.Ne (atom_of receiver) t.Null))) }
{
    let is_some = binary(alloc, BOp::Ne, receiver.expr(), BExpr::Null)?;
    Ok(BStmt::Assume(where_positive(alloc, amount, is_some)?))
}

/// At most 1 is held of a place.
fn assume_limit(alloc: Global, mask: usize, receiver: Atom, amount: Atom) -> Result<BStmt, Memory>
    ensures { IfOk result (λ x. stmt_of x ≡
        s.Assume (code.where_positive (atom_of amount) (t.Bin op.Le (piece.at_one mask (atom_of receiver)) piece.one_real))) }
{
    let held = at(alloc, mask, Index::Reference(receiver))?;
    let limit = binary(alloc, BOp::Le, held, BExpr::Real(1))?;
    Ok(BStmt::Assume(where_positive(alloc, amount, limit)?))
}

/// So much more is held, by an amount that is scaled.
fn hold_more(
    alloc: Global,
    now: &Maps,
    scale: Atom,
    target: &AccessTarget,
    amount: Atom,
    block: &mut Vec<BStmt>,
) -> Result<(), Memory>
    ensures { OnOk result (stmts_of block.new.items ≡ join (stmts_of block.old.items)
        (code.more_held (maps_of now.now) (atom_of scale) (target_of target.now) (atom_of amount))) }
{
    let held = target.held_in(now);
    match target {
        AccessTarget::Field(_, receiver) => {
            let index = Index::Reference(*receiver);
            add(block, assume_some(alloc, *receiver, amount)?)?;
            add_to(alloc, held, index, scale, amount, block)?;
            add(block, assume_limit(alloc, held, *receiver, amount)?)
        }
        AccessTarget::Instance(_, locals) => {
            let index = Index::Instance(locals);
            add_to(alloc, held, index, scale, amount, block)
        }
    }
}

/// An amount that is written is produced.
fn give_written(
    alloc: Global,
    scale: Atom,
    place: Pos,
    target: &AccessTarget,
    amount: Atom,
    reading: Reading,
    block: &mut Vec<BStmt>,
) -> Result<(), Memory>
    ensures { OnOk result (stmts_of block.new.items ≡ join (stmts_of block.old.items)
        (code.gives_code (place_in reading.entry) (atom_of scale) place (target_of target.now) (atom_of amount))) }
{
    let label = reading.label(place, Kind::Negative);
    check_nonnegative(alloc, label, amount, block)?;
    hold_more(alloc, reading.now, scale, target, amount, block)
}

/// An amount that is chosen is produced.
fn give_chosen(
    alloc: Global,
    scale: Atom,
    target: &AccessTarget,
    amount: usize,
    reading: Reading,
    block: &mut Vec<BStmt>,
) -> Result<(), Memory>
    ensures { OnOk result (stmts_of block.new.items ≡ join (stmts_of block.old.items)
        (code.gives_some (place_in reading.entry) (atom_of scale) (target_of target.now) amount)) }
{
    some_amount(alloc, amount, block)?;
    hold_more(alloc, reading.now, scale, target, Atom::Var(amount), block)
}

// ---- rows

/// The expression is true.
fn produce_fact(
    alloc: Global,
    fact: Operand,
    reading: Reading,
    out: &mut Emit,
) -> Result<(), Memory>
    ensures { OnOk result (Emits (puts reading.entry.guard (piece.one (s.Assume (expr_of fact.expr.value)))
        (length (emit_of out.old).locals)) (emit_of out.old) (emit_of out.new) tt) }
{
    let block = vec![in alloc; BStmt::Assume(Box::into_inner(fact.expr))]?;
    out.put(alloc, reading.guard, block)
}

/// Permission by an amount that is written.
fn produce_written(
    alloc: Global,
    access: Access,
    place: Pos,
    scale: Atom,
    reading: Reading,
    out: &mut Emit,
) -> Result<(), Memory>
    ensures { OnOk result (Emits (puts_written reading.entry.guard (access_of access)
        (code.gives_code (place_in reading.entry) (atom_of scale) place (target_of access.target))
        (length (emit_of out.old).locals)) (emit_of out.old) (emit_of out.new) tt) }
{
    let amount = atomic(alloc, access.amount, out)?;
    let atom = amount.atom;
    let mut block = access.sets;
    add_all(&mut block, amount.sets)?;
    give_written(
        alloc,
        scale,
        place,
        &access.target,
        atom,
        reading,
        &mut block,
    )?;
    out.put(alloc, reading.guard, block)
}

/// Permission by an amount that is chosen.
fn produce_chosen(
    alloc: Global,
    access: Access,
    scale: Atom,
    reading: Reading,
    out: &mut Emit,
) -> Result<(), Memory>
    ensures { OnOk result (Emits (puts_chosen reading.entry.guard (access_of access)
        (code.gives_some (place_in reading.entry) (atom_of scale) (target_of access.target))
        (length (emit_of out.old).locals)) (emit_of out.old) (emit_of out.new) tt) }
{
    let amount = out.fresh_scalar(alloc, BBase::Real)?;
    let mut block = access.sets;
    give_chosen(alloc, scale, &access.target, amount, reading, &mut block)?;
    out.put(alloc, reading.guard, block)
}

/// An accessibility predicate.
fn produce_access(
    alloc: Global,
    access: Access,
    amount: &Amt,
    place: Pos,
    scale: Atom,
    reading: Reading,
    out: &mut Emit,
) -> Result<(), Memory>
    ensures { OnOk result (Emits (code.produce_amount (place_in reading.entry) reading.entry.guard (atom_of scale) place
        (amt_of amount.now) (access_of access).amount (access_of access).aimed (length (emit_of out.old).locals))
        (emit_of out.old) (emit_of out.new) tt) }
{
    match amount {
        Amt::Is(_) => produce_written(alloc, access, place, scale, reading, out),
        Amt::Wildcard => produce_chosen(alloc, access, scale, reading, out),
    }
}

// ---- assertions

/// Writes the code that produces an assertion, its amounts times a scale, which is positive.
pub fn produce(
    alloc: Global,
    assertion: &Assertion,
    scale: Atom,
    reading: Reading,
    out: &mut Emit,
) -> Result<(), Memory>
    ensures { OnOk result (Emits (code.produce_code (kinds_of reading.entry.kinds) (place_in reading.entry) reading.entry.guard
        (atom_of scale) (assertion_of assertion.now) (length (emit_of out.old).locals)) (emit_of out.old) (emit_of out.new) tt) }
{
    match assertion {
        Assertion::Fact(e, _) => {
            let fact = check(alloc, e, reading, out)?;
            produce_fact(alloc, fact, reading, out)
        }
        Assertion::Acc(e, field, amount, at) => {
            let access = read_place(alloc, *field, e, amount, reading, out)?;
            produce_access(alloc, access, amount, *at, scale, reading, out)
        }
        Assertion::Inst(predicate, args, amount, at) => {
            let access = read_part(alloc, *predicate, args, amount, reading, out)?;
            produce_access(alloc, access, amount, *at, scale, reading, out)
        }
        Assertion::And(a, b) => {
            produce(alloc, a, scale, reading, out)?;
            produce(alloc, b, scale, reading, out)
        }
        Assertion::Implies(e, a) => {
            let condition = check(alloc, e, reading, out)?;
            let so = out.guard(alloc, reading.guard, Box::into_inner(condition.expr))?;
            produce(alloc, a, scale, reading.under(so), out)
        }
        Assertion::Choose(e, a, b) => {
            let condition = check(alloc, e, reading, out)?;
            let (so, otherwise) = sides(alloc, reading.guard, condition, out)?;
            produce(alloc, a, scale, reading.under(so), out)?;
            produce(alloc, b, scale, reading.under(otherwise), out)
        }
    }
}
