// The code of assignments, to a variable and to a field.
ghost use Rattle.std.specs.Prelude.{◌≡◌, length, None, OnOk};
ghost use Rattle.viper_core.specs.View.{expr_of as viper};
ghost use Rattle.boogie_tree.specs.Expr as t;
ghost use Rattle.boogie_tree.specs.Stmt as s;
ghost use Rattle.boogie_tree.specs.Whole.{expr_of, stmts_of};
ghost use Rattle.enc_expr.specs.Code.{join, puts};
ghost use Rattle.enc_expr.specs.Emits.{emit_of, Emits};
ghost use Rattle.enc_expr.specs.Pieces.{one};
ghost use Rattle.enc_expr.specs.Place.{number};
ghost use Rattle.enc_expr.specs.View.{atom_of, held_of, kinds_of, place_in, seen};
ghost use Rattle.enc_block.specs.Encoding as code;
ghost use Rattle.enc_block.specs.Home.{place};
ghost use Rattle.enc_block.specs.View.{home_of};

use crate::homes::Setting;
use boogie_tree::{BExpr, BOp, BStmt};
use enc_asserts::add_assert;
use enc_expr::{
    Atom, Emit, HeldAtom, Index, Operand, Reading, add, at, atomic, binary, check, number,
};
use std::alloc::Global;
use vb_base::{Kind, Memory, Pos};
use viper_core::Expr;

/// Writes the code by which a variable gets the value of an expression.
pub fn assign(
    alloc: Global,
    step: Pos,
    variable: u32,
    value: &Expr,
    setting: Setting,
    out: &mut Emit,
) -> Result<(), Memory>
    ensures { OnOk result (Emits (code.assign_code (kinds_of setting.entry.kinds) (home_of setting.entry.home.now) step variable
        (viper value.now) (length (emit_of out.old).locals)) (emit_of out.old) (emit_of out.new) tt) }
{
    let home = setting.home;
    let value = check(alloc, value, setting.reading(step), out)?;
    let local = number(&home.vars, variable);
    let block = vec![in alloc; BStmt::Assign(local, Box::into_inner(value.expr))]?;
    out.put(alloc, None, block)
}

/// Null has no fields, and the whole permission is needed. Null is tested first.
fn write_checks(
    alloc: Global,
    field: u32,
    part: Pos,
    receiver: Atom,
    reading: Reading,
    block: &mut Vec<BStmt>,
) -> Result<(), Memory>
    ensures { OnOk result (stmts_of block.new.items ≡ join (stmts_of block.old.items)
        (code.write_checks (place_in reading.entry) field part (atom_of receiver))) }
{
    let is_some = binary(alloc, BOp::Ne, receiver.expr(), BExpr::Null)?;
    add_assert(block, reading.label(part, Kind::Null), is_some)?;
    let mask = number(&reading.now.mask, field);
    let held = at(alloc, mask, Index::Reference(receiver))?;
    let whole = binary(alloc, BOp::Eq, held, BExpr::Real(1))?;
    add_assert(block, reading.label(part, Kind::Perm), whole)
}

/// The heap of a field gets a value.
fn put_value(
    alloc: Global,
    heap: usize,
    receiver: Atom,
    value: Operand,
    block: &mut Vec<BStmt>,
) -> Result<(), Memory>
    ensures { OnOk result (stmts_of block.new.items ≡ join (stmts_of block.old.items)
        (one (s.Put heap (t.more (atom_of receiver) t.none) (seen value).expr))) }
{
    let index = Index::Reference(receiver).exprs(alloc)?;
    add(block, BStmt::Put(heap, index, Box::into_inner(value.expr)))
}

/// The tests, and then the value, once the receiver is an atom.
fn write_at(
    alloc: Global,
    field: u32,
    part: Pos,
    receiver: HeldAtom,
    value: Operand,
    reading: Reading,
    out: &mut Emit,
) -> Result<(), Memory>
    ensures { OnOk result (Emits (puts None (join (held_of receiver).sets (join (code.write_checks (place_in reading.entry) field part (held_of receiver).expr)
        (one (s.Put (number (place_in reading.entry).now.heap field) (t.more (held_of receiver).expr t.none) (seen value).expr))))
        (length (emit_of out.old).locals)) (emit_of out.old) (emit_of out.new) tt) }
{
    let atom = receiver.atom;
    let mut block = receiver.sets;
    write_checks(alloc, field, part, atom, reading, &mut block)?;
    let heap = number(&reading.now.heap, field);
    put_value(alloc, heap, atom, value, &mut block)?;
    out.put(alloc, None, block)
}

/// A field of what an expression is, `e.f`, and where its name stands.
#[derive(Clone, Copy)]
pub struct WrittenField<'a> {
    pub receiver: &'a Expr,
    pub field: u32,
    pub at: Pos,
}

/// Writes the code by which a field gets a value.
pub fn write(
    alloc: Global,
    step: Pos,
    target: WrittenField,
    value: &Expr,
    setting: Setting,
    out: &mut Emit,
) -> Result<(), Memory>
    ensures { OnOk result (Emits (code.write_code (kinds_of setting.entry.kinds) (place (home_of setting.entry.home.now) step) (viper target.entry.receiver.now)
        target.entry.field target.entry.at (viper value.now) (length (emit_of out.old).locals)) (emit_of out.old) (emit_of out.new) tt) }
{
    let reading = setting.reading(step);
    let receiver = check(alloc, target.receiver, reading, out)?;
    let value = check(alloc, value, reading, out)?;
    let receiver = atomic(alloc, receiver, out)?;
    let field = target.field;
    write_at(alloc, field, target.at, receiver, value, reading, out)
}
