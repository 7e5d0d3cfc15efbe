// How a place, an instance or nothing is filled from a content.
ghost use Rattle.std.specs.Prelude.{◌≡◌, length, IfOk, OnOk};
ghost use Rattle.boogie_tree.specs.Expr as t;
ghost use Rattle.boogie_tree.specs.Stmt as s;
ghost use Rattle.boogie_tree.specs.Whole.{expr_of, stmt_of, stmts_of};
ghost use Rattle.boogie_tree.specs.declared.exprs.BOp.TheVariants as op;
ghost use Rattle.enc_expr.specs.Code.{join, puts};
ghost use Rattle.enc_expr.specs.Kinds as k;
ghost use Rattle.enc_expr.specs.Emits.{emit_of, Emits, Splits};
ghost use Rattle.enc_expr.specs.Encoding as code;
ghost use Rattle.enc_expr.specs.Pieces as piece;
ghost use Rattle.enc_expr.specs.View.{seen, all_seen, atom_of, index_in, kinds_of, place_in};

use crate::blocks::{add, add_all};
use crate::emits::Emit;
use crate::operands::{Atom, Operand, atomic, in_locals};
use crate::readings::{Reading, base_for, number};
use crate::terms::{Index, at, binary, leaf, scaled};
use boogie_tree::{BBase, BExpr, BOp, BStmt};
use enc_asserts::add_assert;
use std::alloc::Global;
use vb_base::{Kind, Label, Memory, Pos, boxed_pair};
use vb_value::Ty;

/// Where a body is produced from.
#[derive(Clone, Copy)]
pub struct Source {
    /// The local of the content.
    pub content: usize,
    /// By what the amounts of the body are scaled, which is positive.
    pub scale: Atom,
}

/// A field or a predicate, and the place of its name.
#[derive(Clone, Copy)]
pub(crate) struct PlacedNumber {
    number: u32,
    at: Pos,
}

impl PlacedNumber {
    pub(crate) fn of(number: u32, at: Pos) -> PlacedNumber
        ensures number { result.number ≡ number }
        ensures at { result.at ≡ at }
    {
        PlacedNumber { number, at }
    }
}

// ---- statements

/// The content is this expression.
fn assume_content(alloc: Global, content: usize, is: BExpr) -> Result<BStmt, Memory>
    ensures { IfOk result (λ x. stmt_of x ≡ s.Assume (t.Bin op.Eq (t.Var content) (expr_of is))) }
{
    Ok(BStmt::Assume(binary(alloc, BOp::Eq, BExpr::Var(content), is)?))
}

/// The content is Unit.
fn assume_unit(alloc: Global, content: usize) -> Result<BStmt, Memory>
    ensures { IfOk result (λ x. stmt_of x ≡ s.Assume (code.is_unit content)) }
{
    assume_content(alloc, content, BExpr::Unit)
}

/// A map at an index compares so with a real literal.
fn assume_amount(
    alloc: Global,
    map: usize,
    index: Index,
    op: BOp,
    literal: i128,
) -> Result<BStmt, Memory>
    ensures { IfOk result (λ x. stmt_of x ≡ s.Assume (t.Bin op (t.At map (index_in index.entry)) (t.Real literal))) }
{
    let held = at(alloc, map, index)?;
    Ok(BStmt::Assume(binary(alloc, op, held, BExpr::Real(literal))?))
}

/// Where some is held, by `held`, the map has this value already.
fn assume_same(
    alloc: Global,
    held: usize,
    map: usize,
    index: Index,
    value: usize,
) -> Result<BStmt, Memory>
    ensures { IfOk result (λ x. stmt_of x ≡
        code.same_where_held (t.At held (index_in index.entry)) (t.At map (index_in index.entry)) (t.Var value)) }
{
    let held = at(alloc, held, index)?;
    let holds = binary(alloc, BOp::Ne, held, BExpr::Real(0))?;
    let old = at(alloc, map, index)?;
    let same = binary(alloc, BOp::Eq, old, BExpr::Var(value))?;
    Ok(BStmt::Assume(binary(alloc, BOp::Implies, holds, same)?))
}

/// A map gets the value of a local at an index.
fn put_value(alloc: Global, map: usize, index: Index, value: usize) -> Result<BStmt, Memory>
    ensures { IfOk result (λ x. stmt_of x ≡ s.Put map (index_in index.entry) (t.Var value)) }
{
    Ok(BStmt::Put(map, index.exprs(alloc)?, BExpr::Var(value)))
}

/// A map gets more at an index by an amount that is scaled.
fn put_more(
    alloc: Global,
    map: usize,
    index: Index,
    scale: Atom,
    amount: Atom,
) -> Result<BStmt, Memory>
    ensures { IfOk result (λ x. stmt_of x ≡ s.Put map (index_in index.entry)
        (t.Bin op.Add (t.At map (index_in index.entry)) (piece.scaled (atom_of scale) (atom_of amount)))) }
{
    let key = index.exprs(alloc)?;
    let held = at(alloc, map, index)?;
    let more = scaled(alloc, scale, amount)?;
    let sum = binary(alloc, BOp::Add, held, more)?;
    Ok(BStmt::Put(map, key, sum))
}

/// A mask or amount gets so much more at an index, by an amount that is scaled. That it is not negative before is no news, and
/// helps a solver.
pub fn add_to(
    alloc: Global,
    map: usize,
    index: Index,
    scale: Atom,
    amount: Atom,
    block: &mut Vec<BStmt>,
) -> Result<(), Memory>
    ensures { OnOk result (stmts_of block.new.items ≡ join (stmts_of block.old.items)
        (piece.add_to map (index_in index.entry) (piece.scaled (atom_of scale) (atom_of amount)))) }
{
    add(block, assume_amount(alloc, map, index, BOp::Ge, 0)?)?;
    add(block, put_more(alloc, map, index, scale, amount)?)
}

// ---- by a positive amount

/// A place that is filled: its field, receiver and amount, and the new local that gets its value.
#[derive(Clone, Copy)]
struct FilledPlace {
    field: u32,
    receiver: Atom,
    amount: Atom,
    value: usize,
}

/// A value of the field is taken from the content. Null is tested first.
fn take_value(
    alloc: Global,
    ty: Ty,
    filled: FilledPlace,
    content: usize,
    block: &mut Vec<BStmt>,
) -> Result<(), Memory>
    ensures { OnOk result (stmts_of block.new.items ≡ join (stmts_of block.old.items)
        (code.take_value ty (atom_of filled.receiver) filled.value content)) }
{
    let is_some = binary(alloc, BOp::Ne, filled.receiver.expr(), BExpr::Null)?;
    add(block, BStmt::Assume(is_some))?;
    add(block, BStmt::Havoc(filled.value))?;
    let value = leaf(alloc, ty, BExpr::Var(filled.value))?;
    add(block, assume_content(alloc, content, value)?)
}

/// What is held stays as it is, and the map gets the value also there.
pub fn set_value(
    alloc: Global,
    held: usize,
    map: usize,
    index: Index,
    value: usize,
    block: &mut Vec<BStmt>,
) -> Result<(), Memory>
    ensures { OnOk result (stmts_of block.new.items ≡ join (stmts_of block.old.items)
        (code.set_value held map (index_in index.entry) value)) }
{
    add(block, assume_same(alloc, held, map, index, value)?)?;
    add(block, put_value(alloc, map, index, value)?)
}

/// A place by a positive amount.
fn fill_place(
    alloc: Global,
    filled: FilledPlace,
    source: Source,
    reading: Reading,
) -> Result<Vec<BStmt>, Memory>
    ensures { IfOk result (λ xs. stmts_of xs.items ≡ code.fill_place_code (place_in reading.entry) (atom_of source.scale)
        (k.type_at (kinds_of reading.entry.kinds).layout.fields filled.field) filled.field (atom_of filled.receiver)
        (atom_of filled.amount) filled.value source.content) }
{
    let mut fill = Vec::new(alloc);
    let ty = reading.kinds.field(filled.field);
    take_value(alloc, ty, filled, source.content, &mut fill)?;
    let heap = number(&reading.now.heap, filled.field);
    let mask = number(&reading.now.mask, filled.field);
    let index = Index::Reference(filled.receiver);
    set_value(alloc, mask, heap, index, filled.value, &mut fill)?;
    let scale = source.scale;
    add_to(alloc, mask, index, scale, filled.amount, &mut fill)?;
    add(&mut fill, assume_amount(alloc, mask, index, BOp::Le, 1)?)?;
    Ok(fill)
}

/// An instance by a positive amount.
fn fill_instance(
    alloc: Global,
    predicate: u32,
    index: Index,
    amount: Atom,
    source: Source,
    reading: Reading,
) -> Result<Vec<BStmt>, Memory>
    ensures { IfOk result (λ xs. stmts_of xs.items ≡ code.fill_instance_code (place_in reading.entry) (atom_of source.scale)
        predicate (index_in index.entry) (atom_of amount) source.content) }
{
    let mut fill = Vec::new(alloc);
    let amounts = number(&reading.now.amount, predicate);
    let contents = number(&reading.now.content, predicate);
    set_value(alloc, amounts, contents, index, source.content, &mut fill)?;
    add_to(alloc, amounts, index, source.scale, amount, &mut fill)?;
    Ok(fill)
}

// ---- by any amount

/// An amount is not negative. A literal that is not negative is not asked.
pub fn check_nonnegative(
    alloc: Global,
    label: Label,
    amount: Atom,
    block: &mut Vec<BStmt>,
) -> Result<(), Memory>
    ensures { OnOk result (stmts_of block.new.items ≡ join (stmts_of block.old.items)
        (piece.check_nonnegative label (atom_of amount))) }
{
    if amount.is_amount() {
        return Ok(());
    }
    let nonnegative = binary(alloc, BOp::Ge, amount.expr(), BExpr::Real(0))?;
    add_assert(block, label, nonnegative)
}

/// The one block where an amount is positive, and else the other.
pub fn if_positive(
    alloc: Global,
    amount: Atom,
    so: Vec<BStmt>,
    otherwise: Vec<BStmt>,
    block: &mut Vec<BStmt>,
) -> Result<(), Memory>
    ensures { OnOk result (stmts_of block.new.items ≡ join (stmts_of block.old.items)
        (piece.if_positive (atom_of amount) (stmts_of so.items) (stmts_of otherwise.items))) }
{
    if amount.is_one() {
        return add_all(block, so);
    }
    let positive = binary(alloc, BOp::Gt, amount.expr(), BExpr::Real(0))?;
    add(block, BStmt::If(positive, so, otherwise))
}

/// Nothing is filled by an amount of none, and from Unit alone.
fn fill_by(
    alloc: Global,
    label: Label,
    amount: Atom,
    content: usize,
    fill: Vec<BStmt>,
    block: &mut Vec<BStmt>,
) -> Result<(), Memory>
    ensures { OnOk result (stmts_of block.new.items ≡ join (stmts_of block.old.items)
        (code.filled_by label (atom_of amount) content (stmts_of fill.items))) }
{
    check_nonnegative(alloc, label, amount, block)?;
    let nothing = vec![in alloc; assume_unit(alloc, content)?]?;
    if_positive(alloc, amount, fill, nothing, block)
}

/// An accessibility predicate of a place.
pub(crate) fn fill_access(
    alloc: Global,
    field: PlacedNumber,
    receiver: Operand,
    amount: Operand,
    source: Source,
    reading: Reading,
    out: &mut Emit,
) -> Result<(), Memory>
    ensures { OnOk result (Emits (code.acc_code (kinds_of reading.entry.kinds) (place_in reading.entry) reading.entry.guard
        (atom_of source.scale) field.number field.at source.content (seen receiver) (seen amount) (length (emit_of out.old).locals))
        (emit_of out.old) (emit_of out.new) tt) }
{
    let receiver = atomic(alloc, receiver, out)?;
    let amount = atomic(alloc, amount, out)?;
    let value = out.fresh_scalar(alloc, base_for(reading.kinds.field(field.number)))?;
    let filled = FilledPlace {
        field: field.number,
        receiver: receiver.atom,
        amount: amount.atom,
        value,
    };
    let mut block = receiver.sets;
    add_all(&mut block, amount.sets)?;
    let fill = fill_place(alloc, filled, source, reading)?;
    let label = reading.label(field.at, Kind::Negative);
    fill_by(
        alloc,
        label,
        filled.amount,
        source.content,
        fill,
        &mut block,
    )?;
    out.put(alloc, reading.guard, block)
}

/// An instance of a predicate.
pub(crate) fn fill_part(
    alloc: Global,
    predicate: PlacedNumber,
    args: Vec<Operand>,
    amount: Operand,
    source: Source,
    reading: Reading,
    out: &mut Emit,
) -> Result<(), Memory>
    ensures { OnOk result (Emits (code.instance_code (place_in reading.entry) reading.entry.guard (atom_of source.scale)
        predicate.number predicate.at source.content (all_seen args.items) (seen amount) (length (emit_of out.old).locals))
        (emit_of out.old) (emit_of out.new) tt) }
{
    let args = in_locals(alloc, args, out)?;
    let amount = atomic(alloc, amount, out)?;
    let atom = amount.atom;
    let mut block = args.sets;
    add_all(&mut block, amount.sets)?;
    let index = Index::Instance(&args.locals);
    let fill = fill_instance(alloc, predicate.number, index, atom, source, reading)?;
    let label = reading.label(predicate.at, Kind::Negative);
    fill_by(alloc, label, atom, source.content, fill, &mut block)?;
    out.put(alloc, reading.guard, block)
}

// ---- without an amount

/// The content is Unit, and the expression is true.
pub(crate) fn fill_fact(
    alloc: Global,
    fact: Operand,
    source: Source,
    reading: Reading,
    out: &mut Emit,
) -> Result<(), Memory>
    ensures { OnOk result (Emits (puts reading.entry.guard (s.first (s.Assume (code.is_unit source.content))
        (piece.one (s.Assume (expr_of fact.expr.value)))) (length (emit_of out.old).locals)) (emit_of out.old) (emit_of out.new) tt) }
{
    let unit = assume_unit(alloc, source.content)?;
    let mut block = vec![in alloc; unit]?;
    add(&mut block, BStmt::Assume(Box::into_inner(fact.expr)))?;
    out.put(alloc, reading.guard, block)
}

/// Where the part does not count the content is Unit.
pub(crate) fn fill_nothing(
    alloc: Global,
    source: Source,
    reading: Reading,
    out: &mut Emit,
) -> Result<(), Memory>
    ensures { OnOk result (Emits (puts reading.entry.guard (piece.one (s.Assume (code.is_unit source.content)))
        (length (emit_of out.old).locals)) (emit_of out.old) (emit_of out.new) tt) }
{
    let unit = assume_unit(alloc, source.content)?;
    let block = vec![in alloc; unit]?;
    out.put(alloc, reading.guard, block)
}

/// The content is a pair, whose parts two new locals get.
pub(crate) fn split(
    alloc: Global,
    source: Source,
    reading: Reading,
    out: &mut Emit,
) -> Result<(Source, Source), Memory>
    ensures parts { IfOk result (λ r. Splits reading.entry.guard source.content r.0.content r.1.content
        (emit_of out.old) (emit_of out.new)) }
    ensures scales { IfOk result (λ r. (r.0.scale ≡ source.scale) × (r.1.scale ≡ source.scale)) }
{
    let left = out.fresh_scalar(alloc, BBase::Snap)?;
    let right = out.fresh_scalar(alloc, BBase::Snap)?;
    take_apart(alloc, source.content, left, right, reading, out)?;
    let scale = source.scale;
    let first = Source {
        content: left,
        scale,
    };
    let second = Source {
        content: right,
        scale,
    };
    Ok((first, second))
}

fn take_apart(
    alloc: Global,
    content: usize,
    left: usize,
    right: usize,
    reading: Reading,
    out: &mut Emit,
) -> Result<(), Memory>
    ensures { OnOk result (Emits (puts reading.entry.guard (code.pair_code content left right)
        (length (emit_of out.old).locals)) (emit_of out.old) (emit_of out.new) tt) }
{
    let (first, second) = boxed_pair(alloc, BExpr::Var(left), BExpr::Var(right))?;
    let pair = assume_content(alloc, content, BExpr::Pair(first, second))?;
    let mut block = vec![in alloc; BStmt::Havoc(left), BStmt::Havoc(right)]?;
    add(&mut block, pair)?;
    out.put(alloc, reading.guard, block)
}
