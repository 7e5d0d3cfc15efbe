// How an instance is opened: state of its own, and what is taken from it.
ghost use Rattle.std.specs.Prelude.{◌≡◌, [], ◌∷◌, length, map, IfOk, OnOk};
ghost use Rattle.boogie_tree.specs.Whole.{type_of, stmts_of};
ghost use Rattle.boogie_tree.specs.declared.exprs.BBase.TheVariants as base;
ghost use Rattle.enc_expr.specs.Code.{declares_all, join, puts};
ghost use Rattle.enc_expr.specs.Emits.{emit_of, Emits, Declares};
ghost use Rattle.enc_expr.specs.Encoding as code;
ghost use Rattle.enc_expr.specs.Pieces as piece;
ghost use Rattle.enc_expr.specs.Place.{maps_of};
ghost use Rattle.enc_expr.specs.View.{atom_of, index_in, place_in};
ghost use Rattle.moves.specs.Maps.{heap_type, index_types, indexed_type, mask_type, state_types};

use crate::blocks::{add, add_all};
use crate::emits::Emit;
use crate::operands::Atom;
use crate::places::Maps;
use crate::readings::{Reading, base_for, local_at, number};
use crate::terms::{Index, at, binary};
use boogie_tree::{BBase, BExpr, BOp, BStmt, BType};
use enc_asserts::add_assert;
use std::alloc::Global;
use vb_base::{Kind, Label, Memory, Pos};
use vb_value::{Layout, Ty};

// ---- maps of a state of its own

/// The type of a heap or mask whose values have this base type.
fn map_of(alloc: Global, values: BBase) -> Result<BType, Memory>
    ensures { IfOk result (λ u. type_of u ≡ record { keys = base.Ref ∷ []; base = values }) }
{
    let keys = vec![in alloc; BBase::Ref]?;
    Ok(BType { keys, base: values })
}

/// The type of the heap of a field.
pub fn heap_of(alloc: Global, ty: &Ty) -> Result<BType, Memory>
    ensures { IfOk result (λ u. type_of u ≡ heap_type ty.now) }
{
    map_of(alloc, base_for(*ty))
}

/// The type of the amounts or contents of a predicate: its instances have 0 as index where it has no parameters.
pub fn indexed_map_of(alloc: Global, params: &[Ty], base: BBase) -> Result<BType, Memory>
    ensures { IfOk result (λ u. type_of u ≡ record { keys = index_types params.now; base = base }) }
{
    if params.is_empty() {
        let keys = vec![in alloc; BBase::Int]?;
        return Ok(BType { keys, base });
    }
    let mut keys = Vec::with_capacity(alloc, params.len())?;
    for ty in params {
        keys.push(base_for(*ty))?;
    }
    Ok(BType { keys, base })
}

fn fresh_heaps(alloc: Global, fields: &[Ty], out: &mut Emit) -> Result<Vec<usize>, Memory>
    ensures { IfOk result (λ ns. Declares (map heap_type fields.now) (emit_of out.old) (emit_of out.new) ns.items) }
{
    let mut heaps = Vec::with_capacity(alloc, fields.len())?;
    for ty in fields {
        let heap = heap_of(alloc, ty)?;
        heaps.push(out.fresh(alloc, heap)?)?;
    }
    Ok(heaps)
}

/// For each field a new mask.
pub fn fresh_masks(alloc: Global, fields: &[Ty], out: &mut Emit) -> Result<Vec<usize>, Memory>
    ensures { IfOk result (λ ns. Declares (map mask_type fields.now) (emit_of out.old) (emit_of out.new) ns.items) }
{
    let mut masks = Vec::with_capacity(alloc, fields.len())?;
    for _ in fields {
        let mask = map_of(alloc, BBase::Real)?;
        masks.push(out.fresh(alloc, mask)?)?;
    }
    Ok(masks)
}

/// For each predicate a new map of its instances, with values of this base type.
pub fn fresh_indexed(
    alloc: Global,
    keys: &[Vec<Ty>],
    base: BBase,
    out: &mut Emit,
) -> Result<Vec<usize>, Memory>
    ensures { IfOk result (λ ns. Declares (map (λ us. indexed_type base us.items) keys.now) (emit_of out.old) (emit_of out.new) ns.items) }
{
    let mut maps = Vec::with_capacity(alloc, keys.len())?;
    for params in keys {
        let map = indexed_map_of(alloc, params, base)?;
        maps.push(out.fresh(alloc, map)?)?;
    }
    Ok(maps)
}

/// New maps of a whole state.
pub fn fresh_state(alloc: Global, layout: &Layout, out: &mut Emit) -> Result<Maps, Memory>
    ensures { IfOk result (λ m. (maps_of m ≡ code.maps_from layout.now (length (emit_of out.old).locals))
        × Emits (declares_all (state_types layout.now) (length (emit_of out.old).locals)) (emit_of out.old) (emit_of out.new)
        (length (emit_of out.old).locals)) }
{
    let heap = fresh_heaps(alloc, &layout.fields, out)?;
    let mask = fresh_masks(alloc, &layout.fields, out)?;
    let amount = fresh_indexed(alloc, &layout.keys, BBase::Real, out)?;
    let content = fresh_indexed(alloc, &layout.keys, BBase::Snap, out)?;
    Ok(Maps {
        heap,
        mask,
        amount,
        content,
    })
}

/// The first locals get the values of the second.
pub fn copies(own: &[usize], from: &[usize], block: &mut Vec<BStmt>) -> Result<(), Memory>
    ensures { OnOk result (stmts_of block.new.items ≡ join (stmts_of block.old.items) (code.copies own.now from.now 0)) }
{
    for (i, local) in own.iter().enumerate() {
        let source = local_at(from, i);
        add(block, BStmt::Assign(*local, BExpr::Var(source)))?;
    }
    Ok(())
}

/// The statements that copy a state.
pub fn copy_state(alloc: Global, own: &Maps, from: &Maps) -> Result<Vec<BStmt>, Memory>
    ensures { IfOk result (λ xs. stmts_of xs.items ≡ code.copy_state (maps_of own.now) (maps_of from.now)) }
{
    let mut block = Vec::new(alloc);
    copies(&own.heap, &from.heap, &mut block)?;
    copies(&own.mask, &from.mask, &mut block)?;
    copies(&own.amount, &from.amount, &mut block)?;
    copies(&own.content, &from.content, &mut block)?;
    Ok(block)
}

// ---- taking an amount of an instance

/// An amount of some instance of a predicate.
#[derive(Clone, Copy)]
pub struct InstanceAmount<'a> {
    pub predicate: u32,
    /// The locals of its arguments.
    pub args: &'a [usize],
    pub amount: Atom,
    /// The place of the predicate's name.
    pub at: Pos,
}

/// An amount is positive. The literal 1 is not asked.
pub fn check_positive(
    alloc: Global,
    label: Label,
    amount: Atom,
    block: &mut Vec<BStmt>,
) -> Result<(), Memory>
    ensures { OnOk result (stmts_of block.new.items ≡ join (stmts_of block.old.items)
        (piece.check_positive label (atom_of amount))) }
{
    if amount.is_one() {
        return Ok(());
    }
    let positive = binary(alloc, BOp::Gt, amount.expr(), BExpr::Real(0))?;
    add_assert(block, label, positive)
}

/// So much is held.
fn check_held(
    alloc: Global,
    label: Label,
    amounts: usize,
    index: Index,
    amount: Atom,
    block: &mut Vec<BStmt>,
) -> Result<(), Memory>
    ensures { OnOk result (stmts_of block.new.items ≡ join (stmts_of block.old.items)
        (code.held_check label amounts (index_in index.entry) (atom_of amount))) }
{
    let held = at(alloc, amounts, index)?;
    let enough = binary(alloc, BOp::Ge, held, amount.expr())?;
    add_assert(block, label, enough)
}

/// So much less is held.
fn take_amount(
    alloc: Global,
    amounts: usize,
    index: Index,
    amount: Atom,
    block: &mut Vec<BStmt>,
) -> Result<(), Memory>
    ensures { OnOk result (stmts_of block.new.items ≡ join (stmts_of block.old.items)
        (code.taken_amount amounts (index_in index.entry) (atom_of amount))) }
{
    let held = at(alloc, amounts, index)?;
    let left = binary(alloc, BOp::Sub, held, amount.expr())?;
    add(block, BStmt::Put(amounts, index.exprs(alloc)?, left))
}

/// So much of an instance is taken from maps that hold the present state, which the statements `sets` see to, and its
/// content gets into a local. It is taken out at once, since the body may write the same map.
pub fn taking(
    alloc: Global,
    part: InstanceAmount,
    maps: &Maps,
    sets: Vec<BStmt>,
    content: usize,
    reading: Reading,
    block: &mut Vec<BStmt>,
) -> Result<(), Memory>
    ensures { OnOk result (stmts_of block.new.items ≡ join (stmts_of block.old.items)
        (code.taking (place_in reading.entry) (maps_of maps.now) (stmts_of sets.items) part.entry.predicate
        (piece.index part.entry.args.now) (atom_of part.entry.amount) content part.entry.at)) }
{
    let index = Index::Instance(part.args);
    let label = reading.label(part.at, Kind::Amount);
    check_positive(alloc, label, part.amount, block)?;
    let held = number(&reading.now.amount, part.predicate);
    let label = reading.label(part.at, Kind::Perm);
    check_held(alloc, label, held, index, part.amount, block)?;
    add_all(block, sets)?;
    let amounts = number(&maps.amount, part.predicate);
    take_amount(alloc, amounts, index, part.amount, block)?;
    let taken = at(alloc, number(&maps.content, part.predicate), index)?;
    add(block, BStmt::Assign(content, taken))
}

/// The same from a copy of the present state, behind other statements.
pub(crate) fn take_copy(
    alloc: Global,
    part: InstanceAmount,
    own: &Maps,
    content: usize,
    reading: Reading,
    mut block: Vec<BStmt>,
    out: &mut Emit,
) -> Result<(), Memory>
    ensures { OnOk result (Emits (puts reading.entry.guard (join (stmts_of block.items)
        (code.taking (place_in reading.entry) (maps_of own.now) (code.copy_state (maps_of own.now) (place_in reading.entry).now)
        part.entry.predicate (piece.index part.entry.args.now) (atom_of part.entry.amount) content part.entry.at)) (length (emit_of out.old).locals))
        (emit_of out.old) (emit_of out.new) tt) }
{
    let copied = copy_state(alloc, own, reading.now)?;
    taking(alloc, part, own, copied, content, reading, &mut block)?;
    out.put(alloc, reading.guard, block)
}
