// The code of forgetting.
ghost use Rattle.std.specs.Prelude.{◌≡◌, length, map, IfOk, OnOk};
ghost use Rattle.boogie_tree.specs.Whole.{type_of, stmt_of};
ghost use Rattle.boogie_meaning.specs.Patterns as pattern;
ghost use Rattle.enc_expr.specs.Emits.{emit_of, Emits};
ghost use Rattle.enc_expr.specs.Place.{maps_of};
ghost use Rattle.enc_assert.specs.Encoding as code;

use boogie_tree::{BBase, BExpr, BOp, BStmt, BType};
use enc_expr::{Emit, Maps, add, binary, heap_of, indexed_map_of, local_at};
use std::alloc::Global;
use vb_base::{Memory, boxed};
use vb_value::{Layout, Ty};

// ---- a map

/// The same types again.
fn copied(alloc: Global, keys: &[BBase]) -> Result<Vec<BBase>, Memory>
    ensures { IfOk result (λ us. us.items ≡ keys.now) }
{
    let mut copy = Vec::new(alloc);
    copy.extend_from_slice(keys)?;
    Ok(copy)
}

/// Where some is held the two maps agree.
fn assume_kept(
    alloc: Global,
    keys: Vec<BBase>,
    held: usize,
    map: usize,
    fresh: usize,
) -> Result<BStmt, Memory>
    ensures { IfOk result (λ x. stmt_of x ≡ pattern.assume_all keys.items (pattern.is_kept held map fresh)) }
{
    let some = binary(alloc, BOp::Ne, BExpr::AtBound(held), BExpr::Real(0))?;
    let same = binary(alloc, BOp::Eq, BExpr::AtBound(map), BExpr::AtBound(fresh))?;
    let kept = binary(alloc, BOp::Implies, some, same)?;
    Ok(BStmt::Assume(BExpr::Forall(keys, boxed(alloc, kept)?)))
}

/// A map of this type gets any values where nothing is held.
fn forget_map(
    alloc: Global,
    ty: BType,
    held: usize,
    map: usize,
    out: &mut Emit,
) -> Result<(), Memory>
    ensures { OnOk result (Emits (code.forget_map (type_of ty) held map (length (emit_of out.old).locals))
        (emit_of out.old) (emit_of out.new) tt) }
{
    let keys = copied(alloc, &ty.keys)?;
    let fresh = out.fresh(alloc, ty)?;
    let kept = assume_kept(alloc, keys, held, map, fresh)?;
    add(&mut out.code, BStmt::Havoc(fresh))?;
    add(&mut out.code, kept)?;
    add(&mut out.code, BStmt::Assign(map, BExpr::Var(fresh)))
}

// ---- all maps

/// The heap of each field.
fn forget_heaps(alloc: Global, now: &Maps, fields: &[Ty], out: &mut Emit) -> Result<(), Memory>
    ensures { OnOk result (Emits (code.forget_heaps (maps_of now.now) fields.now 0 (length (emit_of out.old).locals))
        (emit_of out.old) (emit_of out.new) tt) }
{
    for (i, ty) in fields.iter().enumerate() {
        let heap = heap_of(alloc, ty)?;
        let held = local_at(&now.mask, i);
        forget_map(alloc, heap, held, local_at(&now.heap, i), out)?;
    }
    Ok(())
}

/// The contents of each predicate.
fn forget_contents(
    alloc: Global,
    now: &Maps,
    keys: &[Vec<Ty>],
    out: &mut Emit,
) -> Result<(), Memory>
    ensures { OnOk result (Emits (code.forget_contents (maps_of now.now) (map (λ us. us.items) keys.now) 0
        (length (emit_of out.old).locals)) (emit_of out.old) (emit_of out.new) tt) }
{
    for (i, params) in keys.iter().enumerate() {
        let contents = indexed_map_of(alloc, params, BBase::Snap)?;
        let held = local_at(&now.amount, i);
        forget_map(alloc, contents, held, local_at(&now.content, i), out)?;
    }
    Ok(())
}

/// Writes the code that gives any values to heaps and contents where nothing is held.
pub fn forget(alloc: Global, layout: &Layout, now: &Maps, out: &mut Emit) -> Result<(), Memory>
    ensures { OnOk result (Emits (code.forget_code layout.now (maps_of now.now) (length (emit_of out.old).locals))
        (emit_of out.old) (emit_of out.new) tt) }
{
    forget_heaps(alloc, now, &layout.fields, out)?;
    forget_contents(alloc, now, &layout.keys, out)
}
