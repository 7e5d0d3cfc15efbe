// Masks and amounts of their own, and whole states, as copies.
ghost use Rattle.std.specs.Prelude.{◌≡◌, length, IfOk};
ghost use Rattle.boogie_tree.specs.Whole.{stmts_of};
ghost use Rattle.enc_expr.specs.Code.{declares_all};
ghost use Rattle.enc_expr.specs.Emits.{emit_of, Emits};
ghost use Rattle.enc_expr.specs.Place.{maps_of};
ghost use Rattle.enc_fold.specs.Saved as code;

use boogie_tree::{BBase, BStmt};
use enc_expr::{Emit, Maps, copies, copy_state, fresh_indexed, fresh_masks, fresh_state};
use std::alloc::Global;
use vb_base::Memory;
use vb_value::Layout;

/// The same numbers again.
fn same_locals(alloc: Global, locals: &[usize]) -> Result<Vec<usize>, Memory>
    ensures { IfOk result (λ ns. ns.items ≡ locals.now) }
{
    let mut copy = Vec::new(alloc);
    copy.extend_from_slice(locals)?;
    Ok(copy)
}

/// New masks and amounts, beside the heaps and contents of a state.
fn fresh_held(alloc: Global, layout: &Layout, now: &Maps, out: &mut Emit) -> Result<Maps, Memory>
    ensures { IfOk result (λ m. (maps_of m ≡ code.held_from layout.now (maps_of now.now) (length (emit_of out.old).locals))
        × Emits (declares_all (code.held_types layout.now) (length (emit_of out.old).locals)) (emit_of out.old) (emit_of out.new)
        (length (emit_of out.old).locals)) }
{
    let mask = fresh_masks(alloc, &layout.fields, out)?;
    let amount = fresh_indexed(alloc, &layout.keys, BBase::Real, out)?;
    let heap = same_locals(alloc, &now.heap)?;
    let content = same_locals(alloc, &now.content)?;
    Ok(Maps {
        heap,
        mask,
        amount,
        content,
    })
}

/// The statements that copy masks and amounts.
pub fn copy_held(alloc: Global, own: &Maps, from: &Maps) -> Result<Vec<BStmt>, Memory>
    ensures { IfOk result (λ xs. stmts_of xs.items ≡ code.copy_held (maps_of own.now) (maps_of from.now)) }
{
    let mut block = Vec::new(alloc);
    copies(&own.mask, &from.mask, &mut block)?;
    copies(&own.amount, &from.amount, &mut block)?;
    Ok(block)
}

/// New masks and amounts get what those of a state hold, whose heaps and contents stay where they are.
pub fn save(alloc: Global, layout: &Layout, now: &Maps, out: &mut Emit) -> Result<Maps, Memory>
    ensures { IfOk result (λ m. Emits (code.saving layout.now (maps_of now.now) (length (emit_of out.old).locals))
        (emit_of out.old) (emit_of out.new) (maps_of m)) }
{
    let own = fresh_held(alloc, layout, now, out)?;
    let block = copy_held(alloc, &own, now)?;
    out.put(alloc, None, block)?;
    Ok(own)
}

/// A new state gets what another one holds.
pub fn copy(alloc: Global, layout: &Layout, now: &Maps, out: &mut Emit) -> Result<Maps, Memory>
    ensures { IfOk result (λ m. Emits (code.copying layout.now (maps_of now.now) (length (emit_of out.old).locals))
        (emit_of out.old) (emit_of out.new) (maps_of m)) }
{
    let own = fresh_state(alloc, layout, out)?;
    let block = copy_state(alloc, &own, now)?;
    out.put(alloc, None, block)?;
    Ok(own)
}
