// The code by which variables and states take any values.
ghost use Rattle.std.specs.Prelude.{◌≡◌, length, None, IfOk, OnOk};
ghost use Rattle.boogie_tree.specs.Whole.{stmts_of};
ghost use Rattle.enc_expr.specs.Code.{puts};
ghost use Rattle.enc_expr.specs.Emits.{emit_of, Emits};
ghost use Rattle.enc_block.specs.Encoding as code;
ghost use Rattle.enc_block.specs.View.{home_of};

use crate::homes::Home;
use boogie_tree::{BExpr, BStmt};
use enc_assert::forget;
use enc_expr::{Emit, add, copy_state, number};
use enc_fold::copy_held;
use std::alloc::Global;
use vb_base::Memory;
use vb_value::Layout;

/// The statements by which variables take any values.
fn havoc_each(alloc: Global, home: &Home, targets: &[u32]) -> Result<Vec<BStmt>, Memory>
    ensures { IfOk result (λ xs. stmts_of xs.items ≡ code.havoc_code (home_of home.entry.now) targets.now) }
{
    let mut block = Vec::with_capacity(alloc, targets.len())?;
    for target in targets {
        let local = number(&home.vars, *target);
        add(&mut block, BStmt::Havoc(local))?;
    }
    Ok(block)
}

/// Writes the code by which variables take any values.
pub fn havoc(alloc: Global, home: &Home, targets: &[u32], out: &mut Emit) -> Result<(), Memory>
    ensures { OnOk result (Emits (puts None (code.havoc_code (home_of home.entry.now) targets.now) (length (emit_of out.old).locals))
        (emit_of out.old) (emit_of out.new) tt) }
{
    let block = havoc_each(alloc, home, targets)?;
    out.put(alloc, None, block)
}

/// Writes the code of any state in which nothing is held.
pub fn any_state(alloc: Global, layout: &Layout, home: &Home, out: &mut Emit) -> Result<(), Memory>
    ensures { OnOk result (Emits (code.any_state_code layout.now (home_of home.entry.now) (length (emit_of out.old).locals))
        (emit_of out.old) (emit_of out.new) tt) }
{
    let emptied = copy_held(alloc, &home.now, &home.nothing)?;
    out.put(alloc, None, emptied)?;
    forget(alloc, layout, &home.now, out)
}

/// Writes the code by which the present state becomes the old one.
pub fn keep_old(alloc: Global, home: &Home, out: &mut Emit) -> Result<(), Memory>
    ensures { OnOk result (Emits (puts None (code.keep_old (home_of home.entry.now)) (length (emit_of out.old).locals))
        (emit_of out.old) (emit_of out.new) tt) }
{
    let kept = copy_state(alloc, &home.old, &home.now)?;
    out.put(alloc, None, kept)
}

/// Writes that no run continues from here.
pub fn stop(alloc: Global, out: &mut Emit) -> Result<(), Memory>
    ensures { OnOk result (Emits (code.stop (length (emit_of out.old).locals)) (emit_of out.old) (emit_of out.new) tt) }
{
    let block = vec![in alloc; BStmt::Assume(BExpr::Bool(false))]?;
    out.put(alloc, None, block)
}
