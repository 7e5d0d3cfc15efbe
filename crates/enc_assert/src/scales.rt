// A scale as an atom.
ghost use Rattle.std.specs.Prelude.{length, IfOk};
ghost use Rattle.boogie_tree.specs.Whole.{expr_of};
ghost use Rattle.enc_expr.specs.Emits.{emit_of, Emits};
ghost use Rattle.enc_expr.specs.View.{atom_of};
ghost use Rattle.enc_assert.specs.Calls.{scale_code};

use boogie_tree::{BBase, BExpr};
use enc_expr::{Atom, Emit, Operand, atomic, copied};
use std::alloc::Global;
use vb_base::Memory;

/// The scale itself where it is an atom, and else a new local, which is set to it.
pub(crate) fn scale_atom(alloc: Global, scale: &BExpr, out: &mut Emit) -> Result<Atom, Memory>
    ensures { IfOk result (λ a. Emits (scale_code (expr_of scale.now) (length (emit_of out.old).locals))
        (emit_of out.old) (emit_of out.new) (atom_of a)) }
{
    let operand = Operand {
        expr: copied(alloc, scale)?,
        base: BBase::Real,
    };
    let held = atomic(alloc, operand, out)?;
    out.put(alloc, None, held.sets)?;
    Ok(held.atom)
}
