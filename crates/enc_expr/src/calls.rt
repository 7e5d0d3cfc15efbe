// The call for an expression that always counts.
ghost use Rattle.std.specs.Prelude.{IfOk};
ghost use Rattle.viper_core.specs.View as viper;
ghost use Rattle.boogie_tree.specs.Whole.{expr_of};
ghost use Rattle.enc_expr.specs.Emits.{emit_of};
ghost use Rattle.enc_expr.specs.Checked.{Checks};
ghost use Rattle.enc_expr.specs.Place.{place_of};
ghost use Rattle.enc_expr.specs.ReadOff.{kinds_at, types_in};

use crate::codes::check;
use crate::emits::Emit;
use crate::own_kinds::OwnKinds;
use crate::places::Place;
use crate::readings::{Kinds, Reading};
use boogie_tree::BExpr;
use std::alloc::Global;
use vb_base::Memory;
use viper_core::Expr;

/// Writes the checks of an expression, which is read at a place, and answers the expression of Boogie that has its value. The types
/// of variables, fields and predicates are read off the locals that the place names.
/// `Memory` where there is no memory.
pub fn checked(alloc: Global, e: &Expr, place: &Place, out: &mut Emit) -> Result<BExpr, Memory>
    ensures { IfOk result (λ x. Checks (kinds_at (place_of place.entry.now) (types_in (emit_of out.old))) (place_of place.entry.now)
        (viper.expr_of e.now) (emit_of out.old) (emit_of out.new) (expr_of x)) }
{
    let own = OwnKinds::of(alloc, place, out)?;
    let operand = check(alloc, e, Reading::of(Kinds::of(&own), place), out)?;
    Ok(Box::into_inner(operand.expr))
}
