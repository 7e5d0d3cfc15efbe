// Amounts that are positive.
ghost use Rattle.std.specs.Prelude.{◌≡◌, IfOk, OnOk};
ghost use Rattle.boogie_tree.specs.Whole.{expr_of, stmts_of};
ghost use Rattle.enc_expr.specs.Code.{join};
ghost use Rattle.enc_expr.specs.View.{atom_of};
ghost use Rattle.enc_assert.specs.Encoding as code;

use boogie_tree::{BExpr, BOp, BStmt};
use enc_expr::{Atom, add, binary};
use std::alloc::Global;
use vb_base::Memory;

/// What holds wherever an amount is positive. The literal 1 is not asked.
pub(crate) fn where_positive(alloc: Global, amount: Atom, condition: BExpr) -> Result<BExpr, Memory>
    ensures { IfOk result (λ x. expr_of x ≡ code.where_positive (atom_of amount) (expr_of condition)) }
{
    if amount.is_one() {
        return Ok(condition);
    }
    let positive = binary(alloc, BOp::Gt, amount.expr(), BExpr::Real(0))?;
    binary(alloc, BOp::Implies, positive, condition)
}

/// An amount is chosen, which is positive.
pub(crate) fn some_amount(
    alloc: Global,
    amount: usize,
    block: &mut Vec<BStmt>,
) -> Result<(), Memory>
    ensures { OnOk result (stmts_of block.new.items ≡ join (stmts_of block.old.items) (code.some_amount amount)) }
{
    let positive = binary(alloc, BOp::Gt, BExpr::Var(amount), BExpr::Real(0))?;
    add(block, BStmt::Havoc(amount))?;
    add(block, BStmt::Assume(positive))
}
