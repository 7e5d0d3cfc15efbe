// What is written so far, and what each call adds to it.
ghost use Rattle.std.specs.Prelude.{◌≡◌, ◌++◌, length, codes, IfOk, OnOk};
ghost use Rattle.std.specs.Fmt.{decimal};
ghost use Rattle.boogie_tree.specs.Values.{plain_type};
ghost use Rattle.boogie_tree.specs.Whole.{type_of, expr_of, stmts_of};
ghost use Rattle.boogie_tree.specs.Expr as t;
ghost use Rattle.boogie_tree.specs.declared.exprs.BOp.TheVariants as op;
ghost use Rattle.enc_expr.specs.Code.{declares, puts, guards, under};
ghost use Rattle.enc_expr.specs.Emits.{emit_of, Emits};

use crate::blocks::{add, add_all};
use crate::terms::binary;
use boogie_tree::{BBase, BExpr, BOp, BStmt, BType, Local};
use digits::Digits;
use std::alloc::Global;
use vb_base::{Ident, Memory};

/// What is written: the locals of a procedure so far, and statements.
#[derive(Drop)]
pub struct Emit {
    pub locals: Vec<Local>,
    pub code: Vec<BStmt>,
}

impl Emit {
    /// A new local of a type: its number.
    pub fn fresh(&mut self, alloc: Global, ty: BType) -> Result<usize, Memory>
        ensures { IfOk result (λ i. Emits (declares (type_of ty) (length (emit_of self.old).locals))
            (emit_of self.old) (emit_of self.new) i) }
    {
        let number = self.locals.as_slice().len();
        let name = temporary_name(alloc, number)?;
        add(&mut self.locals, Local { name, ty })?;
        Ok(number)
    }

    /// A new local that is no map.
    pub fn fresh_scalar(&mut self, alloc: Global, base: BBase) -> Result<usize, Memory>
        ensures { IfOk result (λ i. Emits (declares (plain_type base) (length (emit_of self.old).locals))
            (emit_of self.old) (emit_of self.new) i) }
    {
        let keys = Vec::new(alloc);
        self.fresh(alloc, BType { keys, base })
    }

    /// Statements that count only under a guard. Nothing is written for none.
    pub fn put(
        &mut self,
        alloc: Global,
        guard: Option<usize>,
        block: Vec<BStmt>,
    ) -> Result<(), Memory>
        ensures { OnOk result (Emits (puts guard (stmts_of block.items) (length (emit_of self.old).locals))
            (emit_of self.old) (emit_of self.new) tt) }
    {
        match guard {
            None => add_all(&mut self.code, block),
            Some(guard) => {
                if block.as_slice().is_empty() {
                    return Ok(());
                }
                let nothing = Vec::new(alloc);
                add(&mut self.code, BStmt::If(BExpr::Var(guard), block, nothing))
            }
        }
    }

    /// A new guard, which is true where this one is and the condition holds.
    pub fn guard(
        &mut self,
        alloc: Global,
        guard: Option<usize>,
        condition: BExpr,
    ) -> Result<usize, Memory>
        ensures { IfOk result (λ h. Emits (guards guard (expr_of condition) (length (emit_of self.old).locals))
            (emit_of self.old) (emit_of self.new) h) }
    {
        let value = under(alloc, guard, condition)?;
        let new = self.fresh_scalar(alloc, BBase::Bool)?;
        add(&mut self.code, BStmt::Assign(new, value))?;
        Ok(new)
    }
}

/// A condition that is looked at only under a guard, and does not hold elsewhere.
fn under(alloc: Global, guard: Option<usize>, condition: BExpr) -> Result<BExpr, Memory>
    ensures { IfOk result (λ x. expr_of x ≡ under guard (expr_of condition)) }
{
    match guard {
        None => Ok(condition),
        Some(guard) => binary(alloc, BOp::And, BExpr::Var(guard), condition),
    }
}

/// The name of a temporary, which is made from its number.
fn temporary_name(alloc: Global, number: usize) -> Result<Ident, Memory>
    ensures { IfOk result (λ name. name ≡ codes "t$" ++ decimal number) }
{
    Ident::joined(alloc, b"t$", Digits::of(number as u64).bytes())
}
