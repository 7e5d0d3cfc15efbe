// Copies of expressions.
ghost use Rattle.std.specs.Prelude.{◌≡◌, IfOk};
ghost use Rattle.boogie_tree.specs.Whole.{expr_of, exprs_of};

use crate::blocks::add;
use boogie_tree::{BBase, BExpr};
use std::alloc::Global;
use vb_base::{Memory, boxed};

/// The same expression again.
#[cycle(copying)]
pub fn copied(alloc: Global, e: &BExpr) -> Result<Box<BExpr>, Memory>
    ensures { IfOk result (λ x. expr_of x.value ≡ expr_of e.now) }
{
    match e {
        BExpr::Var(i) => boxed(alloc, BExpr::Var(*i)),
        BExpr::Int(n) => boxed(alloc, BExpr::Int(*n)),
        BExpr::Real(n) => boxed(alloc, BExpr::Real(*n)),
        BExpr::Bool(b) => boxed(alloc, BExpr::Bool(*b)),
        BExpr::Null => boxed(alloc, BExpr::Null),
        BExpr::Unit => boxed(alloc, BExpr::Unit),
        BExpr::Neg(a) => boxed(alloc, BExpr::Neg(copied(alloc, a)?)),
        BExpr::Not(a) => boxed(alloc, BExpr::Not(copied(alloc, a)?)),
        BExpr::Bin(op, a, b) => {
            let left = copied(alloc, a)?;
            boxed(alloc, BExpr::Bin(*op, left, copied(alloc, b)?))
        }
        BExpr::If(c, a, b) => {
            let condition = copied(alloc, c)?;
            let left = copied(alloc, a)?;
            boxed(alloc, BExpr::If(condition, left, copied(alloc, b)?))
        }
        BExpr::Forall(us, a) => {
            let bound = bases(alloc, us)?;
            boxed(alloc, BExpr::Forall(bound, copied(alloc, a)?))
        }
        BExpr::ToReal(a) => boxed(alloc, BExpr::ToReal(copied(alloc, a)?)),
        BExpr::SInt(a) => boxed(alloc, BExpr::SInt(copied(alloc, a)?)),
        BExpr::SBool(a) => boxed(alloc, BExpr::SBool(copied(alloc, a)?)),
        BExpr::SRef(a) => boxed(alloc, BExpr::SRef(copied(alloc, a)?)),
        BExpr::SPerm(a) => boxed(alloc, BExpr::SPerm(copied(alloc, a)?)),
        BExpr::Pair(a, b) => {
            let left = copied(alloc, a)?;
            boxed(alloc, BExpr::Pair(left, copied(alloc, b)?))
        }
        BExpr::At(map, index) => boxed(alloc, BExpr::At(*map, all_copied(alloc, index)?)),
        BExpr::AtBound(map) => boxed(alloc, BExpr::AtBound(*map)),
    }
}

#[cycle(copying)]
fn all_copied(alloc: Global, es: &[BExpr]) -> Result<Vec<BExpr>, Memory>
    ensures { IfOk result (λ xs. exprs_of xs.items ≡ exprs_of es.now) }
{
    let mut copies = Vec::with_capacity(alloc, es.len())?;
    for e in es {
        add(&mut copies, Box::into_inner(copied(alloc, e)?))?;
    }
    Ok(copies)
}

fn bases(alloc: Global, types: &[BBase]) -> Result<Vec<BBase>, Memory>
    ensures { IfOk result (λ us. us.items ≡ types.now) }
{
    let mut copy = Vec::new(alloc);
    copy.extend_from_slice(types)?;
    Ok(copy)
}
